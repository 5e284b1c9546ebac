// One job's rounds.
use crate::judge::Judge;
use crate::powers::{CleanQuarters, POWERS};
use crate::rows::ROW;
use crate::runs::Task;
use inspections::AtEnd;
use rules::Count;

// At most two faults: 4 quarters from 10 on end at 14, 18 or 22, and a fault fewer is left for each run more.
#[test]
fn three_runs(rt: HostRuntime) {
    let rule = Count::new(2);
    let mut leads = [[0u32; ROW]; POWERS];
    let judge = Judge {
        clean: CleanQuarters::new(&rule, &mut leads),
        inspection: &AtEnd,
    };
    for (due, late) in [(21, true), (22, false)] {
        let mut starts = [0u32; ROW];
        let mut next = [0u32; ROW];
        let mut finish = [0u32; ROW];
        starts[2] = 11;
        let task = Task { quarters: 4, due };
        assert_eq!(rt;
            judge.rounds(task, &mut starts, &mut next, &mut finish),
            late
        );
        assert_eq!(rt; finish[2], 15);
        assert_eq!(rt; finish[1], 19);
        assert_eq!(rt; finish[0], if late { 0 } else { 23 });
    }
}
