// Boards to search, and the search over a table with old content.
use calls::{Job, Refusal};
use inspections::Inspection;
use rules::Rule;
use schedules::{Moment, Run};
use search::search;
use std::process::Abort;

// The last due quarter.
pub(crate) const LAST: u32 = 4096;

pub(crate) fn job(ticket: u32, release: u32, due: u32, length: u32) -> Job {
    Job {
        ticket,
        release,
        due,
        length,
    }
}

// The moment at which a board opens.
pub(crate) fn fresh<R: Rule>(rule: &R) -> Moment {
    Moment {
        clock: 0,
        state: rule.opening(),
        machine: None,
    }
}

// A moment in the opening state, with a run on the machine.
pub(crate) fn running<R: Rule>(
    rule: &R,
    clock: u32,
    job: Job,
    gone: u32,
    hit: Option<u32>,
) -> Moment {
    Moment {
        clock,
        state: rule.opening(),
        machine: Some(Run { job, gone, hit }),
    }
}

// Whether the table is 0 in its first 16,384 numbers and 7 behind them.
fn is_swept(table: &[u32]) -> bool {
    let mut behind = table.iter().skip(16_384);
    table.iter().take(16_384).all(|number| *number == 0) && behind.all(|number| *number == 7)
}

// The search answers so, writes just these worst finishes, and sweeps its table.
pub(crate) fn check_search<R: Rule, I: Inspection>(
    rt: &impl Abort,
    rule: &R,
    inspection: &I,
    moment: Moment,
    waiting: &[Job],
    answer: Result<(), Refusal>,
    worst: &[u32],
) {
    let mut table = [7u32; 16_386];
    let mut finishes = [9u32; 25];
    assert_eq!(rt;
        search(rule, inspection, moment, waiting, &mut finishes, &mut table),
        answer
    );
    assert!(rt; finishes.starts_with(worst));
    for finish in finishes.iter().skip(worst.len()) {
        assert_eq!(rt; *finish, 9);
    }
    assert!(rt; is_swept(&table));
}
