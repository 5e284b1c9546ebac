// The rounds of one job: the runs that start as a row has it, and again those after the runs that were given up.
ghost use Rattle.std.specs.Prelude.{◌≡◌, ◌+◌, ◌^◌, ◌<◌, ◌≤◌, MatchBool};
ghost use Rattle.search.specs.Chains.{Starts};
ghost use Rattle.search.specs.RoundChains.{Late, Searched};
ghost use Rattle.search.specs.Hits.{Hit};
ghost use Rattle.search.specs.Rounds.{LateOf, Ran};

use crate::judge::Judge;
use crate::rows::{Row, clear, is_empty};
use crate::runs::Task;
use inspections::Inspection;
use rules::Rule;

// Late or not is a plain yes or no: no value goes with it, and the rows have the rest.
impl<R: Rule, I: Inspection> Judge<'_, R, I> {
    // Whether one of the runs would end after the due quarter, were it clean. If none would, `next` gains how they are given up
    // and `finish` how they end.
    pub(crate) fn round(&self, task: Task, starts: &Row, next: &mut Row, finish: &mut Row) -> bool
        ensures { let m = R.Rule.model self.now.clean.rule.now in let V = I.Inspection.verdict self.now.inspection.now in MatchBool result (LateOf task.quarters m.size task.due starts.now) (Ran m V task.quarters task.due m.size starts.now next.old next.new finish.old finish.new) }
    {
        let live = &starts[..self.clean.rule.size() as usize];
        for (state, latest) in live.iter().enumerate() {
            if *latest > 0 && self.run_from(task, *latest - 1, state as u32, next, finish) {
                return true;
            }
        }
        false
    }

    // The rounds of one job, whose first runs start as `starts` has it: whether the job can be late. If it cannot, `finish` gains
    // how it can end. `starts` and `next` are used up.
    pub(crate) fn rounds(
        &self,
        task: Task,
        starts: &mut Row,
        next: &mut Row,
        finish: &mut Row,
    ) -> bool
        ensures { let m = R.Rule.model self.now.clean.rule.now in let V = I.Inspection.verdict self.now.inspection.now in MatchBool result (Late (Hit m V task.quarters 0 task.quarters) task.quarters task.due (Starts m starts.old)) (Searched m V task.quarters task.due starts.old finish.old finish.new) }
    {
        for _round in 0..task.due + 1 {
            if is_empty(starts) {
                return false;
            }
            clear(next);
            if self.round(task, starts, next, finish) {
                return true;
            }
            *starts = *next;
        }
        false
    }
}
