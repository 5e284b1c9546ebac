// The runs of one job: those that start as a row has it, and again those after the runs that were given up.
ghost use Rattle.std.specs.Prelude.{◌≡◌, ◌+◌, ◌^◌, ◌<◌, ◌≤◌, MatchBool};
ghost use Rattle.rules.specs.Model.{cleans};
ghost use Rattle.search.specs.Chains.{Passes, Searched};
ghost use Rattle.search.specs.Hits.{Hit};
ghost use Rattle.search.specs.Rows.{Grew, KeepsOne};

use crate::hits::Underway;
use crate::judge::Judge;
use crate::rows::{Row, Sweep, Way, clear, keep, next_pending};
use inspections::Inspection;
use rules::Rule;

// What the runs of a job are to keep: how many quarters each is long, and the quarter that it is due at.
#[derive(Clone, Copy)]
pub(crate) struct Task {
    pub quarters: u32,
    pub due: u32,
    ghost short: { quarters < 128 },
    ghost early: { due + 129 < 2 ^ 32 },
}

impl Task {
    // Whether a run that starts then would end after the due quarter, were it clean.
    pub(crate) fn is_late_from(self, start: u32) -> bool
        ensures { MatchBool result (self.due < start + self.quarters) (start + self.quarters ≤ self.due) }
    {
        start as u64 + self.quarters as u64 > self.due as u64
    }
}

// Late or not is a plain yes or no: no value goes with it, and the rows have the rest.
impl<R: Rule, I: Inspection> Judge<'_, R, I> {
    // Whether the run that starts then in this state would end after the due quarter, were it clean. If not, `finish` gains its clean end and `next` how it is given up.
    pub(crate) fn run_from(
        &self,
        task: Task,
        start: u32,
        state: u32,
        next: &mut Row,
        finish: &mut Row,
    ) -> bool
        requires { state < (R.Rule.model self.now.clean.rule.now).size }
        ensures { let m = R.Rule.model self.now.clean.rule.now in let V = I.Inspection.verdict self.now.inspection.now in MatchBool result (task.due < start + task.quarters) ((start + task.quarters ≤ task.due) × Grew (KeepsOne (cleans m task.quarters state) (start + task.quarters)) finish.old finish.new × Grew (Hit m V task.quarters 0 task.quarters state start) next.old next.new) }
    {
        if task.is_late_from(start) {
            return true;
        }
        let end = self.clean.after_cleans(state, task.quarters);
        keep(finish, end, start + task.quarters);
        let run = Underway {
            quarters: task.quarters,
            gone: 0,
            begun: start,
        };
        self.keep_hits(run, state, next);
        false
    }

    // Whether the job can be late, whose first runs start as `starts` has it. If it cannot, `starts` gains the starts of all its runs and `finish` how it can end.
    // `done` is used for the starts that were gone through.
    pub(crate) fn runs(
        &self,
        task: Task,
        starts: &mut Row,
        done: &mut Row,
        finish: &mut Row,
    ) -> bool
        ensures { let m = R.Rule.model self.now.clean.rule.now in let V = I.Inspection.verdict self.now.inspection.now in MatchBool result (Passes m V task.quarters task.due starts.old) (Searched m V task.quarters task.due starts.old starts.new finish.old finish.new) }
    {
        clear(done);
        let states = self.clean.rule.size() as usize;
        let mut sweep = Sweep {
            state: states,
            way: Way::Down,
        };
        while let Some(next) = next_pending(starts, done, states, sweep) {
            sweep = next;
            let latest = starts[sweep.state];
            done[sweep.state] = latest;
            if self.run_from(task, latest - 1, sweep.state as u32, starts, finish) {
                return true;
            }
        }
        false
    }
}
