// Job after job.
ghost use Rattle.std.specs.Prelude.{◌≡◌, ◌<◌, ◌≤◌, length, MatchBool};
ghost use Rattle.search.specs.Jobs.{EndsJob, LateJob, Searchable};
ghost use Rattle.search.specs.Sequences.{JudgesFrom};
ghost use Rattle.std.specs.List.{AllByRecursion};

use crate::first_starts::Faultless;
use crate::judge::Judge;
use crate::rows::{Row, latest};
use crate::runs::Task;
use calls::{Job, Refusal};
use inspections::Inspection;
use rules::Rule;

// The three rows are parameters: as fields they would be `&mut`s, and each contract would say that they are the same references still.
// Late or not is a plain yes or no: no value goes with it, and the rows have the rest.
impl<R: Rule, I: Inspection> Judge<'_, R, I> {
    // Whether the job can be late, which begins as `row` and `finish` have it. If it cannot, `row` has then how it can end.
    pub(crate) fn go_through(
        &self,
        job: Job,
        row: &mut Row,
        done: &mut Row,
        finish: &mut Row,
    ) -> bool
        requires { Searchable job }
        ensures { let m = R.Rule.model self.now.clean.rule.now in let V = I.Inspection.verdict self.now.inspection.now in MatchBool result (LateJob m V job row.old finish.old) (EndsJob m V job row.old finish.old row.new) }
    {
        let task = Task {
            quarters: job.length,
            due: job.due,
        };
        if self.runs(task, row, done, finish) {
            return true;
        }
        *row = *finish;
        false
    }

    // It writes at the place of an `enumerate`: of a zipped `iter_mut` std tells a proof nothing.
    //
    // Names the first of the waiting jobs that can be late, if there is one, on a machine that becomes free as `row` has it and on this path. The worst finishes of the jobs before
    // it, or of all, go into `finishes`.
    pub(crate) fn first_late(
        &self,
        waiting: &[Job],
        mut path: Faultless,
        finishes: &mut [u32],
        row: &mut Row,
        done: &mut Row,
        finish: &mut Row,
    ) -> Result<(), Refusal>
        requires waiting { AllByRecursion Searchable waiting.now }
        requires room { length waiting.now ≤ length finishes.old }
        requires path { path.state < (R.Rule.model self.now.clean.rule.now).size }
        ensures { JudgesFrom (R.Rule.model self.now.clean.rule.now) (I.Inspection.verdict self.now.inspection.now) row.old path.time path.state waiting.now finishes.old finishes.new result }
    {
        'jobs: {
            for (place, job) in waiting.iter().enumerate() {
                let late = Refusal::Late { ticket: job.ticket };
                let Some(next) = self.begin_waiting(*job, path, row, finish) else {
                    break 'jobs Err(late);
                };
                if self.go_through(*job, row, done, finish) {
                    break 'jobs Err(late);
                }
                finishes[place] = latest(row, self.clean.rule.size());
                path = next;
            }
            Ok(())
        }
    }
}
