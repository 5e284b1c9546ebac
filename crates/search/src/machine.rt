// The job on the machine, and those behind it.
ghost use Rattle.std.specs.Prelude.{◌≡◌, ◌<◌, ◌≤◌, length, Some, MatchOption};
ghost use Rattle.schedules.specs.Foreseen.{free};
ghost use Rattle.schedules.specs.World.{RunRight, world_at};
ghost use Rattle.search.specs.Fit.{Fit};
ghost use Rattle.search.specs.Fronts.{CanPass};
ghost use Rattle.search.specs.Jobs.{Resumes, Searchable};
ghost use Rattle.search.specs.Sequences.{JudgesBoard};

use crate::first_starts::Faultless;
use crate::hits::Underway;
use crate::judge::Judge;
use crate::rows::{Row, latest};
use calls::{Job, Refusal};
use inspections::Inspection;
use rules::Rule;
use schedules::{Moment, Run};

impl<R: Rule, I: Inspection> Judge<'_, R, I> {
    // How the job on the machine goes on from now, and the path after it; or `None` where it is late already.
    fn begin_machine(
        &self,
        now: Faultless,
        run: Run,
        row: &mut Row,
        finish: &mut Row,
    ) -> Option<Faultless>
        requires clock { now.time ≤ 4096 }
        requires state { now.state < (R.Rule.model self.now.clean.rule.now).size }
        requires run { RunRight now.time (Some run) }
        requires job { Searchable run.job }
        ensures { let m = R.Rule.model self.now.clean.rule.now in let V = I.Inspection.verdict self.now.inspection.now in MatchOption result (CanPass m now.state now.time (free V now.time (Some run)) run.job.due) (λ path. Resumes m V now.state now.time (free V now.time (Some run)) run.job row.new finish.new path.time path.state) }
    {
        let quarters = run.job.length;
        match run.hit {
            None => {
                let begun = now.time - run.gone;
                if begun + quarters > run.job.due {
                    return None;
                }
                let underway = Underway {
                    quarters,
                    gone: run.gone,
                    begun,
                };
                Some(self.begin_unhit(underway, now.state, row, finish))
            }
            Some(given_up) => {
                Some(self.begin_hit(quarters, given_up - run.gone, now, row, finish))
            }
        }
    }

    // The run is the moment's own, which the caller has matched: a clause says so, where a match here would have a case that cannot be.
    // Names the first job that can be late, if there is one: the one on the machine or one behind it. The worst finishes of the jobs before it, or of all, go into `finishes`.
    pub(crate) fn first_late_behind(
        &self,
        moment: Moment,
        run: Run,
        waiting: &[Job],
        finishes: &mut [u32],
        row: &mut Row,
        done: &mut Row,
        finish: &mut Row,
    ) -> Result<(), Refusal>
        requires machine { moment.machine ≡ Some run }
        requires fit { Fit (R.Rule.model self.now.clean.rule.now) (world_at moment waiting.now) }
        requires room { length waiting.now < length finishes.old }
        ensures { JudgesBoard (R.Rule.model self.now.clean.rule.now) (I.Inspection.verdict self.now.inspection.now) (world_at moment waiting.now) finishes.old finishes.new result }
    {
        let job = run.job;
        let late = Refusal::Late { ticket: job.ticket };
        let now = Faultless {
            time: moment.clock,
            state: moment.state,
        };
        // no `ok_or` and `?`: a proof reads here what is promised of the path
        let Some(path) = self.begin_machine(now, run, row, finish) else {
            return Err(late);
        };
        if self.go_through(job, row, done, finish) {
            return Err(late);
        }
        finishes[0] = latest(row, self.clean.rule.size());
        self.first_late(waiting, path, &mut finishes[1..], row, done, finish)
    }
}
