// How a job begins: the first starts of its runs, as rows of times by state.
ghost use Rattle.std.specs.Prelude.{◌≡◌, ℕ, ◌+◌, ◌<◌, ◌≤◌, max, MatchOption};
ghost use Rattle.inspections.specs.Verdict.{Bounded, Verdict};
ghost use Rattle.schedules.specs.Runs.{completion};
ghost use Rattle.search.specs.Fronts.{Begun, Path};
ghost use Rattle.search.specs.Jobs.{BeginsJob, Searchable};

use crate::hits::Underway;
use crate::judge::Judge;
use crate::rows::{Row, clear, drop_before, keep};
use crate::runs::Task;
use calls::Job;
use inspections::Inspection;
use rules::Rule;

// Where the path without further faults comes to: a time, and the state of the rule then.
#[derive(Clone, Copy)]
pub(crate) struct Faultless {
    pub time: u32,
    pub state: u32,
}

impl<R: Rule, I: Inspection> Judge<'_, R, I> {
    // The first starts of a waiting job, on a machine that becomes free as `row` has it and on this path, and the path after the job; or `None` where the job is late
    // on that path already.
    pub(crate) fn begin_waiting(
        &self,
        job: Job,
        path: Faultless,
        row: &mut Row,
        finish: &mut Row,
    ) -> Option<Faultless>
        requires job { Searchable job }
        requires path { path.state < (R.Rule.model self.now.clean.rule.now).size }
        ensures { let m = R.Rule.model self.now.clean.rule.now in MatchOption result (job.due < max job.release path.time + job.length) (λ next. BeginsJob m job path.time path.state row.old row.new finish.new next.time next.state × (next.state < m.size)) }
    {
        let start = path.time.max(job.release);
        let task = Task {
            quarters: job.length,
            due: job.due,
        };
        if task.is_late_from(start) {
            return None;
        }
        drop_before(row, job.release);
        let state = self.clean.after_wait(path.state, start - path.time);
        keep(row, state, start);
        clear(finish);
        Some(Faultless {
            time: start + job.length,
            state: self.clean.after_cleans(state, job.length),
        })
    }

    // How the job on the machine goes on, whose run was not hit and is in this state: the starts after a hit, its finish without one, and the path after the job.
    pub(crate) fn begin_unhit(
        &self,
        run: Underway,
        state: u32,
        row: &mut Row,
        finish: &mut Row,
    ) -> Faultless
        requires gone { run.gone < run.quarters }
        requires by { run.begun + run.quarters ≤ 4096 }
        requires state { state < (R.Rule.model self.now.clean.rule.now).size }
        ensures path { Path (R.Rule.model self.now.clean.rule.now) state (run.begun + run.gone) (completion (I.Inspection.verdict self.now.inspection.now) run.quarters run.begun) result.time result.state }
        ensures inside { result.state < (R.Rule.model self.now.clean.rule.now).size }
        ensures begun { (due : ℕ) → run.begun + run.quarters ≤ due → Begun (R.Rule.model self.now.clean.rule.now) (I.Inspection.verdict self.now.inspection.now) state (run.begun + run.gone) (completion (I.Inspection.verdict self.now.inspection.now) run.quarters run.begun) run.quarters due row.new finish.new }
    {
        let path = Faultless {
            time: run.begun + run.quarters,
            state: self.clean.after_cleans(state, run.quarters - run.gone),
        };
        clear(finish);
        keep(finish, path.state, path.time);
        clear(row);
        self.keep_hits(run, state, row);
        path
    }

    // How the job on the machine goes on, whose run was hit and is given up after this wait: its next start, and the path after the job.
    pub(crate) fn begin_hit(
        &self,
        quarters: u32,
        wait: u32,
        now: Faultless,
        row: &mut Row,
        finish: &mut Row,
    ) -> Faultless
        requires quarters { quarters < 128 }
        requires wait { wait < 128 }
        requires clock { now.time ≤ 4096 }
        requires state { now.state < (R.Rule.model self.now.clean.rule.now).size }
        ensures path { (V : Verdict) → Bounded V → Path (R.Rule.model self.now.clean.rule.now) now.state now.time (completion V quarters (now.time + wait)) result.time result.state }
        ensures inside { result.state < (R.Rule.model self.now.clean.rule.now).size }
        ensures begun { (V : Verdict) (due : ℕ) → Bounded V → Begun (R.Rule.model self.now.clean.rule.now) V now.state now.time (completion V quarters (now.time + wait)) quarters due row.new finish.new }
    {
        let start = now.time + wait;
        let again = self.clean.after_cleans(now.state, wait);
        clear(row);
        keep(row, again, start);
        clear(finish);
        Faultless {
            time: start + quarters,
            state: self.clean.after_cleans(again, quarters),
        }
    }
}
