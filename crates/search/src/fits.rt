// What the search asks of a board, tested.
ghost use Rattle.schedules.specs.World.{Distinct, HitRight, RunRight, on_machine, world_at};
ghost use Rattle.search.specs.Fit.{Fit};
ghost use Rattle.search.specs.Jobs.{Searchable};
ghost use Rattle.std.specs.Prelude.{◌≡◌, ◌++◌, length, Some, MatchBool, ◌≢◌};
ghost use Rattle.std.specs.List.{AllByRecursion};

use calls::Job;
use rules::Rule;
use schedules::{Moment, Run};

// The last quarter, and the longest run.
const LAST: u32 = 4096;

const LONGEST: u32 = 96;

// Whether the job's due quarter and length are within their limits.
fn is_searchable(job: &Job) -> bool
    ensures { MatchBool result (Searchable job.now) ((Searchable job.now) → ⊥) }
{
    job.due <= LAST && job.length >= 1 && job.length <= LONGEST
}

// Whether those of all jobs are.
fn are_searchable(jobs: &[Job]) -> bool
    ensures { MatchBool result (AllByRecursion Searchable jobs.now) ((AllByRecursion Searchable jobs.now) → ⊥) }
{
    jobs.iter().all(is_searchable)
}

// Whether a run of so many quarters, with so many gone, is given up after more than those, and not after its end.
fn is_hit_right(quarters: u32, gone: u32, hit: Option<u32>) -> bool
    ensures { MatchBool result (HitRight quarters gone hit) ((HitRight quarters gone hit) → ⊥) }
{
    hit.is_none_or(|given_up| gone < given_up && given_up <= quarters)
}

// Whether a run on the machine is as it should be at this clock, and its job within its limits.
fn is_run_fit(clock: u32, run: &Run) -> bool
    ensures { MatchBool result (RunRight clock (Some run.now) × Searchable run.now.job) ((RunRight clock (Some run.now) × Searchable run.now.job) → ⊥) }
{
    run.gone < run.job.length
        && run.gone <= clock
        && is_hit_right(run.job.length, run.gone, run.hit)
        && is_searchable(&run.job)
}

// Whether the search can judge the board at this moment with these jobs waiting.
pub(crate) fn is_fit<R: Rule>(rule: &R, moment: &Moment, waiting: &[Job]) -> bool
    ensures { MatchBool result (Fit (R.Rule.model rule.now) (world_at moment.now waiting.now)) ((Fit (R.Rule.model rule.now) (world_at moment.now waiting.now)) → ⊥) }
{
    let machine = moment.machine.as_ref();
    machine.is_none_or(|run| is_run_fit(moment.clock, run))
        && moment.state < rule.size()
        && moment.clock <= LAST
        && are_searchable(waiting)
}

// Whether one of the jobs has the ticket.
fn has_ticket(jobs: &[Job], ticket: u32) -> bool
    ensures { MatchBool result (AllByRecursion (λ j. ticket ≢ j.ticket) jobs.now → ⊥) (AllByRecursion (λ j. ticket ≢ j.ticket) jobs.now) }
{
    jobs.iter().any(|job| job.ticket == ticket)
}

// Whether no two of the jobs have the same ticket. Each is compared with those behind it, from the last one on: a ticket that repeats
// among the last jobs is found at once, however many there are. By index, since std has no lemma of an `enumerate` that is gone
// through from the back.
fn are_distinct(jobs: &[Job]) -> bool
    ensures { MatchBool result (Distinct jobs.now) (Distinct jobs.now → ⊥) }
{
    for place in (0..jobs.len()).rev() {
        if has_ticket(&jobs[place + 1..], jobs[place].ticket) {
            return false;
        }
    }
    true
}

// Whether no two jobs of the board have the same ticket.
pub(crate) fn are_all_distinct(machine: &Option<Run>, waiting: &[Job]) -> bool
    ensures { MatchBool result (Distinct (on_machine machine.now ++ waiting.now)) (Distinct (on_machine machine.now ++ waiting.now) → ⊥) }
{
    let other = |run: &Run| !has_ticket(waiting, run.job.ticket);
    machine.as_ref().is_none_or(other) && are_distinct(waiting)
}

// How many jobs are on the board.
pub(crate) fn jobs_on(machine: &Option<Run>, waiting: &[Job]) -> usize
    ensures { result ≡ length (on_machine machine.now ++ waiting.now) }
{
    waiting.len() + usize::from(machine.is_some())
}
