// Every list of faults in the first quarters, played quarter by quarter: the plain way to the worst finishes of a small board.
use calls::Job;
use inspections::Inspection;
use rules::Rule;
use schedules::{Moment, Run};

// Faults come in the first so many quarters. Jobs that are due by then are late under such a list, or under none.
pub(crate) const QUARTERS: u32 = 12;

// A job that is not finished within so many quarters is late.
const WALKED: u32 = 40;

// Whether the list, which has a bit for each quarter, spoils the quarter.
fn is_spoiled(faults: u32, quarter: u32) -> bool {
    quarter <= QUARTERS && quarter >= 1 && (faults >> ((quarter - 1) % 32)) % 2 == 1
}

// What a quarter of the run leaves on the machine: nothing where the job is finished.
fn after_quarter<I: Inspection>(inspection: &I, spoiled: bool, run: Run) -> Option<Run> {
    let gone = run.gone.saturating_add(1);
    let hit = match run.hit {
        None if spoiled => Some(inspection.given_up_after(run.job.length, gone)),
        hit => hit,
    };
    match hit {
        None if gone >= run.job.length => None,
        Some(given_up) if gone >= given_up => Some(first_run(run.job)),
        _ => Some(Run { gone, hit, ..run }),
    }
}

// A run of the job that begins.
fn first_run(job: Job) -> Run {
    Run {
        job,
        gone: 0,
        hit: None,
    }
}

// The finish of each job under the list, the one on the machine first, or `None` where the rule does not allow the list.
fn played<R: Rule, I: Inspection>(
    rule: &R,
    inspection: &I,
    moment: Moment,
    waiting: &[Job],
    faults: u32,
) -> Option<[u32; 4]> {
    // one that does not come is later than every due quarter
    let mut finishes = [u32::MAX; 4];
    let mut places = finishes.iter_mut();
    let mut left = waiting;
    let mut state = moment.state;
    let mut machine = moment.machine;
    for clock in 0..WALKED {
        let spoiled = is_spoiled(faults, clock + 1);
        if clock < moment.clock {
            if spoiled {
                return None;
            }
            continue;
        }
        state = if spoiled {
            rule.after_spoiled(state)?
        } else {
            rule.after_clean(state)?
        };
        if let (None, [job, rest @ ..]) = (machine, left) {
            if job.release <= clock {
                machine = Some(first_run(*job));
                left = rest;
            }
        }
        if let Some(run) = machine {
            machine = after_quarter(inspection, spoiled, run);
            if machine.is_none() {
                if let Some(finish) = places.next() {
                    *finish = clock + 1;
                }
            }
        }
    }
    Some(finishes)
}

// The worst finish of each of at most four jobs, over every allowed list.
pub(crate) fn worst<R: Rule, I: Inspection>(
    rule: &R,
    inspection: &I,
    moment: Moment,
    waiting: &[Job],
) -> [u32; 4] {
    let mut worst = [0u32; 4];
    for faults in 0..1u32 << QUARTERS {
        if let Some(finishes) = played(rule, inspection, moment, waiting, faults) {
            for (most, finish) in worst.iter_mut().zip(finishes) {
                *most = (*most).max(finish);
            }
        }
    }
    worst
}
