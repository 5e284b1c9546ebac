// The exact search: the worst finish of every job of a board, or the first job that can be late.
ghost use Rattle.std.specs.Prelude.{◌≡◌, ◌≤◌, length};
ghost use Rattle.schedules.specs.World.{board, world_at};
ghost use Rattle.search.specs.Answers.{Answers};
ghost use Rattle.search.specs.Fit.{Fit};
ghost use Rattle.search.specs.Sequences.{JudgesBoard};

use crate::first_starts::Faultless;
use crate::fits::{are_all_distinct, is_fit, jobs_on};
use crate::judge::Judge;
use crate::powers::{CleanQuarters, POWERS};
use crate::rows::{ROW, clear, keep};
use calls::{Job, Refusal};
use inspections::Inspection;
use rules::Rule;
use schedules::Moment;

// How many numbers the search works in.
const TABLE: usize = 16_384;

// Names the first job of the board that can be late, if there is one. The worst finishes of the jobs before it, or of all, go into `finishes`.
fn first_late_of_board<'a, R: Rule, I: Inspection>(
    rule: &'a R,
    inspection: &'a I,
    moment: Moment,
    waiting: &[Job],
    finishes: &mut [u32],
    work: &mut [u32; TABLE],
) -> Result<(), Refusal>
    requires fit { Fit (R.Rule.model rule.now) (world_at moment waiting.now) }
    requires room { length (board (world_at moment waiting.now)) ≤ length finishes.old }
    ensures { JudgesBoard (R.Rule.model rule.now) (I.Inspection.verdict inspection.now) (world_at moment waiting.now) finishes.old finishes.new result }
{
    let (rows, _) = work.as_chunks_mut::<ROW>();
    let (leads, rest) = rows.split_first_chunk_mut::<POWERS>().unwrap();
    let [row, done, finish, ..] = rest else {
        unreachable!()
    };
    let judge = Judge {
        clean: CleanQuarters::new(rule, leads),
        inspection,
    };
    match moment.machine {
        Some(run) => judge.first_late_behind(moment, run, waiting, finishes, row, done, finish),
        None => {
            clear(row);
            keep(row, moment.state, moment.clock);
            let path = Faultless {
                time: moment.clock,
                state: moment.state,
            };
            judge.first_late(waiting, path, finishes, row, done, finish)
        }
    }
}

// The waiting jobs are the caller's slice, so they stand beside the moment.
//
// Searches the board at this moment with these jobs waiting, each started as soon as its release, the job before it and the clock permit. Where no list of faults that
// the rule still allows makes a job late, `finishes` begins with the worst finish of each job, the one on the machine first; else the first job that can be late is named,
// and `finishes` begins with the worst finishes of those before it.
pub fn search<R: Rule, I: Inspection>(
    rule: &R,
    inspection: &I,
    moment: Moment,
    waiting: &[Job],
    finishes: &mut [u32],
    table: &mut [u32],
) -> Result<(), Refusal>
    ensures { Answers (R.Rule.model rule.now) (I.Inspection.verdict inspection.now) (world_at moment waiting.now) finishes.old finishes.new table.old table.new result }
{
    if !is_fit(rule, &moment, waiting) {
        return Err(Refusal::OutsideLimits);
    }
    if !are_all_distinct(&moment.machine, waiting) {
        return Err(Refusal::TicketTaken);
    }
    // no `ok_or` and `?`: a proof reads here what is promised of the table's part
    let Some(work) = table.first_chunk_mut::<TABLE>() else {
        return Err(Refusal::TableTooShort);
    };
    if finishes.len() < jobs_on(&moment.machine, waiting) {
        return Err(Refusal::ListFull);
    }
    let found = first_late_of_board(rule, inspection, moment, waiting, finishes, work);
    work.fill(0);
    found
}
