// Small boards, searched and enumerated.
use crate::boards::{check_search, job};
use crate::enumeration::{QUARTERS, worst};
use crate::later::QuarterLater;
use crate::tokens::Tokens;
use calls::{Job, Refusal};
use inspections::{AtEnd, AtFault, Inspection};
use rules::{Both, Count, Gap, Rule};
use schedules::{Moment, Run};
use std::process::Abort;

// The place and the ticket of the first job with a finish after its due quarter.
fn first_late(finishes: &[u32; 4], moment: &Moment, waiting: &[Job]) -> Option<(usize, u32)> {
    let board = moment.machine.iter().map(|run| &run.job).chain(waiting);
    for (place, (job, finish)) in board.zip(finishes).enumerate() {
        if *finish > job.due {
            return Some((place, job.ticket));
        }
    }
    None
}

// The search answers as the enumeration does. Whether no job can be late.
fn check_board<R: Rule, I: Inspection>(
    rt: &impl Abort,
    rule: &R,
    inspection: &I,
    moment: Moment,
    waiting: &[Job],
) -> bool {
    let worst = worst(rule, inspection, moment, waiting);
    let running = if moment.machine.is_some() { 1 } else { 0 };
    let late = first_late(&worst, &moment, waiting);
    let (answer, jobs) = match late {
        Some((place, ticket)) => (Err(Refusal::Late { ticket }), place),
        None => (Ok(()), waiting.len().min(3) + running),
    };
    assert!(rt; jobs <= 4);
    check_search(
        rt,
        rule,
        inspection,
        moment,
        waiting,
        answer,
        &worst[0..jobs],
    );
    late.is_none()
}

// The next of a row of numbers without pattern.
fn next(seed: &mut u32) -> u32 {
    *seed = seed.wrapping_mul(1_664_525).wrapping_add(1_013_904_223);
    *seed >> 16
}

// A job without pattern, due in the first quarters.
fn any_job(seed: &mut u32, ticket: u32) -> Job {
    let release = next(seed) % 4;
    let due = 3 + next(seed) % (QUARTERS - 2);
    job(ticket, release, due, 1 + next(seed) % 3)
}

// A moment without pattern: an early clock, any state, and nothing, an unhit run or a hit one on the machine.
fn any_moment<R: Rule>(seed: &mut u32, rule: &R) -> Moment {
    let clock = next(seed) % 3;
    let state = next(seed) % rule.size().max(1);
    let job = any_job(seed, 1);
    let gone = (next(seed) % job.length.max(1)).min(clock);
    let hit = gone + 1 + next(seed) % 3;
    let machine = match next(seed) % 3 {
        0 => None,
        1 => Some(Run {
            job,
            gone,
            hit: None,
        }),
        _ => Some(Run {
            job,
            gone,
            hit: Some(hit.min(job.length)),
        }),
    };
    Moment {
        clock,
        state,
        machine,
    }
}

// Sixty boards of the rule and the inspection. How many of them are kept.
fn check_boards<R: Rule, I: Inspection>(rt: &impl Abort, rule: &R, inspection: &I) -> u32 {
    let mut seed = 2026;
    let mut kept = 0u32;
    for _ in 0..60 {
        let moment = any_moment(&mut seed, rule);
        let waiting = [any_job(&mut seed, 2), any_job(&mut seed, 3)];
        if check_board(rt, rule, inspection, moment, &waiting) {
            kept = kept.saturating_add(1);
        }
    }
    kept
}

// Some boards are kept and some are not, so that both answers are compared.
fn check_both(rt: &impl Abort, kept: u32) {
    assert!(rt; 0 < kept && kept < 60);
}

#[test]
fn tokens_that_come_back(rt: HostRuntime) {
    for most in 1..3 {
        let rule = Tokens { most };
        check_both(&rt, check_boards(&rt, &rule, &AtEnd));
        check_both(&rt, check_boards(&rt, &rule, &AtFault));
        check_both(&rt, check_boards(&rt, &rule, &QuarterLater));
    }
}

#[test]
fn counts_and_gaps(rt: HostRuntime) {
    let count = Count::new(2);
    check_both(&rt, check_boards(&rt, &count, &AtEnd));
    check_both(&rt, check_boards(&rt, &count, &QuarterLater));
    let gap = Gap::new(3);
    check_both(&rt, check_boards(&rt, &gap, &AtEnd));
    check_both(&rt, check_boards(&rt, &gap, &AtFault));
    let both = Both::new(Tokens { most: 2 }, Both::new(Count::new(2), Gap::new(3)));
    check_both(&rt, check_boards(&rt, &both, &AtEnd));
    check_both(&rt, check_boards(&rt, &both, &QuarterLater));
}
