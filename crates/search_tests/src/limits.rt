// Boards at the limits, and boards that the search refuses.
use crate::boards::{LAST, check_search, fresh, job, running};
use calls::{Job, Refusal};
use inspections::AtEnd;
use rules::{Count, Gap};
use schedules::Moment;
use search::search;
use std::process::Abort;

// 24 jobs of this length, all due at the last quarter, with the tickets from 1 on.
fn full(length: u32) -> [Job; 24] {
    let mut jobs = [job(1, 0, LAST, length); 24];
    for (place, job) in jobs.iter_mut().enumerate() {
        job.ticket = place as u32 + 1;
    }
    jobs
}

// The quarters of n + k runs of this length, for each n from 1 to 24.
fn after_runs(length: u32, k: u32) -> [u32; 24] {
    let mut quarters = [0u32; 24];
    for (place, end) in quarters.iter_mut().enumerate() {
        *end = (place as u32 + 1).saturating_add(k).saturating_mul(length);
    }
    quarters
}

// Job n of 24 alike is finished after n + k runs at worst, under at most k faults that are seen at the end.
#[test]
fn full_boards(rt: HostRuntime) {
    let late = Err(Refusal::Late { ticket: 24 });
    for (length, faults, answer, found) in [
        (96, 18, Ok(()), 24),
        (96, 19, late, 23),
        (64, 40, Ok(()), 24),
        (64, 41, late, 23),
    ] {
        let worst = after_runs(length, faults);
        let worst = &worst[..worst.len().min(found)];
        let rule = Count::new(faults);
        let moment = fresh(&rule);
        check_search(&rt, &rule, &AtEnd, moment, &full(length), answer, worst);
    }
}

// A rule with one state: no fault ever, or one in every quarter.
#[test]
fn one_state(rt: HostRuntime) {
    let never = Count::new(0);
    check_search(
        &rt,
        &never,
        &AtEnd,
        fresh(&never),
        &[job(1, 0, LAST, 96), job(2, 4000, LAST, 96)],
        Ok(()),
        &[96, 4096],
    );
    check_search(
        &rt,
        &never,
        &AtEnd,
        fresh(&never),
        &[job(1, 0, 96, 96), job(2, 4001, LAST, 96)],
        Err(Refusal::Late { ticket: 2 }),
        &[96],
    );
    let always = Gap::new(1);
    check_search(
        &rt,
        &always,
        &AtEnd,
        fresh(&always),
        &[job(7, 0, LAST, 1)],
        Err(Refusal::Late { ticket: 7 }),
        &[],
    );
    check_search(&rt, &always, &AtEnd, fresh(&always), &[], Ok(()), &[]);
}

// At the end of the clock nothing can start, and releases may be any numbers.
#[test]
fn late_releases(rt: HostRuntime) {
    let rule = Count::new(0);
    let late = Err(Refusal::Late { ticket: 1 });
    let end = Moment {
        clock: LAST,
        state: 0,
        machine: None,
    };
    check_search(&rt, &rule, &AtEnd, end, &[job(1, 0, LAST, 1)], late, &[]);
    check_search(&rt, &rule, &AtEnd, end, &[], Ok(()), &[]);
    check_search(
        &rt,
        &rule,
        &AtEnd,
        fresh(&rule),
        &[job(1, u32::MAX, LAST, 96)],
        late,
        &[],
    );
    // the last quarter of a run
    let last = running(&rule, LAST - 1, job(1, 0, LAST, 96), 95, None);
    check_search(&rt, &rule, &AtEnd, last, &[], Ok(()), &[LAST]);
}

// With this room for finishes and a table of so many numbers the search refuses so, and leaves both as they were.
fn check_refused(
    rt: &impl Abort,
    moment: Moment,
    waiting: &[Job],
    room: usize,
    numbers: usize,
    refusal: Refusal,
) {
    let mut finishes = [9u32; 4];
    let mut table = [7u32; 16_384];
    assert!(rt; room <= 4 && numbers <= 16_384);
    assert_eq!(rt;
        search(
            &Count::new(1),
            &AtEnd,
            moment,
            waiting,
            &mut finishes[0..room],
            &mut table[0..numbers],
        ),
        Err(refusal)
    );
    for finish in finishes {
        assert_eq!(rt; finish, 9);
    }
    for number in table {
        assert_eq!(rt; number, 7);
    }
}

// Each limit, just passed; each refusal comes before those with a higher number.
#[test]
fn refusals(rt: HostRuntime) {
    let rule = Count::new(1);
    let open = fresh(&rule);
    let good = job(1, 0, LAST, 96);
    let short = 16_383;
    let whole = 16_384;
    for waiting in [job(1, 0, 4097, 1), job(1, 0, LAST, 0), job(1, 0, LAST, 97)] {
        check_refused(
            &rt,
            open,
            &[good, waiting],
            0,
            short,
            Refusal::OutsideLimits,
        );
    }
    for moment in [
        Moment {
            clock: 4097,
            ..open
        },
        Moment { state: 2, ..open },
        running(&rule, 96, good, 96, None),
        running(&rule, 5, good, 6, None),
        running(&rule, 6, good, 6, Some(6)),
        running(&rule, 6, good, 6, Some(97)),
        running(&rule, 6, job(1, 0, 4097, 96), 6, None),
    ] {
        check_refused(&rt, moment, &[], 0, short, Refusal::OutsideLimits);
    }
    let hit = running(&rule, 6, good, 6, Some(7));
    check_refused(
        &rt,
        hit,
        &[job(2, 0, 9, 1), good],
        0,
        short,
        Refusal::TicketTaken,
    );
    check_refused(
        &rt,
        open,
        &[good, job(2, 0, 9, 1), good],
        0,
        short,
        Refusal::TicketTaken,
    );
    check_refused(
        &rt,
        hit,
        &[job(2, 0, 9, 1)],
        1,
        short,
        Refusal::TableTooShort,
    );
    check_refused(&rt, hit, &[job(2, 0, 9, 1)], 1, whole, Refusal::ListFull);
    check_refused(
        &rt,
        open,
        &[good, job(2, 0, 9, 1)],
        1,
        whole,
        Refusal::ListFull,
    );
}
