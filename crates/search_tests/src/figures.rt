// Boards whose worst finishes are known.
use crate::boards::{LAST, check_search, fresh, job, running};
use calls::Refusal;
use inspections::{AtEnd, AtFault};
use rules::{Both, Count, Gap};

// Lengths 4, 2, 6, inspected at the end.
#[test]
fn counts(rt: HostRuntime) {
    let jobs = [job(1, 0, LAST, 4), job(2, 0, LAST, 2), job(3, 0, LAST, 6)];
    for (faults, worst) in [(0, [4, 6, 12]), (1, [8, 10, 18]), (2, [12, 14, 24])] {
        let rule = Count::new(faults);
        check_search(&rt, &rule, &AtEnd, fresh(&rule), &jobs, Ok(()), &worst);
    }
}

// Lengths 2, 2, 2, and with releases 0, 3, 6.
#[test]
fn gaps(rt: HostRuntime) {
    let jobs = [job(1, 0, LAST, 2), job(2, 0, LAST, 2), job(3, 0, LAST, 2)];
    let five = Gap::new(5);
    check_search(&rt, &five, &AtEnd, fresh(&five), &jobs, Ok(()), &[4, 8, 10]);
    check_search(
        &rt,
        &five,
        &AtFault,
        fresh(&five),
        &jobs,
        Ok(()),
        &[4, 6, 10],
    );
    let four = Gap::new(4);
    check_search(
        &rt,
        &four,
        &AtFault,
        fresh(&four),
        &jobs,
        Ok(()),
        &[4, 8, 12],
    );
    let both = Both::new(Count::new(1), Gap::new(5));
    check_search(&rt, &both, &AtEnd, fresh(&both), &jobs, Ok(()), &[4, 6, 8]);
    let released = [job(1, 0, LAST, 2), job(2, 3, LAST, 2), job(3, 6, LAST, 2)];
    let six = Gap::new(6);
    check_search(
        &rt,
        &six,
        &AtEnd,
        fresh(&six),
        &released,
        Ok(()),
        &[4, 7, 10],
    );
}

// The same lengths, due just when they are finished at worst, and each of them due one quarter sooner.
#[test]
fn due_quarters(rt: HostRuntime) {
    let rule = Gap::new(5);
    for (due, answer, worst) in [
        ([4, 8, 10], Ok(()), &[4, 8, 10][..]),
        ([3, 7, 10], Err(Refusal::Late { ticket: 1 }), &[]),
        ([4, 7, 10], Err(Refusal::Late { ticket: 2 }), &[4]),
        ([4, 8, 9], Err(Refusal::Late { ticket: 3 }), &[4, 8]),
    ] {
        let jobs = [
            job(1, 0, due[0], 2),
            job(2, 0, due[1], 2),
            job(3, 0, due[2], 2),
        ];
        check_search(&rt, &rule, &AtEnd, fresh(&rule), &jobs, answer, worst);
    }
}

// One job of 3 quarters and at most one fault, due one quarter before its worst finish and just then.
#[test]
fn due_quarters_of_one(rt: HostRuntime) {
    let rule = Count::new(1);
    for (due, answer, worst) in [
        (5, Err(Refusal::Late { ticket: 1 }), &[][..]),
        (6, Ok(()), &[6]),
    ] {
        let jobs = [job(1, 0, due, 3)];
        check_search(&rt, &rule, &AtEnd, fresh(&rule), &jobs, answer, worst);
    }
}

// A run of 4 quarters of which 2 are gone at clock 2, and 2 quarters behind it; one fault may come.
#[test]
fn on_the_machine(rt: HostRuntime) {
    let rule = Count::new(1);
    let behind = [job(2, 0, LAST, 2)];
    let unhit = running(&rule, 2, job(1, 0, 8, 4), 2, None);
    check_search(&rt, &rule, &AtEnd, unhit, &behind, Ok(()), &[8, 10]);
    check_search(&rt, &rule, &AtFault, unhit, &behind, Ok(()), &[8, 10]);
    // given up at clock 4, and once more at 8
    let hit = running(&rule, 2, job(1, 0, 12, 4), 2, Some(4));
    check_search(&rt, &rule, &AtEnd, hit, &behind, Ok(()), &[12, 14]);
    // given up at clock 3, and once more at 7
    let sooner = running(&rule, 2, job(1, 0, 11, 4), 2, Some(3));
    check_search(&rt, &rule, &AtFault, sooner, &behind, Ok(()), &[11, 13]);
    let late = Err(Refusal::Late { ticket: 1 });
    let unhit_late = running(&rule, 2, job(1, 0, 7, 4), 2, None);
    check_search(&rt, &rule, &AtEnd, unhit_late, &behind, late, &[]);
    let hit_late = running(&rule, 2, job(1, 0, 11, 4), 2, Some(4));
    check_search(&rt, &rule, &AtEnd, hit_late, &behind, late, &[]);
    // late with no fault more
    let gone_late = running(&rule, 2, job(1, 0, 3, 4), 2, None);
    check_search(&rt, &rule, &AtEnd, gone_late, &behind, late, &[]);
    let behind_late = [job(2, 0, 9, 2)];
    check_search(
        &rt,
        &rule,
        &AtEnd,
        unhit,
        &behind_late,
        Err(Refusal::Late { ticket: 2 }),
        &[8],
    );
}
