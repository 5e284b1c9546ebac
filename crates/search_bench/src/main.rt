// How long a search takes. With no argument it prints what is found of each board; with one, times as well.

#![tactic(auto)]

mod used;

use crate::used::Used;
use calls::Job;
use inspections::{AtEnd, AtFault, Inspection};
use rules::{Both, Count, Gap, Rule};
use schedules::Moment;
use search::search;
use std::time::Instant;
use std::{env, io};

// Jobs in sequence, all due at the last quarter: how many, and the lengths of the first and the last, between which they rise.
#[derive(Clone, Copy)]
struct Load {
    jobs: usize,
    from: u32,
    to: u32,
}

const FULL: usize = 24;

impl Load {
    fn jobs(&self) -> [Job; FULL] {
        let mut all = [Job {
            ticket: 1,
            release: 0,
            due: 4096,
            length: self.from,
        }; FULL];
        let rise = self.to.saturating_sub(self.from);
        for (place, job) in all.iter_mut().enumerate() {
            let place = place as u32;
            job.ticket = place + 1;
            job.length = self.from.saturating_add(rise.saturating_mul(place) / 23);
        }
        all
    }
}

// How often each board is searched for its time, where times are asked for; else it is searched once.
#[derive(Clone, Copy)]
struct Bench<'a> {
    rt: &'a HostRuntime,
    rounds: Option<u32>,
}

impl Bench<'_> {
    // Searches the load on a fresh board: how many microseconds it took, and the worst finish of its last job, or 0 where a job can be late.
    fn one_search<R: Rule, I: Inspection>(
        &self,
        rule: &R,
        inspection: &I,
        load: Load,
    ) -> io::Result<(u128, u32)> {
        let jobs = load.jobs();
        let few = load.jobs.min(FULL);
        let moment = Moment {
            clock: 0,
            state: rule.opening(),
            machine: None,
        };
        let mut finishes = [0u32; FULL];
        let mut table = [0u32; 16_384];
        let start = Instant::now(self.rt)?;
        let _ = search(
            rule,
            inspection,
            moment,
            &jobs[0..few],
            &mut finishes,
            &mut table,
        );
        let taken = start.elapsed(self.rt)?.as_micros();
        Ok((taken, finishes[few.saturating_sub(1)]))
    }

    // Searches the load, and prints the worst finish of its last job, with the least and the most time where times are asked for.
    fn report<R: Rule, I: Inspection>(
        &self,
        name: &str,
        rule: &R,
        inspection: &I,
        load: Load,
    ) -> io::Result<()> {
        let (mut least, last) = self.one_search(rule, inspection, load)?;
        let mut most = least;
        for _ in 1..self.rounds.unwrap_or(1) {
            let (taken, _) = self.one_search(rule, inspection, load)?;
            least = least.min(taken);
            most = most.max(taken);
        }
        let rt = self.rt;
        match self.rounds {
            None => println!(rt; "{name}: {last}"),
            Some(_) => println!(rt; "{name}: {last}, {least} to {most} microseconds"),
        }
    }

    // Reports each load under the rule and the inspection, by its name.
    fn report_each<R: Rule, I: Inspection>(
        &self,
        rule: &R,
        inspection: &I,
        loads: &[(&str, Load)],
    ) -> io::Result<()> {
        for (name, load) in loads {
            self.report(name, rule, inspection, *load)?;
        }
        Ok(())
    }
}

// So many jobs of one length.
fn alike(jobs: usize, length: u32) -> Load {
    Load {
        jobs,
        from: length,
        to: length,
    }
}

// 24 jobs whose lengths rise.
fn rising(from: u32, to: u32) -> Load {
    Load {
        jobs: FULL,
        from,
        to,
    }
}

// Full boards that are just kept, under rules with 512 states or nearly as many.
fn worst_boards(bench: Bench<'_>) -> io::Result<()> {
    let few = Both::new(Count::new(17), Gap::new(28));
    let loads = [
        ("lengths 96, count 17 and gap 28, H", alike(FULL, 96)),
        ("lengths 60 to 96, count 17 and gap 28, H", rising(60, 96)),
    ];
    bench.report_each(&few, &AtEnd, &loads)?;
    let many = Both::new(Count::new(63), Gap::new(8));
    let loads = [("lengths 20 to 48, count 63 and gap 8, H", rising(20, 48))];
    bench.report_each(&many, &AtEnd, &loads)?;
    let swapped = Both::new(Gap::new(28), Count::new(17));
    let loads = [("lengths 60 to 96, gap 28 and count 17, H", rising(60, 96))];
    bench.report_each(&swapped, &AtEnd, &loads)?;
    let upwards = Both::new(Used { most: 63 }, Gap::new(8));
    let loads = [(
        "lengths 20 to 48, count 63 upwards and gap 8, H",
        rising(20, 48),
    )];
    bench.report_each(&upwards, &AtEnd, &loads)?;
    let count = Count::new(511);
    let loads = [("lengths 3 to 7, count 511, H", rising(3, 7))];
    bench.report_each(&count, &AtEnd, &loads)?;
    let loads = [("lengths 3 to 7, count 511, E", rising(3, 7))];
    bench.report_each(&count, &AtFault, &loads)?;
    let loads = [("lengths 96, gap 512, H", alike(FULL, 96))];
    bench.report_each(&Gap::new(512), &AtEnd, &loads)
}

// How the time grows with the jobs, with their length and with the states.
fn growth(bench: Bench<'_>) -> io::Result<()> {
    let rule = Both::new(Count::new(17), Gap::new(28));
    let loads = [
        ("6 jobs of 96, 504 states", alike(6, 96)),
        ("12 jobs of 96, 504 states", alike(12, 96)),
        ("24 jobs of 32, 504 states", alike(24, 32)),
        ("24 jobs of 48, 504 states", alike(24, 48)),
    ];
    bench.report_each(&rule, &AtEnd, &loads)?;
    let half = Both::new(Count::new(17), Gap::new(14));
    let loads = [("24 jobs of 96, 252 states", alike(24, 96))];
    bench.report_each(&half, &AtEnd, &loads)?;
    let quarter = Both::new(Count::new(17), Gap::new(7));
    let loads = [("24 jobs of 96, 126 states", alike(24, 96))];
    bench.report_each(&quarter, &AtEnd, &loads)
}

fn main(rt: HostRuntime) -> io::Result<()> {
    let rounds = (env::args(&rt)?.count() > 1).then_some(30);
    let bench = Bench { rt: &rt, rounds };
    worst_boards(bench)?;
    growth(bench)
}
