// The run on the machine, the moment that a board is at, and the kinds of quarters.
use calls::Job;

// A run of a job on the machine: how many of its quarters are gone, and, once a fault has hit it, after how many it is given up.
#[derive(Clone, Copy, PartialEq, Eq, Debug)]
pub struct Run {
    pub job: Job,
    pub gone: u32,
    pub hit: Option<u32>,
}

// The moment that a board is at: the clock, the state of the fault rule, and the run on the machine, if any.
#[derive(Clone, Copy, PartialEq, Eq, Debug)]
pub struct Moment {
    pub clock: u32,
    pub state: u32,
    pub machine: Option<Run>,
}

// A quarter is clean or spoiled.
#[derive(Clone, Copy, PartialEq, Eq, Debug)]
pub enum Kind {
    Clean,
    Spoiled,
}
