// Jobs, and the calls to a board.

// A job to polish: its owner's ticket, the quarters of its release and its due date, and its length in quarters.
#[derive(Clone, Copy, PartialEq, Eq, Debug)]
pub struct Job {
    pub ticket: u32,
    pub release: u32,
    pub due: u32,
    pub length: u32,
}

// What a board may be asked to do.
#[derive(Clone, Copy, PartialEq, Eq, Debug)]
pub enum Call {
    // Insert the job before the waiting job at the place.
    Book { place: u32, job: Job },
    // Remove a waiting job.
    Withdraw { ticket: u32 },
    // One clean quarter.
    Pass,
    // One spoiled quarter.
    Spoil,
}
