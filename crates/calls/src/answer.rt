// What a board answers to a call that it carries out. One that it refuses has a `Refusal` for its answer.

// What a quarter brought.
#[derive(Clone, Copy, PartialEq, Eq, Debug)]
pub enum Event {
    // Nothing was on the machine.
    Idle,
    // The run goes on.
    Running { ticket: u32 },
    // The run was given up and starts again.
    Again { ticket: u32 },
    // The job is finished and has left the machine.
    Finished { ticket: u32 },
}

// What came of a call.
#[derive(Clone, Copy, PartialEq, Eq, Debug)]
pub enum Answer {
    // The booking is taken, with the job's worst finish.
    Taken { worst: u32 },
    // The job is off the board.
    Withdrawn,
    // The quarter is over.
    Quarter(Event),
}

// A job's ticket with the quarter of its finish.
#[derive(Clone, Copy, PartialEq, Eq, Debug)]
pub struct Row {
    pub ticket: u32,
    pub quarter: u32,
}
