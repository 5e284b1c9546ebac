// Refusals, with their numbers and details.
ghost use Rattle.std.specs.Prelude.{◌≡◌, Some};
ghost use Rattle.calls.specs.Refusals.{code as code_of, refusal as refusal_of};

// Why a call is refused.
#[derive(Clone, Copy, PartialEq, Eq, Debug)]
pub enum Refusal {
    // The rule has no state.
    NoRule,
    // A number of the job is outside its limits.
    OutsideLimits,
    // The ticket is on the board already.
    TicketTaken,
    // The board has no room for one more job.
    BoardFull,
    // The place is past the end of the waiting jobs.
    PlaceTooFar,
    // The worktable is too short for the search.
    TableTooShort,
    // A job can be late: the first such ticket in sequence.
    Late { ticket: u32 },
    // The ticket is not on the board.
    TicketUnknown,
    // The ticket is on the machine.
    TicketOnMachine,
    // The rule does not permit the fault.
    FaultForbidden,
    // The clock is at its end.
    ClockEnded,
    // The list has no room for what is to be written.
    ListFull,
    // The plan breaks its conditions.
    PlanBroken,
    // The booking would be taken.
    NotLate,
    // A line of text is malformed at this field.
    Malformed { field: u32 },
}

impl Refusal {
    // The refusal's number and its detail, as the output of a shift has them: a format that is fixed.
    pub fn code(&self) -> (u32, u32)
        ensures code { (result.0, result.1) ≡ code_of self.now }
        ensures tells { refusal_of result.0 result.1 ≡ Some self.now }
    {
        match *self {
            Refusal::NoRule => (1, 0),
            Refusal::OutsideLimits => (2, 0),
            Refusal::TicketTaken => (3, 0),
            Refusal::BoardFull => (4, 0),
            Refusal::PlaceTooFar => (5, 0),
            Refusal::TableTooShort => (6, 0),
            Refusal::Late { ticket } => (7, ticket),
            Refusal::TicketUnknown => (8, 0),
            Refusal::TicketOnMachine => (9, 0),
            Refusal::FaultForbidden => (10, 0),
            Refusal::ClockEnded => (11, 0),
            Refusal::ListFull => (12, 0),
            Refusal::PlanBroken => (13, 0),
            Refusal::NotLate => (14, 0),
            Refusal::Malformed { field } => (15, field),
        }
    }
}
