// What a line is answered.
ghost use Rattle.shift_text.specs.Replies.{detail};
ghost use Rattle.std.specs.Prelude.{Some};

use calls::{Answer, Event};
use std::fmt;

// What a line of a shift is answered where it is not refused.
#[derive(Clone, Copy, PartialEq, Eq, Debug)]
pub enum Reply {
    // The shift is open, under a rule of this size.
    Opened { size: u32 },
    // What came of the call.
    Answered(Answer),
}

// The detail: a number, and before it the letter of an event.
impl fmt::Display for Reply {
    ghost output = { λ r. Some (detail r) };

    #[tactic(auto, using(crate::proofs::Replying::zero_digit))]
    fn fmt<W: fmt::Write>(&self, f: &mut fmt::Formatter<W>) -> fmt::Result {
        match *self {
            Reply::Opened { size } => write!(f, "{size}"),
            Reply::Answered(Answer::Taken { worst }) => write!(f, "{worst}"),
            Reply::Answered(Answer::Withdrawn) => write!(f, "0"),
            Reply::Answered(Answer::Quarter(event)) => match event {
                Event::Idle => write!(f, "I0"),
                Event::Running { ticket } => write!(f, "R{ticket}"),
                Event::Again { ticket } => write!(f, "A{ticket}"),
                Event::Finished { ticket } => write!(f, "F{ticket}"),
            },
        }
    }
}
