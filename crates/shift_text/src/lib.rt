// The text of a shift: a line to a call, an answer to a line.

#![tactic(auto)]

mod choice;
mod fields;
mod line_buffer;
mod lines;
mod numbers;
mod one_field;
mod opening;
mod reply;
mod reply_line;

pub use choice::{FaultRule, InspectionKind, Opening};
pub use fields::LONGEST;
pub use line_buffer::LineBuffer;
pub use lines::read_call;
pub use numbers::{NO_NUMBER, number};
pub use opening::read_opening;
pub use reply::Reply;
pub use reply_line::ReplyLine;

#[cfg(test)]
mod tests;
