// The board: a fault rule, an inspection and a clock.

#![tactic(auto)]

mod moment;
mod opening;
mod quarters;

pub use moment::Moment;
pub use opening::Board;
