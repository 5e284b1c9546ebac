// What is asked of a board and what it answers.

#![tactic(auto)]

pub mod answer;
pub mod call;
pub mod refusal;

pub use answer::{Answer, Event, Row};
pub use call::{Call, Job};
pub use refusal::Refusal;
