// Rules for faults: which quarters may be spoiled, as states that a clean or a spoiled quarter moves.

#![tactic(auto)]

mod both;
mod count;
mod gap;
mod rule;

pub use both::Both;
pub use count::Count;
pub use gap::Gap;
pub use rule::Rule;

#[cfg(test)]
mod tests;
