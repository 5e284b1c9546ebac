// The exact search: the worst finish of every job of a board under every list of faults that the rule still allows, or the first job that can be late.

#![tactic(auto)]

mod board_search;
mod first_starts;
mod fits;
mod hits;
mod jobs;
mod judge;
mod machine;
mod powers;
mod rounds;
mod rows;
mod runs;
#[cfg(test)]
mod tests;

pub use board_search::search;
