// Inspections: after how many quarters a run with a fault is given up.

#![tactic(auto)]

mod at_end;
mod at_fault;
mod inspection;

pub use at_end::AtEnd;
pub use at_fault::AtFault;
pub use inspection::{Inspection, in_run};

#[cfg(test)]
mod tests;
