// Inspection in the quarter of the fault.
ghost use Rattle.inspections.specs.Verdict.{at_fault};
ghost use Rattle.std.proofs.Common.{rules};

use crate::inspection::{Inspection, in_run};

// The run is given up with its first spoiled quarter.
#[derive(Clone, Copy, PartialEq, Eq, Debug)]
pub struct AtFault;

impl Inspection for AtFault {
    const LETTER: char = 'E';

    ghost LETTER = { 69 };

    ghost verdict = { λ _. at_fault };

    ghost bounded = { Prim.search rules };

    fn given_up_after(&self, length: u32, first_fault: u32) -> u32 {
        in_run(length, first_fault, first_fault)
    }
}
