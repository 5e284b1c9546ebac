// Inspection at the end of the run.
ghost use Rattle.inspections.specs.Verdict.{at_end};
ghost use Rattle.std.proofs.Common.{rules};

use crate::inspection::{Inspection, in_run};

// The run goes on to its end, and is then found spoiled.
#[derive(Clone, Copy, PartialEq, Eq, Debug)]
pub struct AtEnd;

impl Inspection for AtEnd {
    const LETTER: char = 'H';

    ghost LETTER = { 72 };

    ghost verdict = { λ _. at_end };

    ghost bounded = { Prim.search rules };

    fn given_up_after(&self, length: u32, first_fault: u32) -> u32 {
        in_run(length, first_fault, length)
    }
}
