// An inspection that is neither at the end nor in the quarter of the fault.
ghost use Rattle.search_tests.specs.Later.{quarter_later};
ghost use Rattle.std.proofs.Common.{rules};

use inspections::{Inspection, in_run};

// The run is given up one quarter after its first fault, at its end at the latest.
#[derive(Clone, Copy)]
pub(crate) struct QuarterLater;

impl Inspection for QuarterLater {
    const LETTER: char = 'Q';

    ghost LETTER = { 81 };

    ghost verdict = { λ _. quarter_later };

    ghost bounded = { Prim.search rules };

    fn given_up_after(&self, length: u32, first_fault: u32) -> u32 {
        in_run(
            length,
            first_fault,
            length.min(first_fault.saturating_add(1)),
        )
    }
}
