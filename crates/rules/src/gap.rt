// The rule of faults so many quarters apart.
ghost use Rattle.std.specs.Prelude.{◌≡◌};
ghost use Rattle.rules.specs.Gap.{gap, GapAllows};
ghost use Rattle.rules.specs.GapLaws.{gap_lawful};

use crate::rule::{Rule, capped_size};

// Faults at least so many quarters apart: the state is one less than the distance from the last fault to the coming quarter,
// and the last state stands for all that is farther.
#[derive(Clone, Copy, PartialEq, Eq, Debug)]
pub struct Gap {
    quarters: u32,
}

impl Gap {
    // The rule that permits a fault so many quarters after the last one, or later. With 0 or more than 512 it has no state.
    pub fn new(quarters: u32) -> Gap
        ensures value { result.quarters ≡ quarters }
        ensures allows { GapAllows quarters }
    {
        gap_allows(quarters);
        Gap { quarters }
    }
}

// Does nothing: its contract is what the rule allows.
#[tactic(auto, using(crate::specs::GapLaws::gap_allows))]
fn gap_allows(quarters: u32)
    ensures { GapAllows quarters }
{}

impl Rule for Gap {
    ghost model = { λ g. gap g.quarters };

    ghost lawful = { λ r. gap_lawful _ };

    fn size(&self) -> u32 {
        capped_size(self.quarters)
    }

    fn opening(&self) -> u32 {
        self.size().saturating_sub(1)
    }

    fn after_clean(&self, state: u32) -> Option<u32> {
        let size = self.size();
        if state < size {
            Some((state + 1).min(size - 1))
        } else {
            None
        }
    }

    fn after_spoiled(&self, state: u32) -> Option<u32> {
        let size = self.size();
        (state < size && state + 1 == size).then_some(0)
    }
}
