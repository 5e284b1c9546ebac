// The rule of at most so many faults.
ghost use Rattle.std.specs.Prelude.{◌≡◌};
ghost use Rattle.rules.specs.Count.{count, CountAllows};
ghost use Rattle.rules.specs.CountLaws.{count_lawful};

use crate::rule::{Rule, capped_size};

// At most so many faults: the state is how many are left.
#[derive(Clone, Copy, PartialEq, Eq, Debug)]
pub struct Count {
    faults: u32,
}

impl Count {
    // The rule that permits at most so many faults. With 512 or more it has no state.
    pub fn new(faults: u32) -> Count
        ensures value { result.faults ≡ faults }
        ensures allows { CountAllows faults }
    {
        count_allows(faults);
        Count { faults }
    }
}

// Does nothing: its contract is what the rule allows.
#[tactic(auto, using(crate::specs::CountLaws::count_allows))]
fn count_allows(faults: u32)
    ensures { CountAllows faults }
{}

impl Rule for Count {
    ghost model = { λ c. count c.faults };

    ghost lawful = { λ r. count_lawful _ };

    fn size(&self) -> u32 {
        capped_size(self.faults.saturating_add(1))
    }

    fn opening(&self) -> u32 {
        self.size().saturating_sub(1)
    }

    fn after_clean(&self, state: u32) -> Option<u32> {
        (state < self.size()).then_some(state)
    }

    fn after_spoiled(&self, state: u32) -> Option<u32> {
        if 0 < state && state < self.size() {
            Some(state - 1)
        } else {
            None
        }
    }
}
