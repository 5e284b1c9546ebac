// A count whose states are numbered the other way round.
ghost use Rattle.search_bench.specs.Used.{used};
ghost use Rattle.search_bench.specs.UsedLaws.{used_lawful};

use rules::Rule;

// At most so many faults: the state is how many have come.
#[derive(Clone, Copy)]
pub(crate) struct Used {
    pub most: u32,
}

impl Rule for Used {
    ghost model = { λ u. used u.most };

    ghost lawful = { λ r. used_lawful _ };

    fn size(&self) -> u32 {
        if self.most < 512 { self.most + 1 } else { 0 }
    }

    fn opening(&self) -> u32 {
        0
    }

    fn after_clean(&self, state: u32) -> Option<u32> {
        (state < self.size()).then_some(state)
    }

    fn after_spoiled(&self, state: u32) -> Option<u32> {
        if state < self.size() && state + 1 < self.size() {
            Some(state + 1)
        } else {
            None
        }
    }
}
