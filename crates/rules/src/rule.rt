// What a fault rule answers, and the laws that it keeps.
ghost use Rattle.std.specs.Prelude.{◌≡◌};
ghost use Rattle.rules.specs.Model.{Model, Laws, capped, after_clean, after_spoiled};

// A rule for faults: a machine with numbered states, which each quarter moves.
pub trait Rule {
    ghost model: { Self → Model };

    // How many states the rule has: they are numbered from 0. A rule of size 0 is no rule: a rule of the project fixes this number, which the shift prints.
    fn size(&self) -> u32
        ensures { result ≡ (model self.now).size };

    // The state before the first quarter, or 0, a number fixed likewise, where the rule has no state.
    fn opening(&self) -> u32
        ensures { result ≡ (model self.now).opening };

    // The state after a clean quarter, or `None` where the number is no state.
    fn after_clean(&self, state: u32) -> Option<u32>
        ensures { result ≡ after_clean (model self.now) state };

    // The state after a spoiled quarter, or `None` where the rule permits no fault or the number is no state.
    fn after_spoiled(&self, state: u32) -> Option<u32>
        ensures { result ≡ after_spoiled (model self.now) state };

    ghost lawful: { (r : Self) → Laws (model r) };
}

// The most states that a rule has.
const MOST: u32 = 512;

// The size, or 0 where it would pass the most.
pub(crate) fn capped_size(states: u32) -> u32
    ensures { result ≡ capped states }
{
    if states <= MOST { states } else { 0 }
}
