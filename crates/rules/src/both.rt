// Two rules at once.
ghost use Rattle.std.specs.Prelude.{◌≡◌, ℕ, ◌<◌, Some};
ghost use Rattle.rules.specs.Both.{joined, both, Parts, BothAllows};
ghost use Rattle.rules.specs.BothLaws.{both_lawful};

use crate::rule::{Rule, capped_size};

// Two rules at once. A state is a pair of theirs: the first rule's state times the second's size, plus the second rule's state.
#[derive(Drop)]
pub struct Both<A: Rule, B: Rule> {
    first: A,
    second: B,
}

impl<A: Rule, B: Rule> Both<A, B> {
    // The rule that permits what both rules permit. Where the product of their sizes passes 512 it has no state.
    pub fn new(first: A, second: B) -> Both<A, B>
        ensures first { result.first ≡ first }
        ensures second { result.second ≡ second }
        ensures allows { BothAllows (A.Rule.model first) (B.Rule.model second) }
    {
        both_allow(&first, &second);
        Both { first, second }
    }
}

// Does nothing: its contract is what the two rules allow.
#[tactic(auto, using(crate::specs::BothLaws::both_allow))]
fn both_allow<A: Rule, B: Rule>(first: &A, second: &B)
    ensures { BothAllows (A.Rule.model first.now) (B.Rule.model second.now) }
{}

impl<A: Rule, B: Rule> Both<A, B> {
    // The states of the two rules that a state stands for, or `None` where the number is no state.
    fn parts(&self, state: u32) -> Option<(u32, u32)>
        ensures { Parts (A.Rule.model self.now.first) (B.Rule.model self.now.second) state result }
    {
        if state >= self.size() {
            return None;
        }
        let states = self.second.size();
        Some((state / states, state % states))
    }

    // The answers of the two rules as one: a state where both give one.
    fn joined(&self, first: Option<u32>, second: Option<u32>) -> Option<u32>
        requires first { (x : ℕ) → first ≡ Some x → x < 512 }
        requires second { (y : ℕ) → second ≡ Some y → y < 512 }
        ensures { result ≡ joined (B.Rule.model self.now.second).size first second }
    {
        Some(first? * self.second.size() + second?)
    }
}

impl<A: Rule, B: Rule> Rule for Both<A, B> {
    ghost model = { λ b. both (A.Rule.model b.first) (B.Rule.model b.second) };

    ghost lawful = { λ r. both_lawful _ _ (A.Rule.lawful r.first) (B.Rule.lawful r.second) };

    fn size(&self) -> u32 {
        capped_size(self.first.size() * self.second.size())
    }

    fn opening(&self) -> u32 {
        if self.size() == 0 {
            return 0;
        }
        self.first.opening() * self.second.size() + self.second.opening()
    }

    fn after_clean(&self, state: u32) -> Option<u32> {
        let (x, y) = self.parts(state)?;
        self.joined(self.first.after_clean(x), self.second.after_clean(y))
    }

    fn after_spoiled(&self, state: u32) -> Option<u32> {
        let (x, y) = self.parts(state)?;
        self.joined(self.first.after_spoiled(x), self.second.after_spoiled(y))
    }
}
