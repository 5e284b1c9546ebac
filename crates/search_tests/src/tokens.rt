// A fault rule that is neither a count nor a gap.
ghost use Rattle.search_tests.specs.Tokens.{tokens};
ghost use Rattle.search_tests.specs.TokensLaws.{tokens_lawful};

use rules::Rule;

// Each fault takes a token, and each clean quarter brings one back, up to so many.
#[derive(Clone, Copy)]
pub(crate) struct Tokens {
    pub most: u32,
}

impl Rule for Tokens {
    ghost model = { λ t. tokens t.most };

    ghost lawful = { λ r. tokens_lawful _ };

    fn size(&self) -> u32 {
        if self.most < 512 { self.most + 1 } else { 0 }
    }

    fn opening(&self) -> u32 {
        self.size().saturating_sub(1)
    }

    fn after_clean(&self, state: u32) -> Option<u32> {
        if state < self.size() {
            Some((state + 1).min(self.opening()))
        } else {
            None
        }
    }

    fn after_spoiled(&self, state: u32) -> Option<u32> {
        if 0 < state && state < self.size() {
            Some(state - 1)
        } else {
            None
        }
    }
}
