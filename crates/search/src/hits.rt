// The hits of one run: how it is given up, for each quarter that its first fault can be in.
ghost use Rattle.std.specs.Prelude.{◌≡◌, ◌+◌, ◌^◌, ◌<◌, ◌≤◌, IfSome};
ghost use Rattle.search.specs.Hits.{Hit};
ghost use Rattle.search.specs.Rows.{Grew};

use crate::judge::Judge;
use crate::rows::{Row, keep};
use inspections::Inspection;
use rules::Rule;

// A run of this length that began at this time, with so many quarters gone.
#[derive(Clone, Copy)]
pub(crate) struct Underway {
    pub quarters: u32,
    pub gone: u32,
    pub begun: u32,
    ghost short: { quarters < 128 },
    ghost within: { gone ≤ quarters },
    ghost fits: { begun + 129 < 2 ^ 32 },
}

// The state after a fault in this state, or `None` where the rule permits none.
fn after_fault<R: Rule>(rule: &R, state: u32) -> Option<u32>
    requires { state < (R.Rule.model rule.now).size }
    ensures leads { result ≡ (R.Rule.model rule.now).spoiled state }
    ensures inside { IfSome result (λ spoiled. spoiled < (R.Rule.model rule.now).size) }
{
    rule.after_spoiled(state)
}

impl<R: Rule, I: Inspection> Judge<'_, R, I> {
    // Keeps in `next` how the run can be given up, which is in this state.
    #[inline]
    pub(crate) fn keep_hits(&self, run: Underway, state: u32, next: &mut Row)
        requires { state < (R.Rule.model self.now.clean.rule.now).size }
        ensures { Grew (Hit (R.Rule.model self.now.clean.rule.now) (I.Inspection.verdict self.now.inspection.now) run.quarters run.gone run.quarters state run.begun) next.old next.new }
    {
        let clean = self.clean;
        let mut at = state;
        for before in run.gone..run.quarters {
            if let Some(spoiled) = after_fault(clean.rule, at) {
                let given_up = self.inspection.given_up_after(run.quarters, before + 1);
                let then = clean.after_cleans(spoiled, given_up - (before + 1));
                keep(next, then, run.begun + given_up);
            }
            at = clean.after_clean(at);
        }
    }
}
