// A board, and how it is opened.
ghost use Rattle.std.specs.Prelude.{◌≡◌, ◌<◌, ◌≤◌, [], MatchResult};
ghost use Rattle.board.specs.Faults.{Seen};
ghost use Rattle.calls.specs.declared.refusal.Refusal.TheVariants.{NoRule};

use crate::Moment;
use calls::Refusal;
use inspections::Inspection;
use rules::Rule;

// A board over a fault rule and an inspection.
#[derive(Drop)]
pub struct Board<R: Rule, I: Inspection> {
    pub(crate) rule: R,
    pub(crate) inspection: I,
    pub(crate) moment: Moment,
    ghost in_shift: { moment.clock ≤ 4096 },
}

impl<R: Rule + Drop, I: Inspection + Drop> Board<R, I> {
    // A board at clock 0 in the rule's opening state, or a refusal where the rule has no state.
    pub fn open(rule: R, inspection: I) -> Result<Board<R, I>, Refusal>
        ensures cases { MatchResult result (λ b. (0 < (R.Rule.model rule).size) × (b.rule ≡ rule) × (b.inspection ≡ inspection) × (b.moment.clock ≡ 0) × (b.moment.state ≡ (R.Rule.model rule).opening)) (λ e. ((R.Rule.model rule).size ≡ 0) × (e ≡ NoRule)) }
        ensures seen { MatchResult result (λ b. Seen (R.Rule.model rule) [] b.moment) (λ _. (R.Rule.model rule).size ≡ 0) }
    {
        if rule.size() == 0 {
            return Err(Refusal::NoRule);
        }
        let moment = Moment {
            clock: 0,
            state: rule.opening(),
        };
        Ok(Board {
            rule,
            inspection,
            moment,
        })
    }
}
