// The first line of a shift: the fault rule and the inspection.
ghost use Rattle.shift_text.specs.Openings.{opening as opening_of, rule as rule_of};
ghost use Rattle.shift_text.specs.Texts.{Read, WritableOpening, opening_text};
ghost use Rattle.std.specs.Prelude.{◌≡◌};

use crate::choice::{FaultRule, Opening};
use crate::fields::Fields;
use calls::Refusal;

// The rule of a count and a gap, each of which may be absent. None where both are.
fn fault_rule(count: Option<u32>, gap: Option<u32>) -> Option<FaultRule>
    ensures { result ≡ rule_of count gap }
{
    match (count, gap) {
        (None, None) => None,
        (Some(count), None) => Some(FaultRule::Count(count)),
        (None, Some(gap)) => Some(FaultRule::Gap(gap)),
        (Some(count), Some(gap)) => Some(FaultRule::Both { count, gap }),
    }
}

// The opening that the first line writes: O, count, gap and inspection. Where both amounts are absent the gap is wrong.
#[tactic(auto, using(crate::proofs::OpeningRead::opening_read))]
pub fn read_opening(line: &[u8]) -> Result<Opening, Refusal>
    ensures answer { result ≡ opening_of line.now }
    ensures text { Read opening_of WritableOpening opening_text line.now result }
{
    let (letter, mut fields) = Fields::lettered(line)?;
    if letter != 'O' {
        return Err(Refusal::Malformed { field: 1 });
    }
    let count = fields.next()?;
    let gap = fields.next()?;
    let rule = fault_rule(count, gap).ok_or(Refusal::Malformed { field: 3 })?;
    let inspection = fields.next()?;
    fields.end(Opening { rule, inspection })
}
