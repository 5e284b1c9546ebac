// A line to its answer.
ghost use Rattle.shift.specs.Answers.{answered, heard as heard_of, turn, unheard as unheard_of};
ghost use Rattle.std.specs.Prelude.{◌≡◌, ℕ, List};
ghost use Rattle.shift_text.specs.Lines.{kept};

use board::Board;
use calls::{Answer, Call, Refusal};
use inspections::Inspection;
use rules::Rule;
use shift_text::read_call;

// Whether the line begins with the letter of a booking or a withdrawal, which are not taken yet.
fn unheard(line: &[u8]) -> bool
    ensures { result ≡ unheard_of line.now }
{
    matches!(line, [b'B' | b'W', ..])
}

// The call of a line, of which the first bytes may stand for the whole. A line that is not taken yet is malformed.
#[tactic(auto, using(crate::proofs::Hearing::heard_kept))]
fn heard(line: &[u8]) -> Result<Call, Refusal>
    ensures answer { result ≡ heard_of line.now }
    ensures cut { (whole : List ℕ) → line.now ≡ kept whole → result ≡ heard_of whole }
{
    if unheard(line) {
        return Err(Refusal::Malformed { field: 1 });
    }
    read_call(line)
}

// The board's answer to a line after the first.
pub fn answer<R: Rule + Drop, I: Inspection + Drop>(
    board: &mut Board<R, I>,
    line: &[u8],
) -> Result<Answer, Refusal>
    ensures turn { turn result board.new.moment ≡ answered (R.Rule.model board.old.rule) board.old.moment (heard_of line.now) }
    ensures cut { (whole : List ℕ) → line.now ≡ kept whole → turn result board.new.moment ≡ answered (R.Rule.model board.old.rule) board.old.moment (heard_of whole) }
    ensures kept { (board.new.rule ≡ board.old.rule) × (board.new.inspection ≡ board.old.inspection) }
{
    match heard(line)? {
        Call::Pass => Ok(Answer::Quarter(board.pass()?)),
        Call::Spoil => Ok(Answer::Quarter(board.spoil()?)),
        // No line comes here, since `heard` refuses every line that begins with their letters.
        Call::Book { .. } | Call::Withdraw { .. } => Err(Refusal::Malformed { field: 1 }),
    }
}
