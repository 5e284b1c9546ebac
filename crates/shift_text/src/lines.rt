// A line of text to a call.
ghost use Rattle.shift_text.specs.Lines.{call as call_of};
ghost use Rattle.shift_text.specs.Texts.{Read, Writable, text};
ghost use Rattle.std.specs.Prelude.{◌≡◌};

use crate::fields::Fields;
use calls::{Call, Job, Refusal};

// The call that a line after the first writes.
#[tactic(auto, using(crate::proofs::CallRead::call_read))]
pub fn read_call(line: &[u8]) -> Result<Call, Refusal>
    ensures answer { result ≡ call_of line.now }
    ensures text { Read call_of Writable text line.now result }
{
    let (letter, mut fields) = Fields::lettered(line)?;
    match letter {
        'B' => {
            let ticket = fields.next()?;
            let place = fields.next()?;
            let release = fields.next()?;
            let due = fields.next()?;
            let length = fields.next()?;
            let job = Job {
                ticket,
                release,
                due,
                length,
            };
            fields.end(Call::Book { place, job })
        }
        'W' => {
            let ticket = fields.next()?;
            fields.end(Call::Withdraw { ticket })
        }
        'P' => fields.end(Call::Pass),
        'S' => fields.end(Call::Spoil),
        _ => Err(Refusal::Malformed { field: 1 }),
    }
}
