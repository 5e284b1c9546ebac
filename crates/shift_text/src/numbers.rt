// Numbers in a line of text.
ghost use Rattle.std.specs.Prelude.{◌<◌};
ghost use Rattle.shift_text.specs.Numbers.{Longest, Lengthened};

// What the reader answers where there is no number: one more than the largest. A rule of the project has it answer a plain tuple,
// inside no `Option` or `Result`.
pub const NO_NUMBER: u32 = 100_000;

// The value with the digits at the front of the bytes behind its own, while it has fewer than five, and the bytes after them. It
// calls itself, since its contract says of the digits that are left what a loop would need besides as an invariant.
#[tactic(auto, using(crate::proofs::Digits::lengthened_more))]
fn lengthened(value: u32, bytes: &[u8]) -> (u32, &[u8])
    requires positive { 0 < value }
    requires small { value < 100000 }
    ensures { Lengthened value bytes.now result.0 result.1.now }
{
    match bytes {
        [digit @ b'0'..=b'9', rest @ ..] if value < 10_000 => {
            lengthened(value * 10 + u32::from(*digit - b'0'), rest)
        }
        _ => (value, bytes),
    }
}

// The longest number that the bytes begin with, and the bytes after it. Where they begin with none the value is `NO_NUMBER`
// and no byte is read.
#[tactic(auto, using(crate::proofs::Digits::longest_more, crate::proofs::Digits::longest_zero))]
pub fn number(bytes: &[u8]) -> (u32, &[u8])
    ensures { Longest bytes.now result.0 result.1.now }
{
    match bytes {
        [b'0', rest @ ..] => (0, rest),
        [digit @ b'1'..=b'9', rest @ ..] => lengthened(u32::from(*digit - b'0'), rest),
        _ => (NO_NUMBER, bytes),
    }
}
