// How the first of the fields that are left of a line is read.
ghost use Rattle.shift_text.specs.Fields.{Field, Taken, first, left, number as number_of, one_byte};
ghost use Rattle.shift_text.specs.Openings.{amount, inspection};
ghost use Rattle.std.specs.Option.{option_map};
ghost use Rattle.std.specs.Prelude.{Option};

use crate::choice::InspectionKind;
use crate::numbers::{NO_NUMBER, number};

// What a field of a line can write.
pub(crate) trait FromField: Sized {
    // What a field writes, if it does.
    ghost written: { Field → Option Self };

    // What the first field writes, and the fields after it. None where the field is missing or wrong.
    fn from_first(fields: Option<&[u8]>) -> Option<(Self, Option<&[u8]>)>
        ensures { Taken (λ x. x.now) (first written (left (option_map (λ x. x.now) fields.entry))) result };
}

// A number.
impl FromField for u32 {
    ghost written = { number_of };

    #[tactic(auto, using(crate::proofs::Splitting::by_longest))]
    fn from_first(fields: Option<&[u8]>) -> Option<(u32, Option<&[u8]>)> {
        let (value, rest) = number(fields?);
        if value == NO_NUMBER {
            return None;
        }
        match rest {
            [] => Some((value, None)),
            [b'\t', after @ ..] => Some((value, Some(after))),
            _ => None,
        }
    }
}

// A letter: the field's only byte.
impl FromField for char {
    ghost written = { one_byte };

    #[tactic(auto, using(crate::proofs::Letters::by_first_bytes))]
    fn from_first(fields: Option<&[u8]>) -> Option<(char, Option<&[u8]>)> {
        match fields? {
            [b'\t', ..] => None,
            [letter] => Some((char::from(*letter), None)),
            [letter, b'\t', after @ ..] => Some((char::from(*letter), Some(after))),
            _ => None,
        }
    }
}

// A number, or nothing where the field is a hyphen.
impl FromField for Option<u32> {
    ghost written = { amount };

    #[tactic(auto, using(crate::proofs::Amounts::amount_number))]
    fn from_first(fields: Option<&[u8]>) -> Option<(Option<u32>, Option<&[u8]>)> {
        if let Some(('-', after)) = char::from_first(fields) {
            return Some((None, after));
        }
        let (number, after) = u32::from_first(fields)?;
        Some((Some(number), after))
    }
}

// An inspection, by its letter.
impl FromField for InspectionKind {
    ghost written = { inspection };

    fn from_first(fields: Option<&[u8]>) -> Option<(InspectionKind, Option<&[u8]>)> {
        let (letter, after) = char::from_first(fields)?;
        Some((InspectionKind::of_letter(letter)?, after))
    }
}
