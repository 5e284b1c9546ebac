// The fields of a line of text, read one after another.
ghost use Rattle.shift_text.specs.Fields.{left};
ghost use Rattle.shift_text.specs.Lines.{Took, ended, lettered};
ghost use Rattle.std.specs.Option.{option_map};
ghost use Rattle.std.specs.Prelude.{◌≡◌, ◌+◌, MatchResult, None, Some, length};

use crate::one_field::FromField;
use calls::Refusal;
use std::marker::Model;

// A line has at most so many bytes, its line feed not counted.
pub const LONGEST: usize = 80;

// What is not read yet of a line, and the number of its first field.
#[derive(Drop)]
pub(crate) struct Fields<'a> {
    unread: Option<&'a [u8]>,
    next: u32,
}

// A clause sees the fields that are left. They and their numbers are few, so that the next number fits.
impl<'a> Model for Fields<'a> {
    ghost use Rattle.shift_text.specs.Fields.{Unread, left};
    ghost use Rattle.std.specs.Option.{option_map};
    ghost use Rattle.std.specs.Prelude.{◌+◌, ◌≤◌, length};

    ghost Value = { Unread };

    ghost view = { λ f. record { fields = left (option_map (λ x. x.now) f.unread); next = f.next } };

    ghost invariant = { λ f. f.next + length (left (option_map (λ x. x.now) f.unread)) ≤ 100 };
}

impl<'a> Fields<'a> {
    // The letter of the line and the fields after it. A line that is too long has no letter.
    #[tactic(auto, using(crate::proofs::Endings::length_fields))]
    pub(crate) fn lettered(line: &'a [u8]) -> Result<(char, Fields<'a>), Refusal>
        ensures { MatchResult result (λ p. (lettered line.now ≡ Some (p.0, p.1.fields)) × (p.1.next ≡ 2)) (λ e. (lettered line.now ≡ None) × (e ≡ Refusal.Malformed 1)) }
    {
        if line.len() > LONGEST {
            return Err(Refusal::Malformed { field: 1 });
        }
        let mut fields = Fields {
            unread: Some(line),
            next: 1,
        };
        let letter = fields.next()?;
        Ok((letter, fields))
    }

    // What the next field writes. A rule of the project: the field is read into an `Option`, which `let else` takes apart, and the
    // failure names the field.
    pub(crate) fn next<T: FromField>(&mut self) -> Result<T, Refusal>
        ensures { Took T.written self.old self.new result }
    {
        let Some((value, after)) = T::from_first(self.unread) else {
            return Err(self.malformed());
        };
        self.unread = after;
        self.next += 1;
        Ok(value)
    }

    // What was read of the whole line, where no field is left.
    #[tactic(auto, using(crate::proofs::Endings::ended_more))]
    pub(crate) fn end<T: Drop>(self, read: T) -> Result<T, Refusal>
        ensures { result ≡ ended self.entry.next self.entry.fields read }
    {
        if self.unread.is_some() {
            return Err(self.malformed());
        }
        Ok(read)
    }

    // The next field is missing, wrong or too many.
    fn malformed(&self) -> Refusal
        ensures { result ≡ Refusal.Malformed self.now.next }
    {
        Refusal::Malformed { field: self.next }
    }
}
