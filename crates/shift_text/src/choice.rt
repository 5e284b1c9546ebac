// What the first line of a shift chooses.
ghost use Rattle.std.specs.Prelude.{◌≡◌};

use inspections::Inspection;

// The fault rule of a shift.
#[derive(Clone, Copy, PartialEq, Eq, Debug)]
pub enum FaultRule {
    // At most so many faults.
    Count(u32),
    // Faults at least so many quarters apart.
    Gap(u32),
    // Both at once.
    Both { count: u32, gap: u32 },
}

// The inspection of a shift.
#[derive(Clone, Copy, PartialEq, Eq, Debug)]
pub enum InspectionKind {
    // A spoiled run is given up at its end.
    AtEnd,
    // A spoiled run is given up in the quarter of its first fault.
    AtFault,
}

impl InspectionKind {
    ghost use Rattle.shift_text.specs.Openings.{kind};

    // The inspection that the letter names, if one does. No `TryFrom`, since there is nothing to say of a letter that names none.
    pub(crate) fn of_letter(letter: char) -> Option<InspectionKind>
        ensures { result ≡ kind letter }
    {
        match letter {
            <inspections::AtEnd as Inspection>::LETTER => Some(InspectionKind::AtEnd),
            <inspections::AtFault as Inspection>::LETTER => Some(InspectionKind::AtFault),
            _ => None,
        }
    }
}

// How a shift is opened.
#[derive(Clone, Copy, PartialEq, Eq, Debug)]
pub struct Opening {
    pub rule: FaultRule,
    pub inspection: InspectionKind,
}
