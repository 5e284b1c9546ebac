// What an inspection answers, and the bounds that it keeps.
ghost use Rattle.std.specs.Prelude.{◌≡◌, ℕ};
ghost use Rattle.inspections.specs.Verdict.{Verdict, Bounded, in_run};

// The answer where the quarter is in a run of this length, and 0 where it is not.
pub fn in_run(length: u32, quarter: u32, answer: u32) -> u32
    ensures { result ≡ in_run length quarter answer }
{
    if 1 <= quarter && quarter <= length {
        answer
    } else {
        0
    }
}

// An inspection: when a run with a fault is given up.
pub trait Inspection {
    // The letter that names the inspection.
    const LETTER: char;

    ghost LETTER: { ℕ };

    ghost verdict: { Self → Verdict };

    // After how many quarters a run of this length is given up, where its first fault is in this quarter of it, counted from 1;
    // 0 where that quarter is not in the run: a rule of the project fixes this number, so that an answer is a number at any input.
    fn given_up_after(&self, length: u32, first_fault: u32) -> u32
        ensures { result ≡ verdict self.now length first_fault };

    // The letter, for any inspection.
    final fn sign() -> char
        ensures { result ≡ LETTER }
    {
        Self::LETTER
    }

    ghost bounded: { (i : Self) → Bounded (verdict i) };
}
