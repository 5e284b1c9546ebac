// What holds of logs. These functions do nothing: their contracts are the theorems.
ghost use Rattle.reckoning.specs.Theorems.{AnyCalls, DatesKept, DecidesBookings, EveryCallAnswered, LateExactly, LedSound, OneAnswer, OneWorld, Withdrawing};

use rules::Rule;

// Every world that a log leads to is sound: nobody can be late under any list that is still allowed.
pub fn every_log_is_sound<R: Rule>(rule: &R)
    ensures { LedSound (R.Rule.model rule.now) }
{}

// Every job taken is on the board with time left, or was withdrawn, or finished by its due quarter.
pub fn dates_are_kept<R: Rule>(rule: &R)
    ensures { DatesKept (R.Rule.model rule.now) }
{}

// A booking is refused as late exactly where every plan fails, and every plan fails for the ticket that is named.
pub fn late_exactly<R: Rule>(rule: &R)
    ensures { LateExactly (R.Rule.model rule.now) }
{}

// A board that decides by the earliest plan answers as reckoned.
pub fn earliest_plan_decides<R: Rule>(rule: &R)
    ensures { DecidesBookings (R.Rule.model rule.now) }
{}

// Every call has exactly one answer, a log leads to one world, and any list of calls has a log.
pub fn one_answer<R: Rule>(rule: &R)
    ensures answer { OneAnswer (R.Rule.model rule.now) }
    ensures world { OneWorld (R.Rule.model rule.now) }
    ensures answered { EveryCallAnswered (R.Rule.model rule.now) }
    ensures logs { AnyCalls (R.Rule.model rule.now) }
{}

// Withdrawing a job from a sound board brings no other job's worst finish later.
pub fn withdrawing_never_delays<R: Rule>(rule: &R)
    ensures { Withdrawing (R.Rule.model rule.now) }
{}
