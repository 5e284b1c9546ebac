// Clean and spoiled quarters.
ghost use Rattle.board.specs.Quarters.{PassSeen, SpoilSeen, ended_in, passed as passed_of, quarter, spoiled as spoiled_of};
ghost use Rattle.std.specs.Prelude.{◌≡◌, ◌<◌, ◌≤◌, MatchBool};

use crate::{Board, Moment};
use calls::{Event, Refusal};
use inspections::Inspection;
use rules::Rule;

// The clock ends here.
const LAST: u32 = 4096;

impl<R: Rule + Drop, I: Inspection + Drop> Board<R, I> {
    // One clean quarter. The state is one of the rule's, so that the rule has a next one.
    pub fn pass(&mut self) -> Result<Event, Refusal>
        ensures quarter { quarter result self.new.moment ≡ passed_of (R.Rule.model self.old.rule) self.old.moment }
        ensures seen { PassSeen (R.Rule.model self.old.rule) self.old.moment (quarter result self.new.moment) }
        ensures kept { (self.new.rule ≡ self.old.rule) × (self.new.inspection ≡ self.old.inspection) }
    {
        if self.moment.is_over() {
            return Err(Refusal::ClockEnded);
        }
        let state = self.moment.state;
        let next = self.rule.after_clean(state).unwrap_or(state);
        self.moment.end_in(Ok(next))
    }

    // One spoiled quarter.
    pub fn spoil(&mut self) -> Result<Event, Refusal>
        ensures quarter { quarter result self.new.moment ≡ spoiled_of (R.Rule.model self.old.rule) self.old.moment }
        ensures seen { SpoilSeen (R.Rule.model self.old.rule) self.old.moment (quarter result self.new.moment) }
        ensures kept { (self.new.rule ≡ self.old.rule) × (self.new.inspection ≡ self.old.inspection) }
    {
        if self.moment.is_over() {
            return Err(Refusal::ClockEnded);
        }
        let next = self.rule.after_spoiled(self.moment.state);
        self.moment.end_in(next.ok_or(Refusal::FaultForbidden))
    }
}

impl Moment {
    // Whether the clock has ended. The rule is not asked then.
    fn is_over(&self) -> bool
        ensures { MatchBool result (4096 ≤ self.now.clock) (self.now.clock < 4096) }
    {
        self.clock >= LAST
    }

    // One quarter before the clock ends, which leads to the state or is refused.
    fn end_in(&mut self, state: Result<u32, Refusal>) -> Result<Event, Refusal>
        requires { self.old.clock < 4096 }
        ensures quarter { quarter result self.new ≡ ended_in self.old state }
    {
        self.state = state?;
        self.clock += 1;
        Ok(Event::Idle)
    }
}
