// What holds of finishes and plans. These functions do nothing: their contracts are the theorems.
ghost use Rattle.schedules.specs.Clear.{FinishAtEnd, FinishAtFault};
ghost use Rattle.schedules.specs.Theorems.{Alike, Bridge, Decides, PlanArgument, Removing};

use rules::Rule;

// A job is completed with the first clear stretch as long as it is; with faults seen at the end, the first that is a whole number of runs after its start.
pub fn completion_is_least()
    ensures fault { FinishAtFault }
    ensures end { FinishAtEnd }
{}

// Quarter by quarter and run by run, every job finishes in the same quarter.
#[tactic(auto, using(crate::proofs::Bridge::bridge))]
pub fn grains_agree()
    ensures { Bridge }
{}

// What the earliest plan does not withstand no plan withstands.
pub fn plan_argument<R: Rule>(rule: &R)
    ensures ticket { PlanArgument (R.Rule.model rule.now) }
    ensures decides { Decides (R.Rule.model rule.now) }
{}

// On its own releases a board goes as it does in the earliest plan.
pub fn earliest_plan_alike<R: Rule>(rule: &R)
    ensures { Alike (R.Rule.model rule.now) }
{}

// Removing a waiting job makes no other job's worst finish later, unless that could be after 4,096 already.
pub fn removing_never_delays<R: Rule>(rule: &R)
    ensures { Removing (R.Rule.model rule.now) }
{}
