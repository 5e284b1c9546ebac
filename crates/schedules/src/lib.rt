// Finishes and plans: when jobs finish, and why waiting never helps.

#![tactic(auto)]

pub mod run;
mod theorems;

pub use run::{Kind, Moment, Run};
pub use theorems::{
    completion_is_least, earliest_plan_alike, grains_agree, plan_argument, removing_never_delays,
};
