// The reckoning of a log: how every call is answered, and what every log shows.

#![tactic(auto)]

mod theorems;

pub use theorems::{
    dates_are_kept, earliest_plan_decides, every_log_is_sound, late_exactly, one_answer,
    withdrawing_never_delays,
};
