// Runs as bytes (document 01, "Runs and ranks"): one byte a setting, alone or stored one behind the other.
#![tactic(auto)]

mod faults;
mod stored;

pub use crate::faults::check_run;
pub use crate::stored::{check_plan, run_end, setting};
