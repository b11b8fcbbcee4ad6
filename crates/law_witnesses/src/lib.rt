//! What all laws of valid (`Lawful`) runs ask for is met by a worked run.
#![tactic(auto)]

mod worked_run;

pub use worked_run::a_valid_run_is_there;
