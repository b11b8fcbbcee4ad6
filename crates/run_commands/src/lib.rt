//! The command line, from the bytes read to the bytes written.
#![tactic(auto)]

mod answer;
mod bus_answer;
mod check_answer;
mod command;
mod deadline_answer;
mod deadline_report;
mod demo_answer;
mod flood_answer;
mod log_answer;
mod program;
mod report;
mod return_answer;
mod return_lines;
mod run_answer;
mod summary;
mod times_answer;
mod top_call;

pub use scenario_clocks::scenario_clocks_keep_the_drift_law;
pub use scenario_maker::laws::made_scenarios_are_accepted;
pub use top_call::{Outcome, top};
