//! The same command on the same input gives the same report.
#![tactic(auto)]

mod one_report;
mod plan_report;

pub use one_report::a_command_has_one_report;
pub use plan_report::a_planners_command_has_one_report;
