//! The report of a scenario's run on the bus: what is delivered, what is lost before it is queued, and what each node costs.
#![tactic(auto)]

mod cost_lines;
mod event_lines;
mod short_words;

pub use cost_lines::write_costs;
pub use event_lines::{report_lines, write_report_lines};
