//! Bounds that a text can be asked for: which of the laws on time hold of a scenario, whatever is lost, and which are open and why.
//!
//! The checkers decide premises that are said in the words of the text: which hosts are on, by the lines of its script. What holds does
//! so on the bus with the losses of every seed.
#![tactic(auto)]

mod boot;
mod bounds;
mod breaking_line;
mod failovers;
mod finding;
mod first_rounds;
mod joining;
mod power_line;
mod power_lines;
mod ratios_in_force;
mod reach;
mod verdict;

pub use bounds::findings;
pub use breaking_line::BreakingLine;
pub use finding::{Bound, Finding, Reason, Verdict};
pub use joining::joins;
pub use power_line::PowerLine;
