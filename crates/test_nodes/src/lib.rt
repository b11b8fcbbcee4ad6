//! Tests of nodes and of their parts, and whole runs of a node. They are in a crate above what they test, so that each of those
//! crates is proved once, and without them.
#![tactic(auto)]

mod call;
mod whole_runs;

pub use call::Call;
pub use whole_runs::follow;

#[cfg(test)]
mod node_tests;
#[cfg(test)]
mod round_tests;
#[cfg(test)]
mod rule_tests;
#[cfg(test)]
mod scheduler_tests;
#[cfg(test)]
mod stream_tests;
#[cfg(test)]
mod table_tests;
