//! Backup hosts that go back to a lower channel on which they received a schedule.
#![tactic(auto)]

mod candidates;
mod finders;
mod follow;
mod idle_trails;
pub mod laws;
mod probes;
mod restart;
mod returned;
mod runner;
mod transmissions;

pub use follow::{follow_listed, follow_returns};
pub use returned::{Return, Returned};
pub use runner::{ListsIdle, Runner};
