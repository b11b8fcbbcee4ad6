//! What the radio of each node costs in a run, read off the run's log.
#![tactic(auto)]

mod account;
mod energy;
pub mod energy_laws;
mod times;

pub use account::Account;
pub use air_log::Energy;
