//! The laws that tie what nodes do on the air to the bus, one flood in true time, and what is read off its log.
//!
//! Each law is the contract of a function that does nothing.
#![tactic(auto)]

mod flood_beginning;
pub mod flood_laws;
pub mod flood_log_laws;
mod flood_nodes;
mod flood_outcome;
mod flood_world;
mod member;
mod timed_flood;
mod true_time;

pub use flood_outcome::outcome_of;
pub use timed_flood::flood;
pub use true_time::flood_air;
