//! References that nodes take from schedules, and the laws on time.
//!
//! Each law is the contract of a function that does nothing. A clock is a function from true ticks to its readings.
#![tactic(auto)]

pub mod clock_laws;
pub mod fitting;
pub mod flood_laws;
mod reference;
pub mod round_laws;

pub use reference::{Reference, stopped};
