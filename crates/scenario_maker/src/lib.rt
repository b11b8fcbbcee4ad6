//! Scenarios that are made of a seed: the same numbers always make the same scenario.
#![tactic(auto)]

mod draws;
pub mod laws;
mod links;
mod losses;
mod maker;
mod nodes;
mod script_lines;

pub use maker::made;
