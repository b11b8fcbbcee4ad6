//! The bus of a network whose links lose by coins, and the losses that are enough for the same bus.
#![tactic(auto)]

pub mod laws;
