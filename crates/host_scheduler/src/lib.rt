//! The plan of a host for its next round: when it is, and who owns its data slots.
#![tactic(auto)]

mod debts;
mod plan;
mod turns;

pub use plan::{Plan, plan_round};
