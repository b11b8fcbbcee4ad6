//! The clocks that a text states, by the offsets of its nodes and the rates of their clocks.
#![tactic(auto)]

mod clock_laws;
mod clock_lines;
mod node_rates;

pub use clock_laws::scenario_clocks_keep_the_drift_law;
pub use clock_lines::stated_clocks;
