//! The windows of a round: when each slot opens, starts and closes on a node's own clock, and what it is for.
#![tactic(auto)]

mod round;
mod window;

pub use round::Round;
pub use window::Window;
