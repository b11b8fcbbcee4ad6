//! Clocks that drift: what they read at a true tick, and when they come to a reading.
#![tactic(auto)]

mod at_tick;
mod drift_clock;
mod jump_clock;
mod rates;
mod segment;
mod segment_clock;

pub use at_tick::At;
pub use drift_clock::{DriftClock, turn_bounds};
pub use jump_clock::JumpClock;
pub use segment_clock::{ClockFault, SegmentClock};
