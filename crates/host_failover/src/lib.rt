//! Which rank a node scans, holds or hosts, from frame to frame.
#![tactic(auto)]

mod tuner;

pub use tuner::Tuner;
