//! Schedules and their bytes, in both versions: each schedule has exactly one spelling.
#![tactic(auto)]

mod ack_bytes;
mod acks;
mod bits;
mod decode;
mod differences;
mod encode;
mod owner_bytes;
mod owners;
mod packing;
mod schedule;

pub use acks::{Ack, Acks};
pub use decode::{named_host, read};
pub use encode::write;
pub use owners::Owners;
pub use schedule::Schedule;
