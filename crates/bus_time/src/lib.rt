//! When each data packet of a run was sent, in the time of the host that planned its round.
#![tactic(auto)]

mod beginning;
mod gaps;
mod reading;
mod stamp;
pub mod stamp_laws;
mod stamping;
mod words;

pub use stamp::Stamp;
pub use stamping::stamps;
