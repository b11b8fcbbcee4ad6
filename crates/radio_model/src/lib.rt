//! Who receives what on the air: the medium that all nodes share.
#![tactic(auto)]

mod brought;
mod captured;
mod chosen;
mod crowd;
mod ending;
mod hearers;
pub mod laws;
mod listeners;
mod mark;
mod medium;
mod meeting;
mod near;
pub mod receivers;
mod recent;
mod rivals;
pub mod sending;
mod station;
mod transmissions;
pub mod tuning;

pub use hearers::Hearers;
pub use medium::Medium;
pub use transmissions::Transmissions;
