//! The bus frame by frame: the script, the rounds of all ranks, and the end of each frame.
#![tactic(auto)]

mod all_nodes;
mod bus;
mod drops;
mod frames;
mod rounds;
mod running_bus;
mod script;

pub use bus::Bus;
pub use plain_bus::{Cost, accepts};
pub use running_bus::RunningBus;
