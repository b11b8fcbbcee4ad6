//! The run of a scenario, and that it gives what the ideal single-hop bus gives: the engine, with what follows from a valid
//! (`Lawful`) log.
#![tactic(auto)]

mod stated;
mod world;

pub use lwb_flood::{flood, flood_air};
pub use stated::{clocks_of, stated_world, world_after, world_over};
pub use world::World;
pub use world_engine::RunParts;
