//! What runs a scenario: its nodes over one radio medium in true time, each with a clock of its own. It promises a valid
//! (`Lawful`) log, and what its nodes delivered, lost and became; `lwb_world` says what follows from such a log.
#![tactic(auto)]

mod deliveries;
mod engine;
mod field;
mod field_bounds;
mod field_counts;
mod field_ends;
mod field_follow;
mod field_script;
mod frames;
mod idle;
mod run_parts;

pub use engine::Engine;
pub use run_parts::RunParts;
