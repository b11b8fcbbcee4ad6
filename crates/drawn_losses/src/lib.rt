//! The losses that are enough for the same bus, found while the bus runs.
#![tactic(auto)]

mod drawing;
mod flood_losses;
mod frame_losses;
mod run_losses;
mod step_losses;

pub use drawing::draw_losses;
pub use flood_losses::losses_in_flood;
pub use frame_losses::losses_in_frame;
pub use run_losses::losses_in_run;
