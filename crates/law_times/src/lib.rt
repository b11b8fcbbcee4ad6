//! How long things take: laws on the bus as it is defined, so of every run. They say when a network runs, how long its nodes
//! stay members, how long it takes until another host leads it, and within how many frames slots come.
//!
//! A law is the contract of a function that does nothing, or of one that computes its bound.
#![tactic(auto)]

mod contention_turns;
mod failovers;
mod first_rounds;
mod losses;
mod paces;

pub use contention_turns::{ids_apart, parting_rounds, six_never_part};
pub use failovers::{failover_frames, takeover_frames};
pub use first_rounds::{first_round_frames, members_stay};
pub use losses::lossy_round_frames;
pub use paces::{latency_frames, owed_always_fits};
