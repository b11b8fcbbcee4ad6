//! Rounds in every frame for streams with deadlines: which streams are admitted, and which jobs each frame is granted.
#![tactic(auto)]

mod admission;
mod draft;
mod grants;
mod job;
pub mod laws;
mod line;
mod load;
mod parse;
mod stream;
mod text;

pub use admission::{Admit, Deadlines};
pub use job::Job;
pub use parse::parse_deadlines;
pub use stream::DeadlineStream;
pub use text::DeadlineText;
