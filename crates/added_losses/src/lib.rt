//! A scenario with more lose lines, and its text.
#![tactic(auto)]

mod losses;
mod script;
mod text;

pub use losses::with_losses;
pub use text::drawn_text;
