//! The lines that say which bounds of a text hold, and which are open and by which line.
#![tactic(auto)]

mod bound_lines;
mod line_numbers;

pub use bound_lines::write_findings;
