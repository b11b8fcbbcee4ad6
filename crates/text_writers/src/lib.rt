//! Writers of text: numbers, bytes, and lines of words.
#![tactic(auto)]

mod hex;
mod lines;
mod numbers;

pub use hex::{write_hex, write_payload};
pub use lines::{end_line, write_line, write_lines, write_lines_in_places, write_words};
pub use numbers::write_number;
