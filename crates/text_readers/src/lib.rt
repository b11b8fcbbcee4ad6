//! Texts that are read line by line: their words and numbers, and the first line that is rejected.
#![tactic(auto)]

mod division;
mod draft;
mod fault;
mod hex;
mod numbers;
mod reading;
mod words;

pub use division::{Division, divided};
pub use draft::Draft;
pub use fault::{FaultKind, ParseFault, Refusal, refuse_unless};
pub use hex::{are_hex, hex_value};
pub use numbers::{
    five_numbers, four_numbers, number, one_number, signed_number, three_numbers, two_numbers,
};
pub use reading::read_lines;
pub use words::{first_line, is, is_skipped, is_text, split_into, split_words, word};
