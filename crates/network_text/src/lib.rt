//! The text of a network: a scenario, and the reception ratios of its links.
#![tactic(auto)]

mod limits;
mod network;
mod ratio_line;
mod ratio_lines;

pub use limits::{GREATEST_RATIO, MOST_RATIO_LINES, ratios_have_their_numbers};
pub use network::parse_network;
pub use ratio_lines::parse_ratios;
