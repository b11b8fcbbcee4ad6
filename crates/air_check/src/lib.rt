//! Recorded logs: how they are read, and whether one is valid (`Lawful`).
#![tactic(auto)]

mod astray;
mod checked_text;
mod due;
mod entries;
mod flags;
mod index;
pub mod laws;
mod line;
mod log_check;
mod log_lines;
mod missing;
mod node_clocks;
mod node_log;
mod node_logs;
mod own_trail;
mod packet_words;
mod reach;
mod receiver_masks;
mod receives;
mod same_entries;
pub mod sent;
mod tuned_index;
mod tunings;
mod verdict;
mod wrong;

pub use checked_text::parse_checked;
pub use log_check::check;
pub use log_lines::{LogFault, parse_log};
pub use verdict::Verdict;
