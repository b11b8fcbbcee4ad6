//! The lines that say what became of the packets of a run.
#![tactic(auto)]

mod fate_lines;
mod sample_lines;

pub use fate_lines::write_fates;
pub use sample_lines::{write_counts, write_host_latencies, write_hosted, write_latencies};
