//! The report of a run, and the text with its log, of a scenario over any links: what the programs write of it, and why it is true.
#![tactic(auto)]

mod energy_lines;
mod run_text;
mod scenario_run;

pub use energy_lines::{write_energies, write_energies_over};
pub use lwb_world::RunParts;
pub use run_text::{RunText, log_report, run_report};
pub use scenario_run::{run_of, run_over};
