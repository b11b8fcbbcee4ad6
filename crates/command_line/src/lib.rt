//! What the programs have in common: the one call from words and input to the text that is written, and the run of the process.
#![tactic(auto)]

mod answer;
mod faults;
mod no_parts;
mod numbers;
mod process_run;
mod process_words;
mod program_command;
mod streams;
mod top_call;
mod words;

pub use answer::{Answer, Ended, ReportInParts};
pub use faults::{TOO_LONG, fault_line};
pub use no_parts::NoParts;
pub use numbers::number;
pub use process_run::{ProcessCall, run_process};
pub use process_words::words_of;
pub use program_command::ProgramCommand;
pub use streams::{input, say};
pub use top_call::top;
pub use words::is_word;
