//! The commands of a planner, from the bytes read to the bytes written: what links that lose by chance do to a network.
#![tactic(auto)]

mod answer;
mod bounds_answer;
mod command;
mod draw_answer;
mod drawn_run;
mod fates_answer;
mod laws;
mod line_count;
mod log_answer;
mod outcome_answer;
mod plan_top_call;
mod program;
mod run_answer;
mod run_fates;
mod sample_answer;
mod sampled_network;
mod seed_text;
mod seeds_call;

pub use laws::{drawn_runs_deliver_in_order, seeds_can_be_dealt_out};
pub use plan_top_call::plan_top;
