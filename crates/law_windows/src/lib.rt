//! How the nodes of a run go through their frames and the slots of their rounds: their windows, what happens in them, and what
//! they cost.
//!
//! Each law is the contract of a function that does nothing.
#![tactic(auto)]

mod charge_laws;
mod course_laws;
mod window_laws;
mod worked_charges;
mod worked_courses;
mod worked_windows;

pub use charge_laws::{on_is_all_time_of_the_run, windows_cost_near_their_charge};
pub use course_laws::{nodes_begin_frames_by_their_tune, nodes_go_through_frames_window_by_window};
pub use window_laws::{
    nodes_send_what_their_windows_call_for, radios_are_on_in_windows, windows_are_all_there_is,
    windows_are_open_for_their_slot, windows_go_by_rows, windows_have_their_events,
    windows_have_their_history, windows_keep_to_their_times, windows_of_a_round_follow_one_another,
    windows_of_a_slot_are_for_one_part,
};
pub use worked_charges::windows_of_a_worked_round_cost;
pub use worked_courses::a_worked_node_goes_through_its_frames;
pub use worked_windows::{a_guest_asks, a_scanner_joins};
