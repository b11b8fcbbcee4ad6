//! Why no two steps of a run can meet on the air: laws that need no others. They are of the life of a host, of local times, of
//! packets, of what a log and its trails have in common, of the steps of a trail, of the ranges of all that a node keeps,
//! orders and sends, of logs that are safe and that are not, and of worked rounds.
#![tactic(auto)]

mod host_laws;
pub mod local_times;
pub mod packet_laws;
mod safe_logs;
mod trail_links;
mod trails_in_range;
mod walks;
mod worked_rounds;

pub use host_laws::hosts_plan_apart;
pub use safe_logs::{
    guests_break_silence, lawful_logs_are_heedful, schedules_break_a_clause,
    the_log_of_a_first_round_is_safe,
};
pub use trail_links::{
    a_host_is_of_its_rank, hearings_leave_the_channel, lines_of_a_tick,
    receptions_are_heard_entries, sendings_stand_in_their_trails, tuned_devices_listen,
};
pub use trails_in_range::{
    host_plans_can_be_written, packets_of_a_log_stay_in_range, rows_stay_in_range,
    spellings_say_what_may_be_said, streams_stay_in_range, trails_stay_in_range,
};
pub use walks::{
    nodes_that_are_on_are_awake, nothing_due_is_left, orders_do_what_they_say,
    rows_leave_devices_so, what_each_step_keeps_holds_throughout,
};
pub use worked_rounds::{
    a_window_opens_late, the_log_of_one_packet_is_lawful_and_safe, trails_of_one_packet,
    zeros_of_one_packet,
};
