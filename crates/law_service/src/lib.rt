//! What may be relied on where nothing is lost: laws on the bus as it is defined, so of every run. They say who receives
//! schedules, data and requests in a slot in which every link passes, and which contenders meet again.
//!
//! Each law is the contract of a function that does nothing.
#![tactic(auto)]

mod contention_laws;
mod data_laws;
mod reach_laws;
mod request_laws;
mod schedule_laws;
mod service_laws;

pub use contention_laws::{contenders_meet_again, ids_equal_modulo_16_share_slots, ties_are_kept};
pub use data_laws::data_is_delivered_within_reach;
pub use reach_laws::slots_without_lines_lose_nothing;
pub use request_laws::a_lone_request_is_acknowledged;
pub use schedule_laws::schedules_are_accepted_within_reach;
pub use service_laws::owed_slots_come_in_the_next_round;
