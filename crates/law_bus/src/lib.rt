//! A valid (`Lawful`) run gives what the ideal single-hop bus gives: each slot as a run of the theorem on floods, what its
//! flood gives, the induction slot by slot of a round and frame by frame, and what each node's radio costs.
//!
//! Each law is the contract of a function that does nothing.
#![tactic(auto)]

mod bus_laws;
mod cost_laws;
mod round_laws;
mod run_laws;
mod slot_laws;
mod slot_run_laws;

pub use bus_laws::{
    clocks_change_nothing_of_the_bus, deliveries_and_drops_are_of_the_bus,
    frames_begin_as_on_the_bus, lawful_runs_are_the_bus, nothing_else_is_sent,
    scans_are_those_of_the_bus, slots_are_floods_of_the_bus, slots_go_as_on_the_bus,
};
pub use cost_laws::{
    accounts_begin_with_the_costs_of_the_bus, costs_are_those_of_the_bus,
    windows_send_as_on_the_bus,
};
pub use round_laws::{
    rounds_begin_as_the_bus, rounds_end_as_on_the_bus, slots_follow_as_on_the_bus,
};
pub use run_laws::{
    clocks_do_not_matter, deliveries_are_those_of_the_bus, nodes_scan_as_on_the_bus,
    runs_are_the_bus, slots_are_the_bus, windows_are_those_of_the_bus,
};
pub use slot_laws::{
    slots_are_heard_by_their_floods, slots_are_their_floods, windows_say_what_may_be_said,
};
pub use slot_run_laws::{
    scanners_are_tuned, slots_are_a_part_of_the_air, slots_are_of_the_bus, slots_are_of_their_rank,
    slots_are_runs, slots_are_sent_as_floods, slots_have_events,
};
