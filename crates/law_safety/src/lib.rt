//! Why every valid (`Lawful`) log is safe: what is known of all nodes, hosts and transmissions at each tick of a run, the
//! invariant by which no two steps of floods meet; and from it the clauses of a safe log, which speak of pairs of
//! transmissions. The same invariant says how far two nodes of a round are apart.
//!
//! Each law is the contract of a function that does nothing.
#![tactic(auto)]

mod agreement_laws;
mod invariant_laws;
mod safe_logs;
mod slot_laws;

pub use agreement_laws::{nodes_of_a_round_agree, openings_of_one_packet};
pub use invariant_laws::{
    nodes_of_a_run_stay_in_range, rows_suffice, steps_keep_the_invariant,
    what_is_heard_is_of_a_flood,
};
pub use safe_logs::{
    every_lawful_log_is_safe, logs_in_order_are_safe, the_invariant_makes_logs_safe,
};
pub use slot_laws::{a_slot_has_one_flood, one_plan_is_sent_for_a_round};
