//! One scenario over the same clocks has one valid (`Lawful`) log, but for the order of its entries.
#![tactic(auto)]

mod one_flood;
mod one_log;

pub use one_flood::a_flood_has_one_log;
pub use one_log::{
    a_scenario_has_one_cost, a_scenario_has_one_lawful_log, a_scenario_has_one_log_text,
    entries_of_a_lawful_log_differ,
};
