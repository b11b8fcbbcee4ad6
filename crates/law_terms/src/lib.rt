//! The bus of the definitions next to the trails of a valid (`Lawful`) log: what it means that both are the same, and what of
//! it depends on no clock.
#![tactic(auto)]

mod core_laws;

pub use core_laws::{rows_change_the_core_as_the_bus, script_lines_do_the_same};
