//! The table of a host: which streams it accepted, what is owed to them, and how often they went unheard.
//! And short lists in the order of their items' codes, as this table is one.
#![tactic(auto)]

pub mod code_order;
mod places;
mod table;
mod table_entry;

pub use table::{Answer, Table};
