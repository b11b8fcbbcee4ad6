//! How long things take in a valid (`Lawful`) run: as long as on the bus.
#![tactic(auto)]

mod run_laws;

pub use run_laws::runs_go_as_the_bus;
