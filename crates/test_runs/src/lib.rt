//! Tests of whole runs, in true time and on the bus. They need all that runs, so they are a crate of their own.
#![tactic(auto)]

#[cfg(test)]
mod bus_tests;
#[cfg(test)]
mod moves;
#[cfg(test)]
mod runs;
#[cfg(test)]
mod safe;
#[cfg(test)]
mod safe_tests;
