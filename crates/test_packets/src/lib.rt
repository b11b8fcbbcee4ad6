//! Tests of bytes, clocks, links and packets. They are in a crate above what they test, so that each of those crates is proved
//! once, and without them.
#![tactic(auto)]

#[cfg(test)]
mod base_tests;
#[cfg(test)]
mod clock_tests;
#[cfg(test)]
mod packet_tests;
#[cfg(test)]
mod reference_tests;
#[cfg(test)]
mod schedule_tests;
#[cfg(test)]
mod trace_tests;
