//! Tests of calendars, made scenarios, the ideal single-hop bus, the medium, logs and plans with deadlines. They are in a crate
//! above what they test, so that each of those crates is proved once, and without them.
#![tactic(auto)]

#[cfg(test)]
mod bus_tests;
#[cfg(test)]
mod calendar_tests;
#[cfg(test)]
mod deadline_tests;
#[cfg(test)]
mod log_tests;
#[cfg(test)]
mod maker_tests;
#[cfg(test)]
mod medium_tests;
#[cfg(test)]
mod seven;
