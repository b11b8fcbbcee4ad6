//! Tests of whole runs and floods as the commands make them: what runs log, and node cores and queues of orders that a test drives
//! itself. They are a crate of their own, so that what they use is proved once. What the program writes of whole texts, and over
//! streams that fail, is tested on the built program (tests/program.sh).
#![tactic(auto)]

#[cfg(test)]
mod calls;
#[cfg(test)]
mod core_tests;
#[cfg(test)]
mod flood_tests;
#[cfg(test)]
mod queue_tests;
#[cfg(test)]
mod run_tests;
#[cfg(test)]
mod runner_tests;
