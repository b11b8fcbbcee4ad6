//! Tests of the texts of floods and scenarios. A crate with tests is proved once without them and once with them, so the tests
//! of a large crate are a crate of their own.
#![tactic(auto)]

#[cfg(test)]
mod limit_tests;
#[cfg(test)]
mod network_tests;
#[cfg(test)]
mod tests;
