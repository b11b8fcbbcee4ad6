//! Tests of made scenarios.

use crate::seven::SEVEN;
use scenario_maker::made;
use scenario_text::print;
use std::alloc::Global;

// The text of the scenario that seed 7 makes.
fn made_text(alloc: Global) -> Option<String> {
    print(alloc, &made(alloc, 7, 20, 50).ok()?).ok()
}

// Whether that is its text.
fn is_made(alloc: Global, wanted: &str) -> Option<bool> {
    Some(made_text(alloc)?.as_str() == wanted)
}

#[test]
fn seed_7_makes_the_text_that_was_worked_out_elsewhere(rt: HostRuntime) {
    assert!(rt; is_made(rt.alloc(), SEVEN) == Some(true));
}
