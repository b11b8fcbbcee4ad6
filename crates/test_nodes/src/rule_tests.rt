//! Tests of the rules of the bus.

use bus_rules::{Tune, next_tune, owed};
use lwb_base::Rank;

#[test]
fn tunes_after_a_frame(rt: HostRuntime) {
    let zero = Rank::new(0).unwrap();
    let one = Rank::new(1).unwrap();
    assert!(rt; next_tune(Tune::Scan(zero, 4), 4, false, Some(zero), 1) == Tune::Host(zero, 5));
    assert!(rt; next_tune(Tune::Scan(zero, 4), 4, false, None, 1) == Tune::Scan(zero, 5));
    assert!(rt; next_tune(Tune::Scan(one, 11), 33, false, None, 2) == Tune::Scan(zero, 0));
}

#[test]
fn four_slots_are_owed(rt: HostRuntime) {
    assert!(rt; owed(4, 13, 5, 4, 4) == 4);
}
