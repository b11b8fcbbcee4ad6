//! Tests of time references.

use lwb_base::Profile;
use time_reference::Reference;

#[test]
fn reference_from_counter_three(rt: HostRuntime) {
    let heard = Reference::from_heard(&Profile::one(), 1_344_211_456, 3, 10, 0);
    assert!(rt; heard.zero() == 1_344_000_000);
}
