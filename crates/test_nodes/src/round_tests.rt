//! Tests of rounds.

use lwb_base::Profile;
use lwb_packets::Kind;
use round_runner::{Round, Window};
use time_reference::Reference;

// Whether a round has a slot of that kind, whose window begins, has its first sending and ends at these times.
fn has_slot(round: &Round, slot: u8, kind: Kind, (begin, start, until): (u64, u64, u64)) -> bool {
    let window = Window {
        begin,
        start,
        until,
    };
    slot <= round.last() && round.kind(slot) == kind && round.window(slot) == window
}

// A host's round of frame 5 without owners: its three windows, and what they are for.
#[test]
fn windows_of_a_first_round(rt: HostRuntime) {
    let profile = Profile::one();
    let round = Round::new(&profile, Reference::of_host(&profile, 5), 0, 0);
    assert!(rt; round.last() == 2);
    let opening = (1_344_000_000, 1_344_064_000, 1_346_096_000);
    assert!(rt; has_slot(&round, 0, Kind::Schedule, opening));
    let contention = (1_346_112_000, 1_346_176_000, 1_348_208_000);
    assert!(rt; has_slot(&round, 1, Kind::Request, contention));
    let closing = (1_348_224_000, 1_348_288_000, 1_350_320_000);
    assert!(rt; has_slot(&round, 2, Kind::Schedule, closing));
}
