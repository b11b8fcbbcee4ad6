//! Whether two lists of entries are one.

ghost use Rattle.std.specs.Prelude.{◌≡◌, ◌<◌, length, map};
ghost use Rattle.std.specs.Bool.{Decides};
ghost use Rattle.air_log.specs.DeviceStates.{tuning_of};

use air_log::{SentEntry, TunedEntry};

/// Whether these are the same transmissions in the same order.
pub fn are_same_sent(made: &[SentEntry], logged: &[SentEntry]) -> bool
    ensures { Decides result (made.now ≡ logged.now) }
{
    if made.len() != logged.len() {
        return false;
    }
    for (i, sent) in made.iter().enumerate() {
        if !is_same_sent(sent, &logged[i]) {
            return false;
        }
    }
    true
}

fn is_same_sent(a: &SentEntry, b: &SentEntry) -> bool
    ensures { Decides result (a.now ≡ b.now) }
{
    a.rank == b.rank
        && a.node == b.node
        && a.start == b.start
        && a.end == b.end
        && a.packet.bytes() == b.packet.bytes()
}

/// Whether these are the same tunings in the same order.
pub fn are_same_tuned(made: &[TunedEntry], logged: &[TunedEntry]) -> bool
    ensures { Decides result (map tuning_of made.now ≡ map tuning_of logged.now) }
{
    made == logged
}
