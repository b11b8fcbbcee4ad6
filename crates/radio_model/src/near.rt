//! Which transmissions of a log can overlap one of them.

ghost use Rattle.std.specs.Prelude.{◌≡◌, ◌+◌, ◌-◌, ◌≤◌, All, AllPairs, length, take, drop};
ghost use Rattle.radio_model.specs.Hearing.{Before};
ghost use Rattle.radio_model.specs.Receptions.{AreNear};

use crate::sending::Sending;

/// The longest time that one of them is on the air, in ticks.
pub(crate) fn longest(sent: &[Sending]) -> u64
    ensures { All (λ y. y.end ≤ y.start + result) sent.now }
{
    let mut longest = 0;
    for y in sent {
        longest = y.end.saturating_sub(y.start).max(longest);
    }
    longest
}

/// Which transmissions can overlap x: they start before its end, and no longer before its start than one lasts. The place of
/// the first of them, and how many they are.
pub(crate) fn near_places(sent: &[Sending], longest: u64, x: &Sending) -> (usize, usize)
    requires in_order { AllPairs Before sent.now }
    requires longest { All (λ y. y.end ≤ y.start + longest) sent.now }
    ensures first { result.0 ≤ length sent.now }
    ensures count { result.1 ≤ length sent.now - result.0 }
    ensures near { AreNear sent.now x.now (take result.1 (drop result.0 sent.now)) }
{
    let earliest = x.start.saturating_sub(longest);
    let first = sent.partition_point(|y| y.start < earliest);
    let rest = &sent[first..];
    let count = rest.partition_point(|y| y.start < x.end);
    (first, count)
}
