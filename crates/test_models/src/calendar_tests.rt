//! Tests of calendars.

use event_calendar::Calendar;
use event_calendar::Class::{Alarm, SendingEnd, SendingStart};
use std::alloc::Global;

// Whether an alarm comes before a start at one tick, and the start after it.
fn alarm_comes_first(alloc: Global) -> Option<bool> {
    let mut all = Calendar::new(alloc, 2).ok()?;
    all.set(0, SendingStart, 5);
    all.set(1, Alarm, 5);
    all.set(0, SendingEnd, 9);
    let first = all.next();
    all.clear(1, Alarm);
    Some(first == Some((5, Alarm, 1)) && all.next() == Some((5, SendingStart, 0)))
}

#[test]
fn an_alarm_comes_before_a_start_at_one_tick(rt: HostRuntime) {
    assert!(rt; alarm_comes_first(rt.alloc()) == Some(true));
}

// Whether the largest calendar gives its last place, and its first one before that.
fn largest_gives(alloc: Global) -> Option<bool> {
    let mut all = Calendar::new(alloc, 64).ok()?;
    all.set(63, SendingStart, u64::MAX);
    let first = all.next();
    all.set(0, SendingStart, u64::MAX);
    let is_last = first == Some((u64::MAX, SendingStart, 63));
    Some(is_last && all.next() == Some((u64::MAX, SendingStart, 0)))
}

#[test]
fn the_largest_calendar(rt: HostRuntime) {
    assert!(rt; largest_gives(rt.alloc()) == Some(true));
}
