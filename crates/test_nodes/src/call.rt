//! The calls that a test makes to a node.

ghost use Rattle.std.specs.Prelude.{◌≡◌, ◌<◌, ◌^◌};

use lwb_base::{Event, LocalClock, Payload};
use std::marker::Model;

/// What can happen to a node.
#[derive(Drop)]
pub enum Call {
    /// An event, at this reading of its clock, below 2^46.
    Step(u64, Event),
    /// A stream, 0 to 3, requests this interval, 1 to 120 seconds.
    Declare(u8, u8),
    /// A stream, 0 to 3, requests nothing more.
    Leave(u8),
    /// A packet for a stream, 0 to 3, with a payload that the profile allows.
    Put(u8, Payload),
    /// The node is as new, with this boot number, 1 to 200.
    Reboot(u8),
}

// A clock that has come to this reading.
#[derive(Drop)]
pub(crate) struct Reading {
    now: u64,
}

impl Model for Reading {
    ghost use Rattle.std.specs.Prelude.{ℕ, ◌<◌, ◌^◌};

    ghost Value = { ℕ };

    ghost view = { λ r. r.now };

    ghost invariant = { λ r. r.now < 2 ^ 46 };
}

impl Reading {
    pub(crate) fn new(now: u64) -> Reading
        requires { now < 2 ^ 46 }
        ensures { result ≡ now }
    {
        Reading { now }
    }
}

impl LocalClock for Reading {
    ghost time = { λ r. r };

    fn now(&self) -> u64 {
        self.now
    }
}

pub(crate) fn copy_of_event(event: &Event) -> Event
    ensures { result ≡ event.now }
{
    match event {
        Event::Boot => Event::Boot,
        Event::Alarm => Event::Alarm,
        Event::Heard(packet) => Event::Heard(packet.copy()),
        Event::Sent => Event::Sent,
    }
}
