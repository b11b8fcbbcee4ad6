//! The window of one slot.

ghost use Rattle.std.specs.Prelude.{◌≡◌, ◌<◌, ◌^◌};
ghost use Rattle.round_runner.specs.Rounds.{window_at};

use time_reference::{Reference, stopped};

/// The window of one slot, in local ticks of 1/64 µs. Each time stops at 2^47 - 1.
#[derive(Clone, Copy, Debug, PartialEq, Eq)]
pub struct Window {
    /// When it opens.
    pub begin: u64,
    /// When the slot's initiator begins to send.
    pub start: u64,
    /// When it closes.
    pub until: u64,
}

impl Window {
    /// The window of a slot of the round that begins by this reference. Its initiator starts `listen` after the window
    /// opens, and the window closes `close` after it opens, both below 2^32.
    pub fn of_slot(reference: &Reference, slot: u8, listen: u64, close: u64) -> Window
        requires listen { listen < 2 ^ 32 }
        requires close { close < 2 ^ 32 }
        ensures { result ≡ window_at reference.now slot listen close }
    {
        let begin = reference.slot_start(slot);
        Window {
            begin,
            start: stopped(begin + listen),
            until: stopped(begin + close),
        }
    }
}
