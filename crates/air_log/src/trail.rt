//! What a node does by its trail (`Trail`).

ghost use Rattle.std.specs.Prelude.{◌≡◌, map, reverse, slice_get};
ghost use Rattle.std.specs.Option.{option_flatten};
ghost use Rattle.air_log.specs.DeviceStates.{tuning_of};

use crate::{SentEntry, TunedEntry};
use bus_rules::{Delivery, Tune};
use std::marker::Model;

/// What a node does by the script, its clock and what it received, from the start of the run to its end. Contracts see what the
/// trail (`Trail`) of the definitions says.
#[derive(Drop)]
pub struct Trail {
    pub(crate) sent: Vec<SentEntry>,
    pub(crate) tuned: Vec<TunedEntry>,
    pub(crate) deliveries: Vec<Delivery>,
    pub(crate) windows: u64,
    pub(crate) scanned: u32,
    pub(crate) tunes: Vec<Option<Tune>>,
}

impl Model for Trail {
    ghost use Rattle.std.specs.Prelude.{map, reverse};
    ghost use Rattle.air_log.specs.DeviceStates.{tuning_of};
    ghost use Rattle.air_log.specs.TrailsTold.{TrailTold};

    ghost Value = { TrailTold };

    ghost view = { λ t. record {
      sent = t.sent.items;
      tuned = reverse (map tuning_of t.tuned.items);
      deliveries = t.deliveries.items;
      windows = t.windows;
      scanned = t.scanned;
      tunes = t.tunes.items;
    } };
}

impl Trail {
    /// The node's transmissions, by start.
    pub fn sent(&self) -> &[SentEntry]
        ensures { result.now ≡ self.now.sent }
    {
        &self.sent
    }

    /// The longest times in which the node's radio was on at one channel, by start.
    pub fn tuned(&self) -> &[TunedEntry]
        ensures { map tuning_of result.now ≡ reverse self.now.tuned }
    {
        &self.tuned
    }

    /// What the node delivered, in the order in which it did.
    pub fn deliveries(&self) -> &[Delivery]
        ensures { result.now ≡ self.now.deliveries }
    {
        &self.deliveries
    }

    /// What the windows count that opened by their alarm, in ticks of 1/64 µs.
    pub fn windows(&self) -> u64
        ensures { result ≡ self.now.windows }
    {
        self.windows
    }

    /// The number of frames at whose start, after their script lines, the node scans.
    pub fn scanned(&self) -> u32
        ensures { result ≡ self.now.scanned }
    {
        self.scanned
    }

    /// The tune after the script lines of a frame. Returns `None` if and only if the node is off then, or the run has no such
    /// frame.
    pub fn tune_at(&self, frame: u32) -> Option<Tune>
        ensures { result ≡ option_flatten (slice_get self.now.tunes frame) }
    {
        match self.tunes.get(frame as usize) {
            Some(tune) => *tune,
            None => None,
        }
    }
}
