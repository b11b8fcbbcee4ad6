//! What the medium keeps of one node.

ghost use Rattle.std.specs.Prelude.{◌≡◌, ◌≤◌, ◌+◌, ◌<◌, ◌^◌, [], ◌&&◌, not, IfOk, length, is_some, is_none, None};
ghost use Rattle.std.specs.List.{list_any};
ghost use Rattle.circular_buffer.specs.Buffer.{buffer};
ghost use Rattle.lwb_base.specs.Profile.{airtime, Numbers};
ghost use Rattle.radio_model.specs.Stations.{untuned, begins_on, station_after_start, station_after_end, on_air};
ghost use Rattle.radio_model.specs.Stations.{covers, overlaps};
ghost use Rattle.radio_model.specs.Ages.{IsAged};

use crate::meeting::overlap;
use crate::sending::Sending;
use crate::tuning::RadioTuning;
use circular_buffer::HeapCircularBuffer;
use lwb_base::{Memory, NodeId, Packet, Rank};
use std::alloc::Global;

/// The number of ended transmissions of one node that are kept. The longest packet is on the air for less than 13 of the
/// shortest, so one that ended before the last 13 overlaps none that still runs.
const KEPT: usize = 13;

/// What is kept of one node: its place among the nodes, its tuning, what it sends, and its last ended transmissions, the oldest
/// first.
#[derive(Drop)]
pub struct Station {
    pub node: NodeId,
    pub place: u8,
    pub tuning: RadioTuning,
    pub sending: Option<Sending>,
    pub ended: HeapCircularBuffer<Sending>,
}

impl Station {
    /// A node that is tuned to nothing and sends nothing.
    pub(crate) fn new(alloc: Global, node: NodeId, place: u8) -> Result<Station, Memory>
        ensures { IfOk result (λ st. st ≡ record { node = node; place = place; tuning = untuned; sending = None; ended = buffer [] 13 }) }
    {
        let ended = HeapCircularBuffer::with_capacity(alloc, KEPT)?;
        Ok(Station {
            node,
            place,
            tuning: RadioTuning::none(),
            sending: None,
            ended,
        })
    }

    /// It begins to send at t, until `end`, on the channel of that rank. Returns `None` if and only if it is not tuned or
    /// already sends, and then nothing changes.
    pub(crate) fn start(&mut self, t: u64, end: u64, packet: &Packet) -> Option<Rank>
        ensures value { result ≡ begins_on self.old.tuning.now self.old.sending }
        ensures state { (p : Numbers) → end ≡ t + airtime p (length packet.now) → self.new ≡ station_after_start p t packet.now self.old }
    {
        let Some(tuned) = self.tuning.now else {
            return None;
        };
        if self.sending.is_some() {
            return None;
        }
        self.sending = Some(Sending {
            rank: tuned.rank,
            node: self.node,
            start: t,
            end,
            packet: packet.copy(),
        });
        Some(tuned.rank)
    }

    /// What it sends ends.
    pub(crate) fn finish(&mut self)
        ensures { self.new ≡ station_after_end self.old }
    {
        if let Some(x) = self.sending.take() {
            self.ended.push_back(x);
        }
    }

    /// Whether it was tuned to that channel from `start` to t.
    pub(crate) fn was_tuned(&self, rank: Rank, start: u64, t: u64) -> bool
        ensures { result ≡ covers self.now rank start t }
    {
        let goes_on = match self.tuning.now {
            Some(tuned) => tuned.rank == rank && tuned.since <= start,
            None => false,
        };
        if goes_on {
            return true;
        }
        match self.tuning.last {
            Some(last) => last.rank == rank && last.since <= start && t <= last.until,
            None => false,
        }
    }

    // All that ended is over by the end of x, and the newest ended last, so this one tells.
    fn sent_over(&self, x: &Sending) -> bool
        requires { IsAged x.now.end self.now.ended.items }
        ensures { result ≡ list_any (overlaps x.now) self.now.ended.items }
    {
        match self.ended.back() {
            Some(y) => x.start < y.end,
            None => false,
        }
    }

    /// Whether no transmission of its own overlaps x.
    pub(crate) fn is_quiet(&self, x: &Sending) -> bool
        requires { IsAged x.now.end self.now.ended.items }
        ensures { result ≡ not (list_any (overlaps x.now) (on_air self.now)) }
    {
        let sends = match &self.sending {
            Some(y) => overlap(x, y),
            None => false,
        };
        !sends && !self.sent_over(x)
    }
}
