//! The entries of a log: transmissions, receptions and tunings.

ghost use Rattle.std.specs.Prelude.{◌≡◌};

use lwb_base::{NodeId, Packet, Rank};
use radio_model::tuning::Past;

/// A node sent a packet: the entry is the transmission.
pub use radio_model::sending::Sending as SentEntry;

/// One entry of a log. Its times are true ticks of 1/64 µs; it contains its start and not its end.
#[derive(Drop)]
pub enum Entry {
    Sent(SentEntry),
    Heard(HeardEntry),
    Tuned(TunedEntry),
}

/// A node received the packet that `from` sent, from its start to its end.
#[derive(Drop)]
pub struct HeardEntry {
    pub rank: Rank,
    pub node: NodeId,
    pub from: NodeId,
    pub start: u64,
    pub end: u64,
    pub packet: Packet,
}

/// A longest time in which a node's radio is on at the channel of a rank, its own transmissions included.
#[derive(Clone, Copy, Debug, PartialEq, Eq)]
pub struct TunedEntry {
    pub rank: Rank,
    pub node: NodeId,
    pub start: u64,
    pub end: u64,
}

impl TunedEntry {
    /// The entry of a node's tuning that ended.
    pub fn of(node: NodeId, past: Past) -> TunedEntry
        ensures { result ≡ record { rank = past.rank; node = node; start = past.since; end = past.until } }
    {
        TunedEntry {
            rank: past.rank,
            node,
            start: past.since,
            end: past.until,
        }
    }
}
