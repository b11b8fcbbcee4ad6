//! The stamp of one data packet.

use lwb_base::{NodeId, Rank};

/// A data packet, with the time at which it was sent first.
#[derive(Clone, Copy, Debug, PartialEq, Eq)]
pub struct Stamp {
    /// The frame of its round.
    pub frame: u32,
    /// The rank of the host of its round.
    pub rank: Rank,
    /// The slot of the round, 1 to `DATA_SLOTS`.
    pub slot: u8,
    /// The node that sent it.
    pub node: NodeId,
    /// The stream of the node, 0 to 3.
    pub stream: u8,
    /// The number of the packet in its stream.
    pub seq: u16,
    /// When it was sent, in ticks of 1/64 µs of the host's clock, as far as the node knows it.
    pub tick: u64,
}
