//! Delivered packets, and packets that were lost before they were queued.

use lwb_base::{NodeId, Payload, Rank};

/// A data packet that a node accepted.
#[derive(Drop)]
pub struct Delivery {
    /// The frame of the round.
    pub frame: u32,
    pub rank: Rank,
    /// The data slot, 1 to `DATA_SLOTS`.
    pub slot: u8,
    /// The node that accepted it.
    pub node: NodeId,
    /// The node whose packet it is, and that node's boot, 1 to `MOST_BOOTS`.
    pub from: NodeId,
    pub boot: u8,
    /// The stream, 0 to 3, and the packet's number in it, 0 to 65,534.
    pub stream: u8,
    pub seq: u16,
    pub payload: Payload,
}

/// A packet that a script line put and that was lost before it was queued: the node was off, or its stream dropped it.
#[derive(Clone, Copy, Debug, PartialEq, Eq)]
pub struct DropLine {
    pub frame: u32,
    pub node: NodeId,
    /// The stream, 0 to 3.
    pub stream: u8,
}
