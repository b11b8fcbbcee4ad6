//! Packets on the bus: what a script puts, what is sent, and what becomes of it.

use lwb_base::{NodeId, Rank};

/// A packet, as the whole network knows it: the number `seq` in a stream of a node's boot.
#[derive(Clone, Copy, Debug, PartialEq, Eq, PartialOrd, Ord)]
pub struct PacketId {
    pub node: NodeId,
    /// 1 to `MOST_BOOTS`.
    pub boot: u8,
    /// 0 to 3.
    pub stream: u8,
    /// 0 to 65,534, from 0 on in each boot.
    pub seq: u16,
}

/// A put line of the script.
#[derive(Clone, Copy, Debug, PartialEq, Eq)]
pub struct PutLine {
    pub frame: u32,
    pub node: NodeId,
    /// 0 to 3.
    pub stream: u8,
    /// The packet that was queued. `None` where it was dropped: the node was off, or its stream rejected it.
    pub packet: Option<PacketId>,
}

/// A packet that left its queue and was sent, with its slot.
#[derive(Clone, Copy, Debug, PartialEq, Eq)]
pub struct SentPacket {
    /// The frame of the round.
    pub frame: u32,
    pub rank: Rank,
    /// The data slot, 1 to `DATA_SLOTS`.
    pub slot: u8,
    pub packet: PacketId,
}

/// What became of a packet that a script line put.
#[derive(Clone, Copy, Debug, PartialEq, Eq)]
pub enum Fate {
    /// It was never queued: its node was off, or its stream rejected it.
    Dropped,
    /// It waits in its queue after the last frame.
    Waiting,
    /// Its queue was emptied in this frame before it was sent: its node left the stream, or its power failed.
    Cleared {
        frame: u32,
    },
    /// It was sent in the round of this frame and rank, in this slot. This number of nodes delivered it, and among them is the
    /// host of the rank, or not.
    Sent {
        frame: u32,
        rank: Rank,
        slot: u8,
        receivers: u32,
        at_host: bool,
    },
}

/// A put line with what became of its packet.
#[derive(Clone, Copy, Debug, PartialEq, Eq)]
pub struct PutFate {
    pub put: PutLine,
    pub fate: Fate,
}

/// How late a packet of a stream was delivered at a node.
#[derive(Clone, Copy, Debug, PartialEq, Eq, PartialOrd, Ord)]
pub struct Latency {
    pub node: NodeId,
    /// 0 to 3.
    pub stream: u8,
    /// The node that delivered it.
    pub at: NodeId,
    /// From the frame of its put to that of its delivery.
    pub frames: u32,
}

/// How often a stream's packets were delivered at a node with one latency.
#[derive(Clone, Copy, Debug, PartialEq, Eq)]
pub struct LatencyCount {
    pub latency: Latency,
    /// At least 1.
    pub count: u32,
}

/// What became of the packets of one stream: how many were put, and how many of these had each fate.
#[derive(Clone, Copy, Debug, PartialEq, Eq)]
pub struct StreamCounts {
    pub node: NodeId,
    /// 0 to 3.
    pub stream: u8,
    pub put: u32,
    pub dropped: u32,
    pub sent: u32,
    pub waiting: u32,
    pub cleared: u32,
}

/// How many packets of a stream were sent in rounds of one host.
#[derive(Clone, Copy, Debug, PartialEq, Eq)]
pub struct HostedCount {
    pub node: NodeId,
    /// 0 to 3.
    pub stream: u8,
    /// The host.
    pub at: NodeId,
    /// At least 1.
    pub count: u32,
}
