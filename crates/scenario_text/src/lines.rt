//! Nodes and rates as a text states them.

use lwb_base::NodeId;

/// A node, and what its clock reads at tick 0: 0 to 256,000 ticks of 1/64 µs.
#[derive(Clone, Copy, Debug, PartialEq, Eq)]
pub struct NodeLine {
    /// The node.
    pub node: NodeId,
    /// In ticks, 0 to 256,000.
    pub offset: u64,
}

/// From that true tick on the node's clock is fast by `ppm` millionths, or slow where that is below 0. A tick is
/// 1/64 µs.
#[derive(Clone, Copy, Debug, PartialEq, Eq)]
pub struct RateLine {
    /// The node.
    pub node: NodeId,
    /// The tick, 0 to 1,048,576,000,000 in profile 1, and to 1,310,720,000,000 in profile 2.
    pub from: u64,
    /// The millionths, within the drift bound.
    pub ppm: i8,
}
