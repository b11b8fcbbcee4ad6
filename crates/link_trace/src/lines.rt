//! The lines of a recorded trace.

use lwb_base::NodeId;

/// The link from one node to another, in that direction alone.
#[derive(Clone, Copy, Debug, PartialEq, Eq, PartialOrd, Ord)]
pub struct LinkLine {
    /// The node that sends.
    pub from: NodeId,
    /// The node that receives it.
    pub to: NodeId,
}

/// The link is lost in that step of that slot of that frame.
#[derive(Clone, Copy, Debug, PartialEq, Eq, PartialOrd, Ord)]
pub struct LoseLine {
    /// The frame, counted from 0.
    pub frame: u32,
    /// The slot of the frame's round, counted from 0.
    pub slot: u8,
    /// The step of the slot's flood, which is the relay counter of what is sent in it, counted from 0.
    pub step: u8,
    /// The node that sends.
    pub from: NodeId,
    /// The node that does not receive it.
    pub to: NodeId,
}

/// The node is cut off from that step of that slot on, until the frame ends: nothing passes to or from it.
#[derive(Clone, Copy, Debug, PartialEq, Eq, PartialOrd, Ord)]
pub struct CutLine {
    /// The frame, counted from 0.
    pub frame: u32,
    /// The slot of the frame's round, counted from 0.
    pub slot: u8,
    /// The step of the slot's flood, counted from 0.
    pub step: u8,
    /// The node that is cut off.
    pub node: NodeId,
}

/// Where different packets meet at the node `at` in that step, it receives what `from` sends.
#[derive(Clone, Copy, Debug, PartialEq, Eq)]
pub struct CaptureLine {
    /// The frame, counted from 0.
    pub frame: u32,
    /// The slot of the frame's round, counted from 0.
    pub slot: u8,
    /// The step of the slot's flood, counted from 0.
    pub step: u8,
    /// The node where they meet.
    pub at: NodeId,
    /// The node from which it receives.
    pub from: NodeId,
}
