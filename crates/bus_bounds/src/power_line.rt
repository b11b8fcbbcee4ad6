//! A line of the script that is for power.

use lwb_base::NodeId;

/// A line of the script by which a node comes on or goes off.
#[derive(Clone, Copy, Debug, PartialEq, Eq)]
pub struct PowerLine {
    /// The frame, below the number of frames of its scenario.
    pub frame: u32,
    /// The node.
    pub node: NodeId,
    /// Whether it comes on; else it goes off.
    pub on: bool,
}
