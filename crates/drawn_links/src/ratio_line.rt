//! A line with a reception ratio.

use lwb_base::NodeId;

/// From that frame on the link passes this part of a million transmissions, until a later line of the link.
#[derive(Clone, Copy, Debug, PartialEq, Eq)]
pub struct RatioLine {
    /// The frame, counted from 0.
    pub frame: u32,
    /// The node that sends.
    pub from: NodeId,
    /// The node that receives it.
    pub to: NodeId,
    /// How many of a million pass, from 0 to 1,000,000.
    pub ratio: u32,
}
