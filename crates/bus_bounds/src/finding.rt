//! What is found of a bound.

use crate::breaking_line::BreakingLine;
use lwb_base::NodeId;

/// What a bound is on.
#[derive(Clone, Copy, Debug, PartialEq, Eq)]
pub enum Bound {
    /// The first round of the host of rank 0 after a boot.
    First,
    /// The first round of a host that is the last one on.
    Failover,
    /// That the node is a member after the first round of the host of rank 0.
    Joined,
    /// For how many frames it scans for each round with losses from then on.
    Scanning,
}

/// The premise that is not met.
#[derive(Clone, Copy, Debug, PartialEq, Eq)]
pub enum Reason {
    /// Which hosts and nodes are on, and in which frames.
    Power,
    /// That the host boots, and is on at the end of that frame's lines.
    Boots,
    /// That the run has the frame by which the bound is kept.
    Rounds,
    /// That no line loses or cuts something in the frame of the first round.
    Loss,
    /// That no link has a ratio below a million in that frame.
    Ratio,
    /// That a walk of few links leads to the node, along nodes that are up.
    Reach,
}

/// Whether a bound holds.
#[derive(Clone, Copy, Debug, PartialEq, Eq)]
pub enum Verdict {
    /// It does so from that frame on, which is this number of frames after the one that it is counted from.
    Holds { from: u32, frames: u32 },
    /// This premise is broken by that line of the text.
    Broken { reason: Reason, line: BreakingLine },
    /// This premise is not met, and no line is named that breaks it.
    Open { reason: Reason },
}

/// What is found of a bound on a node.
#[derive(Clone, Copy, Debug, PartialEq, Eq)]
pub struct Finding {
    /// What it is on.
    pub bound: Bound,
    /// The node, which is a host of the bounds on hosts.
    pub node: NodeId,
    /// The frame that it is counted from: of a boot, or the last one in which another host goes off. `None` where there is none.
    pub frame: Option<u32>,
    /// Whether it holds.
    pub verdict: Verdict,
}
