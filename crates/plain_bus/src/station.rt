//! The nodes of a flood at the beginning of a step.

ghost use Rattle.std.specs.Prelude.{◌≡◌, ◌<◌, ◌==◌, ◌∷◌, [], ◌++◌, length, None};

use arrayvec::ArrayVec;
use link_trace::NodeSet;
use lwb_base::{MOST_NODES, NodeId};

/// A flood: its slot of a frame, how often a node sends at most, and which of the nodes that the links are sealed with
/// initiate, and which take part.
#[derive(Clone, Copy)]
pub struct Flood {
    pub frame: u32,
    pub slot: u8,
    /// 1 to 4.
    pub limit: u8,
    pub initiators: NodeSet,
    pub everyone: NodeSet,
    /// The initiator, where there is one alone.
    pub lone: Option<NodeId>,
}

/// A node at the beginning of a step of a flood.
#[derive(Clone, Copy)]
pub struct Station {
    pub node: NodeId,
    /// The initiator whose message it sends in the step.
    pub sends: Option<NodeId>,
    /// How often it has sent before.
    pub times: u8,
    /// The first initiator from which it received, and the step.
    pub heard: Option<(NodeId, u8)>,
}

/// What a place of a list contains that holds no node yet: node 1, which has sent and received nothing.
impl Default for Station {
    fn default() -> Station
        ensures { result ≡ record { node = 1; sends = None; times = 0; heard = None } }
    {
        Station {
            node: NodeId::new(1).unwrap(),
            sends: None,
            times: 0,
            heard: None,
        }
    }
}

/// All nodes at the beginning of a step, and those that send in it.
#[derive(Drop)]
pub struct Stations {
    pub each: ArrayVec<Station, MOST_NODES>,
    pub senders: NodeSet,
}
