//! The two sides of a node: the links to it, and those from it.

ghost use Rattle.std.specs.Prelude.{◌≡◌};
ghost use Rattle.link_trace.specs.Sides.{own_of, receiver_of, sender_of};

use lwb_base::NodeId;

/// The links of a node on one side: those that other nodes have to it, or those that it has to other nodes.
#[derive(Clone, Copy)]
pub enum Side {
    /// The links to the node.
    To(NodeId),
    /// The links from the node.
    From(NodeId),
}

impl Side {
    /// The node whose links these are.
    #[inline(always)]
    pub fn own(&self) -> NodeId
        ensures { result ≡ own_of self.now }
    {
        match self {
            Side::To(node) => *node,
            Side::From(node) => *node,
        }
    }

    /// The sender of the link with that other node.
    #[inline(always)]
    pub fn sender(&self, other: NodeId) -> NodeId
        ensures { result ≡ sender_of self.now other }
    {
        match self {
            Side::To(_) => other,
            Side::From(node) => *node,
        }
    }

    /// The receiver of the link with that other node.
    #[inline(always)]
    pub fn receiver(&self, other: NodeId) -> NodeId
        ensures { result ≡ receiver_of self.now other }
    {
        match self {
            Side::To(node) => *node,
            Side::From(_) => other,
        }
    }
}
