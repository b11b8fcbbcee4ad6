//! What a medium asks of a trace, as a trait.

ghost use Rattle.std.specs.Prelude.{◌≡◌, ℕ, List, ◌<◌, length, slice_index};
ghost use Rattle.link_trace.specs.Masks.{IsMask, IsMaskAmong, HasAll};
ghost use Rattle.link_trace.specs.Passes.{Lines, passes, captured as captured_by};

use crate::{NodeSet, Trace};
use lwb_base::NodeId;

/// What a medium asks of a trace: which links pass, and whom a node captures. The meanings are the lines, and the
/// nodes of the seal, of which there are none where the trace is not sealed.
pub trait Links {
    ghost lines: { Self → Lines };

    ghost nodes: { Self → List ℕ };

    /// The nodes from which a link to node `at` passes in that frame, slot and step: bit i is that of node i, and bits
    /// past the nodes are 0. Nodes are counted from 0, as the seal names them.
    fn from_mask(&self, frame: u32, slot: u8, step: u8, at: u8) -> u64
        requires { at < length (nodes self.now) }
        ensures { IsMask (λ from. passes (lines self.now) frame slot step from (slice_index (nodes self.now) at))
            (nodes self.now) result };

    /// Nodes among which are all from which a link to node `at` passes in that frame, slot and step. Where coins decide what
    /// passes, these are more, and no coin is thrown for them.
    fn may_reach(&self, frame: u32, slot: u8, step: u8, at: u8) -> NodeSet
        requires { at < length (nodes self.now) }
        ensures { HasAll (λ from. passes (lines self.now) frame slot step from (slice_index (nodes self.now) at))
            (nodes self.now) result }
    {
        NodeSet::of_word(self.from_mask(frame, slot, step, at))
    }

    /// The nodes to which a link from node `from` passes in that frame, slot and step: bit i is that of node i, and bits
    /// past the nodes are 0. Nodes are counted from 0, as the seal names them.
    fn to_mask(&self, frame: u32, slot: u8, step: u8, from: u8) -> u64
        requires { from < length (nodes self.now) }
        ensures { IsMask (λ to. passes (lines self.now) frame slot step (slice_index (nodes self.now) from) to)
            (nodes self.now) result };

    /// Those of the set to which a link from node `from` passes in that frame, slot and step.
    fn to_mask_among(&self, frame: u32, slot: u8, step: u8, from: u8, among: NodeSet) -> NodeSet
        requires { from < length (nodes self.now) }
        ensures { IsMaskAmong (λ to. passes (lines self.now) frame slot step (slice_index (nodes self.now) from) to)
            (nodes self.now) among result }
    {
        NodeSet::of_word(self.to_mask(frame, slot, step, from)).and(among)
    }

    /// The sender that the capture line of that frame, slot and step at the node names. Returns `None` if and only if there is
    /// no such line.
    fn captured(&self, frame: u32, slot: u8, step: u8, at: NodeId) -> Option<NodeId>
        ensures { result ≡ captured_by (lines self.now) frame slot step at };
}

impl Links for Trace {
    ghost lines = { λ t. t.lines };

    ghost nodes = { λ t. t.nodes };

    fn from_mask(&self, frame: u32, slot: u8, step: u8, at: u8) -> u64 {
        Trace::from_mask(self, frame, slot, step, at)
    }

    fn to_mask(&self, frame: u32, slot: u8, step: u8, from: u8) -> u64 {
        Trace::to_mask(self, frame, slot, step, from)
    }

    fn captured(&self, frame: u32, slot: u8, step: u8, at: NodeId) -> Option<NodeId> {
        Trace::captured(self, frame, slot, step, at)
    }
}
