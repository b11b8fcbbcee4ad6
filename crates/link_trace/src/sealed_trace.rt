//! A sealed trace: the links of each of its nodes as masks, and the masks of those that pass in a step.

ghost use Rattle.std.specs.Prelude.{◌≡◌, ◌<◌, length, slice_index, OnOk, OnErr};
ghost use Rattle.link_trace.specs.Passes.{passes as passes_by};
ghost use Rattle.link_trace.specs.Sides.{is_linked, passes_on};
ghost use Rattle.link_trace.specs.Masks.{AreNodes, IsMask};

use crate::masks::{cut_mask, link_masks, lost_mask};
use crate::ranges::{are_none, cuts_so_far, has_no_cuts, names};
use crate::sides::Side;
use crate::starts::starts_of;
use crate::{NodeSet, Trace};
use lwb_base::{Memory, NodeId};

impl Trace {
    /// Seals the trace with these nodes, 1 to 64 ascending ids: it keeps the links of each of them, and where the lines
    /// of each slot begin. The lines stay. After Memory the trace is as it was.
    pub fn seal(&mut self, nodes: &[NodeId]) -> Result<(), Memory>
        requires { AreNodes nodes.now }
        ensures sealed { OnOk result (self.new ≡ record { lines = self.old.lines; nodes = nodes.now }) }
        ensures err { OnErr result (self.new ≡ self.old) }
    {
        let masks = link_masks(self.alloc, &self.links, nodes)?;
        let starts = starts_of(self.alloc, &self.losses, &self.cuts, &self.captures)?;
        let kept = Vec::from_slice(self.alloc, nodes)?;
        self.nodes = kept;
        self.masks = masks;
        self.starts = starts;
        Ok(())
    }

    /// The nodes from which a link to node `at` passes in that frame, slot and step: bit i is that of node i, and bits
    /// past the nodes are 0. Nodes are counted from 0, as the seal names them. The time grows with the lines of the frame.
    pub fn from_mask(&self, frame: u32, slot: u8, step: u8, at: u8) -> u64
        requires { at < length self.now.nodes }
        ensures { IsMask (λ from. passes_by self.now.lines frame slot step from (slice_index self.now.nodes at))
            self.now.nodes result }
    {
        let place = usize::from(at);
        self.passing(
            frame,
            slot,
            step,
            self.masks[place].to_it,
            &Side::To(self.nodes[place]),
        )
        .word()
    }

    /// The nodes to which a link from node `from` passes in that frame, slot and step, as `from_mask` gives nodes. It
    /// takes as long.
    pub fn to_mask(&self, frame: u32, slot: u8, step: u8, from: u8) -> u64
        requires { from < length self.now.nodes }
        ensures { IsMask (λ to. passes_by self.now.lines frame slot step (slice_index self.now.nodes from) to)
            self.now.nodes result }
    {
        let place = usize::from(from);
        self.passing(
            frame,
            slot,
            step,
            self.masks[place].from_it,
            &Side::From(self.nodes[place]),
        )
        .word()
    }

    // The nodes with which a link of that side passes in that frame, slot and step, where `links` are those with which there is
    // one. It is a part of both callers, each of which has one side.
    #[inline(always)]
    #[tactic(auto, using(crate::proofs::MasksOfPassing::all_passing, crate::proofs::MasksOfPassing::uncut_passing))]
    fn passing(&self, frame: u32, slot: u8, step: u8, links: NodeSet, side: &Side) -> NodeSet
        requires { IsMask (λ v. is_linked side.now self.now.lines.links v) self.now.nodes links }
        ensures { IsMask (λ v. passes_on self.now.lines frame slot step side.now v) self.now.nodes result }
    {
        if are_none(&self.losses, &self.cuts) {
            return links;
        }
        let nodes = self.nodes.as_slice();
        let lost = lost_mask(&self.losses, &self.starts, frame, slot, step, nodes, side);
        if has_no_cuts(&self.cuts) {
            return links.except(lost);
        }
        let cuts = cuts_so_far(&self.cuts, &self.starts.cuts, frame, slot, step);
        if names(cuts, side.own()) {
            return NodeSet::EMPTY;
        }
        let cut = cut_mask(cuts, nodes);
        links.except(lost).except(cut)
    }
}
