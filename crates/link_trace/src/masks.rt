//! The links of each node, as masks of nodes.

ghost use Rattle.std.specs.Prelude.{[], ◌≡◌, ◌≤◌, ◌<◌, ◌==◌, ◌&&◌, length, slice_index, IfOk};
ghost use Rattle.std.specs.List.{list_any, AllPairs};
ghost use Rattle.lwb_base.specs.declared.limits.TheConstants.{MOST_NODES};
ghost use Rattle.link_trace.specs.Order.{Ascends, by_link};
ghost use Rattle.link_trace.specs.Passes.{is_of_step};
ghost use Rattle.link_trace.specs.Starts.{AreNone, AreStarts, of_loss};
ghost use Rattle.link_trace.specs.Sides.{is_linked, is_lost, is_lost_by};
ghost use Rattle.link_trace.specs.Masks.{IsMask, AreLinkMasks};

use crate::in_order::has_link;
use crate::sides::Side;
use crate::starts::{Starts, of_slots, slot_number};
use crate::{CutLine, LinkLine, LoseLine, NodeSet};
use lwb_base::{Memory, NodeId};
use std::alloc::Global;

/// The links of one node: which of them have a link to it, and to which of them it has one.
#[derive(Clone, Copy)]
pub struct LinkMasks {
    pub to_it: NodeSet,
    pub from_it: NodeSet,
}

/// A trace with another line is no longer sealed: it has no nodes, no masks and no starts.
pub fn unseal(nodes: &mut Vec<NodeId>, masks: &mut Vec<LinkMasks>, starts: &mut Starts)
    ensures nodes { nodes.new.items ≡ [] }
    ensures masks { masks.new.items ≡ [] }
    ensures starts { AreNone starts.new }
{
    nodes.clear();
    masks.clear();
    starts.clear();
}

/// The links of each of the nodes.
pub fn link_masks(
    alloc: Global,
    links: &[LinkLine],
    nodes: &[NodeId],
) -> Result<Vec<LinkMasks>, Memory>
    requires links { Ascends by_link links.now }
    requires few { length nodes.now ≤ MOST_NODES }
    ensures { IfOk result (λ masks. AreLinkMasks links.now nodes.now masks.items) }
{
    let mut masks = Vec::new(alloc);
    for node in nodes {
        let to_it = links_of(links, nodes, &Side::To(*node));
        let from_it = links_of(links, nodes, &Side::From(*node));
        masks.push(LinkMasks { to_it, from_it })?;
    }
    Ok(masks)
}

/// Those of the nodes whose link on that side a line loses in that frame, slot and step.
#[inline(always)]
pub fn lost_mask(
    losses: &[LoseLine],
    starts: &Starts,
    frame: u32,
    slot: u8,
    step: u8,
    nodes: &[NodeId],
    side: &Side,
) -> NodeSet
    requires starts { AreStarts of_loss losses.now starts.now.losses.items }
    requires few { length nodes.now ≤ MOST_NODES }
    requires ascending { AllPairs (λ a b. a < b) nodes.now }
    ensures { IsMask (λ v. is_lost frame slot step side.now losses.now v) nodes.now result }
{
    let number = slot_number(frame, slot);
    let of_slot = of_slots(losses, &starts.losses, number, number);
    let mut mask = NodeSet::EMPTY;
    for line in of_slot {
        mask = mask.or(lost_by(line, frame, slot, step, nodes, side));
    }
    mask
}

/// Those of the nodes that one of the lines names.
pub fn cut_mask(cuts: &[CutLine], nodes: &[NodeId]) -> NodeSet
    requires few { length nodes.now ≤ MOST_NODES }
    requires ascending { AllPairs (λ a b. a < b) nodes.now }
    ensures { IsMask (λ node. list_any (λ l. l.node == node) cuts.now) nodes.now result }
{
    let mut mask = NodeSet::EMPTY;
    for line in cuts {
        mask = mask.or(mask_of(nodes, line.node));
    }
    mask
}

// The node whose link on that side the line loses in that step, if it loses one.
#[inline(always)]
fn lost_by(
    line: &LoseLine,
    frame: u32,
    slot: u8,
    step: u8,
    nodes: &[NodeId],
    side: &Side,
) -> NodeSet
    requires few { length nodes.now ≤ MOST_NODES }
    requires ascending { AllPairs (λ a b. a < b) nodes.now }
    ensures { IsMask (λ v. is_lost_by frame slot step side.now v line.now) nodes.now result }
{
    match side {
        Side::To(to) => {
            if line.to == *to && is_of(line, frame, slot, step) {
                return mask_of(nodes, line.from);
            }
        }
        Side::From(from) => {
            if line.from == *from && is_of(line, frame, slot, step) {
                return mask_of(nodes, line.to);
            }
        }
    }
    NodeSet::EMPTY
}

// Whether the line is of that frame, slot and step. Most lines of a slot are of other steps.
fn is_of(line: &LoseLine, frame: u32, slot: u8, step: u8) -> bool
    ensures { result ≡ is_of_step frame slot step line.now }
{
    line.step == step && line.slot == slot && line.frame == frame
}

// The nodes with which the node has a link on that side.
fn links_of(links: &[LinkLine], nodes: &[NodeId], side: &Side) -> NodeSet
    requires links { Ascends by_link links.now }
    requires few { length nodes.now ≤ MOST_NODES }
    ensures { IsMask (λ v. is_linked side.now links.now v) nodes.now result }
{
    let mut mask = NodeSet::EMPTY;
    for (i, other) in nodes.iter().enumerate() {
        if has_link_on(links, side, *other) {
            mask = mask.with(i as u8);
        }
    }
    mask
}

// Whether there is the link with the other node on that side.
fn has_link_on(links: &[LinkLine], side: &Side, other: NodeId) -> bool
    requires { Ascends by_link links.now }
    ensures { result ≡ is_linked side.now links.now other }
{
    has_link(links, side.sender(other), side.receiver(other))
}

// The mask of the one node, if it is one of these.
fn mask_of(nodes: &[NodeId], node: NodeId) -> NodeSet
    requires few { length nodes.now ≤ MOST_NODES }
    requires ascending { AllPairs (λ a b. a < b) nodes.now }
    ensures { IsMask (λ id. node == id) nodes.now result }
{
    match nodes.binary_search(&node) {
        Ok(i) => NodeSet::EMPTY.with(i as u8),
        Err(_) => NodeSet::EMPTY,
    }
}
