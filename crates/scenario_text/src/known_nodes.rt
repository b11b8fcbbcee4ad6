//! Ids of nodes in a text.

ghost use Rattle.std.specs.Prelude.{◌≡◌, ◌≤◌, ◌&&◌, ◌==◌, if◌then◌else◌, nat_lt, Some, None, IfOk, count_by, map, length};
ghost use Rattle.std.specs.List.{find};
ghost use Rattle.std.specs.Option.{option_copied};
ghost use Rattle.scenario_text.specs.FloodParts.{knows as knows_of};
ghost use Rattle.scenario_text.specs.Network.{are_ends, is_id as is_id_of};

use crate::NodeLine;
use lwb_base::{GREATEST_ID, Memory, NodeId};
use std::alloc::Global;

/// Whether it is the id of a node.
pub fn is_id(id: u64) -> bool
    ensures { result ≡ is_id_of id }
{
    1 <= id && id <= u64::from(GREATEST_ID)
}

/// The node with that id, if it is one.
pub fn node_id(id: u64) -> Option<NodeId>
    ensures { result ≡ (if is_id_of id then Some id else None) }
{
    NodeId::new(u8::try_from(id).ok()?)
}

/// Whether both are ids, and they differ.
pub fn are_two_ids(from: u64, to: u64) -> bool
    ensures { result ≡ are_ends from to }
{
    is_id(from) && is_id(to) && from != to
}

/// How many of the nodes have a lower id.
pub fn count_below(nodes: &[NodeLine], id: NodeId) -> usize
    ensures count { result ≡ count_by (λ n. nat_lt n.node id) nodes.now }
    ensures within { result ≤ length nodes.now }
{
    nodes.iter().filter(|n| n.node < id).count()
}

fn find_line(nodes: &[NodeLine], id: u64) -> Option<&NodeLine>
    ensures { option_copied result ≡ find (λ n. n.node == id) nodes.now }
{
    nodes.iter().find(|n| u64::from(n.node.number()) == id)
}

/// The node of that id, if it is one of these.
pub fn known(nodes: &[NodeLine], id: u64) -> Option<NodeId>
    ensures { result ≡ (if knows_of nodes.now id then Some id else None) }
{
    let line = find_line(nodes, id)?;
    Some(line.node)
}

/// Two of these nodes, by their ids.
pub fn two_nodes(nodes: &[NodeLine], from: u64, to: u64) -> Option<(NodeId, NodeId)>
    ensures { result ≡ (if knows_of nodes.now from && knows_of nodes.now to then Some (from, to) else None) }
{
    let from = known(nodes, from)?;
    let to = known(nodes, to)?;
    Some((from, to))
}

/// The ids of the nodes, in their order.
pub fn ids(alloc: Global, nodes: &[NodeLine]) -> Result<Vec<NodeId>, Memory>
    ensures { IfOk result (λ v. v.items ≡ map (λ n. n.node) nodes.now) }
{
    Ok(nodes.iter().map(|n| n.node).collect(alloc)?)
}
