//! The links of a made scenario: a tree and random pairs.

ghost use Rattle.std.specs.Prelude.{◌≡◌, ◌+◌, ◌-◌, ◌*◌, ◌≤◌, OnOk};
ghost use Rattle.lwb_base.specs.declared.limits.TheConstants.{MOST_NODES};
ghost use Rattle.scenario_maker.specs.Drawn.{later};
ghost use Rattle.scenario_maker.specs.Made.{with_pair, with_pairs, tree_pairs, random_pairs};

use crate::draws::{Draws, node_of};
use link_trace::Trace;
use lwb_base::{Memory, NodeId};

/// Links each node from 2 on with one before it, both ways.
pub fn add_tree(trace: &mut Trace, draws: &mut Draws, nodes: u32) -> Result<(), Memory>
    requires { (1 ≤ nodes) × (nodes ≤ MOST_NODES) }
    ensures links { OnOk result (trace.new.lines ≡ record trace.old.lines { links = with_pairs trace.old.lines.links (tree_pairs draws.old nodes) }) }
    ensures left { OnOk result (draws.new ≡ later (nodes - 1) draws.old) }
{
    for k in 0..nodes - 1 {
        let node = node_of(k + 2);
        let parent = draws.node(k + 1);
        add_pair(trace, node, parent)?;
    }
    Ok(())
}

/// Links as many random pairs as there are nodes, both ways.
pub fn add_random_pairs(trace: &mut Trace, draws: &mut Draws, nodes: u32) -> Result<(), Memory>
    requires { (1 ≤ nodes) × (nodes ≤ MOST_NODES) }
    ensures links { OnOk result (trace.new.lines ≡ record trace.old.lines { links = with_pairs trace.old.lines.links (random_pairs draws.old nodes) }) }
    ensures left { OnOk result (draws.new ≡ later (2 * nodes) draws.old) }
{
    for k in 0..nodes {
        let from = draws.node(nodes);
        let to = draws.node(nodes);
        add_pair(trace, from, to)?;
    }
    Ok(())
}

// Both links of two nodes that differ, where the first is not there.
fn add_pair(trace: &mut Trace, from: NodeId, to: NodeId) -> Result<(), Memory>
    ensures { OnOk result (trace.new.lines ≡ record trace.old.lines { links = with_pair trace.old.lines.links (from, to) }) }
{
    if from != to && trace.link(from, to)? {
        trace.link(to, from)?;
    }
    Ok(())
}
