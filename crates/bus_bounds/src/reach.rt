//! Which nodes are up by a first round, and which of them are within reach of the host.

ghost use Rattle.std.specs.Prelude.{◌≡◌, ◌<◌, ◌^◌, ◌++◌, ◌==◌, ◌∷◌, [], ℕ, true, if◌then◌else◌, IfOk, OnOk, filter, find};
ghost use Rattle.std.specs.Option.{option_copied};
ghost use Rattle.bus_terms.specs.FloodOfText.{ids};
ghost use Rattle.bus_terms.specs.Flooding.{has};
ghost use Rattle.law_times.specs.Reaches.{IsLossless};
ghost use Rattle.bus_bounds.specs.JoinFindings.{boots_by as boots_by_of, is_reached, is_up as is_up_of, loss_in as loss_in_of, nodes_up as nodes_up_of};
ghost use Rattle.bus_bounds.specs.JoinRounds.{is_next as is_next_of};

use crate::breaking_line::BreakingLine;
use crate::power_line::PowerLine;
use crate::power_lines::{boots_within, first_off};
use link_trace::{CutLine, LoseLine, Trace};
use lwb_base::{FLOOD_STEPS, Memory, NodeId, QUIET_FRAMES};
use scenario_text::{NodeLine, Scenario};
use std::alloc::Global;

/// The frame after the first round, counted from the boot.
pub(crate) const JOIN_FRAMES: u32 = QUIET_FRAMES as u32 + 1;

/// The first line that loses something in the frame, or else the first that cuts.
pub(crate) fn loss_in(scenario: &Scenario, frame: u32) -> Option<BreakingLine>
    ensures { result ≡ loss_in_of scenario.now frame }
{
    let trace = scenario.trace();
    if let Some(line) = first_loss(trace.losses(), frame).copied() {
        return Some(BreakingLine::Lose(line));
    }
    let line = first_cut(trace.cuts(), frame).copied()?;
    Some(BreakingLine::Cut(line))
}

fn first_loss(losses: &[LoseLine], frame: u32) -> Option<&LoseLine>
    ensures { option_copied result ≡ find (λ l. l.frame == frame) losses.now }
{
    losses.iter().find(|l| l.frame == frame)
}

fn first_cut(cuts: &[CutLine], frame: u32) -> Option<&CutLine>
    ensures { option_copied result ≡ find (λ l. l.frame == frame) cuts.now }
{
    cuts.iter().find(|l| l.frame == frame)
}

/// Whether the node boots in that frame or one of those up to the first round.
pub(crate) fn boots_by(lines: &[PowerLine], node: NodeId, frame: u32) -> bool
    requires { frame < 2 ^ 31 }
    ensures { result ≡ boots_by_of lines.now frame node }
{
    boots_within(lines, node, frame, frame + JOIN_FRAMES)
}

/// The host, and those of the nodes that are up by the first round after that frame.
pub(crate) fn nodes_up(
    alloc: Global,
    lines: &[PowerLine],
    nodes: &[NodeLine],
    host: NodeId,
    frame: u32,
) -> Result<Vec<NodeId>, Memory>
    requires { frame < 2 ^ 31 }
    ensures { IfOk result (λ up. up.items ≡ nodes_up_of lines.now (ids nodes.now) host frame) }
{
    let mut up = Vec::new(alloc);
    for line in nodes {
        let is_there = line.node == host || is_up(lines, line.node, frame);
        push_if(&mut up, is_there, line.node)?;
    }
    Ok(up)
}

fn is_up(lines: &[PowerLine], node: NodeId, frame: u32) -> bool
    requires { frame < 2 ^ 31 }
    ensures { result ≡ is_up_of lines.now frame node }
{
    first_off(lines, node, frame, JOIN_FRAMES).is_none() && boots_by(lines, node, frame)
}

/// Those of the nodes that a walk of at most `FLOOD_STEPS` links leads to from the host, from one of them to the next. Nothing is lost in
/// the frame.
pub(crate) fn reached(
    alloc: Global,
    scenario: &Scenario,
    frame: u32,
    host: NodeId,
    up: &[NodeId],
) -> Result<Vec<NodeId>, Memory>
    requires lossless { IsLossless scenario.now frame }
    requires up { has up.now host ≡ true }
    ensures { IfOk result (λ nodes. (v : ℕ) → has up.now v ≡ true → has nodes.items v ≡ is_reached scenario.now up.now host v) }
{
    let mut nodes = Vec::new(alloc);
    nodes.push(host)?;
    for _ in 0..FLOOD_STEPS {
        nodes = one_step(alloc, scenario.trace(), frame, &nodes, up)?;
    }
    Ok(nodes)
}

// Those of the nodes that are among these, or that one of these has a link to.
fn one_step(
    alloc: Global,
    trace: &Trace,
    frame: u32,
    nodes: &[NodeId],
    up: &[NodeId],
) -> Result<Vec<NodeId>, Memory>
    ensures { IfOk result (λ next. next.items ≡ filter (is_next_of trace.now.lines frame nodes.now) up.now) }
{
    let mut next = Vec::new(alloc);
    for node in up {
        push_if(&mut next, is_next(trace, frame, nodes, *node), *node)?;
    }
    Ok(next)
}

fn is_next(trace: &Trace, frame: u32, nodes: &[NodeId], node: NodeId) -> bool
    ensures { result ≡ is_next_of trace.now.lines frame nodes.now node }
{
    nodes
        .iter()
        .any(|u| *u == node || trace.passes(frame, 0, 0, *u, node))
}

/// Adds the node, if it passes.
pub(crate) fn push_if(nodes: &mut Vec<NodeId>, passes: bool, node: NodeId) -> Result<(), Memory>
    ensures { OnOk result (nodes.new.items ≡ nodes.old.items ++ (if passes then node ∷ [] else [])) }
{
    if passes {
        nodes.push(node)?;
    }
    Ok(())
}

/// Whether the node is one of these.
pub(crate) fn has_node(nodes: &[NodeId], node: NodeId) -> bool
    ensures { result ≡ has nodes.now node }
{
    nodes.iter().any(|v| *v == node)
}
