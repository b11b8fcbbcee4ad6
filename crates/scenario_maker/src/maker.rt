//! Makes a scenario from a seed.

ghost use Rattle.std.specs.Prelude.{◌≡◌, ◌≤◌, [], ◌∷◌, IfOk};
ghost use Rattle.lwb_base.specs.declared.limits.TheConstants.{MOST_NODES};
ghost use Rattle.scenario_maker.specs.Made.{IsSize, all_nodes, made as made_scenario};

use crate::draws::{Draws, node_of};
use crate::links::{add_random_pairs, add_tree};
use crate::losses::add_losses;
use crate::nodes::clocks;
use crate::script_lines::script;
use link_trace::Trace;
use lwb_base::{Memory, NodeId, Profile};
use scenario_text::Scenario;
use std::alloc::Global;

/// The scenario that the seed makes: the same numbers always make the same one. It has profile 1, 2 transmissions of a node in
/// a flood, the given number of nodes, 2 to 64, and of frames, 1 to 4,096; nodes times frames is at most `RUN_NODE_FRAMES`. The first node
/// and the last are hosts, and from 40 frames on the first goes off in the middle. The only error is out of memory.
pub fn made(alloc: Global, seed: u64, nodes: u8, frames: u32) -> Result<Scenario, Memory>
    requires { IsSize nodes frames }
    ensures { IfOk result (λ s. s ≡ made_scenario seed nodes frames) }
{
    let count = u32::from(nodes);
    let mut draws = Draws::of_seed(seed);
    let (lines, rates) = clocks(alloc, &mut draws, count)?;
    let mut trace = Trace::new(alloc);
    add_tree(&mut trace, &mut draws, count)?;
    add_random_pairs(&mut trace, &mut draws, count)?;
    let script = script(alloc, &mut draws, count, frames)?;
    add_losses(&mut trace, &mut draws, count, frames)?;
    trace.seal(&ids(alloc, count)?)?;
    let hosts = hosts(alloc, count)?;
    Ok(Scenario::of_parts(
        &Profile::one(),
        frames,
        2,
        lines,
        rates,
        hosts,
        trace,
        script,
    ))
}

// All nodes.
fn ids(alloc: Global, nodes: u32) -> Result<Vec<NodeId>, Memory>
    requires { nodes ≤ MOST_NODES }
    ensures { IfOk result (λ v. v.items ≡ all_nodes nodes) }
{
    let mut ids = Vec::new(alloc);
    for k in 0..nodes {
        ids.push(node_of(k + 1))?;
    }
    Ok(ids)
}

// The first node and the last.
fn hosts(alloc: Global, nodes: u32) -> Result<Vec<NodeId>, Memory>
    requires { (1 ≤ nodes) × (nodes ≤ MOST_NODES) }
    ensures { IfOk result (λ v. v.items ≡ 1 ∷ nodes ∷ []) }
{
    let mut hosts = Vec::new(alloc);
    hosts.push(node_of(1))?;
    hosts.push(node_of(nodes))?;
    Ok(hosts)
}
