//! Nodes with random clocks.

ghost use Rattle.std.specs.Prelude.{◌≡◌, ◌+◌, ◌-ℤ◌, ◌*◌, ◌%◌, ◌≤◌, IfOk, OnOk, map, pos};
ghost use Rattle.lwb_base.specs.declared.limits.TheConstants.{MOST_NODES};
ghost use Rattle.scenario_maker.specs.Drawn.{later, drawn_word};
ghost use Rattle.scenario_maker.specs.Made.{all_nodes, node_line, rate_line};

use crate::draws::{Draws, node_of};
use lwb_base::{DRIFT_BOUND, Memory};
use scenario_text::{NodeLine, RateLine};
use std::alloc::Global;

/// The nodes, 1 to 64, with an offset and a rate drawn for each.
pub fn clocks(
    alloc: Global,
    draws: &mut Draws,
    nodes: u32,
) -> Result<(Vec<NodeLine>, Vec<RateLine>), Memory>
    requires { nodes ≤ MOST_NODES }
    ensures nodes { IfOk result (λ r. r.0.items ≡ map (node_line draws.old) (all_nodes nodes)) }
    ensures rates { IfOk result (λ r. r.1.items ≡ map (rate_line draws.old) (all_nodes nodes)) }
    ensures left { OnOk result (draws.new ≡ later (2 * nodes) draws.old) }
{
    let mut lines = Vec::new(alloc);
    let mut rates = Vec::new(alloc);
    for k in 0..nodes {
        let node = node_of(k + 1);
        let offset = u64::from(draws.below(256_001));
        let ppm = rate(draws);
        lines.push(NodeLine { node, offset })?;
        rates.push(RateLine { node, from: 0, ppm })?;
    }
    Ok((lines, rates))
}

// A rate in millionths, within the drift bound.
fn rate(draws: &mut Draws) -> i8
    ensures value { result ≡ pos (drawn_word draws.old 0 % (2 * DRIFT_BOUND + 1)) -ℤ pos DRIFT_BOUND }
    ensures left { draws.new ≡ later 1 draws.old }
{
    draws.below(2 * u32::from(DRIFT_BOUND) + 1) as i8 - DRIFT_BOUND as i8
}
