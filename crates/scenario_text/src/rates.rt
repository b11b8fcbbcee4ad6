//! The order of the rates of clocks.

ghost use Rattle.std.specs.Prelude.{◌≡◌, ◌≤◌, ◌==◌, ◌++◌, nat_lt, true, IfOk, OnOk, filter};
ghost use Rattle.std.specs.Option.{option_copied, option_map_or};
ghost use Rattle.lwb_base.specs.declared.limits.TheConstants.{DRIFT_BOUND};
ghost use Rattle.scenario_text.specs.Network.{rates_by_node, last_rate as last_rate_of, ppm as ppm_of};

use crate::{NodeLine, RateLine};
use lwb_base::{Memory, NodeId};
use std::alloc::Global;

/// The rates of each node in turn, each node's in the order in which they are here.
pub fn by_node(
    alloc: Global,
    nodes: &[NodeLine],
    rates: &[RateLine],
) -> Result<Vec<RateLine>, Memory>
    ensures { IfOk result (λ v. v.items ≡ rates_by_node nodes.now rates.now) }
{
    let mut sorted = Vec::new(alloc);
    for line in nodes {
        push_rates(&mut sorted, rates, line.node)?;
    }
    Ok(sorted)
}

fn push_rates(sorted: &mut Vec<RateLine>, rates: &[RateLine], node: NodeId) -> Result<(), Memory>
    ensures { OnOk result (sorted.new.items ≡ sorted.old.items ++ filter (λ r. r.node == node) rates.now) }
{
    for rate in rates {
        if rate.node == node {
            sorted.push(*rate)?;
        }
    }
    Ok(())
}

fn last_rate(rates: &[RateLine], node: NodeId) -> Option<&RateLine>
    ensures { option_copied result ≡ last_rate_of rates.now node }
{
    rates.iter().rev().find(|r| r.node == node)
}

/// Whether the tick is above that of the node's last rate.
pub fn is_later(rates: &[RateLine], node: NodeId, tick: u64) -> bool
    ensures { result ≡ option_map_or (λ r. nat_lt r.from tick) (last_rate_of rates.now node) true }
{
    match last_rate(rates, node) {
        Some(rate) => rate.from < tick,
        None => true,
    }
}

/// A rate of this number of millionths, fast or slow.
pub fn ppm(slow: bool, parts: u8) -> i8
    requires { parts ≤ DRIFT_BOUND }
    ensures { result ≡ ppm_of slow parts }
{
    let parts = parts as i8;
    if slow { -parts } else { parts }
}
