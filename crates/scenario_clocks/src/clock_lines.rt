//! Makes the clocks that the lines of a text state.

ghost use Rattle.std.specs.Prelude.{◌≡◌, ℕ, ◌^◌, ◌≤◌, ◌<◌, ◌++◌, ◌∷◌, [], IfOk, OnOk, All, get_or, length, set};
ghost use Rattle.lwb_base.specs.declared.limits.TheConstants.{GREATEST_ID, PLACES_BY_ID};
ghost use Rattle.tick_clock.specs.ClockReadings.{segment_clock_reads};
ghost use Rattle.tick_clock.specs.Rates.{segment_reading, unordered_at, wild_at};
ghost use Rattle.scenario_clocks.specs.ClockLists.{clocks_by};
ghost use Rattle.scenario_clocks.specs.StatedClocks.{rate_entry_of_line, stated_by};
ghost use Rattle.scenario_clocks.specs.NodeRates.{AreRatesOf, CanState, IsId};

use crate::node_rates::NodeRates;
use lwb_base::{Memory, NodeId, PLACES_BY_ID};
use scenario_text::{NodeLine, RateLine};
use std::alloc::Global;
use tick_clock::{ClockFault, SegmentClock};

/// The clocks that these lines of a text state, one for each node by ascending ids. `Err` means out of memory.
pub fn stated_clocks(
    alloc: Global,
    nodes: &[NodeLine],
    rates: &[RateLine],
) -> Result<Vec<SegmentClock>, Memory>
    requires { CanState nodes.now rates.now }
    ensures count { IfOk result (λ clocks. length clocks.items ≡ length nodes.now) }
    ensures ids { IfOk result (λ clocks. All IsId nodes.now) }
    ensures stated { IfOk result (λ clocks. (v : ℕ) → clocks_by segment_clock_reads nodes.now clocks.items v ≡ stated_by nodes.now rates.now v) }
{
    let rates = rates_by_id(alloc, rates)?;
    let mut clocks = Vec::new(alloc);
    for line in nodes {
        let clock = clock_of(alloc, line.offset, rates_of(&rates, line.node))?;
        clocks.push(clock)?;
    }
    Ok(clocks)
}

// A clock of rates that ascend and are in range.
fn clock_of(alloc: Global, offset: u64, rates: &[(u64, i8)]) -> Result<SegmentClock, Memory>
    requires offset { offset ≤ 256000 }
    requires starts { All (λ r. r.0 < 2 ^ 47) rates.now }
    requires small { wild_at rates.now ≡ None }
    requires order { unordered_at rates.now ≡ None }
    ensures { IfOk result (λ clock. segment_clock_reads clock ≡ segment_reading offset rates.now) }
{
    match SegmentClock::new(alloc, offset, rates) {
        Ok(clock) => Ok(clock),
        Err(ClockFault::Memory) => Err(Memory),
        Err(ClockFault::Rate(_)) => unreachable!(),
        Err(ClockFault::Order(_)) => unreachable!(),
    }
}

fn rates_of(lists: &[NodeRates], node: NodeId) -> &[(u64, i8)]
    requires { length lists.now ≡ PLACES_BY_ID }
    ensures value { result.now ≡ get_or lists.now node [] }
    ensures range { (1 ≤ node) × (node ≤ GREATEST_ID) }
{
    lists[node.number() as usize].entries()
}

// The rates of each node in the order in which they are, at the place of its id.
fn rates_by_id(alloc: Global, rates: &[RateLine]) -> Result<Vec<NodeRates>, Memory>
    ensures { IfOk result (λ lists. AreRatesOf rates.now lists.items) }
{
    let mut lists = no_rates(alloc)?;
    for rate in rates {
        add_rate(&mut lists, rate)?;
    }
    Ok(lists)
}

fn no_rates(alloc: Global) -> Result<Vec<NodeRates>, Memory>
    ensures { IfOk result (λ lists. AreRatesOf [] lists.items) }
{
    let mut lists = Vec::new(alloc);
    for _ in 0..PLACES_BY_ID {
        lists.push(NodeRates::new(alloc))?;
    }
    Ok(lists)
}

fn add_rate(lists: &mut Vec<NodeRates>, rate: &RateLine) -> Result<(), Memory>
    requires { length lists.old.items ≡ PLACES_BY_ID }
    ensures range { rate.now.node ≤ GREATEST_ID }
    ensures added { OnOk result
        (lists.new.items ≡ set lists.old.items rate.now.node (get_or lists.old.items rate.now.node [] ++ rate_entry_of_line rate.now ∷ [])) }
{
    let place = rate.node.number() as usize;
    let list = &mut lists[place];
    list.push(rate.from, rate.ppm)
}
