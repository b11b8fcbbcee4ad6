//! Whether a node did by a log what its trail says.

ghost use Rattle.std.specs.Prelude.{◌≡◌, List, true, IfOk, IsPermutation};
ghost use Rattle.std.specs.List.Sorted.{IsNonDecreasingBy};
ghost use Rattle.std.specs.Bool.{Decides};
ghost use Rattle.scenario_text.specs.FloodParts.{knows};
ghost use Rattle.scenario_clocks.specs.StatedClocks.{scenario_clock};
ghost use Rattle.air_log.specs.declared.entry.Entry.{Entry};
ghost use Rattle.air_check.specs.NodeClocks.{AreClocksOf};
ghost use Rattle.air_check.specs.NodeLogs.{log_by};
ghost use Rattle.air_check.specs.Verdicts.{FollowsTrail};

use crate::node_clocks::clock_of;
use crate::node_log::NodeLog;
use crate::same_entries::{are_same_sent, are_same_tuned};
use air_log::{SentEntry, TunedEntry, trail_over};
use lwb_base::{Memory, NodeId};
use scenario_text::Scenario;
use std::alloc::Global;
use tick_clock::{DriftClock, SegmentClock};

/// Whether the transmissions and tunings of this id are those of its trail, each once. An id that is no node has none. `Err`
/// means out of memory.
pub fn follows_trail(
    alloc: Global,
    s: &Scenario,
    clocks: &[SegmentClock],
    node: NodeId,
    log: NodeLog,
) -> Result<bool, Memory>
    requires { AreClocksOf s.now clocks.now }
    ensures { (air : List Entry) → log ≡ log_by air node → IfOk result (λ b. Decides b (FollowsTrail s.now (scenario_clock s.now) air node)) }
{
    match clock_of(s, clocks, node) {
        Some(clock) => follows_clock(alloc, s, clock, node, log),
        None => Ok(log.sent.is_empty() && log.tuned.is_empty()),
    }
}

// The same for a node, by its clock.
fn follows_clock<C: DriftClock>(
    alloc: Global,
    s: &Scenario,
    clock: &C,
    node: NodeId,
    log: NodeLog,
) -> Result<bool, Memory>
    requires known { knows s.now.nodes node ≡ true }
    requires reads { C.readings clock.now ≡ scenario_clock s.now node }
    ensures { (air : List Entry) → log ≡ log_by air node → IfOk result (λ b. Decides b (FollowsTrail s.now (scenario_clock s.now) air node)) }
{
    let trail = trail_over(alloc, s, node, clock, log.heard)?;
    let sent = sent_by_start(log.sent)?;
    let tuned = tuned_by_start(log.tuned)?;
    Ok(are_same_sent(trail.sent(), &sent) && are_same_tuned(trail.tuned(), &tuned))
}

fn sent_by_start(mut sent: Vec<SentEntry>) -> Result<Vec<SentEntry>, Memory>
    ensures moved { IfOk result (λ r. IsPermutation sent.items r.items) }
    ensures rises { IfOk result (λ r. IsNonDecreasingBy (λ x. x.start) r.items) }
{
    sent.sort_by_key(|x| x.start)?;
    Ok(sent)
}

fn tuned_by_start(mut tuned: Vec<TunedEntry>) -> Result<Vec<TunedEntry>, Memory>
    ensures moved { IfOk result (λ r. IsPermutation tuned.items r.items) }
    ensures rises { IfOk result (λ r. IsNonDecreasingBy (λ t. t.start) r.items) }
{
    tuned.sort_by_key(|t| t.start)?;
    Ok(tuned)
}
