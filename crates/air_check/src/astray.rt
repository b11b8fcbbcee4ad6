//! The first node that does not follow its trail.

ghost use Rattle.std.specs.Prelude.{◌≡◌, IfOk, IfSome, IfNone, List, get_or, length, set};
ghost use Rattle.std.specs.Bool.{Decides};
ghost use Rattle.lwb_base.specs.declared.limits.TheConstants.{PLACES_BY_ID};
ghost use Rattle.scenario_clocks.specs.StatedClocks.{scenario_clock};
ghost use Rattle.air_log.specs.Lawful.{FollowsTrails};
ghost use Rattle.air_log.specs.declared.entry.Entry.{Entry};
ghost use Rattle.air_check.specs.NodeClocks.{AreClocksOf};
ghost use Rattle.air_check.specs.NodeLogs.{empty_node_log, log_by};
ghost use Rattle.air_check.specs.Verdicts.{FollowsTrail, IsFirstAstray};

use crate::node_log::NodeLog;
use crate::node_logs::logs_by_id;
use crate::own_trail::follows_trail;
use air_log::Air;
use lwb_base::{Memory, NodeId, PLACES_BY_ID};
use scenario_clocks::stated_clocks;
use scenario_text::Scenario;
use std::alloc::Global;
use std::mem;
use tick_clock::SegmentClock;

/// The least id whose transmissions or tunings in the log are not those of its trail. `None` if and only if those of all ids are.
pub(crate) fn first_astray(alloc: Global, s: &Scenario, air: &Air) -> Result<Option<NodeId>, Memory>
    ensures astray { IfOk result (λ o. IfSome o (λ v. IsFirstAstray s.now (scenario_clock s.now) air.now v)) }
    ensures followed { IfOk result (λ o. IfNone o (FollowsTrails s.now (scenario_clock s.now) air.now)) }
{
    let clocks = stated_clocks(alloc, s.nodes(), s.rates())?;
    let mut logs = logs_by_id(alloc, air.entries())?;
    for id in 1..PLACES_BY_ID {
        let node = NodeId::new(id as u8).unwrap();
        if !follows_own(alloc, s, &clocks, &mut logs, node)? {
            return Ok(Some(node));
        }
    }
    Ok(None)
}

// Whether the transmissions and tunings of this id are those of its trail. What it did is taken out of its place.
fn follows_own(
    alloc: Global,
    s: &Scenario,
    clocks: &[SegmentClock],
    logs: &mut Vec<NodeLog>,
    node: NodeId,
) -> Result<bool, Memory>
    requires clocks { AreClocksOf s.now clocks.now }
    requires ids { length logs.old.items ≡ PLACES_BY_ID }
    ensures taken { logs.new.items ≡ set logs.old.items node empty_node_log }
    ensures follows { (air : List Entry) → get_or logs.old.items node empty_node_log ≡ log_by air node
        → IfOk result (λ b. Decides b (FollowsTrail s.now (scenario_clock s.now) air node)) }
{
    let place = usize::from(node.number());
    let log = mem::replace(&mut logs[place], NodeLog::new(alloc));
    follows_trail(alloc, s, clocks, node, log)
}
