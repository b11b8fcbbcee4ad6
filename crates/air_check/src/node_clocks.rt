//! The clock of an id among those of a scenario.

ghost use Rattle.std.specs.Prelude.{◌≡◌, true, false, IfSome, IfNone};
ghost use Rattle.scenario_text.specs.FloodParts.{knows};
ghost use Rattle.scenario_clocks.specs.StatedClocks.{scenario_clock};
ghost use Rattle.tick_clock.specs.ClockReadings.{segment_clock_reads};
ghost use Rattle.air_check.specs.NodeClocks.{AreClocksOf};

use lwb_base::NodeId;
use scenario_text::Scenario;
use tick_clock::SegmentClock;

/// The clock of a node. `None` if and only if the scenario has no node of this id.
pub fn clock_of<'a>(
    s: &Scenario,
    clocks: &'a [SegmentClock],
    node: NodeId,
) -> Option<&'a SegmentClock>
    requires { AreClocksOf s.now clocks.now }
    ensures known { IfSome result (λ c. knows s.now.nodes node ≡ true) }
    ensures reads { IfSome result (λ c. segment_clock_reads c.now ≡ scenario_clock s.now node) }
    ensures unknown { IfNone result (knows s.now.nodes node ≡ false) }
{
    match s.nodes().binary_search_by_key(&node, |line| line.node) {
        Ok(place) => Some(&clocks[place]),
        Err(_) => None,
    }
}
