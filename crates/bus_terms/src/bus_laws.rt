//! The order of deliveries on the bus: one law, as the contract of a function that does nothing.

ghost use Rattle.scenario_text.specs.ScenarioParts.{ScenarioParts};
ghost use Rattle.bus_terms.specs.Bus.{Ordered, bus_deliveries};
ghost use Rattle.scenario_text.specs.OverLines.{IsOverScenario};

/// On the bus each stream of a boot is delivered in order at each node, and no packet twice: the numbers strictly ascend
/// along the deliveries of a run.
pub fn each_stream_is_delivered_in_order()
    ensures { (s : ScenarioParts) → IsOverScenario s → Ordered (bus_deliveries s) }
{}
