//! The bus over links that lose by the coins of a seed.

ghost use Rattle.std.specs.Prelude.{◌≡◌, ◌<◌, ◌^◌, IfOk, length, map};
ghost use Rattle.scenario_text.specs.FloodParts.{node_id};
ghost use Rattle.bus_model.specs.BusRuns.{IsBusRun};
ghost use Rattle.drawn_bus.specs.DrawnScenarios.{drawn_scenario};

use bus_model::Bus;
use drawn_links::{DrawnLinks, Ratios};
use lwb_base::Memory;
use scenario_text::Scenario;
use std::alloc::Global;

/// The scenario's run on the bus, over links that also lose where a coin of the seed does not pass by these ratios. They are of the
/// scenario's nodes.
pub fn drawn_run(
    alloc: Global,
    scenario: &Scenario,
    ratios: &Ratios,
    seed: u64,
) -> Result<Bus, Memory>
    requires { ratios.now.nodes ≡ map node_id scenario.now.nodes }
    ensures run { IfOk result (IsBusRun (drawn_scenario scenario.now ratios.now.lines seed)) }
    ensures few { IfOk result (λ bus. length bus.deliveries < 2 ^ 32) }
{
    let links = DrawnLinks::new(scenario.trace(), ratios, seed, scenario.frames());
    Bus::run_over(alloc, scenario, &links)
}
