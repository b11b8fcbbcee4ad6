//! What became of the packets of a run.

ghost use Rattle.std.specs.Prelude.{◌≡◌, ◌<◌, ◌^◌, IfOk, length};
ghost use Rattle.scenario_text.specs.ScenarioParts.{ScenarioParts};
ghost use Rattle.bus_model.specs.BusRuns.{IsBusRun};
ghost use Rattle.bus_terms.specs.Fates.{bus_fates};

use bus_model::Bus;
use bus_terms::PutFate;
use lwb_base::Memory;
use packet_fates::{BusLists, fates};
use scenario_text::Scenario;
use std::alloc::Global;

/// What became of each packet that the script of the scenario puts, in this run of it over some links.
pub fn run_fates(alloc: Global, scenario: &Scenario, bus: &Bus) -> Result<Vec<PutFate>, Memory>
    requires few { length bus.now.deliveries < 2 ^ 32 }
    ensures { (d : ScenarioParts) → IsBusRun d bus.now → scenario.now.hosts ≡ d.hosts → scenario.now.script ≡ d.script
        → IfOk result (λ fates. fates.items ≡ bus_fates d) }
{
    let lists = BusLists {
        hosts: scenario.hosts(),
        script: scenario.script(),
        puts: bus.puts(),
        sent: bus.sent(),
        deliveries: bus.deliveries(),
    };
    fates(alloc, &lists)
}
