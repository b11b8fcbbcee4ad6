//! Whatever runs scenarios.

ghost use Rattle.std.specs.Prelude.{◌≡◌, List, IfOk};
ghost use Rattle.scenario_text.specs.ScenarioParts.{ScenarioParts};
ghost use Rattle.scenario_clocks.specs.StatedClocks.{scenario_clock};
ghost use Rattle.air_log.specs.Lawful.{Lawful};
ghost use Rattle.air_log.specs.declared.entry.Entry.{Entry as EntryOf};
ghost use Rattle.host_return.specs.Probes.{idle_of};

use air_log::{Air, Idle};
use lwb_base::Memory;
use scenario_text::Scenario;
use std::alloc::Global;

/// Whatever runs a scenario over the clocks that it states. It may keep something of its last run, and `kept` says what: by
/// the scenario of that run, and by its log.
pub trait Runner {
    ghost kept: { Self → ScenarioParts → List EntryOf → Type 0 };

    /// The log of a run of the scenario, which is valid (`Lawful`). The runner keeps what it does of this run. The only error
    /// is out of memory; after it the runner may hold anything.
    fn run(&mut self, alloc: Global, s: &Scenario) -> Result<Air, Memory>
        ensures lawful { IfOk result (Lawful s.now (scenario_clock s.now)) }
        ensures kept { IfOk result (kept self.new s.now) };
}

/// A runner that has listed where nodes were idle in its last run, by frame and then node. Such a node probes a lower rank.
pub trait ListsIdle: Runner {
    /// That list.
    fn idle(&self) -> &[Idle]
        ensures { (s : ScenarioParts) (air : List EntryOf) → Self.kept self.now s air → result.now ≡ idle_of s air };
}
