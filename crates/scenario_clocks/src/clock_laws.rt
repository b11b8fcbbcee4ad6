//! The clocks of a scenario: one law, as the contract of a function that does nothing.

ghost use Rattle.std.specs.Prelude.{◌≡◌, ℕ, true};
ghost use Rattle.tick_clock.specs.Clocks.{IsClock};
ghost use Rattle.scenario_text.specs.FloodParts.{knows};
ghost use Rattle.scenario_text.specs.ScenarioGrammar.{IsScenario};
ghost use Rattle.scenario_text.specs.ScenarioParts.{ScenarioParts};
ghost use Rattle.scenario_clocks.specs.StatedClocks.{scenario_clock};

/// The clocks that a scenario states keep the drift law, so what is proved of valid (`Lawful`) logs over such clocks holds of
/// the log of a run over them.
pub fn scenario_clocks_keep_the_drift_law()
    ensures { (s : ScenarioParts) → IsScenario s → (v : ℕ) → knows s.nodes v ≡ true → IsClock (scenario_clock s v) }
{}
