//! Laws of drawn runs and of samples.

ghost use Rattle.std.specs.Prelude.{◌≡◌, ◌+◌, ◌++◌, ℕ, List, Ok};
ghost use Rattle.scenario_text.specs.ScenarioParts.{ScenarioParts};
ghost use Rattle.bus_terms.specs.Bus.{Ordered, bus_deliveries};
ghost use Rattle.scenario_text.specs.OverLines.{IsOverScenario};
ghost use Rattle.drawn_links.specs.declared.ratio_line.RatioLine.{RatioLine};
ghost use Rattle.drawn_bus.specs.DrawnScenarios.{drawn_scenario};
ghost use Rattle.network_text.specs.NetworkGrammar.{network_of};
ghost use Rattle.plan_commands.specs.SeedTexts.{seeds_text};

/// What `outcome`, `fates`, `run`, `log` and `sample` tell of a network with a seed is what the bus of the drawn scenario does. It is a scenario
/// over other lines (`over`), so that the laws of the bus hold of it, and it delivers each stream of a boot in order at each node, and
/// no packet twice (`ordered`).
pub fn drawn_runs_deliver_in_order()
    ensures over { (bytes : List ℕ) (s : ScenarioParts) (ratios : List RatioLine) (seed : ℕ) → network_of bytes ≡ Ok (s, ratios)
        → IsOverScenario (drawn_scenario s ratios seed) }
    ensures ordered { (bytes : List ℕ) (s : ScenarioParts) (ratios : List RatioLine) (seed : ℕ) → network_of bytes ≡ Ok (s, ratios)
        → Ordered (bus_deliveries (drawn_scenario s ratios seed)) }
{}

/// The seeds of a sample can be dealt out: the texts of the first of them and of the others, one after the other, are the text of
/// them all.
pub fn seeds_can_be_dealt_out()
    ensures { (s : ScenarioParts) (ratios : List RatioLine) (from m n : ℕ) → seeds_text s ratios from (m + n)
        ≡ seeds_text s ratios from m ++ seeds_text s ratios (from + m) n }
{}
