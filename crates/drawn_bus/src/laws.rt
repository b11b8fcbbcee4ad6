//! The bus over losses that are drawn, and over those of them that are kept: each law a function that does nothing and has the
//! law as its contract.

ghost use Rattle.std.specs.Prelude.{◌≡◌, ◌≢◌, ◌≤◌, ◌==◌, ℕ, List, Bool, true, false, length, filter, All};
ghost use Rattle.std.specs.List.{AllPairs, list_all, list_any};
ghost use Rattle.link_trace.specs.declared.lines.LoseLine.{LoseLine};
ghost use Rattle.link_trace.specs.Passes.{Lines, captured, is_link, is_loss, passes};
ghost use Rattle.scenario_text.specs.ScenarioFacts.{AreEnds, HasSoundLines, IsSoundScenario, IsStepOf};
ghost use Rattle.scenario_text.specs.ScenarioGrammar.{IsScenario};
ghost use Rattle.scenario_text.specs.ScenarioParts.{ScenarioParts};
ghost use Rattle.bus_terms.specs.Bus.{Ordered, bus_deliveries};
ghost use Rattle.scenario_text.specs.OverLines.{IsOverScenario, over};
ghost use Rattle.drawn_links.specs.Ratios.{ratio_in};
ghost use Rattle.drawn_links.specs.declared.ratio_line.RatioLine.{RatioLine};
ghost use Rattle.drawn_bus.specs.DrawnScenarios.{AreSameOnBus, drawn_scenario};
ghost use Rattle.drawn_bus.specs.FloodLosses.{losses_of_bus};
ghost use Rattle.drawn_bus.specs.KeptLosses.{AddsLosses, kept_losses};

/// Every drawn scenario is a scenario over other lines, whatever the ratios and the seed (`over`): what is proved of those holds of
/// it. So on its bus each stream of a boot is delivered in order at each node, and no packet twice (`ordered`).
pub fn drawn_scenarios_are_over_scenarios()
    ensures over { (s : ScenarioParts) (ratios : List RatioLine) (seed : ℕ) → IsScenario s → IsOverScenario (drawn_scenario s ratios seed) }
    ensures ordered { (s : ScenarioParts) (ratios : List RatioLine) (seed : ℕ) → IsScenario s
        → Ordered (bus_deliveries (drawn_scenario s ratios seed)) }
{}

/// The bus depends on its trace by two things alone: which links pass in which step, and whom a node captures.
pub fn links_that_pass_give_the_bus()
    ensures { (s : ScenarioParts) (a b : Lines) → ((f j k u v : ℕ) → passes a f j k u v ≡ passes b f j k u v)
        → ((f j k v : ℕ) → captured a f j k v ≡ captured b f j k v) → AreSameOnBus (over s a) (over s b) }
{}

/// The drawn losses that change what somebody receives are enough: with them alone the bus is that with all drawn losses. The
/// lines may be in any order. A scenario has at least one host.
pub fn kept_losses_give_the_same_bus()
    ensures { (s : ScenarioParts) (ratios : List RatioLine) (seed : ℕ) (t : Lines) → 1 ≤ length s.hosts
        → AddsLosses s.trace t (kept_losses s ratios seed) → AreSameOnBus (over s t) (drawn_scenario s ratios seed) }
{}

/// The kept losses are those that are found flood by flood on the drawn bus: no test of lines tells the two apart (`lines`). So
/// the losses that are found while the bus runs are enough for the same bus (`enough`).
pub fn floods_have_the_kept_losses()
    ensures lines { (s : ScenarioParts) (ratios : List RatioLine) (seed : ℕ) (test : LoseLine → Bool)
        → list_any test (losses_of_bus s (drawn_scenario s ratios seed)) ≡ list_any test (kept_losses s ratios seed) }
    ensures enough { (s : ScenarioParts) (ratios : List RatioLine) (seed : ℕ) (t : Lines) → 1 ≤ length s.hosts
        → AddsLosses s.trace t (losses_of_bus s (drawn_scenario s ratios seed)) → AreSameOnBus (over s t) (drawn_scenario s ratios seed) }
{}

/// Each of them is a line that the scenario may have, over whatever lines its bus runs: its frame, slot and step are in range, and
/// it is of a link.
pub fn losses_of_floods_are_in_range()
    ensures { (s : ScenarioParts) (t : Lines) → IsSoundScenario s → HasSoundLines s
        → All (λ l. IsStepOf s l.frame l.slot l.step × AreEnds s.nodes l.from l.to) (losses_of_bus s (over s t)) }
{}

/// No two of them are the same (`apart`), and none is a line of the scenario already (`new`).
pub fn losses_of_floods_differ()
    ensures apart { (s : ScenarioParts) (t : Lines) → IsSoundScenario s → AllPairs (λ a b. a ≢ b) (losses_of_bus s (over s t)) }
    ensures new { (s : ScenarioParts) (t : Lines)
        → All (λ l. list_any (is_loss l.frame l.slot l.step l.from l.to) s.trace.losses ≡ false) (losses_of_bus s (over s t)) }
{}

/// Only ratios of links of the trace matter, and of them what is in force in each frame (`in_force`): lines of other links change
/// nothing (`lines`).
pub fn ratios_of_links_alone_matter()
    ensures in_force { (s : ScenarioParts) (ratios others : List RatioLine) (seed : ℕ)
        → ((f u v : ℕ) → list_any (is_link u v) s.trace.links ≡ true → ratio_in ratios f u v ≡ ratio_in others f u v)
        → AreSameOnBus (drawn_scenario s ratios seed) (drawn_scenario s others seed) }
    ensures lines { (s : ScenarioParts) (ratios : List RatioLine) (seed : ℕ)
        → AreSameOnBus (drawn_scenario s (filter (λ l. list_any (is_link l.from l.to) s.trace.links) ratios) seed) (drawn_scenario s ratios seed) }
{}

/// Where each ratio is a million, as where there is none, the bus is that without drawn losses.
pub fn full_ratios_give_the_same_bus()
    ensures { (s : ScenarioParts) (ratios : List RatioLine) (seed : ℕ) → list_all (λ l. l.ratio == 1000000) ratios ≡ true
        → AreSameOnBus (drawn_scenario s ratios seed) s }
{}
