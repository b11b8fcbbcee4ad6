//! What is true of all scenarios and their texts.

ghost use Rattle.std.specs.Prelude.{◌≡◌, ◌↔◌, ◌≤◌, ◌*◌, ℕ, List, Ok, length};
ghost use Rattle.lwb_base.specs.declared.limits.TheConstants.{MOST_SCRIPT_LINES};
ghost use Rattle.scenario_text.specs.Canonical.{canonical, IsSaid};
ghost use Rattle.scenario_text.specs.PartsInOrder.{IsInOrder, script_lines};
ghost use Rattle.scenario_text.specs.ScenarioFacts.{HasSoundLines, IsSoundScenario};
ghost use Rattle.scenario_text.specs.ScenarioGrammar.{scenario_of, long_scenario_of, IsScenario};
ghost use Rattle.scenario_text.specs.ScenarioParts.{ScenarioParts};
ghost use Rattle.scenario_text.specs.declared.limits.TheConstants.{RUN_NODE_FRAMES};

/// A text says a scenario that can be run with a log just where it says it over the long horizon, nodes times frames is at most
/// `RUN_NODE_FRAMES`, and there are at most `MOST_SCRIPT_LINES` script lines. So what is read for a run is a scenario.
pub fn texts_of_runs_say_the_same()
    ensures said { (bytes : List ℕ) (s : ScenarioParts) → (scenario_of bytes ≡ Ok s)
        ↔ ((long_scenario_of bytes ≡ Ok s) × (length s.nodes * s.frames ≤ RUN_NODE_FRAMES) × (script_lines s ≤ MOST_SCRIPT_LINES)) }
    ensures scenario { (bytes : List ℕ) (s : ScenarioParts) → scenario_of bytes ≡ Ok s → IsScenario s }
{}

/// What some text says, its canonical text says too, and says it to be run, where nodes times frames is at most
/// `RUN_NODE_FRAMES`, and there are at most `MOST_SCRIPT_LINES` script lines.
pub fn canonical_texts_say_the_same()
    ensures long { (s : ScenarioParts) → IsScenario s → long_scenario_of (canonical s) ≡ Ok s }
    ensures run { (s : ScenarioParts) → IsScenario s → length s.nodes * s.frames ≤ RUN_NODE_FRAMES → script_lines s ≤ MOST_SCRIPT_LINES
        → scenario_of (canonical s) ≡ Ok s }
{}

/// What is true of each scenario: the numbers of each part are in range, its ids are those of nodes, and its lists are
/// in order. Of each node the rates ascend, so that its clock can be made. All but its lines of links is one statement
/// (`sound`), which a scenario keeps over other lines; they are another (`lines`).
pub fn scenarios_are_sound()
    ensures sound { (s : ScenarioParts) → IsScenario s → IsSoundScenario s }
    ensures lines { (s : ScenarioParts) → IsScenario s → HasSoundLines s }
{}

/// Parts in range, each list in its order, are just those of a scenario. They meet the condition of `Scenario::of_parts`
/// on its parts; the other, that the trace is sealed with the nodes, is left to `Trace::seal`.
pub fn parts_in_order_are_said()
    ensures said { (s : ScenarioParts) → IsInOrder s → IsSaid s }
    ensures alone { (s : ScenarioParts) → IsScenario s → IsInOrder s }
{}
