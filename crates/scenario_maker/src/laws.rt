//! What is true of all made scenarios.

ghost use Rattle.std.specs.Prelude.{◌≡◌, ℕ, Ok};
ghost use Rattle.scenario_maker.specs.Made.{IsSize, made};
ghost use Rattle.scenario_text.specs.Canonical.{IsSaid, canonical};
ghost use Rattle.scenario_text.specs.ScenarioGrammar.{scenario_of};

/// Each made scenario is accepted: its canonical text has no error, and says just its parts. It is accepted to be run, too.
pub fn made_scenarios_are_accepted()
    ensures said { (seed n frames : ℕ) → IsSize n frames → IsSaid (made seed n frames) }
    ensures run { (seed n frames : ℕ) → IsSize n frames → scenario_of (canonical (made seed n frames)) ≡ Ok (made seed n frames) }
{}
