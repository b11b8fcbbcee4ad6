//! Laws of verdicts, each a function that does nothing and has the law as its contract.

ghost use Rattle.std.specs.Prelude.{◌≡◌, ℕ, List, []};
ghost use Rattle.scenario_text.specs.ScenarioParts.{ScenarioParts};
ghost use Rattle.air_log.specs.declared.entry.Entry.{Entry};
ghost use Rattle.air_log.specs.FirstRound.{first_round, first_round_log};
ghost use Rattle.air_log.specs.TwoNodeLog.{true_time};
ghost use Rattle.air_check.specs.Verdicts.{IsVerdict};
ghost use Rattle.air_check.specs.WorkedVerdicts.{first_reception_lost};
ghost use Rattle.air_check.specs.declared.verdict.Verdict.{Verdict};
ghost use Rattle.air_check.specs.declared.verdict.Verdict.TheVariants.{Lawful, Trail};

/// No log has two verdicts. So `Lawful` excludes the three others, and each of these is the first fault of its kind.
pub fn a_log_has_one_verdict()
    ensures { (s : ScenarioParts) (clocks : ℕ → ℕ → ℕ) (air : List Entry) (a b : Verdict)
        → IsVerdict s clocks air a → IsVerdict s clocks air b → a ≡ b }
{}

/// Worked out, on the log of a host's first round with another node: it is valid. Without its first reception node 2
/// relays what it did not receive. With no entry at all node 1 does not do what its trail says, which is on and transmits
/// whatever it receives.
pub fn verdicts_on_a_first_round()
    ensures whole { IsVerdict first_round true_time first_round_log Lawful }
    ensures one_less { IsVerdict first_round true_time first_reception_lost (Trail 2) }
    ensures empty { IsVerdict first_round true_time [] (Trail 1) }
{
    air_log::trail_laws::the_log_of_a_first_round_is_lawful();
}
