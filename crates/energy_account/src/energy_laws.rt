//! Laws of what the radio of a node costs, each a function that does nothing and has the law as its contract.

ghost use Rattle.std.specs.Prelude.{◌≡◌, ℕ, List, None, reverse};
ghost use Rattle.lwb_base.specs.Profile.{contended, one};
ghost use Rattle.scenario_text.specs.ScenarioParts.{ScenarioParts};
ghost use Rattle.bus_rules.specs.Charges.{charge};
ghost use Rattle.air_log.specs.FirstRound.{first_round, first_round_log};
ghost use Rattle.air_log.specs.Trails.{Reception, trail};
ghost use Rattle.air_log.specs.TwoNodeLog.{true_time};
ghost use Rattle.air_log.specs.Energies.{costs, energy_of};
ghost use Rattle.energy_account.specs.ToldEnergies.{SendingsApart, TuningsApart};
ghost use Rattle.energy_account.specs.WindowRows.{IsRowOf};

/// Each transmission of a node begins when the one before it has ended, and so does each of its tunings, whatever it receives
/// and however its clock goes. So what they last together is over with the last of them.
pub fn times_of_a_node_lie_apart()
    ensures sent { (s : ScenarioParts) (v : ℕ) (clock : ℕ → ℕ) (hs : List Reception)
        → SendingsApart (trail s v clock hs).made.sent }
    ensures tuned { (s : ScenarioParts) (v : ℕ) (clock : ℕ → ℕ) (hs : List Reception)
        → TuningsApart (reverse (trail s v clock hs).made.tuned) }
{}

/// Worked example: the energy of a host and of another node in their first round.
pub fn energy_of_a_first_round()
    ensures host { energy_of first_round true_time first_round_log 1 ≡ costs 147456 2494336 5 1231294336 }
    ensures other { energy_of first_round true_time first_round_log 2 ≡ costs 147456 2344320 6 1346592640 }
{}

/// Worked example: what windows count with packets of 7, 9, 10 and 12 bytes, and any other window of either profile.
pub fn windows_count_by_their_last_sending()
    ensures seven { IsRowOf one 7 30720 43008 180736 223744 }
    ensures nine { IsRowOf one 9 34816 47104 193024 240128 }
    ensures ten { IsRowOf one 10 36864 49152 199168 248320 }
    ensures twelve { IsRowOf one 12 40960 53248 211456 264704 }
    ensures others { (charge one None ≡ 2096000) × (charge (contended 2) None ≡ 3568000) }
{}
