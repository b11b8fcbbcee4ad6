//! Laws of safe logs, each a function that does nothing and has the law as its contract.

ghost use Rattle.std.specs.Prelude.{ℕ, List};
ghost use Rattle.scenario_text.specs.ScenarioParts.{ScenarioParts};
ghost use Rattle.air_log.specs.declared.entry.Entry.{Entry};
ghost use Rattle.air_log.specs.Lawful.{Lawful};
ghost use Rattle.air_log.specs.Heedful.{Heedful};
ghost use Rattle.air_log.specs.Safe.{Safe};
ghost use Rattle.air_log.specs.TwoNodeLog.{true_time};
ghost use Rattle.air_log.specs.FirstRound.{first_round, first_round_log};
ghost use Rattle.law_trails.specs.BrokenClauses.{BreaksOnly, InFrame, Apart, Alike, OneBegins, Silent};
ghost use Rattle.law_trails.specs.UnsafeLogs.{ends_late, slots_meet, steps_meet, starts_apart, other_bytes, two_begin};
ghost use Rattle.law_trails.specs.UnsafeLogs.{not_the_host, no_power, scenario_with_off_line, unheard, not_the_owner, not_due, not_opened};
ghost use Rattle.law_trails.specs.UnsafeLogs.{asked_in_data_slot, gone_off};

/// Valid (`Lawful`) logs are protocol-obedient: that is what safety is based on.
pub fn lawful_logs_are_heedful()
    ensures { (s : ScenarioParts) (clocks : ℕ → ℕ → ℕ) (air : List Entry) → Lawful s clocks air → Heedful s clocks air }
{}

/// Worked example: the log of a first round is safe.
pub fn the_log_of_a_first_round_is_safe()
    ensures { Safe first_round true_time first_round_log }
{}

/// Small logs of schedules that are not safe, each by one clause alone: a transmission that ends with its frame; two slots, and
/// two steps of one slot, that are on the air together; a step that does not start together, and a slot with two bodies; two
/// initiators, and one that is not the host.
pub fn schedules_break_a_clause()
    ensures ends_late { BreaksOnly InFrame first_round true_time ends_late }
    ensures slots_meet { BreaksOnly Apart first_round true_time slots_meet }
    ensures steps_meet { BreaksOnly Apart first_round true_time steps_meet }
    ensures starts_apart { BreaksOnly Alike first_round true_time starts_apart }
    ensures other_bytes { BreaksOnly Alike first_round true_time other_bytes }
    ensures two_begin { BreaksOnly OneBegins first_round true_time two_begin }
    ensures not_the_host { BreaksOnly OneBegins first_round true_time not_the_host }
{}

/// Small logs in which a node that does not host breaks silence, and no other clause: it received no schedule, or one by which
/// the slot is not its own, one for another frame, a closing schedule where it asks, an opening schedule that has a data slot where it asks,
/// or it was powered off since.
pub fn guests_break_silence()
    ensures unheard { BreaksOnly Silent no_power true_time unheard }
    ensures not_the_owner { BreaksOnly Silent no_power true_time not_the_owner }
    ensures not_due { BreaksOnly Silent no_power true_time not_due }
    ensures not_opened { BreaksOnly Silent no_power true_time not_opened }
    ensures asked_in_data_slot { BreaksOnly Silent no_power true_time asked_in_data_slot }
    ensures gone_off { BreaksOnly Silent scenario_with_off_line true_time gone_off }
{}
