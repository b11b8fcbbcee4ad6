//! Laws of the trails of nodes, each a function that does nothing and has the law as its contract.

ghost use Rattle.std.specs.Prelude.{◌≡◌, ℕ, suc, ◌<◌, ◌≤◌, List, [], ◌∷◌, ◌++◌, filter, map, All, AllPairs};
ghost use Rattle.scenario_text.specs.ScenarioParts.{ScenarioParts};
ghost use Rattle.scenario_text.specs.ScenarioFacts.{IsSoundScenario};
ghost use Rattle.tick_clock.specs.Clocks.{IsClock};
ghost use Rattle.air_log.specs.AlarmRuns.{IsAlarmRun};
ghost use Rattle.scenario_text.specs.Setups.{setup_of};
ghost use Rattle.air_log.specs.Trails.{Reception, device_after_reception, device_after_receptions, run_end, before_alarms, before_start, before_tick};
ghost use Rattle.air_log.specs.Trails.{trail};
ghost use Rattle.air_log.specs.Courses.{AlarmsEnd};
ghost use Rattle.air_log.specs.QuietTicks.{IsQuiet, ends_before};
ghost use Rattle.air_log.specs.Ahead.{IsAhead, NextDue};
ghost use Rattle.air_log.specs.FirstRound.{IsWorked, first_round, first_round_log, first_round_heard_by_host};
ghost use Rattle.air_log.specs.FirstRound.{heard_by_other, first_round_sent_by_host, sent_by_other, first_round_tuned_by_host, tuned_by_other};
ghost use Rattle.air_log.specs.TwoNodeLog.{true_time};
ghost use Rattle.bus_rules.specs.declared.tune.Tune.TheVariants.{Hold, Host};
ghost use Rattle.air_log.specs.declared.entry.Entry.{Entry};
ghost use Rattle.air_log.specs.Lawful.{Lawful, AreInTurn, reception_of, hearings_by, heard_by};
ghost use Rattle.bus_rules.specs.Cores.{Setup};
ghost use Rattle.air_log.specs.Devices.{Device};
ghost use Rattle.air_log.specs.TrailEntries.{IsSentBefore, IsTunedBy, StartsBefore, FollowsOn};

/// While nothing is due at a node, it stays as it is.
pub fn quiet_ticks_change_nothing()
    ensures { (s : ScenarioParts) (v : ℕ) (clock : ℕ → ℕ) (hs : List Reception) (a b : ℕ) → a ≤ b
        → ((t : ℕ) → a ≤ t → t < b → IsQuiet s v hs t (before_tick s v clock hs a))
        → before_tick s v clock hs b ≡ before_tick s v clock hs a }
{}

/// What a node does before a tick depends only on the receptions that ended before it. What it does at a tick before a
/// transmission starts depends only on those that ended by then. So no reception counts that ends with the run or after it.
pub fn later_hearings_change_nothing_before()
    ensures before { (s : ScenarioParts) (v : ℕ) (clock : ℕ → ℕ) (gs hs : List Reception) (t : ℕ)
        → filter (ends_before t) gs ≡ filter (ends_before t) hs
        → before_tick s v clock gs t ≡ before_tick s v clock hs t }
    ensures within { (s : ScenarioParts) (v : ℕ) (clock : ℕ → ℕ) (gs hs : List Reception) (t : ℕ)
        → filter (ends_before (suc t)) gs ≡ filter (ends_before (suc t)) hs
        → before_start s v clock gs t (before_tick s v clock gs t) ≡ before_start s v clock hs t (before_tick s v clock hs t) }
    ensures run { (s : ScenarioParts) (v : ℕ) (clock : ℕ → ℕ) (gs hs : List Reception)
        → filter (ends_before (run_end s)) gs ≡ filter (ends_before (run_end s)) hs
        → trail s v clock gs ≡ trail s v clock hs }
{}

/// Receptions that the log lists by end and sender are taken by the trail of their node in that order.
pub fn hearings_in_turn_are_taken_as_they_stand()
    ensures { (air : List Entry) (v : ℕ) → AreInTurn (hearings_by air v)
        → heard_by air v ≡ map reception_of (hearings_by air v) }
{}

/// Alarms of a tick come to an end, whatever a node receives: they are due one after another, until none is, so the limit of a
/// trail (`alarm_limit`) cuts none off. So whoever takes them one after another until none is due comes to the same.
pub fn alarms_of_a_tick_end()
    ensures end { (s : ScenarioParts) (v : ℕ) (clock : ℕ → ℕ) (hs : List Reception) (t : ℕ)
        → IsSoundScenario s → IsClock clock → t ≤ run_end s
        → AlarmsEnd clock (setup_of s v) t (before_alarms s v clock hs t (before_tick s v clock hs t)) }
    ensures agree { (clock : ℕ → ℕ) (s : Setup) (t : ℕ) (d e f : Device)
        → IsAlarmRun clock s t d e → IsAlarmRun clock s t d f → e ≡ f }
{}

/// One more reception, which is after the others, changes nothing before it ends, and at its end it is taken last.
pub fn hearings_come_one_by_one()
    ensures before { (s : ScenarioParts) (v : ℕ) (clock : ℕ → ℕ) (hs : List Reception) (h : Reception) (t : ℕ) → t ≤ h.end
        → before_tick s v clock (hs ++ h ∷ []) t ≡ before_tick s v clock hs t }
    ensures now { (clock : ℕ → ℕ) (s : Setup) (t : ℕ) (hs : List Reception) (h : Reception) (d : Device) → h.end ≡ t
        → device_after_receptions clock s t (hs ++ h ∷ []) d ≡ device_after_reception clock s t (device_after_receptions clock s t hs d) h }
{}

/// What is set at a node lies ahead, and until the next of it, the next end of a reception and the next script line the node
/// stays as it is.
pub fn nothing_happens_until_the_next_is_due()
    ensures ahead { (s : ScenarioParts) (v : ℕ) (clock : ℕ → ℕ) (hs : List Reception) → IsSoundScenario s → IsClock clock
        → (t : ℕ) → t ≤ run_end s → IsAhead t (before_tick s v clock hs t) }
    ensures next { (s : ScenarioParts) (v : ℕ) (clock : ℕ → ℕ) (hs : List Reception) (a b : ℕ) → a ≤ b
        → NextDue s v hs a b (before_tick s v clock hs a)
        → before_tick s v clock hs b ≡ before_tick s v clock hs a }
{}

/// No entry of a trail appears twice. Each transmission starts after the one before it, in the run, and lasts its airtime. No
/// tuning is empty, and they are listed with the last first: each begins when the one before it has ended, or later if both are
/// of one rank.
pub fn entries_of_a_trail_differ()
    ensures sent { (s : ScenarioParts) (v : ℕ) (clock : ℕ → ℕ) (hs : List Reception)
        → AllPairs StartsBefore (trail s v clock hs).made.sent }
    ensures each_sent { (s : ScenarioParts) (v : ℕ) (clock : ℕ → ℕ) (hs : List Reception)
        → All (IsSentBefore s v (run_end s)) (trail s v clock hs).made.sent }
    ensures tuned { (s : ScenarioParts) (v : ℕ) (clock : ℕ → ℕ) (hs : List Reception)
        → AllPairs FollowsOn (trail s v clock hs).made.tuned }
    ensures each_tuned { (s : ScenarioParts) (v : ℕ) (clock : ℕ → ℕ) (hs : List Reception)
        → All (IsTunedBy v (run_end s)) (trail s v clock hs).made.tuned }
{}

/// Worked example: the trails of a host and of another node through their first round.
pub fn trails_of_a_first_round()
    ensures host { IsWorked first_round (trail first_round 1 (true_time 1) first_round_heard_by_host) first_round_sent_by_host first_round_tuned_by_host
        2494336 (Host 0 9) }
    ensures other { IsWorked first_round (trail first_round 2 (true_time 2) heard_by_other) sent_by_other tuned_by_other 2344320 (Hold 0 9) }
{}

/// Worked example: the log of these two trails is valid (`Lawful`).
pub fn the_log_of_a_first_round_is_lawful()
    ensures { Lawful first_round true_time first_round_log }
{}
