//! What each step of a trail keeps holds all along it.

ghost use Rattle.std.specs.Prelude.{◌≡◌, ℕ, suc, ◌<◌, ◌≤◌, List, Bool, true, fold};
ghost use Rattle.scenario_text.specs.ScenarioParts.{ScenarioParts};
ghost use Rattle.scenario_text.specs.ScenarioFacts.{IsSoundScenario};
ghost use Rattle.lwb_base.specs.declared.order.Order.{Order};
ghost use Rattle.tick_clock.specs.Clocks.{IsClock};
ghost use Rattle.bus_rules.specs.Cores.{Setup};
ghost use Rattle.air_log.specs.Devices.{Device, obeyed};
ghost use Rattle.air_log.specs.Trails.{Reception, run_end, before_tick};
ghost use Rattle.law_trails.specs.Obeying.{HasObeyed};
ghost use Rattle.law_trails.specs.Phases.{Phase, Lines, NothingDue, device_at};
ghost use Rattle.law_trails.specs.RowEffects.{BootLeaves, JoiningLeaves, HearingLeaves, SentLeaves, FrameAlarmLeaves, OpeningLeaves, ClosingLeaves};
ghost use Rattle.law_trails.specs.Walks.{HoldsInTick, HoldsAlong, HoldsInRun, IsAwake};

/// What each step of a tick keeps holds in each phase of the tick and before the next (`tick`), along a trail (`along`), and at
/// all nodes of a run, where a step may build on all of them before its tick (`run`). Here a property is a test, as clauses
/// have no others; the lemmas that say so are of any property.
pub fn what_each_step_keeps_holds_throughout()
    ensures tick { (P : ℕ → Phase → Device → Bool) → HoldsInTick (λ t phase d. P t phase d ≡ true) }
    ensures along { (P : ℕ → Phase → Device → Bool) → HoldsAlong (λ t phase d. P t phase d ≡ true) }
    ensures run { (P : ℕ → ℕ → Phase → Device → Bool) → HoldsInRun (λ v t phase d. P v t phase d ≡ true) }
{}

/// Orders change what they name, and of the rest only the tunings that ended. The last order for the radio decides to which
/// channel it is tuned, the last `alarm` when the alarm is due, and the last `send at` which transmission is ordered.
pub fn orders_do_what_they_say()
    ensures { (clock : ℕ → ℕ) (v t : ℕ) (os : List Order) (d : Device)
        → HasObeyed clock t os d (fold (obeyed clock v t) d os) }
{}

/// What each row of the node table leaves of a device: its node, the channel of its radio, its alarm, what is ordered, and
/// that nothing more was sent.
pub fn rows_leave_devices_so()
    ensures boot { (clock : ℕ → ℕ) (s : Setup) (t : ℕ) → BootLeaves clock s t }
    ensures joining { (clock : ℕ → ℕ) (s : Setup) (t : ℕ) → JoiningLeaves clock s t }
    ensures hearing { (clock : ℕ → ℕ) (s : Setup) (t : ℕ) → HearingLeaves clock s t }
    ensures sent { (clock : ℕ → ℕ) (s : Setup) (t : ℕ) → SentLeaves clock s t }
    ensures frame_alarm { (clock : ℕ → ℕ) (s : Setup) (t : ℕ) → FrameAlarmLeaves clock s t }
    ensures opening { (clock : ℕ → ℕ) (s : Setup) (t : ℕ) → OpeningLeaves clock s t }
    ensures closing { (clock : ℕ → ℕ) (s : Setup) (t : ℕ) → ClosingLeaves clock s t }
{}

/// In each phase of a tick nothing is left that was due before it, and a node that is off has its radio off and nothing
/// set.
pub fn nothing_due_is_left()
    ensures before { (s : ScenarioParts) (v : ℕ) (clock : ℕ → ℕ) (hs : List Reception) → IsSoundScenario s → IsClock clock
        → (t : ℕ) → t ≤ run_end s → NothingDue t Lines (before_tick s v clock hs t) }
    ensures within { (s : ScenarioParts) (v : ℕ) (clock : ℕ → ℕ) (hs : List Reception) → IsSoundScenario s → IsClock clock
        → (t : ℕ) → t < run_end s → (phase : Phase) → NothingDue t phase (device_at s v clock hs t phase) }
{}

/// A node that is on is at a place, never waiting to be booted, and its alarm is set, in each phase of each tick.
pub fn nodes_that_are_on_are_awake()
    ensures { (s : ScenarioParts) (v : ℕ) (clock : ℕ → ℕ) (hs : List Reception) → IsSoundScenario s → IsClock clock
        → (t : ℕ) → t < run_end s → (phase : Phase) → IsAwake (device_at s v clock hs t phase) }
{}
