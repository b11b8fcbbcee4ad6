//! How a log and the trails that it follows are related, each law a function that does nothing.

ghost use Rattle.std.specs.Prelude.{◌≡◌, ◌≢◌, ◌↔◌, ◌⊎◌, ℕ, suc, ◌<◌, ◌≤◌, ◌+◌, List, [], length, All, AllPairs, Contains, Some, true, slice_get};
ghost use Rattle.lwb_base.specs.Profile.{airtime};
ghost use Rattle.scenario_text.specs.ScenarioParts.{ScenarioParts};
ghost use Rattle.scenario_text.specs.ScenarioFacts.{IsSoundScenario};
ghost use Rattle.scenario_text.specs.FloodParts.{knows};
ghost use Rattle.bus_rules.specs.declared.act.Act.TheVariants.{Off};
ghost use Rattle.scenario_text.specs.declared.script.ScriptLine.{ScriptLine};
ghost use Rattle.radio_model.specs.declared.sending.Sending.{Sending};
ghost use Rattle.radio_model.specs.OnAir.{Tuning};
ghost use Rattle.radio_model.specs.Hearing.{IsTuned};
ghost use Rattle.bus_rules.specs.Cores.{own_rank};
ghost use Rattle.node_core.specs.Nodes.{Node};
ghost use Rattle.air_log.specs.declared.entry.Entry.{Entry};
ghost use Rattle.air_log.specs.Entries.{sendings_of, tunings_of};
ghost use Rattle.air_log.specs.HearsAir.{scene_of};
ghost use Rattle.air_log.specs.Devices.{Device, PowerOn};
ghost use Rattle.air_log.specs.Lawful.{FollowsTrails, heard_by};
ghost use Rattle.air_log.specs.TrailEntries.{IsSentBefore, StartsBefore};
ghost use Rattle.scenario_text.specs.Setups.{setup_of};
ghost use Rattle.air_log.specs.Trails.{Reception, run_end, lines_at, device_after_script, before_tick};
ghost use Rattle.law_trails.specs.Obeying.{channel_if_on};
ghost use Rattle.law_trails.specs.Phases.{Hearings, SilentBy, IsNextHearing, device_at};
ghost use Rattle.law_trails.specs.TrailLinks.{IsSentBelow, ListensSince, IsReceptionOf, IsLineOfTick, WentOff, DeviceStaysOn, boots_of_power, device_in};

/// What a node has sent before a tick is what the log has of it: a `Sent` entry of it starts below tick t if and only if it is
/// among what its trail has sent before t. Only nodes of the scenario send, each transmission starts in the run and lasts its
/// airtime, and those of a trail start one after another.
pub fn sendings_stand_in_their_trails()
    ensures below { (s : ScenarioParts) (clocks : ℕ → ℕ → ℕ) (air : List Entry) → FollowsTrails s clocks air
        → (v : ℕ) → knows s.nodes v ≡ true → (t : ℕ) → t ≤ run_end s → (x : Sending)
        → IsSentBelow air v t x ↔ Contains (device_in s clocks air v t).made.sent x }
    ensures known { (s : ScenarioParts) (clocks : ℕ → ℕ → ℕ) (air : List Entry) → FollowsTrails s clocks air
        → (x : Sending) → Contains (sendings_of air) x → knows s.nodes x.node ≡ true }
    ensures lasts { (s : ScenarioParts) (clocks : ℕ → ℕ → ℕ) (air : List Entry) → FollowsTrails s clocks air
        → (x : Sending) → Contains (sendings_of air) x
        → (x.start < run_end s) × (x.end ≡ x.start + airtime s.profile (length x.packet)) }
    ensures in_turn { (s : ScenarioParts) (v : ℕ) (clock : ℕ → ℕ) (hs : List Reception) (t : ℕ)
        → All (IsSentBefore s v t) (before_tick s v clock hs t).made.sent
        × AllPairs StartsBefore (before_tick s v clock hs t).made.sent }
{}

/// While a node is tuned by the log its radio is on at that channel: after a tick of one of its `Tuned` entries its device
/// listens to the rank of the entry, since that tick or earlier. Only nodes of the scenario are tuned.
pub fn tuned_devices_listen()
    ensures listens { (s : ScenarioParts) (clocks : ℕ → ℕ → ℕ) (air : List Entry) → FollowsTrails s clocks air
        → (v rank k : ℕ) → IsTuned (scene_of s.profile s.trace air) v rank k
        → ListensSince rank k (device_in s clocks air v (suc k)) }
    ensures known { (s : ScenarioParts) (clocks : ℕ → ℕ → ℕ) (air : List Entry) → FollowsTrails s clocks air
        → (e : Tuning) → Contains (tunings_of air) e → knows s.nodes e.node ≡ true }
    ensures in_run { (s : ScenarioParts) (clocks : ℕ → ℕ → ℕ) (air : List Entry) → FollowsTrails s clocks air
        → (v rank k : ℕ) → IsTuned (scene_of s.profile s.trace air) v rank k → k < run_end s }
{}

/// Receptions of a tick leave the radio at its channel. So what a node receives at a tick at which it has no event comes over
/// the channel to which it was tuned by the log at the tick before.
pub fn hearings_leave_the_channel()
    ensures kept { (s : ScenarioParts) (v : ℕ) (clock : ℕ → ℕ) (hs : List Reception) (t : ℕ) (h : Reception) (d : Device)
        → IsNextHearing s v clock hs t h d
        → channel_if_on d.listening ≡ channel_if_on (device_at s v clock hs t Hearings).listening }
    ensures tuned { (s : ScenarioParts) (clocks : ℕ → ℕ → ℕ) (air : List Entry) → FollowsTrails s clocks air
        → (v t : ℕ) (h : Reception) (d : Device) → IsNextHearing s v (clocks v) (heard_by air v) t h d → lines_at s v t ≡ []
        → (rank k : ℕ) → suc k ≡ t → IsTuned (scene_of s.profile s.trace air) v rank k
        → channel_if_on d.listening ≡ Some rank }
{}

/// What a trail takes as received are the `Heard` entries of its node, each with its packet and its end.
pub fn receptions_are_heard_entries()
    ensures { (air : List Entry) (v : ℕ) (h : Reception) → Contains (heard_by air v) h ↔ IsReceptionOf air v h }
{}

/// A node knows itself as host of the rank at which the scenario names it, and of no other.
pub fn a_host_is_of_its_rank()
    ensures { (s : ScenarioParts) → IsSoundScenario s → (v rank : ℕ)
        → (own_rank v s.hosts ≡ Some rank) ↔ (slice_get s.hosts rank ≡ Some v) }
{}

/// A node with a line `off` among the lines of a tick is off after them, or it has booted again and scans the channel of rank
/// 0, with a later boot. One that is on and has none stays on, as it was but for its streams.
pub fn lines_of_a_tick()
    ensures off { (s : ScenarioParts) (v : ℕ) (clock : ℕ → ℕ) (t : ℕ) (d : Device) → SilentBy d d.power → (l : ScriptLine)
        → Contains (lines_at s v t) l → l.act ≡ Off
        → WentOff clock (setup_of s v) t (boots_of_power d.power) (device_after_script s v clock t d) }
    ensures on { (s : ScenarioParts) (v : ℕ) (clock : ℕ → ℕ) (t : ℕ) (d : Device) (n : Node) → d.power ≡ PowerOn n
        → ((l : ScriptLine) → Contains (lines_at s v t) l → l.act ≢ Off) → DeviceStaysOn n d (device_after_script s v clock t d) }
    ensures either { (s : ScenarioParts) (v t : ℕ)
        → ((l : ScriptLine) × Contains (lines_at s v t) l × (l.act ≡ Off))
        ⊎ ((l : ScriptLine) → Contains (lines_at s v t) l → l.act ≢ Off) }
    ensures told { (s : ScenarioParts) (v t : ℕ) (l : ScriptLine) → Contains (lines_at s v t) l ↔ IsLineOfTick s v t l }
{}
