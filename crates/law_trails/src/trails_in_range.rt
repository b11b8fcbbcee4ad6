//! What a node keeps, orders and sends is in its ranges, whatever it receives.

ghost use Rattle.std.specs.Prelude.{◌≡◌, ◌≤◌, ℕ, suc, true, Contains, List, length};
ghost use Rattle.std.specs.List.{list_all};
ghost use Rattle.lwb_base.specs.declared.limits.TheConstants.{GREATEST_ID, LAST_RANK};
ghost use Rattle.lwb_base.specs.Profile.{IsProfile, Numbers};
ghost use Rattle.lwb_base.specs.Messages.{Ask, Schedule};
ghost use Rattle.lwb_base.specs.declared.event.Event.{Event};
ghost use Rattle.schedule_codec.specs.AckLists.{ask_in_range};
ghost use Rattle.glossy_relay.specs.FloodState.{FloodState};
ghost use Rattle.glossy_relay.specs.Relaying.{is_packet, reply_to};
ghost use Rattle.glossy_relay.specs.declared.flood.Reply.TheVariants.{Relay};
ghost use Rattle.bus_rules.specs.Plans.{slots_named};
ghost use Rattle.bus_rules.specs.declared.act.Act.{Act};
ghost use Rattle.bus_rules.specs.States.{IsAct};
ghost use Rattle.bus_rules.specs.Streams.{Streams, after_contention, cleared, streams_after_act, schedule_heard, after_taking, unbound};
ghost use Rattle.bus_rules.specs.Tables.{Table};
ghost use Rattle.bus_rules.specs.HostPlans.{host_plan};
ghost use Rattle.bus_rules.specs.Cores.{Setup};
ghost use Rattle.bus_rules.specs.Slots.{Message, message_length};
ghost use Rattle.lwb_member.specs.Members.{IsBoot};
ghost use Rattle.lwb_member.specs.Said.{MaySay, bytes_of};
ghost use Rattle.node_core.specs.Nodes.{Node};
ghost use Rattle.node_core.specs.Rows.{row};
ghost use Rattle.scenario_text.specs.ScenarioFacts.{IsSoundScenario};
ghost use Rattle.scenario_text.specs.ScenarioParts.{ScenarioParts};
ghost use Rattle.radio_model.specs.declared.sending.Sending.{Sending};
ghost use Rattle.air_log.specs.declared.entry.Entry.{Entry};
ghost use Rattle.air_log.specs.Entries.{sendings_of};
ghost use Rattle.air_log.specs.Lawful.{FollowsTrails, heard_by};
ghost use Rattle.air_log.specs.Trails.{Reception, before_tick};
ghost use Rattle.law_trails.specs.StreamRanges.{AreStreams};
ghost use Rattle.law_trails.specs.TableRanges.{IsTable};
ghost use Rattle.law_trails.specs.PlanRanges.{IsHostPlan};
ghost use Rattle.law_trails.specs.CoreRanges.{IsSetup};
ghost use Rattle.law_trails.specs.SpokenRanges.{IsFitting, IsProper, IsSpoken};
ghost use Rattle.law_trails.specs.NodeRanges.{IsNodeInRange};
ghost use Rattle.law_trails.specs.RowRanges.{HoldsOfHeard, IsStepped};
ghost use Rattle.law_trails.specs.DeviceRanges.{AreShort, HeardBefore, HoldsThrough, IsWellAndProper, IsWell};
ghost use Rattle.law_trails.specs.LogRanges.{HearsWhatIsSent};

/// The streams of a node are in their ranges as a boot leaves them (`boot`), and stay so by what a script has the
/// node do (`act`), where a packet is taken (`take`), in the node's contention slot (`contend`), where it becomes a host
/// (`host`), and by an accepted schedule whose acknowledgements are in range (`hear`).
pub fn streams_stay_in_range()
    ensures boot { (p : Numbers) → AreStreams p cleared }
    ensures act { (p : Numbers) (s : Streams) (a : Act) → IsAct p a
        → AreStreams p s → AreStreams p (streams_after_act a s) }
    ensures take { (p : Numbers) (s : Streams) (i : ℕ) → AreStreams p s → AreStreams p (after_taking i s) }
    ensures contend { (p : Numbers) (s : Streams) (node : ℕ)
        → AreStreams p s → AreStreams p (after_contention node s) }
    ensures host { (p : Numbers) (s : Streams) → AreStreams p s → AreStreams p (unbound s) }
    ensures hear { (p : Numbers) (node boot frame : ℕ) (x : Schedule) (s : Streams)
        → list_all ask_in_range x.plan.acks ≡ true
        → AreStreams p s → AreStreams p (schedule_heard node boot frame x s) }
{}

/// From a table and streams in their ranges, and few requests in theirs, a host makes a plan that can be written, and
/// leaves a table and streams in their ranges. Its owners ascend, at most `DATA_SLOTS` of them.
pub fn host_plans_can_be_written()
    ensures { (p : Numbers) (node boot rank frame : ℕ) (kept : List Ask) (t : Table) (s : Streams) → IsProfile p
        → 1 ≤ node → node ≤ GREATEST_ID → IsBoot boot → rank ≤ LAST_RANK
        → length kept ≤ slots_named p.contend → list_all ask_in_range kept ≡ true
        → IsTable t → AreStreams p s → IsHostPlan p rank boot (host_plan p node boot rank frame kept t s) }
{}

/// A packet that is a spelling has at least 7 bytes and a counter of at most `LAST_STEP`, and says a message that may be said in
/// its slot (`spelling`). So do a relay of such a packet (`relay`) and the bytes of a message that may be said (`own`).
pub fn spellings_say_what_may_be_said()
    ensures spelling { (p : Numbers) (q : List ℕ) → is_packet q ≡ true → length q ≤ p.packet_max
        → IsSpoken p q }
    ensures relay { (p : Numbers) (f : FloodState) (h q : List ℕ) → reply_to f h ≡ Relay q
        → length h ≤ p.packet_max → IsSpoken p q }
    ensures own { (p : Numbers) (m : Message) (j : ℕ) → MaySay j m → message_length m ≤ p.packet_max
        → IsSpoken p (bytes_of m j) }
{}

/// Each row of the node table leaves a node in its ranges, and orders only packets that say what may be said, whatever the
/// clock reads and whatever is received that is no longer than the profile's greatest packet (`spoken`). Where what is received
/// is of the profile, what is ordered is, too (`proper`).
pub fn rows_stay_in_range()
    ensures spoken { (s : Setup) → IsSetup s → (n : Node) (now : ℕ) (e : Event)
        → HoldsOfHeard (λ q. length q ≤ s.profile.packet_max) e
        → IsNodeInRange s n → IsStepped (IsSpoken s.profile) s (row s n now e) }
    ensures proper { (s : Setup) → IsSetup s → (n : Node) (now : ℕ) (e : Event) → HoldsOfHeard (IsFitting s.profile) e
        → IsNodeInRange s n → IsStepped (IsProper s.profile) s (row s n now e) }
{}

/// Whatever a node receives, valid (`Lawful`) or not, and whatever its clock reads: before each tick all that it keeps is in
/// its ranges, and what it has ordered, sends and sent are packets that say what may be said, if what it received before is no
/// longer than the profile's greatest packet (`before`). So it is after each phase of the tick, by what it received until then
/// (`through`). Where all that it received is of the profile, so is all that it sends (`proper`).
pub fn trails_stay_in_range()
    ensures before { (s : ScenarioParts) → IsSoundScenario s → (v : ℕ) → 1 ≤ v → v ≤ GREATEST_ID
        → (clock : ℕ → ℕ) (hs : List Reception) (t : ℕ) → AreShort s hs t
        → IsWell s v (before_tick s v clock hs t) }
    ensures through { (s : ScenarioParts) → IsSoundScenario s → (v : ℕ) → 1 ≤ v → v ≤ GREATEST_ID
        → (clock : ℕ → ℕ) (hs : List Reception) (t : ℕ) → AreShort s hs (suc t)
        → HoldsThrough (IsWell s v) s v clock hs t }
    ensures proper { (s : ScenarioParts) → IsSoundScenario s → (v : ℕ) → 1 ≤ v → v ≤ GREATEST_ID
        → (clock : ℕ → ℕ) (hs : List Reception) (t : ℕ) → HeardBefore (IsFitting s.profile) hs (suc t)
        → HoldsThrough (IsWellAndProper s v) s v clock hs t }
{}

/// In a log that follows its trails, and in which only what was sent is received, each packet that is sent says what may
/// be said, and what is of the profile (`sent`). So what a node receives fits (`heard`), and at every tick each node of the log
/// is in its ranges, by the trail over what it received (`nodes`).
pub fn packets_of_a_log_stay_in_range()
    ensures sent { (s : ScenarioParts) → IsSoundScenario s → (clocks : ℕ → ℕ → ℕ) (air : List Entry)
        → FollowsTrails s clocks air → HearsWhatIsSent air
        → (x : Sending) → Contains (sendings_of air) x → IsProper s.profile x.packet }
    ensures heard { (s : ScenarioParts) → IsSoundScenario s → (clocks : ℕ → ℕ → ℕ) (air : List Entry)
        → FollowsTrails s clocks air → HearsWhatIsSent air
        → (v t : ℕ) → HeardBefore (IsFitting s.profile) (heard_by air v) t }
    ensures nodes { (s : ScenarioParts) → IsSoundScenario s → (clocks : ℕ → ℕ → ℕ) (air : List Entry)
        → FollowsTrails s clocks air → HearsWhatIsSent air
        → (v t : ℕ) → 1 ≤ v → v ≤ GREATEST_ID → HoldsThrough (IsWellAndProper s v) s v (clocks v) (heard_by air v) t }
{}
