//! Times by a node's own clock along a run: no sum of them stops, references come from what was received and move on with the
//! rounds, and relays begin when they should.
//!
//! `host` is the clock of the host of the round and `own` that of the node that the times are of. Each law holds for
//! every profile with a budget that fits it.

ghost use Rattle.std.specs.Prelude.{◌≡◌, ℕ, ◌+◌, ◌*◌, ◌/◌, ◌<◌, ◌≤◌, List, Some, length};
ghost use Rattle.lwb_base.specs.Profile.{Numbers, IsProfile, airtime, step};
ghost use Rattle.lwb_base.specs.Messages.{Schedule};
ghost use Rattle.lwb_base.specs.declared.limits.TheConstants.{GREATEST_GAP, LAST_STEP, MOST_FRAMES};
ghost use Rattle.tick_clock.specs.Clocks.{Near, IsClock, due};
ghost use Rattle.time_reference.specs.Budgets.{Budget, Fits, budget_of, span};
ghost use Rattle.time_reference.specs.Drift.{drift};
ghost use Rattle.time_reference.specs.Reference.{stopped, host_zero};
ghost use Rattle.time_reference.specs.Zeros.{start_tick, starting_offset, closing_offset, tick_at_offset, Ref, Good};
ghost use Rattle.glossy_relay.specs.Relaying.{slot_of, counter_of};
ghost use Rattle.bus_rules.specs.Slots.{ScheduleOf};
ghost use Rattle.lwb_member.specs.Said.{message_of};
ghost use Rattle.node_core.specs.Nodes.{zero_of_host, frame_alarm, stopped_frame, zero_from};
ghost use Rattle.law_trails.specs.NodeTimes.{AreSums, InFlood, relay_tick};
ghost use Rattle.law_trails.specs.PacketKinds.{IsOfProfile};

/// By a zero that is good, each time of a slot is the zero plus the time's offset. A good zero is of a frame up to the greatest gap after
/// frame 4,095.
pub fn times_of_slots_are_sums()
    ensures { (p : Numbers) (b : Budget) → Fits p b → (host own : ℕ → ℕ) (z f from j : ℕ) → IsClock host
        → IsClock own → Good p b host own z f from → j ≤ b.last → AreSums p z j }
{}

/// So are a host's zero and the alarm of a frame, up to a greatest gap after frame 4,096: a host closes its last round in frame 4,095 with a
/// gap of at most `GREATEST_GAP`. Frame numbers count on there, and a node that boots at the start of a frame finds its number.
pub fn times_of_frames_are_sums()
    ensures zero { (p : Numbers) (b : Budget) → Fits p b → (f : ℕ) → f ≤ MOST_FRAMES + GREATEST_GAP → zero_of_host p f ≡ host_zero p f }
    ensures alarm { (p : Numbers) (b : Budget) → Fits p b → (f : ℕ) → f ≤ MOST_FRAMES + GREATEST_GAP
        → frame_alarm p f ≡ f * p.frame + p.end }
    ensures next { (f : ℕ) → f ≤ MOST_FRAMES + GREATEST_GAP → stopped_frame (f + 1) ≡ f + 1 }
    ensures boot { (p : Numbers) (b : Budget) → Fits p b → (own : ℕ → ℕ) → IsClock own → (f : ℕ) → f ≤ 4095
        → stopped_frame ((own (f * p.frame) + p.lead) / p.frame) ≡ f }
{}

/// A host starts the packet of a slot, by its own zero for the frame, where its clock first reads the nominal time.
pub fn hosts_start_at_nominal_times()
    ensures { (p : Numbers) (host : ℕ → ℕ) (c j : ℕ) → tick_at_offset host (host_zero p c) (starting_offset p j) ≡ start_tick p host c j }
{}

/// A schedule that is received whole gives a reference to whoever receives it, whatever its counter: the host started its flood
/// in this slot of frame c, its reception began at s and ended at e, and its length allows an error of at most 55 ticks
/// (`any`). Every schedule of a profile does so with the profile's budget (`of_profile`).
pub fn schedules_heard_whole_give_references()
    ensures any { (p : Numbers) (b : Budget) → Fits p b → (host own : ℕ → ℕ) (c s e : ℕ) (q : List ℕ) → IsClock host
        → IsClock own → 1 ≤ c → c ≤ 4095 → slot_of q ≤ b.last → counter_of q ≤ LAST_STEP → length q ≤ b.packet
        → drift (span p (length q) + 11) + 12 ≤ 55
        → Near s (start_tick p host c (slot_of q) + counter_of q * step p (length q)) (counter_of q)
        → e ≡ s + airtime p (length q) → Ref p b host own (zero_from p (own e) q) c c (slot_of q) }
    ensures of_profile { (p : Numbers) → IsProfile p → (host own : ℕ → ℕ) (c s e : ℕ) (q : List ℕ) (x : Schedule)
        → IsClock host → IsClock own → 1 ≤ c → c ≤ 4095 → message_of q ≡ Some (ScheduleOf x)
        → IsOfProfile p (ScheduleOf x)
        → Near s (start_tick p host c (slot_of q) + counter_of q * step p (length q)) (counter_of q)
        → e ≡ s + airtime p (length q) → Ref p (budget_of p) host own (zero_from p (own e) q) c c (slot_of q) }
{}

/// A reference moves on by gaps, up to the greatest gap past the frame in which it was taken (`moved`), and the sum does not stop
/// (`sum`). One that was taken in slot j of frame c is good at once from the closing of the window of that slot on (`now`), and
/// by the gap of a closing schedule from the beginning of the round that is due then (`ahead`).
pub fn references_move_on_by_gaps()
    ensures moved { (p : Numbers) (b : Budget) → Fits p b → (host own : ℕ → ℕ) (z f c j g : ℕ) → IsClock host
        → IsClock own → Ref p b host own z f c j → f + g ≤ c + GREATEST_GAP
        → Ref p b host own (stopped (z + g * p.frame)) (f + g) c j }
    ensures sum { (p : Numbers) (b : Budget) → Fits p b → (host own : ℕ → ℕ) (z f c j g : ℕ) → IsClock host
        → IsClock own → Ref p b host own z f c j → f + g ≤ c + GREATEST_GAP → stopped (z + g * p.frame) ≡ z + g * p.frame }
    ensures now { (p : Numbers) (b : Budget) → Fits p b → (host own : ℕ → ℕ) (z c j : ℕ) → Ref p b host own z c c j
        → Good p b host own z c (closing_offset p j) }
    ensures ahead { (p : Numbers) (b : Budget) → Fits p b → (host own : ℕ → ℕ) (z c j g : ℕ) → IsClock host
        → IsClock own → Ref p b host own z c c j → 1 ≤ g → g ≤ GREATEST_GAP
        → Good p b host own (stopped (z + g * p.frame)) (c + g) 0 }
{}

/// The relay of what was received until tick t of a run begins where the clock reads a turnaround more than at t (`tick`). That
/// is within one tick of a turnaround after t (`near`), and after t (`after`). So what was sent with counter k within k ticks
/// of k steps after its origin is relayed within k + 1 ticks of k + 1 steps after it (`follows`).
pub fn relays_begin_after_a_turnaround()
    ensures tick { (p : Numbers) (b : Budget) → Fits p b → (own : ℕ → ℕ) → IsClock own → (t : ℕ)
        → t ≤ MOST_FRAMES * p.frame → relay_tick p own t ≡ due own (own t + p.turn) }
    ensures near { (p : Numbers) (b : Budget) → Fits p b → (own : ℕ → ℕ) → IsClock own → (t : ℕ)
        → t ≤ MOST_FRAMES * p.frame → Near (relay_tick p own t) (t + p.turn) 1 }
    ensures after { (p : Numbers) (b : Budget) → Fits p b → (own : ℕ → ℕ) → IsClock own → (t : ℕ)
        → t ≤ MOST_FRAMES * p.frame → t < relay_tick p own t }
    ensures follows { (p : Numbers) (b : Budget) → Fits p b → (own : ℕ → ℕ) → IsClock own → (n k s t origin : ℕ)
        → t ≤ MOST_FRAMES * p.frame → t ≡ s + airtime p n → Near s (origin + k * step p n) k
        → Near (relay_tick p own t) (origin + (k + 1) * step p n) (k + 1) }
{}

/// What is sent in a flood of slot j of a round, by whatever good zero the flood began, ends before every window of the
/// slot closes, with 175 ticks left (`slot`). It starts after the start of the round's frame (`start`), and ends before
/// every clock's frame alarm (`alarm`) and before the next frame (`frame`). Its relay is of the flood, too (`relay`).
/// What is sent in a later slot of the round starts after its end (`later`).
pub fn sendings_keep_to_their_slot()
    ensures slot { (p : Numbers) (b : Budget) → Fits p b → (host first own : ℕ → ℕ) (y z f j n k s : ℕ)
        → IsClock host → IsClock first → IsClock own → j ≤ b.last → n ≤ b.packet
        → Good p b host first y f (starting_offset p j) → Good p b host own z f (closing_offset p j) → InFlood p first y j n k s
        → s + airtime p n + 175 ≤ tick_at_offset own z (closing_offset p j) }
    ensures start { (p : Numbers) (b : Budget) → Fits p b → (host first : ℕ → ℕ) (y f j n k s : ℕ) → IsClock host
        → IsClock first → j ≤ b.last → Good p b host first y f (starting_offset p j) → InFlood p first y j n k s
        → f * p.frame < s }
    ensures alarm { (p : Numbers) (b : Budget) → Fits p b → (host first own : ℕ → ℕ) (y f j n k s : ℕ)
        → IsClock host → IsClock first → IsClock own → j ≤ b.last → n ≤ b.packet → f ≤ 4095
        → Good p b host first y f (starting_offset p j) → InFlood p first y j n k s
        → s + airtime p n < due own (f * p.frame + p.end) }
    ensures frame { (p : Numbers) (b : Budget) → Fits p b → (host first : ℕ → ℕ) (y f j n k s : ℕ) → IsClock host
        → IsClock first → j ≤ b.last → n ≤ b.packet → f ≤ 4095 → Good p b host first y f (starting_offset p j)
        → InFlood p first y j n k s → s + airtime p n < (f + 1) * p.frame }
    ensures relay { (p : Numbers) (b : Budget) → Fits p b → (host first own : ℕ → ℕ) (y f j n k s t : ℕ)
        → IsClock host → IsClock first → IsClock own → j ≤ b.last → n ≤ b.packet → f ≤ 4095
        → Good p b host first y f (starting_offset p j) → InFlood p first y j n k s → k < LAST_STEP → t ≡ s + airtime p n
        → InFlood p first y j n (k + 1) (relay_tick p own t) }
    ensures later { (p : Numbers) (b : Budget) → Fits p b → (host first other : ℕ → ℕ) (y z f i j n m k l s t : ℕ)
        → IsClock host → IsClock first → IsClock other → i < j → j ≤ b.last → n ≤ b.packet
        → Good p b host first y f (starting_offset p i) → Good p b host other z f (starting_offset p j)
        → InFlood p first y i n k s → InFlood p other z j m l t → s + airtime p n < t }
{}
