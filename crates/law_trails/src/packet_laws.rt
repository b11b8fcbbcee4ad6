//! What packets say, whatever their counters, and how long they are.

ghost use Rattle.std.specs.Prelude.{◌≡◌, ℕ, ◌+◌, ◌<◌, ◌≤◌, List, All, true, Some, is_some, length, slice_set};
ghost use Rattle.lwb_base.specs.Profile.{Numbers, IsProfile};
ghost use Rattle.lwb_base.specs.Messages.{Schedule};
ghost use Rattle.lwb_base.specs.declared.limits.TheConstants.{LAST_STEP};
ghost use Rattle.lwb_packets.specs.Body.{body};
ghost use Rattle.lwb_packets.specs.declared.kind.Kind.{Kind};
ghost use Rattle.time_reference.specs.Budgets.{budget_of, span};
ghost use Rattle.time_reference.specs.Drift.{drift};
ghost use Rattle.glossy_relay.specs.Relaying.{is_packet, is_spelling, slot_of, counter_of, relay_of};
ghost use Rattle.bus_rules.specs.Plans.{last_slot};
ghost use Rattle.bus_rules.specs.Slots.{Message, ScheduleOf};
ghost use Rattle.lwb_member.specs.Said.{MaySay, bytes_of, message_of};
ghost use Rattle.law_trails.specs.PacketKinds.{IsPacketOf, SaysOfKind, IsInSlot, IsOfProfile};

/// A packet says the same with every counter up to `LAST_STEP` (`again`). So the relay of a packet says what the packet says
/// (`relay`), and two packets that are equal but for their counters say the same (`bodies`).
pub fn counters_say_nothing()
    ensures again { (q : List ℕ) (k : ℕ) → counter_of q ≤ LAST_STEP → k ≤ LAST_STEP → message_of (slice_set q 2 k) ≡ message_of q }
    ensures relay { (q : List ℕ) → counter_of q < LAST_STEP → message_of (relay_of q) ≡ message_of q }
    ensures bodies { (q r : List ℕ) → counter_of q ≤ LAST_STEP → counter_of r ≤ LAST_STEP → body q ≡ body r
        → message_of q ≡ message_of r }
{}

/// What an initiator says is read back off its packet with every counter up to `LAST_STEP` (`message`), as are the slot in which
/// it says it and the counter (`place`), which is 0 in the packet that is written (`first`).
pub fn what_is_written_is_read_back()
    ensures message { (m : Message) (j k : ℕ) → MaySay j m → k ≤ LAST_STEP
        → message_of (slice_set (bytes_of m j) 2 k) ≡ Some m }
    ensures place { (m : Message) (j k : ℕ)
        → (slot_of (slice_set (bytes_of m j) 2 k) ≡ j) × (counter_of (slice_set (bytes_of m j) 2 k) ≡ k) }
    ensures first { (m : Message) (j : ℕ) → (slot_of (bytes_of m j) ≡ j) × (counter_of (bytes_of m j) ≡ 0) }
{}

/// A packet whose bytes are bytes is what its initiator writes of what it says, in its slot and with its counter
/// (`packet`). So two of them that say the same in one slot are equal but for their counters (`bodies`).
pub fn what_is_read_is_written_again()
    ensures packet { (q : List ℕ) (m : Message) → message_of q ≡ Some m → All (λ b. b < 256) q
        → slice_set (bytes_of m (slot_of q)) 2 (counter_of q) ≡ q }
    ensures bodies { (q r : List ℕ) (m : Message) → message_of q ≡ Some m → message_of r ≡ Some m
        → slot_of q ≡ slot_of r → All (λ b. b < 256) q → All (λ b. b < 256) r → body q ≡ body r }
{}

/// What a packet says determines its kind and its length; it may be said in the packet's slot, and the counter is at most `LAST_STEP`
/// (`packet`). The packets of each kind say something of that kind (`kind`), and only packets say something (`some`). A
/// schedule is in slot 0 where it opens its round, and after slot 1 where it closes it (`place`).
pub fn messages_tell_of_their_packets()
    ensures packet { (q : List ℕ) (m : Message) → message_of q ≡ Some m → IsPacketOf m q }
    ensures kind { (kind : Kind) (q : List ℕ) → is_spelling kind q ≡ true → SaysOfKind kind q }
    ensures some { (q : List ℕ) → is_some (message_of q) ≡ is_packet q }
    ensures place { (q : List ℕ) (x : Schedule) → message_of q ≡ Some (ScheduleOf x) → IsInSlot (slot_of q) x }
{}

/// A packet that says something has at least 7 bytes (`least`), and at most the number of bytes of the greatest of its profile
/// (`most`). A schedule has at most 74, and at most 61 where it names no contention slots (`schedules`).
pub fn packets_have_their_lengths()
    ensures least { (q : List ℕ) (m : Message) → message_of q ≡ Some m → 7 ≤ length q }
    ensures most { (p : Numbers) → IsProfile p → (q : List ℕ) (m : Message) → IsOfProfile p m → message_of q ≡ Some m
        → length q ≤ p.packet_max }
    ensures schedules { (q : List ℕ) (x : Schedule) → message_of q ≡ Some (ScheduleOf x)
        → (length q ≤ 74) × (x.plan.contend ≡ 0 → length q ≤ 61) }
{}

/// A reference that is taken from a schedule errs by at most 55 ticks, and by at most 48 where the schedule names no
/// contention slots: its length allows no more.
pub fn schedules_allow_small_errors()
    ensures within_55 { (p : Numbers) → IsProfile p → (q : List ℕ) (x : Schedule)
        → message_of q ≡ Some (ScheduleOf x) → drift (span p (length q) + 11) + 12 ≤ 55 }
    ensures within_48 { (p : Numbers) → IsProfile p → (q : List ℕ) (x : Schedule)
        → message_of q ≡ Some (ScheduleOf x) → x.plan.contend ≡ 0 → drift (span p (length q) + 11) + 12 ≤ 48 }
{}

/// A schedule of its profile is in a slot that the profile's budget covers (`slot`). The budget covers the last slot of the
/// round of its plan, too (`last`).
pub fn rounds_fit_their_budget()
    ensures slot { (p : Numbers) → IsProfile p → (q : List ℕ) (x : Schedule) → IsOfProfile p (ScheduleOf x)
        → message_of q ≡ Some (ScheduleOf x) → slot_of q ≤ (budget_of p).last }
    ensures last { (p : Numbers) → IsProfile p → (q : List ℕ) (x : Schedule) → IsOfProfile p (ScheduleOf x)
        → message_of q ≡ Some (ScheduleOf x) → last_slot x.plan ≤ (budget_of p).last }
{}
