//! Laws of one round: good zeros, its slots in true time, and its place in the frame.

ghost use Rattle.std.specs.Prelude.{◌≡◌, ℕ, ◌+◌, ◌*◌, ◌<◌, ◌≤◌, ◌↔◌, max};
ghost use Rattle.lwb_base.specs.Profile.{Numbers};
ghost use Rattle.lwb_base.specs.declared.limits.TheConstants.{GREATEST_GAP, MOST_FRAMES};
ghost use Rattle.tick_clock.specs.Clocks.{Near, IsClock, due};
ghost use Rattle.time_reference.specs.Budgets.{Budget, Fits, span};
ghost use Rattle.time_reference.specs.Drift.{drift};
ghost use Rattle.time_reference.specs.Zeros.{nominal, start_tick, opening_offset, starting_offset, closing_offset, greatest, tick_at_offset, apart, Ref, IsAge};
ghost use Rattle.time_reference.specs.Zeros.{IsUsable, Good};

/// What a reference says of frames c and f, said of the g frames between them.
pub fn references_by_gap()
    ensures { (p : Numbers) (x y f c g e : ℕ) → c + g ≡ f
        → (Near (x + g * p.frame) y e ↔ Near (x + f * p.frame) (y + c * p.frame) e) }
{}

/// A host's own zero is good from the beginning of the round.
pub fn host_is_good()
    ensures { (p : Numbers) (b : Budget) → Fits p b → (host : ℕ → ℕ) (f : ℕ) → IsClock host → 2 ≤ f → f ≤ MOST_FRAMES
        → Good p b host host (f * p.frame + p.lead) f 0 }
{}

/// At its start of a slot the host's clock reads the nominal time or one more.
pub fn host_reads_the_nominal_time()
    ensures { (p : Numbers) (b : Budget) → Fits p b → (host : ℕ → ℕ) (c j : ℕ) → IsClock host → 1 ≤ c → c ≤ 4095
        → j ≤ b.last
        → (nominal p c j ≤ host (start_tick p host c j)) × (host (start_tick p host c j) ≤ nominal p c j + 1) }
{}

/// A zero that is good from an offset on is good from a later one on.
pub fn good_stays_good()
    ensures { (p : Numbers) (b : Budget) → Fits p b → (host own : ℕ → ℕ) (z f q r : ℕ) → q ≤ r
        → Good p b host own z f q → Good p b host own z f r }
{}

/// The age of a reference that may be used is long enough for the age bound, and leaves room below the greatest age.
pub fn ages_of_references()
    ensures { (p : Numbers) (b : Budget) → Fits p b → (host own : ℕ → ℕ) (z f c j q m : ℕ)
        → Ref p b host own z f c j → q ≤ greatest p b → IsUsable p f c j q → IsAge p f c j q m
        → (drift b.age + 57 ≤ m) × (m + p.listen + p.slot ≤ b.age + p.close) }
{}

/// A point by a reference comes its age after the host's start of that slot.
pub fn points_of_a_reference()
    ensures { (p : Numbers) (b : Budget) → Fits p b → (host own : ℕ → ℕ) (z f c j q m : ℕ) → IsClock host
        → IsClock own → Ref p b host own z f c j → q ≤ greatest p b → IsUsable p f c j q → IsAge p f c j q m
        → Near (tick_at_offset own z q) (start_tick p host c j + m) (drift b.age + 56) }
{}

/// Any two good zeros of one round agree in true time.
pub fn zeros_of_a_round_agree()
    ensures { (p : Numbers) (b : Budget) → Fits p b → (host own other : ℕ → ℕ) (z y f q r : ℕ) → IsClock host
        → IsClock own → IsClock other → Good p b host own z f q → Good p b host other y f r
        → q ≤ greatest p b → r ≤ greatest p b → Near (tick_at_offset own z q + r) (tick_at_offset other y r + q) (apart b) }
{}

/// A point of a round is near its nominal place in the frame.
pub fn place_in_the_frame()
    ensures { (p : Numbers) (b : Budget) → Fits p b → (host own : ℕ → ℕ) (z f q : ℕ) → IsClock host → IsClock own
        → Good p b host own z f q → q ≤ greatest p b
        → Near (tick_at_offset own z q) (f * p.frame + p.lead + q) (b.clock + b.zeros) }
{}

/// A round begins after its frame's start.
pub fn rounds_start_in_their_frame()
    ensures { (p : Numbers) (b : Budget) → Fits p b → (host own : ℕ → ℕ) (z f : ℕ) → IsClock host → IsClock own
        → Good p b host own z f 0 → f * p.frame < tick_at_offset own z 0 }
{}

/// Every point of a round comes before every clock's frame alarm.
pub fn rounds_end_before_frame_alarms()
    ensures { (p : Numbers) (b : Budget) → Fits p b → (host own other : ℕ → ℕ) (z f q : ℕ) → IsClock host
        → IsClock own → IsClock other → Good p b host own z f q → q ≤ greatest p b → f ≤ 4095
        → tick_at_offset own z q < due other (f * p.frame + p.end) }
{}

/// A frame alarm that is set at the frame's start lies ahead, and comes in its frame.
pub fn frame_alarms_in_their_frame()
    ensures after { (p : Numbers) (b : Budget) → Fits p b → (own : ℕ → ℕ) → IsClock own → (f : ℕ) → f ≤ MOST_FRAMES
        → (f * p.frame < due own (f * p.frame + p.end)) × (own (f * p.frame) < f * p.frame + p.end) }
    ensures before { (p : Numbers) (b : Budget) → Fits p b → (own : ℕ → ℕ) → IsClock own → (f : ℕ) → f ≤ 4095
        → due own (f * p.frame + p.end) < (f + 1) * p.frame }
{}

/// Every window opens before every initiator's start.
pub fn windows_open_before_starts()
    ensures { (p : Numbers) (b : Budget) → Fits p b → (host own other : ℕ → ℕ) (z y f : ℕ) → IsClock host
        → IsClock own → IsClock other → (j : ℕ) → j ≤ b.last
        → Good p b host own z f (opening_offset p j) → Good p b host other y f (starting_offset p j)
        → tick_at_offset own z (opening_offset p j) < tick_at_offset other y (starting_offset p j) }
{}

/// A window closes before any initiator starts a later slot.
pub fn windows_close_before_later_starts()
    ensures { (p : Numbers) (b : Budget) → Fits p b → (host own other : ℕ → ℕ) (z y f : ℕ) → IsClock host
        → IsClock own → IsClock other → (i j : ℕ) → i < j → j ≤ b.last
        → Good p b host own z f (closing_offset p i) → Good p b host other y f (starting_offset p j)
        → tick_at_offset own z (closing_offset p i) < tick_at_offset other y (starting_offset p j) }
{}

/// A window closes after it opens, and after its own node's start.
pub fn windows_open_then_close()
    ensures opened { (p : Numbers) (b : Budget) → Fits p b → (host own : ℕ → ℕ) (z f j : ℕ) → IsClock host
        → IsClock own → j ≤ b.last
        → Good p b host own z f (opening_offset p j) → tick_at_offset own z (opening_offset p j) < tick_at_offset own z (closing_offset p j) }
    ensures started { (p : Numbers) (b : Budget) → Fits p b → (host own : ℕ → ℕ) (z f j : ℕ) → IsClock host
        → IsClock own → j ≤ b.last
        → Good p b host own z f (starting_offset p j) → tick_at_offset own z (starting_offset p j) < tick_at_offset own z (closing_offset p j) }
{}

/// A window closes before any window of the next slot closes.
pub fn closings_are_ordered()
    ensures { (p : Numbers) (b : Budget) → Fits p b → (host own other : ℕ → ℕ) (z y f : ℕ) → IsClock host
        → IsClock own → IsClock other → (j : ℕ) → j + 1 ≤ b.last
        → Good p b host own z f (closing_offset p (j + 1)) → Good p b host other y f (closing_offset p j)
        → tick_at_offset other y (closing_offset p j) < tick_at_offset own z (closing_offset p (j + 1)) }
{}

/// Every window closes after the last relay, with 175 ticks left.
pub fn windows_close_after_relays()
    ensures { (p : Numbers) (b : Budget) → Fits p b → (host own other : ℕ → ℕ) (z y f : ℕ) → IsClock host
        → IsClock own → IsClock other → (j n : ℕ) → j ≤ b.last → n ≤ b.packet
        → Good p b host own z f (starting_offset p j) → Good p b host other y f (closing_offset p j)
        → tick_at_offset own z (starting_offset p j) + span p n + 11 + 175 ≤ tick_at_offset other y (closing_offset p j) }
{}

/// The last relay of a slot ends before any initiator starts a later slot.
pub fn relays_end_before_later_starts()
    ensures { (p : Numbers) (b : Budget) → Fits p b → (host own other : ℕ → ℕ) (z y f : ℕ) → IsClock host
        → IsClock own → IsClock other → (i j n : ℕ) → i < j → j ≤ b.last → n ≤ b.packet
        → Good p b host own z f (starting_offset p i) → Good p b host other y f (starting_offset p j)
        → tick_at_offset own z (starting_offset p i) + span p n + 11 < tick_at_offset other y (starting_offset p j) }
{}

/// The last relay of a slot ends before the nominal opening of any later window.
pub fn relays_end_before_later_openings()
    ensures { (p : Numbers) (b : Budget) → Fits p b → (host own other : ℕ → ℕ) (z y f : ℕ) → IsClock host
        → IsClock own → IsClock other → (i j n : ℕ) → i < j → j ≤ b.last → n ≤ b.packet
        → Good p b host own z f (starting_offset p i) → Good p b host other y f (opening_offset p j)
        → tick_at_offset own z (starting_offset p i) + span p n + 11 < tick_at_offset other y (opening_offset p j) }
{}

/// Slot 1 opens late where its new zero z came in slot 0, which closed by the old zero y. Its own start has not passed
/// then.
pub fn late_opening_before_start()
    ensures { (p : Numbers) (b : Budget) → Fits p b → (host own : ℕ → ℕ) (z y f : ℕ) → IsClock host → IsClock own
        → 1 ≤ b.last
        → Good p b host own z f (opening_offset p 1) → Good p b host own y f p.close
        → max (tick_at_offset own z (opening_offset p 1)) (tick_at_offset own y p.close) < tick_at_offset own z (starting_offset p 1) }
{}

/// How late it opens, on its own clock.
pub fn lateness_is_bounded()
    ensures { (p : Numbers) (b : Budget) → Fits p b → (host own : ℕ → ℕ) (z y f : ℕ) → IsClock host → IsClock own
        → 1 ≤ b.last
        → Good p b host own z f (opening_offset p 1) → Good p b host own y f p.close
        → tick_at_offset own z (opening_offset p 1) ≤ tick_at_offset own y p.close
        → own (tick_at_offset own y p.close) + p.slot ≤ z + opening_offset p 1 + p.close + apart b + 3 + drift (apart b) }
{}

/// A received schedule gives a reference for its frame, and for the frames up to the greatest gap later.
pub fn heard_schedules_give_references()
    ensures now { (p : Numbers) (b : Budget) → Fits p b → (host own : ℕ → ℕ) (z c j y : ℕ) → 1 ≤ c → c ≤ 4095
        → j ≤ b.last → Near y (own (start_tick p host c j)) 55 → y ≡ z + j * p.slot + p.listen
        → Ref p b host own z c c j }
    ensures ahead { (p : Numbers) (b : Budget) → Fits p b → (host own : ℕ → ℕ) (z c j y g : ℕ) → 1 ≤ c → c ≤ 4095
        → j ≤ b.last → Near y (own (start_tick p host c j)) 55 → y ≡ z + j * p.slot + p.listen
        → g ≤ GREATEST_GAP → Ref p b host own (z + g * p.frame) (c + g) c j }
{}

/// The zero that is taken from a schedule is not below 0.
pub fn zeros_do_not_clamp()
    ensures { (p : Numbers) (b : Budget) → Fits p b → (host own : ℕ → ℕ) (c j : ℕ) → IsClock host → IsClock own
        → 1 ≤ c → c ≤ 4095 → j ≤ b.last → p.listen + j * p.slot + 55 ≤ own (start_tick p host c j) }
{}
