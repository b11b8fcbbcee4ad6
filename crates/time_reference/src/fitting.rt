//! Budgets that fit a profile, and what follows from them.

ghost use Rattle.std.specs.Prelude.{◌≡◌, ℕ, ◌+◌, ◌*◌, ◌^◌, ◌<◌, ◌≤◌, max};
ghost use Rattle.lwb_base.specs.declared.limits.TheConstants.{DATA_SLOTS, MOST_FRAMES};
ghost use Rattle.lwb_base.specs.Profile.{Numbers, airtime, step, IsProfile, one, contended};
ghost use Rattle.time_reference.specs.Budgets.{Budget, Fits, span, budget_one, budget_two, budget_of};
ghost use Rattle.time_reference.specs.Drift.{drift};
ghost use Rattle.time_reference.specs.Zeros.{apart, round_drift};

/// Each profile fits with its budget.
pub fn profiles_fit()
    ensures first { Fits one budget_one }
    ensures second { Fits (contended 0) budget_two }
    ensures with_contention { (c : ℕ) → 1 ≤ c → c ≤ 4 → Fits (contended c) budget_two }
    ensures every { (p : Numbers) → IsProfile p → Fits p (budget_of p) }
{}

/// A profile's budget has its packets and every slot of its rounds, and its schedules allow a reference to err by
/// at most 55 ticks, those of at most 61 bytes by at most 48. A round has at most `DATA_SLOTS` owners.
pub fn budgets_cover_rounds()
    ensures packets { (p : Numbers) → IsProfile p → p.packet_max ≡ (budget_of p).packet }
    ensures slots { (p : Numbers) → IsProfile p → DATA_SLOTS + max 1 p.contend + 1 ≤ (budget_of p).last }
    ensures schedules { (p : Numbers) → IsProfile p → (n : ℕ) → (n ≤ 61 → drift (span p n + 11) + 12 ≤ 48)
        × (n ≤ 74 → drift (span p n + 11) + 12 ≤ 55) }
{}

/// The difference of two zeros has room for the drift of two clocks over the age of a reference.
pub fn zeros_cover_drift()
    ensures { (p : Numbers) (b : Budget) → Fits p b → apart b + 46 ≤ b.zeros }
{}

/// The difference of two zeros, LISTEN, CLOSE and SLOT, each below the next.
pub fn times_of_a_window_are_ordered()
    ensures { (p : Numbers) (b : Budget) → Fits p b
        → (apart b + 46 ≤ b.zeros) × (b.zeros < p.listen) × (p.listen < p.close) × (p.close < p.slot) }
{}

/// A window has room for twelve steps of the greatest packet, the difference of two zeros and 186 ticks.
pub fn windows_have_room()
    ensures { (p : Numbers) (b : Budget) → Fits p b → p.listen + span p b.packet + apart b + 186 ≤ p.close }
{}

/// Rounds begin and frame alarms come within their frames.
pub fn times_of_a_frame_are_ordered()
    ensures { (p : Numbers) (b : Budget) → Fits p b
        → (p.lead ≤ p.end) × (p.lead + b.clock < p.frame) × (b.last * p.slot + p.listen + b.zeros < p.frame)
        × (p.lead + b.last * p.slot + p.listen + b.clock < p.frame) }
{}

/// The error of a clock over the run has room for its offset and its drift.
pub fn clock_error_covers_drift()
    ensures { (p : Numbers) (b : Budget) → Fits p b
        → (256002 + drift (MOST_FRAMES * p.frame) ≤ b.clock) × (b.clock + b.zeros < p.lead) }
{}

/// The difference of two contenders has room for the drift of two clocks over a round.
pub fn contenders_cover_drift()
    ensures { (p : Numbers) (b : Budget) → Fits p b
        → (2 * round_drift p b + 160 ≤ b.contenders) × (round_drift p b ≤ drift b.age) }
{}

/// Longer packets take no less time, and every step takes some.
pub fn packets_take_time()
    ensures grows { (p : Numbers) (b : Budget) → Fits p b → (n m : ℕ) → n ≤ m
        → (airtime p n ≤ airtime p m) × (step p n ≤ step p m) × (span p n ≤ span p m) }
    ensures least { (p : Numbers) (b : Budget) → Fits p b → (n : ℕ)
        → (p.turn < step p n) × (24 ≤ p.turn) × (22 < airtime p 7) × (7 ≤ n → airtime p 7 ≤ airtime p n) }
{}

/// The drift over the greatest age is below a slot, and twice that below LISTEN.
pub fn drift_is_small()
    ensures { (p : Numbers) (b : Budget) → Fits p b
        → (drift b.age + 57 < b.zeros) × (drift b.age + 57 < p.slot) × (2 * drift b.age + 58 < p.listen) }
{}

/// A reference that was taken in the run ends its age where the clocks still keep the drift law.
pub fn ages_end_in_range()
    ensures { (p : Numbers) (b : Budget) → Fits p b → b.age + MOST_FRAMES * p.frame ≤ 2 ^ 48 }
{}

/// The bounds of the laws in numbers: one reference over its age, two zeros, contenders, and how late a window opens on
/// its own clock.
pub fn bounds_in_numbers()
    ensures ages { (drift budget_one.age + 56 ≡ 22456) × (drift budget_two.age + 56 ≡ 29112) }
    ensures zeros { (apart budget_one ≡ 44914) × (apart budget_two ≡ 58226) }
    ensures contenders { (2 * round_drift one budget_one + 112 ≡ 3662)
        × (2 * round_drift (contended 0) budget_two + 112 ≡ 6564) }
    ensures lateness { (apart budget_one + 3 + drift (apart budget_one) + one.close ≡ 28917 + one.slot)
        × (apart budget_two + 3 + drift (apart budget_two) + (contended 0).close ≡ 42230 + (contended 0).slot) }
{}
