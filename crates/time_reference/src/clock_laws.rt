//! Laws of one clock: over a run, and over the age of a reference.

ghost use Rattle.std.specs.Prelude.{◌≡◌, ℕ, ◌+◌, ◌*◌, ◌/◌, ◌^◌, ◌<◌, ◌≤◌, ◌↔◌};
ghost use Rattle.lwb_base.specs.Profile.{Numbers};
ghost use Rattle.lwb_base.specs.declared.limits.TheConstants.{DRIFT_PERIOD, GREATEST_GAP, MOST_FRAMES};
ghost use Rattle.tick_clock.specs.Clocks.{Near, IsClock, due};
ghost use Rattle.time_reference.specs.Budgets.{Budget, Fits};
ghost use Rattle.time_reference.specs.Drift.{drift};
ghost use Rattle.time_reference.specs.Zeros.{greatest};

/// A clock keeps pace with true time but for its drift and the rounding of its readings.
pub fn readings_keep_pace()
    ensures { (own : ℕ → ℕ) (t d : ℕ) → IsClock own → t + d ≤ 2 ^ 48
        → Near (own (t + d)) (own t + d) (drift d + 1) }
{}

/// Readings never fall, and rise by at most 2 in a tick.
pub fn readings_never_fall()
    ensures order { (own : ℕ → ℕ) (s t : ℕ) → IsClock own → s ≤ t → t ≤ 2 ^ 48 → own s ≤ own t }
    ensures tick { (own : ℕ → ℕ) (t : ℕ) → IsClock own → t + 1 ≤ 2 ^ 48 → own (t + 1) ≤ own t + 2 }
{}

/// Over less than a drift period a clock keeps pace but for one tick.
pub fn readings_over_short_times()
    ensures { (own : ℕ → ℕ) (t d : ℕ) → IsClock own → t + d ≤ 2 ^ 48 → d < DRIFT_PERIOD
        → Near (own (t + d)) (own t + d) 1 }
{}

/// `due` is the least tick at which a clock reads a number or more. It rises with the number, and the clock then reads
/// at most one more.
pub fn due_is_least()
    ensures reached { (own : ℕ → ℕ) (x : ℕ) → IsClock own → x ≤ 2 ^ 47
        → (x ≤ own (due own x)) × (due own x ≤ x + x / 40000 + 2) }
    ensures before { (own : ℕ → ℕ) (x s : ℕ) → s < due own x → own s < x }
    ensures exactly { (own : ℕ → ℕ) (x t : ℕ) → IsClock own → t ≤ 2 ^ 48 → ((due own x ≤ t) ↔ (x ≤ own t)) }
    ensures rises { (own : ℕ → ℕ) (x y : ℕ) → x ≤ y → due own x ≤ due own y }
    ensures overshoot { (own : ℕ → ℕ) (x : ℕ) → IsClock own → due own x ≤ 2 ^ 48 → 0 < due own x
        → own (due own x) ≤ x + 1 }
{}

/// Over the run a clock is off by less than the budget's error.
pub fn clock_in_the_run()
    ensures { (p : Numbers) (b : Budget) → Fits p b → (own : ℕ → ℕ) → IsClock own → (t : ℕ) → t ≤ MOST_FRAMES * p.frame
        → (own t + 1 ≤ t + b.clock) × (t + 256001 ≤ own t + b.clock) }
{}

/// A number within the run is due near its own tick, one past the run is due past it.
pub fn due_in_the_run()
    ensures within { (p : Numbers) (b : Budget) → Fits p b → (own : ℕ → ℕ) → IsClock own → (x : ℕ)
        → x + b.clock ≤ MOST_FRAMES * p.frame → (x + 1 ≤ due own x + b.clock) × (due own x + 256001 ≤ x + b.clock) }
    ensures past { (p : Numbers) (b : Budget) → Fits p b → (own : ℕ → ℕ) → IsClock own → (x : ℕ)
        → MOST_FRAMES * p.frame + b.clock ≤ x → MOST_FRAMES * p.frame < due own x }
{}

/// A node that starts at the beginning of a frame computes that frame from its clock.
pub fn boot_finds_the_frame()
    ensures { (p : Numbers) (b : Budget) → Fits p b → (own : ℕ → ℕ) → IsClock own → (f : ℕ) → f ≤ 4095
        → (own (f * p.frame) + p.lead) / p.frame ≡ f }
{}

/// The age bound. A time that is set m ticks after t0, with an error of e ticks of the clock, comes m true ticks after
/// t0 but for e and the drift over the greatest age.
pub fn age_bound()
    ensures { (own : ℕ → ℕ) (greatest t0 m x e : ℕ) → IsClock own → Near (own t0 + m) x e
        → drift greatest + e + 2 ≤ m → m + drift greatest + e + 1 ≤ greatest
        → t0 + (m + drift greatest + e + 1) ≤ 2 ^ 48 → Near (due own x) (t0 + m) (drift greatest + e + 1) }
{}

/// The same with the drift over the true time d that passed.
pub fn exact_leg()
    ensures { (own : ℕ → ℕ) (t0 d m x e : ℕ) → IsClock own → due own x ≡ t0 + d → 0 < d → t0 + d ≤ 2 ^ 48
        → Near (own t0 + m) x e → Near d m (drift d + e + 1) }
{}

/// Two clocks, one after the other, drift no more than one clock over the whole age.
pub fn two_legs()
    ensures { (first second : ℕ → ℕ) (greatest t0 m1 m2 x1 x2 e : ℕ) → IsClock first → IsClock second
        → Near (first t0 + m1) x1 1 → Near (second (due first x1) + m2) x2 e → drift greatest + 3 ≤ m1
        → drift greatest + e + 2 ≤ m2
        → m1 + m2 + 2 * drift greatest + e + 3 ≤ greatest → t0 + greatest ≤ 2 ^ 48
        → Near (due second x2) (t0 + (m1 + m2)) (drift greatest + e + 3) }
{}

/// No sum of a run comes to the number at which sums stop.
pub fn nothing_stops_in_the_run()
    ensures times { (p : Numbers) (b : Budget) → Fits p b → (own : ℕ → ℕ) → IsClock own → (f : ℕ) → f ≤ MOST_FRAMES
        → ((f + GREATEST_GAP) * p.frame + p.end + 2 * b.clock < 4103 * p.frame) × (4103 * p.frame < 2 ^ 45) }
    ensures readings { (p : Numbers) (b : Budget) → Fits p b → (own : ℕ → ℕ) → IsClock own → (t : ℕ)
        → t ≤ MOST_FRAMES * p.frame → (t < 2 ^ 45) × (own t + p.turn < 2 ^ 45) }
{}
