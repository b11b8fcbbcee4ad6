//! Laws of one flood: its steps, the error of a reference, and contenders.

ghost use Rattle.std.specs.Prelude.{◌≡◌, ℕ, ◌+◌, ◌*◌, ◌^◌, ◌<◌, ◌≤◌};
ghost use Rattle.lwb_base.specs.Profile.{Numbers, airtime, step};
ghost use Rattle.lwb_base.specs.declared.limits.TheConstants.{LAST_STEP};
ghost use Rattle.tick_clock.specs.Clocks.{Near, IsClock, due};
ghost use Rattle.time_reference.specs.Budgets.{Budget, Fits, span};
ghost use Rattle.time_reference.specs.Drift.{drift};
ghost use Rattle.time_reference.specs.Floods.{Overlap, Relayed};
ghost use Rattle.time_reference.specs.Reference.{heard_zero};
ghost use Rattle.time_reference.specs.Zeros.{starting_offset, tick_at_offset, round_drift, start_tick, Ref};

/// A relay starts a turnaround after the end of the reception, but for one tick.
pub fn turnaround()
    ensures { (own : ℕ → ℕ) (turn e : ℕ) → IsClock own → 2 ≤ turn → turn ≤ 49998 → e ≤ 2 ^ 45
        → Near (due own (own e + turn)) (e + turn) 1 }
{}

/// A transmission with counter k starts within k ticks of k steps after its initiator's start.
pub fn steps_follow()
    ensures { (p : Numbers) (n k s next origin : ℕ) → Near s (origin + k * step p n) k
        → Near next (s + airtime p n + p.turn) 1 → Near next (origin + (k + 1) * step p n) (k + 1) }
{}

/// Two transmissions of one step and origin start within the greatest displacement.
pub fn one_step_starts_together()
    ensures { (p : Numbers) (b : Budget) → Fits p b → (n k s t origin : ℕ) → k ≤ LAST_STEP
        → Near s (origin + k * step p n) k → Near t (origin + k * step p n) k
        → Near s t (2 * k) × (2 * k ≤ p.delta) }
{}

/// A transmission ends within the span of twelve steps and 11 ticks, and starts no earlier than its initiator.
pub fn flood_ends()
    ensures { (p : Numbers) (n k s origin : ℕ) → 1 ≤ step p n → k ≤ LAST_STEP → Near s (origin + k * step p n) k
        → (s + airtime p n ≤ origin + span p n + 11) × (origin ≤ s) }
{}

/// The error of a reference that is read off a packet of n bytes: at most 48 ticks with 61 bytes, and 55 with 74.
pub fn reference_error()
    ensures any { (p : Numbers) (own : ℕ → ℕ) (n k s origin : ℕ) → IsClock own → 1 ≤ step p n → k ≤ LAST_STEP
        → Near s (origin + k * step p n) k → s + airtime p n ≤ 2 ^ 48
        → Near (own (s + airtime p n)) (own origin + k * step p n + airtime p n) (drift (span p n + 11) + 12) }
    ensures small { (p : Numbers) (own : ℕ → ℕ) (n k s origin : ℕ) → IsClock own → 1 ≤ step p n → k ≤ LAST_STEP
        → Near s (origin + k * step p n) k → s + airtime p n ≤ 2 ^ 48
        → drift (span p n + 11) + 12 ≤ 55
        → Near (own (s + airtime p n)) (own origin + k * step p n + airtime p n) 55 }
    ensures of_61 { (p : Numbers) (n : ℕ) → p.byte ≡ 2048 → p.turn ≡ 12288 → n ≤ 61
        → drift (span p n + 11) + 12 ≤ 48 }
    ensures of_74 { (p : Numbers) (n : ℕ) → p.byte ≡ 2048 → p.turn ≡ 12288 → n ≤ 74
        → drift (span p n + 11) + 12 ≤ 55 }
{}

/// A packet that is relayed k times starts within k ticks of k steps after its initiator.
pub fn relays_keep_their_steps()
    ensures { (p : Numbers) (n origin k s : ℕ) → Relayed p n origin k s → Near s (origin + k * step p n) k }
{}

/// The zero that a node takes from a schedule of slot j errs by no more than the packet's length allows, and stays
/// above 0.
pub fn heard_zeros_err_little()
    ensures { (p : Numbers) (own : ℕ → ℕ) (n k s origin start j bound : ℕ) → IsClock own → 1 ≤ step p n → k ≤ LAST_STEP
        → Near s (origin + k * step p n) k → s + airtime p n ≤ 2 ^ 48 → own (s + airtime p n) ≡ start + airtime p n
        → drift (span p n + 11) + 12 ≤ bound → p.listen + j * p.slot + bound ≤ own origin
        → (start ≡ heard_zero p start k n j + (k * step p n + p.listen + j * p.slot))
        × Near (heard_zero p start k n j + j * p.slot + p.listen) (own origin) bound }
{}

/// A schedule that the host of the round starts, and whose length allows an error of at most 55 ticks, gives a reference to
/// whoever receives it.
pub fn heard_schedules_give_zeros()
    ensures { (p : Numbers) (b : Budget) → Fits p b → (host own : ℕ → ℕ) (c j n k s start : ℕ) → IsClock host
        → IsClock own → 1 ≤ c → c ≤ 4095 → j ≤ b.last → k ≤ LAST_STEP → Near s (start_tick p host c j + k * step p n) k
        → s + airtime p n ≤ 2 ^ 48 → own (s + airtime p n) ≡ start + airtime p n → drift (span p n + 11) + 12 ≤ 55
        → (start ≡ heard_zero p start k n j + (k * step p n + p.listen + j * p.slot))
        × Ref p b host own (heard_zero p start k n j) c c j }
{}

/// A transmission of an earlier step ends before one of a later step starts, also of another initiator.
pub fn steps_are_apart()
    ensures { (p : Numbers) (n i k q x y origin other : ℕ) → q + 23 < p.turn → i < k → k ≤ LAST_STEP → Near origin other q
        → Near x (origin + i * step p n) i → Near y (other + k * step p n) k → x + airtime p n < y }
{}

/// Transmissions of one step overlap, also of different initiators.
pub fn one_step_overlaps()
    ensures { (p : Numbers) (n k q x y origin other : ℕ) → q + 22 < airtime p n → k ≤ LAST_STEP → Near origin other q
        → Near x (origin + k * step p n) k → Near y (other + k * step p n) k
        → Near x y (q + 2 * k) × Overlap x (x + airtime p n) y (y + airtime p n) }
{}

/// Contenders of one slot, both with references from this round's opening, start together.
pub fn contenders_start_together()
    ensures { (p : Numbers) (b : Budget) → Fits p b → (host own other : ℕ → ℕ) (z y f j : ℕ) → IsClock host
        → IsClock own → IsClock other → Ref p b host own z f f 0 → Ref p b host other y f f 0 → 1 ≤ j → j < b.last
        → Near (tick_at_offset own z (starting_offset p j)) (tick_at_offset other y (starting_offset p j)) (2 * round_drift p b + 112)
        × (2 * round_drift p b + 112 + 48 ≤ b.contenders) }
{}
