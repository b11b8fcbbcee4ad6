//! Faults in the rates of a clock.

ghost use Rattle.std.specs.Prelude.{◌≡◌, ◌<◌, IfSome, position, length};
ghost use Rattle.std.specs.List.{zip};
ghost use Rattle.tick_clock.specs.Rates.{is_late, unordered_at, wild_at};

use lwb_base::DRIFT_BOUND;

/// The first entry whose rate is beyond the drift bound.
pub fn first_wild(rates: &[(u64, i8)]) -> Option<usize>
    ensures { result ≡ wild_at rates.now }
{
    rates.iter().position(|r| r.1.unsigned_abs() > DRIFT_BOUND)
}

/// The first entry whose start is not above the one before.
pub fn first_unordered(rates: &[(u64, i8)]) -> Option<usize>
    ensures { result ≡ unordered_at rates.now }
{
    first_late(rates, &rates[rates.len().min(1)..]).map(|i| i + 1)
}

// The first entry after which the next does not start later.
fn first_late(rates: &[(u64, i8)], next: &[(u64, i8)]) -> Option<usize>
    ensures value { result ≡ position is_late (zip rates.now next.now) }
    ensures below { IfSome result (λ i. i < length rates.now) }
{
    rates.iter().zip(next).position(|(r, s)| s.0 <= r.0)
}
