//! A clock that runs at one rate after another.

ghost use Rattle.std.specs.Prelude.{◌≡◌, ℕ, ◌*◌, ◌/◌, ◌^◌, ◌≤◌, ◌<◌, ◌↔◌, IsErrOf, IfOk, All};
ghost use Rattle.tick_clock.specs.Rates.{wild_at, unordered_at, segment_reading};
ghost use Rattle.tick_clock.specs.Segments.{AreSegmentsAfter, AreKept-prop, first_segment};

use crate::DriftClock;
use crate::rates::{first_unordered, first_wild};
use crate::segment::{Segment, count_at, segments_of, tick_of_count};
use lwb_base::Memory;
use std::alloc::Global;

/// A tick has a million millionths.
const MILLIONTHS: u128 = 1_000_000;

/// A clock that runs at one rate after another, each from a tick on.
///
/// It reads `offset + t + floor(S / 1,000,000)` at tick t, S being the sum over the ticks before t of the rate in
/// force, which is 0 before the first rate begins.
#[derive(Drop)]
pub struct SegmentClock {
    offset: u64,
    segments: Vec<Segment>,
    ghost early: { offset ≤ 256000 },
    ghost kept: { AreSegmentsAfter first_segment segments.items } by { AreKept-prop first_segment segments.items },
}

/// Why a clock is not made.
#[derive(Clone, Copy, Debug, PartialEq, Eq)]
pub enum ClockFault {
    /// The first entry whose rate is beyond the drift bound.
    Rate(usize),
    /// Where each rate is within the drift bound, the first entry whose start is not above the one before.
    Order(usize),
    /// Out of memory.
    Memory,
}

impl SegmentClock {
    ghost use Rattle.tick_clock.specs.ClockReadings.{segment_clock_reads};

    /// A clock with this offset whose rate is that of the last entry that has begun. An entry has its start, a tick,
    /// and its rate in parts per million.
    pub fn new(alloc: Global, offset: u64, rates: &[(u64, i8)]) -> Result<SegmentClock, ClockFault>
        requires offset { offset ≤ 256000 }
        requires starts { All (λ r. r.0 < 2 ^ 47) rates.now }
        ensures ok { IfOk result (λ c. segment_clock_reads c ≡ segment_reading offset rates.now) }
        ensures rate { (i : ℕ) → IsErrOf result (ClockFault.Rate i) ↔ (wild_at rates.now ≡ Some i) }
        ensures order { (i : ℕ) → IsErrOf result (ClockFault.Order i)
            ↔ ((wild_at rates.now ≡ None) × (unordered_at rates.now ≡ Some i)) }
    {
        if let Some(i) = first_wild(rates) {
            return Err(ClockFault::Rate(i));
        }
        if let Some(i) = first_unordered(rates) {
            return Err(ClockFault::Order(i));
        }
        let segments = match segments_of(alloc, rates) {
            Ok(segments) => segments,
            Err(Memory) => return Err(ClockFault::Memory),
        };
        Ok(SegmentClock { offset, segments })
    }
}

impl DriftClock for SegmentClock {
    ghost use Rattle.std.specs.Prelude.{◌≡◌, ℕ};
    ghost use Rattle.tick_clock.specs.ClockReadings.{segment_clock_reads};
    ghost use Rattle.tick_clock.specs.KeptLaw.{kept_law};

    ghost readings = { segment_clock_reads };

    ghost keeps_drift_law = { λ c. kept_law c.offset c.segments.items c.early c.kept };

    fn reading(&self, t: u64) -> u64 {
        self.offset + whole_ticks(count_at(&self.segments, t))
    }

    fn due(&self, local: u64) -> u64 {
        let ticks = local.saturating_sub(self.offset);
        tick_of_count(&self.segments, u128::from(ticks) * MILLIONTHS)
    }
}

// This many millionths in whole ticks. In the first three days all counts have 64 bits, whose division takes a fraction of
// the time of that of 128 bits.
fn whole_ticks(count: u128) -> u64
    requires { count < 1000000 * 2 ^ 64 }
    ensures { result ≡ count / 1000000 }
{
    match u64::try_from(count) {
        Ok(count) => count / 1_000_000,
        Err(_) => (count / MILLIONTHS) as u64,
    }
}
