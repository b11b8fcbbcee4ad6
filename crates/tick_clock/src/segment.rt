//! The segments of a clock, each with one rate.

ghost use Rattle.std.specs.Prelude.{◌≡◌, ℕ, ◌-◌, ◌*◌, ◌^◌, ◌≤◌, ◌<◌, IfOk, All, length, map};
ghost use Rattle.std.specs.Int.{div_ceil};
ghost use Rattle.std.specs.Int.RustNames.{unsigned_abs};
ghost use Rattle.lwb_base.specs.declared.limits.TheConstants.{DRIFT_BOUND};
ghost use Rattle.tick_clock.specs.Rates.{wild_at, unordered_at};
ghost use Rattle.tick_clock.specs.RatesLaw.{count_before};
ghost use Rattle.tick_clock.specs.Segments.{AreSegmentsAfter, IsLast, count_until as counted_by, counts_less, rate_entry_of, first_segment, has_begun};
ghost use Rattle.tick_clock.specs.Segments.{last_segment, pace_of};

use lwb_base::Memory;
use std::alloc::Global;

/// From its start on a clock runs at this rate.
#[derive(Clone, Copy)]
pub struct Segment {
    /// The tick at which the rate begins.
    pub start: u64,
    /// The rate, in parts per million.
    pub ppm: i8,
    /// What the clock has counted by the start, in millionths of a tick.
    pub count: u128,
}

impl Segment {
    // The millionths of a tick that the clock counts in a tick.
    fn pace(&self) -> u64
        requires { unsigned_abs self.now.ppm ≤ DRIFT_BOUND }
        ensures { result ≡ pace_of self.now.ppm }
    {
        (1_000_000 + i64::from(self.ppm)) as u64
    }

    // What the clock has counted by tick t, if this segment lasts until then.
    fn counted(&self, t: u64) -> u128
        requires rate { unsigned_abs self.now.ppm ≤ DRIFT_BOUND }
        requires begun { self.now.start ≤ t }
        requires small { self.now.count < 2 ^ 100 }
        ensures { result ≡ counted_by self.now t }
    {
        self.count + u128::from(self.pace()) * u128::from(t - self.start)
    }
}

/// The segments of a clock with these rates.
pub fn segments_of(alloc: Global, rates: &[(u64, i8)]) -> Result<Vec<Segment>, Memory>
    requires starts { All (λ r. r.0 < 2 ^ 47) rates.now }
    requires rates { wild_at rates.now ≡ None }
    requires order { unordered_at rates.now ≡ None }
    ensures entries { IfOk result (λ v. map rate_entry_of v.items ≡ rates.now) }
    ensures kept { IfOk result (λ v. AreSegmentsAfter first_segment v.items) }
{
    let mut segments = Vec::new(alloc);
    let mut last = segment_before(&[], 0);
    for &(start, ppm) in rates {
        let count = last.counted(start);
        last = Segment { start, ppm, count };
        segments.push(last)?;
    }
    Ok(segments)
}

/// What a clock has counted by tick t, in millionths of a tick.
pub fn count_at(segments: &[Segment], t: u64) -> u128
    requires kept { AreSegmentsAfter first_segment segments.now }
    requires range { t ≤ 2 ^ 48 }
    ensures { result ≡ count_before (map rate_entry_of segments.now) t }
{
    last_begun(segments, t).counted(t)
}

/// The first tick at which a clock has counted so much.
pub fn tick_of_count(segments: &[Segment], wanted: u128) -> u64
    requires kept { AreSegmentsAfter first_segment segments.now }
    requires range { wanted ≤ 1000000 * 2 ^ 48 }
    ensures reached { wanted ≤ count_before (map rate_entry_of segments.now) result }
    ensures before { (s : ℕ) → s < result → count_before (map rate_entry_of segments.now) s < wanted }
{
    let last = last_below(segments, wanted);
    last.start + ticks_for(wanted - last.count, last.pace())
}

// The least number of ticks in which a clock of this pace counts this many millionths. Most counts have 64 bits, whose
// division takes a fraction of the time of that of 128 bits.
fn ticks_for(count: u128, pace: u64) -> u64
    requires pace { 1000000 - DRIFT_BOUND ≤ pace }
    requires range { count ≤ 1000000 * 2 ^ 48 }
    ensures value { result ≡ div_ceil count pace }
    ensures few { result ≤ 2 ^ 49 }
{
    match u64::try_from(count) {
        Ok(count) => count.div_ceil(pace),
        Err(_) => count.div_ceil(u128::from(pace)) as u64,
    }
}

// The last segment that has begun by tick t.
fn last_begun(segments: &[Segment], t: u64) -> Segment
    requires { AreSegmentsAfter first_segment segments.now }
    ensures { IsLast (has_begun t) segments.now result }
{
    segment_before(segments, segments.partition_point(|s| s.start <= t))
}

// The last segment at whose start less than this is counted.
fn last_below(segments: &[Segment], wanted: u128) -> Segment
    requires { AreSegmentsAfter first_segment segments.now }
    ensures { IsLast (counts_less wanted) segments.now result }
{
    segment_before(segments, segments.partition_point(|s| s.count < wanted))
}

// The last of the first this many segments, or the stretch before the first.
fn segment_before(segments: &[Segment], count: usize) -> Segment
    requires { count ≤ length segments.now }
    ensures { result ≡ last_segment first_segment segments.now count }
{
    if count == 0 {
        Segment {
            start: 0,
            ppm: 0,
            count: 0,
        }
    } else {
        segments[count - 1]
    }
}
