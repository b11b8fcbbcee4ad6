//! Pairs of frames between which more slots are needed than there are.

ghost use Rattle.std.specs.Prelude.{◌≡◌, ◌<◌, ◌≤◌, ◌+◌, ◌-◌, ◌*◌, ℕ, length, count_by, slice_index, IfOk, IfSome, IfNone, All};
ghost use Rattle.lwb_base.specs.declared.limits.TheConstants.{DATA_SLOTS};
ghost use Rattle.deadline_plan.specs.Jobs.{IsDeadlineStream, jobs, load, NothingOver, IsFirstOver};
ghost use Rattle.deadline_plan.specs.Load.{has_job, is_at, sum_from, IsLatestOver};

use crate::DeadlineStream;
use lwb_base::Memory;
use std::alloc::Global;

/// A pair of frames from whose first on more jobs are released, and end by its second, than there are slots between.
#[derive(Clone, Copy)]
pub struct Overload {
    pub from: u32,
    pub until: u32,
    pub demand: u32,
}

/// Of the pairs that are over, that with the least `until`, and of these that with the greatest `from`.
pub fn first_over(
    alloc: Global,
    streams: &[DeadlineStream],
    slots: u8,
    frames: u32,
) -> Result<Option<Overload>, Memory>
    requires streams { All IsDeadlineStream streams.now }
    requires few { length streams.now ≤ 33 }
    requires slots { slots ≤ DATA_SLOTS }
    requires frames { frames ≤ 1024 }
    ensures over { IfOk result (λ o. IfSome o (λ o. IsFirstOver slots (jobs frames streams.now) o.from o.until)) }
    ensures demand { IfOk result (λ o. IfSome o (λ o. o.demand ≡ load (jobs frames streams.now) o.from o.until)) }
    ensures none { IfOk result (λ o. IfNone o (NothingOver slots (jobs frames streams.now))) }
{
    let mut released = vec![in alloc; 0u32; frames as usize]?;
    for ended in 0..frames {
        count_ends(streams, ended + 1, &mut released);
        if let Some(overload) = latest_over(&released, slots, ended + 1) {
            return Ok(Some(overload));
        }
    }
    Ok(None)
}

// Counts each job that ends then at its release.
fn count_ends(streams: &[DeadlineStream], until: u32, released: &mut [u32])
    requires streams { All IsDeadlineStream streams.now }
    requires few { length streams.now ≤ 33 }
    requires until { until ≤ length released.old }
    requires short { until ≤ 1024 }
    requires room { (a : ℕ) → slice_index released.old a ≤ 65536 }
    ensures length { length released.new ≡ length released.old }
    ensures counted { (a : ℕ) → a < length released.old
        → slice_index released.new a ≡ slice_index released.old a + count_by (λ s. has_job s a until) streams.now }
{
    for stream in streams {
        if let Some(release) = release_of(stream, until) {
            released[release as usize] += 1;
        }
    }
}

// The release of the stream's job with that end. None where no job ends then.
fn release_of(stream: &DeadlineStream, end: u32) -> Option<u32>
    requires stream { IsDeadlineStream stream.now }
    requires short { end ≤ 1024 }
    ensures job { (a : ℕ) → has_job stream.now a end ≡ is_at result a }
    ensures before { IfSome result (λ a. a < end) }
{
    let deadline = u32::from(stream.deadline);
    if end < stream.start + deadline {
        return None;
    }
    let release = end - deadline;
    if (release - stream.start) % u32::from(stream.period) == 0 {
        Some(release)
    } else {
        None
    }
}

// The latest frame from which more is released than there are slots until `until`.
fn latest_over(released: &[u32], slots: u8, until: u32) -> Option<Overload>
    requires slots { slots ≤ DATA_SLOTS }
    requires until { until ≤ length released.now }
    requires short { until ≤ 1024 }
    requires room { (a : ℕ) → slice_index released.now a ≤ 131072 }
    ensures some { IfSome result (IsLatestOver released.now slots until) }
    ensures none { IfNone result ((a : ℕ) → a < until → sum_from released.now a (until - a) ≤ slots * (until - a)) }
{
    let slots = u32::from(slots);
    let mut from = until;
    let mut demand = 0u32;
    let mut room = 0u32;
    while from > 0 {
        from -= 1;
        demand += released[from as usize];
        room += slots;
        if demand > room {
            return Some(Overload {
                from,
                until,
                demand,
            });
        }
    }
    None
}
