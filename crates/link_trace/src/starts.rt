//! Where the lines of each slot of each frame start.

ghost use Rattle.std.specs.Prelude.{◌≡◌, ◌≤◌, ◌<◌, ℕ, length, IfOk};
ghost use Rattle.std.specs.List.{AllPairs, AllWithin};
ghost use Rattle.std.specs.List.Sorted.{IsPartitionPoint};
ghost use Rattle.link_trace.specs.Order.{Ascends, by_loss, by_cut, by_capture};
ghost use Rattle.link_trace.specs.Starts.{AreNone, AreStarts, HoldsSlots, of_loss, of_cut, of_capture, slot_number as number_of};

use crate::{CaptureLine, CutLine, LoseLine};
use lwb_base::{MOST_FRAMES, Memory};
use std::alloc::Global;

/// A line of some slot of some frame.
pub trait OfSlot {
    ghost slot_of: { Self → ℕ };

    /// The number of its slot, as `slot_number` counts slots.
    fn slot_number(&self) -> usize
        ensures value { result ≡ slot_of self.now }
        ensures small { result ≤ 262_144 };
}

impl OfSlot for LoseLine {
    ghost slot_of = { of_loss };

    fn slot_number(&self) -> usize {
        slot_number(self.frame, self.slot)
    }
}

impl OfSlot for CutLine {
    ghost slot_of = { of_cut };

    fn slot_number(&self) -> usize {
        slot_number(self.frame, self.slot)
    }
}

impl OfSlot for CaptureLine {
    ghost slot_of = { of_capture };

    fn slot_number(&self) -> usize {
        slot_number(self.frame, self.slot)
    }
}

/// The slots counted through the frames, 64 to a frame. So that few numbers do for any lines, slots from 63 on count as
/// one, and so do all frames from `MOST_FRAMES` on.
pub fn slot_number(frame: u32, slot: u8) -> usize
    ensures value { result ≡ number_of frame slot }
    ensures small { result ≤ 262_144 }
{
    if frame < MOST_FRAMES {
        64 * frame as usize + usize::from(slot.min(63))
    } else {
        64 * MOST_FRAMES as usize
    }
}

/// Where the lines of each slot begin in each list. There are none before the seal.
#[derive(Drop)]
pub struct Starts {
    pub losses: Vec<usize>,
    pub cuts: Vec<usize>,
    pub captures: Vec<usize>,
}

impl Starts {
    /// No starts. It takes no memory.
    pub fn new(alloc: Global) -> Starts
        ensures { AreNone result }
    {
        Starts {
            losses: Vec::new(alloc),
            cuts: Vec::new(alloc),
            captures: Vec::new(alloc),
        }
    }

    /// Leaves no starts.
    pub fn clear(&mut self)
        ensures { AreNone self.new }
    {
        self.losses.clear();
        self.cuts.clear();
        self.captures.clear();
    }
}

/// The starts of these lines.
pub fn starts_of(
    alloc: Global,
    losses: &[LoseLine],
    cuts: &[CutLine],
    captures: &[CaptureLine],
) -> Result<Starts, Memory>
    requires losses { Ascends by_loss losses.now }
    requires cuts { Ascends by_cut cuts.now }
    requires captures { Ascends by_capture captures.now }
    ensures losses { IfOk result (λ starts. AreStarts of_loss losses.now starts.losses.items) }
    ensures cuts { IfOk result (λ starts. AreStarts of_cut cuts.now starts.cuts.items) }
    ensures captures { IfOk result (λ starts. AreStarts of_capture captures.now starts.captures.items) }
{
    Ok(Starts {
        losses: slot_starts(alloc, losses)?,
        cuts: slot_starts(alloc, cuts)?,
        captures: slot_starts(alloc, captures)?,
    })
}

// Where the lines of each slot begin, from slot 0 to the one after the last that has a line; none where there are no lines.
fn slot_starts<L: OfSlot>(alloc: Global, lines: &[L]) -> Result<Vec<usize>, Memory>
    requires { AllPairs (λ a b. L.slot_of a ≤ L.slot_of b) lines.now }
    ensures { IfOk result (λ starts. AreStarts L.slot_of lines.now starts.items) }
{
    let count = match lines.last() {
        Some(last) => last.slot_number() + 2,
        None => 0,
    };
    let mut starts = Vec::with_capacity(alloc, count)?;
    let mut start = 0;
    for slot in 0..count {
        start = first_from(lines, start, slot);
        starts.push(start)?;
    }
    Ok(starts)
}

// Where the lines of that slot or a later one begin, none of which is before `start`.
fn first_from<L: OfSlot>(lines: &[L], start: usize, slot: usize) -> usize
    requires ascends { AllPairs (λ a b. L.slot_of a ≤ L.slot_of b) lines.now }
    requires within { start ≤ length lines.now }
    requires before { AllWithin (λ l. L.slot_of l < slot) lines.now 0 start }
    ensures within { result ≤ length lines.now }
    ensures parted { IsPartitionPoint (λ l. L.slot_of l < slot) (λ l. slot ≤ L.slot_of l) lines.now result }
{
    let mut place = start;
    while place < lines.len() && lines[place].slot_number() < slot {
        place += 1;
    }
    place
}

/// The part of the lines with those of the slots from `first` to `last`: no others where the starts reach so far, and all
/// lines where there are no starts.
pub fn of_slots<'a, L: OfSlot>(
    lines: &'a [L],
    starts: &[usize],
    first: usize,
    last: usize,
) -> &'a [L]
    requires starts { AreStarts L.slot_of lines.now starts.now }
    requires order { first ≤ last }
    requires small { last ≤ 262_144 }
    ensures { HoldsSlots L.slot_of lines.now result.now first last }
{
    let begin = begin_of(lines, starts, first);
    let end = end_of(lines, starts, last);
    &lines[begin..end]
}

// A place before which all lines are of slots before this one.
fn begin_of<L: OfSlot>(lines: &[L], starts: &[usize], slot: usize) -> usize
    requires { AreStarts L.slot_of lines.now starts.now }
    ensures within { result ≤ length lines.now }
    ensures before { AllWithin (λ l. L.slot_of l < slot) lines.now 0 result }
{
    if slot < starts.len() {
        return starts[slot];
    }
    match starts.last() {
        Some(start) => *start,
        None => 0,
    }
}

// A place from which on all lines are of slots after this one.
fn end_of<L: OfSlot>(lines: &[L], starts: &[usize], slot: usize) -> usize
    requires starts { AreStarts L.slot_of lines.now starts.now }
    requires small { slot ≤ 262_144 }
    ensures within { result ≤ length lines.now }
    ensures after { AllWithin (λ l. slot < L.slot_of l) lines.now result (length lines.now) }
{
    let next = slot + 1;
    if next < starts.len() {
        starts[next]
    } else {
        lines.len()
    }
}
