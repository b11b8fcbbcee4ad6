//! Admission of streams to a plan with deadlines.

ghost use Rattle.std.specs.Prelude.{◌≡◌, ◌≤◌, [], IfOk};
ghost use Rattle.std.specs.List.{list_any};
ghost use Rattle.lwb_base.specs.declared.limits.TheConstants.{DATA_SLOTS};
ghost use Rattle.deadline_plan.specs.Admission.{PlanOfDeadlines, has_stream_of, after_admit, IsAdmission, rounds_of, grants_of, with_last};
ghost use Rattle.deadline_plan.specs.Grants.{AreGrantedInTime};
ghost use Rattle.deadline_plan.specs.Jobs.{IsDeadlineStream, jobs};

use crate::DeadlineStream;
use crate::grants::{queue, rounds};
use crate::load::first_over;
use arrayvec::ArrayVec;
use lwb_base::{Memory, Owner};
use schedule_codec::Owners;
use std::alloc::Global;
use std::marker::Model;

/// What became of a stream that asked for admission.
#[derive(Clone, Copy, Debug, PartialEq, Eq)]
pub enum Admit {
    /// It is admitted.
    Yes,
    /// Its owner is admitted already.
    Twice,
    /// 32 streams are admitted already.
    Full,
    /// With it more jobs would be released in frame `from` or later, and end by frame `until`, than there are slots in
    /// the frames between: `demand` of them. Of all such pairs this is the one with the least `until`, and of these with
    /// the greatest `from`.
    Over { from: u32, until: u32, demand: u32 },
}

/// A plan of `frames` frames with `slots` slots each, and the streams that were admitted. Each job of these has a slot in time.
/// Contracts see the numbers and the streams in the order of their admission.
#[derive(Drop)]
pub struct Deadlines {
    slots: u8,
    frames: u32,
    streams: ArrayVec<DeadlineStream, 32>,
}

impl Model for Deadlines {
    ghost use Rattle.deadline_plan.specs.Admission.{PlanOfDeadlines, IsDeadlinePlan};

    ghost Value = { PlanOfDeadlines };

    ghost view = { λ d. record { slots = d.slots; frames = d.frames; streams = d.streams.items } };

    ghost invariant = { λ d. IsDeadlinePlan (record { slots = d.slots; frames = d.frames; streams = d.streams.items }) };
}

impl Deadlines {
    /// A plan of 1 to 1,024 frames with 1 to `DATA_SLOTS` slots each, and no stream.
    pub fn new(slots: u8, frames: u32) -> Deadlines
        requires slots { (1 ≤ slots) × (slots ≤ DATA_SLOTS) }
        requires frames { (1 ≤ frames) × (frames ≤ 1024) }
        ensures { result ≡ record { slots = slots; frames = frames; streams = [] } }
    {
        Deadlines {
            slots,
            frames,
            streams: ArrayVec::new(),
        }
    }

    /// Admits the stream, unless its owner or 32 streams are admitted already, or a job would go without a slot. Nothing
    /// changes but by `Yes`, nor after `Memory`.
    pub fn admit(&mut self, alloc: Global, s: &DeadlineStream) -> Result<Admit, Memory>
        requires { IsDeadlineStream s.now }
        ensures answer { IfOk result (IsAdmission self.old s.now) }
        ensures plan { self.new ≡ after_admit self.old s.now result }
    {
        if has_owner(self.streams.as_slice(), s.owner) {
            return Ok(Admit::Twice);
        }
        if self.streams.is_full() {
            return Ok(Admit::Full);
        }
        let all = with_stream(alloc, self.streams.as_slice(), s)?;
        if let Some(over) = first_over(alloc, &all, self.slots, self.frames)? {
            return Ok(Admit::Over {
                from: over.from,
                until: over.until,
                demand: over.demand,
            });
        }
        self.streams.push(*s);
        Ok(Admit::Yes)
    }

    /// The owners of the slots of each frame, by earliest deadline first: of the jobs that are released and wait, as many
    /// as there are slots, by end, then owner, then release. Each job of an admitted stream has one slot, in a frame from
    /// its release to its end - 1.
    pub fn rounds(&self, alloc: Global) -> Result<Vec<Owners>, Memory>
        ensures rounds { IfOk result (λ v. v.items ≡ rounds_of self.now) }
        ensures kept { AreGrantedInTime (jobs self.now.frames self.now.streams) (grants_of self.now) }
    {
        let waiting = queue(alloc, self.streams.as_slice(), self.frames)?;
        rounds(alloc, waiting, self.slots, self.frames)
    }
}

pub(crate) fn has_owner(streams: &[DeadlineStream], owner: Owner) -> bool
    ensures { result ≡ has_stream_of streams.now owner }
{
    streams.iter().any(|s| s.owner == owner)
}

// The streams, and that one after them.
fn with_stream(
    alloc: Global,
    streams: &[DeadlineStream],
    s: &DeadlineStream,
) -> Result<Vec<DeadlineStream>, Memory>
    ensures { IfOk result (λ v. v.items ≡ with_last streams.now s.now) }
{
    let mut all = Vec::from_slice(alloc, streams)?;
    all.push(*s)?;
    Ok(all)
}
