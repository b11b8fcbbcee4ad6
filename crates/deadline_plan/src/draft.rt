//! What the lines of a plan's text say so far.

ghost use Rattle.std.specs.Prelude.{◌≡◌, OnOk, IfSome, is_some};
ghost use Rattle.lwb_base.specs.Messages.{code};
ghost use Rattle.text_readers.specs.Faults.{Refuses};
ghost use Rattle.deadline_plan.specs.Jobs.{IsDeadlineStream};
ghost use Rattle.deadline_plan.specs.DeadlineText.{empty_plan_draft, deadline_rule_fault, with_deadline_line, plan_after_words};
ghost use Rattle.lwb_packets.specs.Ranges.{between as between_of};
ghost use Rattle.deadline_plan.specs.DeadlineText.{plan_of_parts, are_in_range as are_in_range_of};
ghost use Rattle.deadline_plan.specs.declared.line.DeadlineLine.TheVariants.{Slots, Frames, Stream};

use crate::admission::has_owner;
use crate::line::DeadlineLine;
use crate::{DeadlineStream, DeadlineText};
use lwb_base::{DATA_SLOTS, GREATEST_ID, NodeId, Owner};
use std::alloc::Global;
use std::marker::Model;
use text_readers::{Draft, FaultKind, Refusal};

/// What the lines of a text say so far.
#[derive(Drop)]
pub struct DeadlineDraft {
    slots: Option<u8>,
    frames: Option<u32>,
    streams: Vec<DeadlineStream>,
}

impl Model for DeadlineDraft {
    ghost use Rattle.deadline_plan.specs.DeadlineText.{DraftedPlan, IsPlanDraft};

    ghost Value = { DraftedPlan };

    ghost view = { λ d. record { slots = d.slots; frames = d.frames; streams = d.streams.items } };

    ghost invariant = { λ d. IsPlanDraft (record { slots = d.slots; frames = d.frames; streams = d.streams.items }) };
}

impl Draft for DeadlineDraft {
    ghost after = { plan_after_words };

    #[tactic(auto, unfolding(crate::specs::DeadlineText::plan_after_words))]
    fn read(&mut self, words: &[&[u8]]) -> Result<(), Refusal> {
        let line = DeadlineLine::new(words)?;
        self.add(line)
    }
}

impl DeadlineDraft {
    /// A draft of no lines. It takes no memory.
    pub fn new(alloc: Global) -> DeadlineDraft
        ensures { result ≡ empty_plan_draft }
    {
        DeadlineDraft {
            slots: None,
            frames: None,
            streams: Vec::new(alloc),
        }
    }

    fn add(&mut self, line: DeadlineLine) -> Result<(), Refusal>
        ensures fault { Refuses result (deadline_rule_fault self.old line) }
        ensures added { OnOk result (self.new ≡ with_deadline_line self.old line) }
    {
        match line {
            DeadlineLine::Slots { count } => self.add_slots(count),
            DeadlineLine::Frames { count } => self.add_frames(count),
            DeadlineLine::Stream {
                node,
                stream,
                start,
                period,
                deadline,
            } => self.add_stream(node, stream, start, period, deadline),
        }
    }

    fn add_slots(&mut self, count: u64) -> Result<(), Refusal>
        ensures fault { Refuses result (deadline_rule_fault self.old (Slots count)) }
        ensures added { OnOk result (self.new ≡ with_deadline_line self.old (Slots count)) }
    {
        if !between(1, u64::from(DATA_SLOTS), count) {
            return Err(Refusal::Fault(FaultKind::Range));
        }
        if self.slots.is_some() {
            return Err(Refusal::Fault(FaultKind::Twice));
        }
        self.slots = Some(count as u8);
        Ok(())
    }

    fn add_frames(&mut self, count: u64) -> Result<(), Refusal>
        ensures fault { Refuses result (deadline_rule_fault self.old (Frames count)) }
        ensures added { OnOk result (self.new ≡ with_deadline_line self.old (Frames count)) }
    {
        if !between(1, 1_024, count) {
            return Err(Refusal::Fault(FaultKind::Range));
        }
        if self.frames.is_some() {
            return Err(Refusal::Fault(FaultKind::Twice));
        }
        self.frames = Some(count as u32);
        Ok(())
    }

    fn add_stream(
        &mut self,
        node: u64,
        stream: u64,
        start: u64,
        period: u64,
        deadline: u64,
    ) -> Result<(), Refusal>
        ensures fault { Refuses result (deadline_rule_fault self.old (Stream node stream start period deadline)) }
        ensures added { OnOk result (self.new ≡ with_deadline_line self.old (Stream node stream start period deadline)) }
    {
        let Some(line) = stream_in_range(node, stream, start, period, deadline) else {
            return Err(Refusal::Fault(FaultKind::Range));
        };
        if has_owner(&self.streams, line.owner) {
            return Err(Refusal::Fault(FaultKind::Twice));
        }
        if self.streams.len() >= 32 {
            return Err(Refusal::Fault(FaultKind::TooMany));
        }
        self.streams.push(line)?;
        Ok(())
    }

    /// What the text says. Returns `None` if and only if slots, frames or a stream is missing.
    pub fn finish(self) -> Option<DeadlineText>
        ensures { result ≡ plan_of_parts self.slots self.frames self.streams }
    {
        let DeadlineDraft {
            slots,
            frames,
            streams,
        } = self;
        let (Some(slots), Some(frames)) = (slots, frames) else {
            return None;
        };
        if streams.is_empty() {
            return None;
        }
        Some(DeadlineText::of_parts(slots, frames, streams))
    }
}

fn between(low: u64, high: u64, n: u64) -> bool
    ensures { result ≡ between_of low high n }
{
    low <= n && n <= high
}

// The stream of these numbers, if they are in range.
fn stream_in_range(
    node: u64,
    stream: u64,
    start: u64,
    period: u64,
    deadline: u64,
) -> Option<DeadlineStream>
    ensures some { IfSome result (λ s. s ≡ record { owner = code node stream; start = start; period = period; deadline = deadline }) }
    ensures range { is_some result ≡ are_in_range_of node stream start period deadline }
    ensures sound { IfSome result IsDeadlineStream }
{
    if !are_in_range(node, stream, start, period, deadline) {
        return None;
    }
    let id = NodeId::new(node as u8)?;
    Some(DeadlineStream {
        owner: Owner::new(id, stream as u8),
        start: start as u32,
        period: period as u8,
        deadline: deadline as u8,
    })
}

fn are_in_range(node: u64, stream: u64, start: u64, period: u64, deadline: u64) -> bool
    ensures { result ≡ are_in_range_of node stream start period deadline }
{
    between(1, u64::from(GREATEST_ID), node)
        && (stream <= 3 && (start <= 1_023 && (between(1, 64, period) && between(1, 64, deadline))))
}
