//! What the text of a plan says.

ghost use Rattle.std.specs.Prelude.{◌≡◌, ◌≤◌, ◌<◌, length, All};
ghost use Rattle.deadline_plan.specs.Admission.{PlanOfDeadlines};
ghost use Rattle.deadline_plan.specs.DeadlineText.{IsText};
ghost use Rattle.deadline_plan.specs.Jobs.{IsDeadlineStream};

use crate::DeadlineStream;
use std::marker::Model;

/// What a text says: the slots of each frame, how many frames there are, and the streams that ask for admission.
/// Contracts see these as a plan.
#[derive(Drop)]
pub struct DeadlineText {
    slots: u8,
    frames: u32,
    streams: Vec<DeadlineStream>,
}

impl Model for DeadlineText {
    ghost use Rattle.deadline_plan.specs.Admission.{PlanOfDeadlines};
    ghost use Rattle.deadline_plan.specs.DeadlineText.{IsText};

    ghost Value = { PlanOfDeadlines };

    ghost view = { λ t. record { slots = t.slots; frames = t.frames; streams = t.streams.items } };

    ghost invariant = { λ t. IsText (record { slots = t.slots; frames = t.frames; streams = t.streams.items }) };
}

impl DeadlineText {
    pub(crate) fn of_parts(slots: u8, frames: u32, streams: Vec<DeadlineStream>) -> DeadlineText
        requires { IsText (record { slots = slots; frames = frames; streams = streams.items }) }
        ensures { result ≡ record { slots = slots; frames = frames; streams = streams.items } }
    {
        DeadlineText {
            slots,
            frames,
            streams,
        }
    }

    /// The slots of each frame, 1 to `DATA_SLOTS`.
    pub fn slots(&self) -> u8
        ensures value { result ≡ self.now.slots }
        ensures sound { IsText self.now }
    {
        self.slots
    }

    /// How many frames there are, 1 to 1,024.
    pub fn frames(&self) -> u32
        ensures value { result ≡ self.now.frames }
        ensures sound { IsText self.now }
    {
        self.frames
    }

    /// The streams, 1 to 32, in the order of the text.
    pub fn streams(&self) -> &[DeadlineStream]
        ensures value { result.now ≡ self.now.streams }
        ensures sound { IsText self.now }
    {
        &self.streams
    }
}
