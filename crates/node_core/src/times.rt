//! Alarms, frames and references, by a node's own clock.

ghost use Rattle.std.specs.Prelude.{◌≡◌, ◌≤◌, ◌<◌, ◌^◌, ◌+◌, ◌/◌};
ghost use Rattle.time_reference.specs.Reference.{times_of};
ghost use Rattle.node_core.specs.Nodes.{frame_alarm as alarm_of_frame, zero_from, closes_at as closing_of_slot, stopped_frame};

use lwb_base::{LAST_FRAME, Packet, Profile};
use round_runner::Window;
use time_reference::{Reference, stopped};

// The alarm at the end of a frame.
pub(crate) fn frame_alarm(profile: &Profile, frame: u32) -> u64
    ensures { result ≡ alarm_of_frame profile.now frame }
{
    stopped(u64::from(frame) * profile.frame() + profile.end())
}

// The reference by a schedule whose reception ended at this reading.
pub(crate) fn heard_reference(profile: &Profile, now: u64, schedule: &Packet) -> Reference
    requires { now < 2 ^ 46 }
    ensures { result ≡ times_of profile.now (zero_from profile.now now schedule.now) }
{
    let length = schedule.length();
    let start = now.saturating_sub(profile.airtime(length));
    Reference::from_heard(profile, start, schedule.counter(), length, schedule.slot())
}

// When the window of a slot closes.
pub(crate) fn closes_at(profile: &Profile, reference: &Reference, slot: u8) -> u64
    requires { reference.now ≡ times_of profile.now reference.now.zero }
    ensures { result ≡ closing_of_slot profile.now reference.now.zero slot }
{
    Window::of_slot(reference, slot, profile.listen(), profile.close()).until
}

// The frame at this reading: one that begins within a lead counts.
pub(crate) fn frame_at(profile: &Profile, now: u64) -> u32
    requires { now < 2 ^ 46 }
    ensures value { result ≡ stopped_frame ((now + profile.now.lead) / profile.now.frame) }
    ensures range { result ≤ LAST_FRAME }
{
    ((now + profile.lead()) / profile.frame()).min(u64::from(LAST_FRAME)) as u32
}

// The frame after this one.
pub(crate) fn next_frame(frame: u32) -> u32
    requires { frame ≤ LAST_FRAME }
    ensures value { result ≡ stopped_frame (frame + 1) }
    ensures range { result ≤ LAST_FRAME }
{
    LAST_FRAME.min(frame + 1)
}
