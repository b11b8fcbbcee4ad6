//! When the slots of a round begin, by a node's own clock.

ghost use Rattle.std.specs.Prelude.{◌≡◌, ℕ, ◌+◌, ◌*◌, ◌^◌, ◌<◌, ◌≤◌};
ghost use Rattle.lwb_base.specs.Profile.{IsProfile};
ghost use Rattle.tick_clock.specs.Clocks.{Near};
ghost use Rattle.time_reference.specs.Reference.{IsHeardWhole, heard_zero, host_zero, slot_time, stopped, times_of};

use lwb_base::Profile;
use std::marker::Model;

/// When the slots of a round begin, by a node's own clock.
///
/// Times are local ticks of 1/64 µs. Every zero and every start of a slot stops at 2^47 - 1. Contracts see the zero next to the
/// lengths of a slot and of a frame.
#[derive(Clone, Copy, Debug, PartialEq, Eq)]
pub struct Reference {
    zero: u64,
    slot: u64,
    frame: u64,
}

impl Model for Reference {
    ghost use Rattle.std.specs.Prelude.{◌^◌, ◌<◌};
    ghost use Rattle.time_reference.specs.Reference.{RoundTimes};

    ghost Value = { RoundTimes };

    ghost view = { λ r. record { zero = r.zero; slot = r.slot; frame = r.frame } };

    ghost invariant = { λ r. (r.zero < 2 ^ 47) × (r.slot < 2 ^ 32) × (r.frame < 2 ^ 32) };

    ghost inverse = { λ r. record { zero = r.zero; slot = r.slot; frame = r.frame } };
}

// The last time.
const LAST_TIME: u64 = (1 << 47) - 1;

/// This time, or 2^47 - 1 where it is later: there times stop.
pub fn stopped(time: u64) -> u64
    ensures value { result ≡ stopped time }
    ensures range { result < 2 ^ 47 }
{
    time.min(LAST_TIME)
}

impl Reference {
    /// From a schedule of a slot that was received with this counter and length. Its start is the local time at which the
    /// reception ended, less the packet's airtime. The zero is not below 0.
    ///
    /// Where the schedule was relayed `counter` times, it errs by at most 48 ticks against the clock's own reading at
    /// the initiator's start if it has at most 61 bytes, and by at most 55 if it has at most 74.
    pub fn from_heard(
        profile: &Profile,
        local_start: u64,
        counter: u8,
        length: u8,
        slot: u8,
    ) -> Reference
        requires { local_start < 2 ^ 46 }
        ensures value { result ≡ times_of profile.now (heard_zero profile.now local_start counter length slot) }
        ensures within_48 { (own : ℕ → ℕ) (origin : ℕ) → IsHeardWhole profile.now own origin local_start counter length
            slot → length ≤ 61 → Near (slot_time result slot + profile.now.listen) (own origin) 48 }
        ensures within_55 { (own : ℕ → ℕ) (origin : ℕ) → IsHeardWhole profile.now own origin local_start counter length
            slot → length ≤ 74 → Near (slot_time result slot + profile.now.listen) (own origin) 55 }
    {
        let steps = u64::from(counter) * profile.step(length);
        let slots = u64::from(slot) * profile.slot();
        Reference::beginning(
            profile,
            local_start.saturating_sub(steps + profile.listen() + slots),
        )
    }

    /// Of a host in its own round of a frame.
    pub fn of_host(profile: &Profile, frame: u32) -> Reference
        ensures { result ≡ times_of profile.now (stopped (host_zero profile.now frame)) }
    {
        let zero = u64::from(frame) * profile.frame() + profile.lead();
        Reference::beginning(profile, stopped(zero))
    }

    /// Of a node that knows of no round yet. Its slot 0 begins at 0.
    pub fn new(profile: &Profile) -> Reference
        ensures { result ≡ times_of profile.now 0 }
    {
        Reference::beginning(profile, 0)
    }

    // Of a round whose slot 0 begins at this time.
    fn beginning(profile: &Profile, zero: u64) -> Reference
        requires { zero < 2 ^ 47 }
        ensures value { result ≡ times_of profile.now zero }
        ensures made { IsProfile profile.now }
    {
        Reference {
            zero,
            slot: profile.slot(),
            frame: profile.frame(),
        }
    }

    /// The reference for a round whose slot 0 begins at this time, which is below 2^47.
    pub fn moved(&self, zero: u64) -> Reference
        requires { zero < 2 ^ 47 }
        ensures { result ≡ record self.now { zero = zero } }
    {
        Reference {
            zero,
            slot: self.slot,
            frame: self.frame,
        }
    }

    /// When slot 0 begins.
    pub fn zero(&self) -> u64
        ensures value { result ≡ self.now.zero }
        ensures range { self.now.zero < 2 ^ 47 }
    {
        self.zero
    }

    /// When a slot begins.
    pub fn slot_start(&self, slot: u8) -> u64
        ensures { result ≡ slot_time self.now slot }
    {
        stopped(self.zero + u64::from(slot) * self.slot)
    }

    /// The reference for the round that is `gap` frames later.
    pub fn next_round(&self, gap: u8) -> Reference
        ensures { result ≡ record self.now { zero = stopped (self.now.zero + gap * self.now.frame) } }
    {
        let zero = self.zero + u64::from(gap) * self.frame;
        Reference {
            zero: stopped(zero),
            slot: self.slot,
            frame: self.frame,
        }
    }
}
