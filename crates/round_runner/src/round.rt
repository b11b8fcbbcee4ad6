//! One round as a node runs it.

ghost use Rattle.std.specs.Prelude.{◌≡◌, ◌+◌, ◌≤◌};
ghost use Rattle.lwb_base.specs.declared.limits.TheConstants.{DATA_SLOTS};
ghost use Rattle.lwb_base.specs.Profile.{IsProfile};
ghost use Rattle.round_runner.specs.Rounds.{round_of, window_of_slot, last_slot_of_round, kind_of_slot};

use crate::Window;
use bus_rules::last_slot;
use lwb_base::Profile;
use lwb_packets::Kind;
use std::marker::Model;
use time_reference::Reference;

/// One round as a node goes by it: the times of its slots, and what each slot is for.
///
/// Slot 0 opens the round, one data slot for each owner follows, then the contention slots, and the last slot closes it.
#[derive(Clone, Copy, Debug, PartialEq, Eq)]
pub struct Round {
    reference: Reference,
    listen: u64,
    close: u64,
    owners: u8,
    contend: u8,
}

impl Model for Round {
    ghost use Rattle.std.specs.Prelude.{◌≤◌, ◌<◌, ◌^◌};
    ghost use Rattle.lwb_base.specs.declared.limits.TheConstants.{DATA_SLOTS};
    ghost use Rattle.round_runner.specs.Rounds.{Round as RoundOf};

    ghost Value = { RoundOf };

    ghost view = { λ r. record { times = r.reference; listen = r.listen; close = r.close; owners = r.owners; contend = r.contend } };

    ghost invariant = { λ r. (r.owners ≤ DATA_SLOTS) × (r.contend ≤ 4) × (r.listen < 2 ^ 32) × (r.close < 2 ^ 32) };

    ghost inverse = { λ r. record { reference = r.times; listen = r.listen; close = r.close; owners = r.owners; contend = r.contend } };
}

impl Round {
    /// The round whose slots begin by this reference, with at most `DATA_SLOTS` owners. `contend` is the number of contention slots
    /// that its schedule names, 1 to 4; 0 names none, and then there is one.
    pub fn new(profile: &Profile, reference: Reference, owners: u8, contend: u8) -> Round
        requires owners { owners ≤ DATA_SLOTS }
        requires contend { contend ≤ 4 }
        ensures { result ≡ round_of profile.now reference owners contend }
    {
        Round {
            reference,
            listen: profile.listen(),
            close: profile.close(),
            owners,
            contend,
        }
    }

    /// The window of a slot, which is at most the last.
    pub fn window(&self, slot: u8) -> Window
        requires { slot ≤ last_slot_of_round self.now }
        ensures { result ≡ window_of_slot self.now slot }
    {
        Window::of_slot(&self.reference, slot, self.listen, self.close)
    }

    /// The slot that closes the round, 2 to `DATA_SLOTS + 5`.
    pub fn last(&self) -> u8
        ensures value { result ≡ last_slot_of_round self.now }
        ensures range { (2 ≤ result) × (result ≤ DATA_SLOTS + 5) }
    {
        last_slot(self.owners, self.contend)
    }

    /// What a slot is for, which is at most the last.
    pub fn kind(&self, slot: u8) -> Kind
        requires { slot ≤ last_slot_of_round self.now }
        ensures { result ≡ kind_of_slot self.now slot }
    {
        if slot == 0 || slot == self.last() {
            Kind::Schedule
        } else if slot <= self.owners {
            Kind::Payload
        } else {
            Kind::Request
        }
    }
}
