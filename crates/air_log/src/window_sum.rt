//! What the windows of a node count so far.

ghost use Rattle.std.specs.Prelude.{◌≡◌, ◌≤◌, ◌+◌, ◌%◌, ◌^◌, None, false, option_copied};
ghost use Rattle.lwb_base.specs.Profile.{IsProfile};
ghost use Rattle.air_log.specs.Charges.{charge_by_last};
ghost use Rattle.air_log.specs.WindowSums.{opened_sum, sent_sum, noted};

use bus_rules::until_last_sending;
use lwb_base::{Packet, Profile};
use std::marker::Model;

/// What the windows of a node count so far, in ticks of 1/64 µs, for what runs nodes in true time. That the sum of all windows
/// of a run is below 2^64 is a law of trails, so on the way it may wrap.
#[derive(Drop)]
pub(crate) struct WindowSum {
    profile: Profile,
    sends: u8,
    earlier: u64,
    last: u64,
    by_alarm: bool,
    sent: u8,
}

impl Model for WindowSum {
    ghost use Rattle.std.specs.Prelude.{◌≤◌, ◌^◌};
    ghost use Rattle.air_log.specs.WindowSums.{WindowSum as WindowSumOf};

    ghost Value = { WindowSumOf };

    ghost view = { λ w. record { profile = w.profile; sends = w.sends; earlier = w.earlier; last = w.last; by_alarm = w.by_alarm; sent = w.sent } };

    ghost invariant = { λ w. w.last ≤ 2 ^ 28 };
}

impl WindowSum {
    /// Of no windows. In one flood a node sends at most n times.
    pub fn new(profile: &Profile, n: u8) -> WindowSum
        ensures { result ≡ record { profile = profile.now; sends = n; earlier = 0; last = 0; by_alarm = false; sent = 0 } }
    {
        WindowSum {
            profile: *profile,
            sends: n,
            earlier: 0,
            last: 0,
            by_alarm: false,
            sent: 0,
        }
    }

    /// After an event that found a window open or not, and left one open or not. With it the transmission of this packet ended.
    pub fn note(&mut self, before: bool, after: bool, by_alarm: bool, sent: Option<&Packet>)
        ensures after { self.new ≡ noted before after by_alarm (option_copied sent.entry) self.old }
        ensures small { self.new.last ≤ 2 ^ 28 }
    {
        let total = self.earlier.wrapping_add(self.last);
        if !after {
            return;
        }
        if !before {
            self.open(total, by_alarm);
        }
        if let Some(packet) = sent {
            self.send(packet);
        }
    }

    /// As 64 bits have it.
    pub fn total(&self) -> u64
        ensures { result ≡ (self.now.earlier + self.now.last) % 2 ^ 64 }
    {
        self.earlier.wrapping_add(self.last)
    }

    // A window opens, and all before it count this.
    fn open(&mut self, total: u64, by_alarm: bool)
        ensures after { self.new ≡ record (opened_sum by_alarm self.old) { earlier = total } }
        ensures small { self.new.last ≤ 2 ^ 28 }
    {
        self.earlier = total;
        self.by_alarm = by_alarm;
        self.sent = 0;
        self.last = if by_alarm { self.profile.close() } else { 0 };
    }

    // A window in which a node sends as often as it may is over with its last transmission.
    fn send(&mut self, packet: &Packet)
        ensures after { self.new ≡ sent_sum packet.now self.old }
        ensures small { self.new.last ≤ 2 ^ 28 }
    {
        self.sent = self.sent.saturating_add(1).min(5);
        if !self.by_alarm {
            self.last = 0;
        } else if self.sent == self.sends {
            self.last = until_last_sending(&self.profile, packet.counter(), packet.length());
        } else {
            self.last = self.profile.close();
        }
    }
}
