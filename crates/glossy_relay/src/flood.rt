//! One flood at one node: what it relays, keeps and ignores.

ghost use Rattle.std.specs.Prelude.{◌≡◌, ◌≤◌, ◌&&◌, IfSome, None, is_some, slice_index, true, if◌then◌else◌};
ghost use Rattle.std.specs.Option.{option_copied};
ghost use Rattle.std.specs.Str.{bytes_eq};
ghost use Rattle.lwb_packets.specs.Body.{body};
ghost use Rattle.glossy_relay.specs.Relaying.{carries, is_packet, is_spelling as spells};

use lwb_base::{LAST_STEP, Packet};
use lwb_packets::{Kind, decode_payload, decode_request, kind_of, same_body, with_counter};
use schedule_codec::read;
use std::marker::Model;

/// What is to be done with a received packet.
#[derive(Drop)]
pub enum Reply {
    /// It fits, and this packet is to be sent on.
    Relay(Packet),
    /// It fits, and has the greatest counter.
    Keep,
    /// It does not fit, and nothing changed.
    Ignore,
}

/// What follows the end of a transmission.
#[derive(Clone, Copy, Debug, PartialEq, Eq)]
pub enum After {
    /// The radio listens again.
    More,
    /// The radio goes off for the rest of the slot: this was the last transmission.
    Off,
}

/// One flood at one node. A packet fits where the flood has sent fewer than n times, waits for no ordered transmission, and the
/// packet is a spelling of its kind in its slot and of the body that it carries, if it carries one.
#[derive(Drop)]
pub struct Flood {
    kind: Kind,
    slot: u8,
    limit: u8,
    sent: u8,
    waiting: bool,
    initiated: bool,
    first: Option<Packet>,
}

impl Model for Flood {
    ghost use Rattle.std.specs.Prelude.{◌≤◌, ◌<◌, ◌≡◌, true, IfSome};
    ghost use Rattle.glossy_relay.specs.FloodState.{FloodState};
    ghost use Rattle.glossy_relay.specs.Relaying.{is_spelling};

    ghost Value = { FloodState };

    ghost view = { λ s. record {
      kind = s.kind;
      slot = s.slot;
      limit = s.limit;
      sent = s.sent;
      waiting = s.waiting;
      initiated = s.initiated;
      first = s.first;
    } };

    ghost invariant = { λ s. (s.limit ≤ 4) × (s.sent ≤ s.limit) × (s.waiting ≡ true → s.sent < s.limit)
        × IfSome s.first (λ p. is_spelling s.kind p ≡ true) };
}

impl Flood {
    ghost use Rattle.glossy_relay.specs.FloodState.{listening, initiating};
    ghost use Rattle.glossy_relay.specs.Relaying.{reply_to, after_heard, after_sent, after_ending, accepted_of};

    /// A flood that begins here with this packet, whose transmission is ordered. It sends at most n times.
    pub fn initiate(packet: &Packet, n: u8) -> Flood
        requires spelled { is_packet packet.now ≡ true }
        requires counter { slice_index packet.now 2 ≡ 0 }
        requires sends { (1 ≤ n) × (n ≤ 4) }
        ensures { result ≡ initiating packet.now n }
    {
        Flood {
            kind: kind_of(packet).unwrap(),
            slot: packet.slot(),
            limit: n,
            sent: 0,
            waiting: true,
            initiated: true,
            first: Some(packet.copy()),
        }
    }

    /// A flood that listens for packets of one kind in one slot. It sends at most n times.
    pub fn listen(kind: Kind, slot: u8, n: u8) -> Flood
        requires { (1 ≤ n) × (n ≤ 4) }
        ensures { result ≡ listening kind slot n }
    {
        Flood {
            kind,
            slot,
            limit: n,
            sent: 0,
            waiting: false,
            initiated: false,
            first: None,
        }
    }

    /// Whether a transmission is ordered that has not ended.
    pub fn waits(&self) -> bool
        ensures { result ≡ self.now.waiting }
    {
        self.waiting
    }

    /// Whether it began here.
    pub fn initiated(&self) -> bool
        ensures { result ≡ self.now.initiated }
    {
        self.initiated
    }

    /// Returns `Ignore` if and only if the packet does not fit; `Relay`, with the counter plus 1, where it fits and its counter
    /// is below `LAST_STEP`; `Keep` where it fits and its counter is that.
    #[inline(always)]
    pub fn heard(&mut self, p: &Packet) -> Reply
        ensures reply { result ≡ reply_to self.old p.now }
        ensures state { self.new ≡ after_heard self.old p.now }
    {
        if self.sent >= self.limit
            || self.waiting
            || p.slot() != self.slot
            || !takes(self.kind, &self.first, p)
        {
            return Reply::Ignore;
        }
        let counter = p.counter();
        if self.first.is_none() {
            self.first = Some(p.copy());
        }
        if counter >= LAST_STEP {
            return Reply::Keep;
        }
        self.waiting = true;
        Reply::Relay(with_counter(p, counter + 1))
    }

    /// The ordered transmission ended. Returns `Off` at the n-th, and only then.
    pub fn sent(&mut self) -> After
        requires { self.old.waiting ≡ true }
        ensures state { self.new ≡ after_sent self.old }
        ensures off { result ≡ after_ending self.old }
    {
        self.sent += 1;
        self.waiting = false;
        if self.sent == self.limit {
            After::Off
        } else {
            After::More
        }
    }

    /// Whether a listener received a packet that fitted. `false` where the flood began here.
    pub fn has_accepted(&self) -> bool
        ensures { result ≡ is_some (accepted_of self.now) }
    {
        !self.initiated && self.first.is_some()
    }

    /// A listener's first packet that fitted. Returns `None` if and only if none did or the flood began here.
    pub fn first_accepted(&self) -> Option<&Packet>
        ensures { option_copied result ≡ (if self.now.initiated then None else self.now.first) }
    {
        if self.initiated {
            None
        } else {
            self.first.as_ref()
        }
    }

    /// A listener's first packet that fitted, and its counter. Returns `None` if and only if none did or the flood began here.
    pub fn accepted(&self) -> Option<(Packet, u8)>
        ensures { result ≡ accepted_of self.now }
    {
        let p = self.first_accepted()?;
        Some((p.copy(), p.counter()))
    }
}

// Whether the packet is a spelling of the flood's kind, and of the body that it carries, if it carries one.
fn takes(kind: Kind, first: &Option<Packet>, p: &Packet) -> bool
    requires { IfSome first.now (λ q. spells kind q ≡ true) }
    ensures { result ≡ (spells kind p.now && carries first.now p.now) }
{
    match first {
        Some(first) => spells_body_of(kind, first, p),
        None => is_spelling(kind, p),
    }
}

// A spelling stays one with any counter up to `LAST_STEP`, so no packet of a known body is decoded again.
fn spells_body_of(kind: Kind, first: &Packet, p: &Packet) -> bool
    requires { spells kind first.now ≡ true }
    ensures { result ≡ (spells kind p.now && bytes_eq (body first.now) (body p.now)) }
{
    p.counter() <= LAST_STEP && same_body(first, p)
}

fn is_spelling(kind: Kind, p: &Packet) -> bool
    ensures { result ≡ spells kind p.now }
{
    match kind {
        Kind::Schedule => read(p).is_some(),
        Kind::Payload => decode_payload(p).is_some(),
        Kind::Request => decode_request(p).is_some(),
    }
}
