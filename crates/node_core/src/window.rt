//! The window of a slot, while it is open.

ghost use Rattle.std.specs.Prelude.{◌≡◌, ◌≤◌, ◌<◌, ◌^◌, true, false, Some, None, IfSome, if◌then◌else◌, not};
ghost use Rattle.lwb_packets.specs.declared.kind.Kind as Kind;
ghost use Rattle.glossy_relay.specs.FloodState.{listening};
ghost use Rattle.glossy_relay.specs.Relaying.{after_sent, after_ending};
ghost use Rattle.lwb_member.specs.Said.{meaning, message_of};
ghost use Rattle.node_core.specs.Rows.{is_foreign as foreign, hearing, reply_by};

use crate::times::heard_reference;
use bus_rules::Part;
use glossy_relay::{After, Flood, Reply};
use lwb_base::{Packet, Profile, Rank};
use lwb_member::{Heard, message_in};
use schedule_codec::named_host;
use std::marker::Model;

// The window of a slot, while it is open.
#[derive(Drop)]
pub(crate) struct Window {
    pub(crate) part: Part,
    pub(crate) last: u8,
    pub(crate) flood: Flood,
    pub(crate) reference: Option<u64>,
}

impl Model for Window {
    ghost use Rattle.node_core.specs.Windows.{Window as WindowOf};

    ghost Value = { WindowOf };

    ghost view = { λ w. record { part = w.part; last = w.last; flood = w.flood; reference = w.reference } };

    ghost inverse = { λ w. record { part = w.part; last = w.last; flood = w.flood; reference = w.reference } };
}

impl Window {
    // A packet was received, on the channel of this rank, whose reception ended at this reading.
    pub(crate) fn hear(&mut self, profile: &Profile, rank: Rank, now: u64, p: &Packet) -> Reply
        requires { now < 2 ^ 46 }
        ensures reply { result ≡ reply_by rank self.old p.now }
        ensures after { self.new ≡ hearing profile.now rank now self.old p.now }
    {
        if is_foreign(rank, p) {
            return Reply::Ignore;
        }
        let first = self.part.is_for_schedule()
            && !self.flood.initiated()
            && !self.flood.has_accepted();
        let reply = self.flood.heard(p);
        if first && !matches!(reply, Reply::Ignore) {
            self.reference = Some(heard_reference(profile, now, p).zero());
        }
        reply
    }

    // The ordered transmission ended.
    pub(crate) fn sent(&mut self) -> After
        requires { self.old.flood.waiting ≡ true }
        ensures after { self.new ≡ record self.old { flood = after_sent self.old.flood } }
        ensures off { result ≡ after_ending self.old.flood }
    {
        self.flood.sent()
    }
}

// A schedule of another rank. Most packets name no other host, and are not read.
fn is_foreign(rank: Rank, p: &Packet) -> bool
    ensures { result ≡ foreign rank (message_of p.now) }
{
    is_another(rank, named_host(p)) && is_schedule_of_another(rank, p)
}

// Whether a host is named that is not of this rank.
fn is_another(rank: Rank, named: Option<u8>) -> bool
    ensures { result ≡ false → IfSome named (λ host. host ≡ rank) }
{
    match named {
        Some(host) => host != rank.number(),
        None => false,
    }
}

fn is_schedule_of_another(rank: Rank, p: &Packet) -> bool
    ensures { result ≡ foreign rank (message_of p.now) }
{
    match message_in(p) {
        Some(message) => is_of_another(rank, &message),
        None => false,
    }
}

fn is_of_another(rank: Rank, message: &Heard) -> bool
    ensures { result ≡ foreign rank (Some (meaning message.now)) }
{
    match message {
        Heard::Schedule(schedule) => schedule.host != rank,
        Heard::Data(_) | Heard::Request(_) => false,
    }
}
