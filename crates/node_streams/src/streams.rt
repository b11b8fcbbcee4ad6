//! The four streams of a node.

ghost use Rattle.std.specs.Prelude.{◌≡◌, ◌≤◌, ◌==◌, true, IfOk, IfSome, if◌then◌else◌, fold, map, length, replicate, option_map};
ghost use Rattle.std.specs.List.{list_all};
ghost use Rattle.bus_rules.specs.Streams as rule;
ghost use Rattle.bus_rules.specs.States.{IsStreamAct};
ghost use Rattle.schedule_codec.specs.AckLists.{ask_in_range};
ghost use Rattle.node_streams.specs.declared.stream.Put.TheVariants.{Queued, Dropped};

use crate::stream::{Put, Stream, Waiting};
use bus_rules::Act;
use lwb_base::{Memory, NodeId, Owner, Payload, Rank};
use schedule_codec::{Ack, Acks, Owners, Schedule};
use std::alloc::Global;
use std::marker::Model;

// The most tries that are counted.
const TRIES: u8 = 4;

/// The four streams of a node, 0 to 3, with what it keeps for contention and of the host that it last received.
#[derive(Drop)]
pub struct Streams {
    streams: [Stream; 4],
    tries: u8,
    skips: u8,
    host: Option<(Rank, u8)>,
}

impl Model for Streams {
    ghost use Rattle.std.specs.Prelude.{◌≤◌};
    ghost use Rattle.bus_rules.specs.Streams.{Streams as StreamsOf};

    ghost Value = { StreamsOf };

    ghost view = { λ s. record { all = s.streams; tries = s.tries; skips = s.skips; host = s.host } };

    ghost invariant = { λ s. s.tries ≤ 4 };
}

impl Streams {
    /// The streams of a booted node. `Memory` where there is none for their queues.
    pub fn new(alloc: Global) -> Result<Streams, Memory>
        ensures { IfOk result (λ s. s ≡ rule.cleared) }
    {
        Ok(Streams {
            streams: [
                Stream::new(alloc)?,
                Stream::new(alloc)?,
                Stream::new(alloc)?,
                Stream::new(alloc)?,
            ],
            tries: 0,
            skips: 0,
            host: None,
        })
    }

    /// The node boots again.
    pub fn clear(&mut self)
        ensures { self.new ≡ rule.cleared }
    {
        clear_each(&mut self.streams);
        self.tries = 0;
        self.skips = 0;
        self.host = None;
    }

    /// Sets the interval that a stream, 0 to 3, requests: 1 to 120 seconds.
    pub fn declare(&mut self, stream: u8, interval: u8)
        requires stream { stream ≤ 3 }
        requires interval { (1 ≤ interval) × (interval ≤ 120) }
        ensures { self.new ≡ rule.declared stream interval self.old }
    {
        self.streams[usize::from(stream)].set_wish(interval);
    }

    /// The stream requests nothing more, and what waits in it is gone.
    pub fn leave(&mut self, stream: u8)
        requires { stream ≤ 3 }
        ensures { self.new ≡ rule.streams_after_leaving stream self.old }
    {
        self.streams[usize::from(stream)].leave();
    }

    /// Puts a packet at the end of the stream's queue. Returns `Dropped`, and nothing changes, if and only if the stream requests
    /// nothing, 16 packets wait in it, or its 65,535 numbers are used.
    pub fn put(&mut self, stream: u8, payload: &Payload) -> Put
        requires { stream ≤ 3 }
        ensures answer { result ≡ (if rule.drops self.old stream then Dropped else Queued (rule.stream_at self.old stream).next) }
        ensures after { self.new ≡ rule.after_put stream payload.now self.old }
    {
        self.streams[usize::from(stream)].put(payload)
    }

    /// Does what an act asks of a stream, if it is for one. Returns `true` if and only if it puts a packet that its stream drops.
    pub fn tell(&mut self, act: &Act) -> bool
        requires { IsStreamAct act.now }
        ensures after { self.new ≡ rule.streams_after_act act.now self.old }
        ensures dropped { result ≡ rule.drops_by act.now self.old }
    {
        match act {
            Act::On | Act::Off => {}
            Act::Declare(stream, interval) => self.declare(*stream, *interval),
            Act::Leave(stream) => self.leave(*stream),
            Act::Put(stream, payload) => return self.put(*stream, payload) == Put::Dropped,
        }
        false
    }

    /// Takes the packet that waits longest in a stream, 0 to 3. Returns `None` if and only if none waits.
    pub fn take(&mut self, stream: u8) -> Option<Waiting>
        requires { stream ≤ 3 }
        ensures answer { result ≡ rule.first_waiting self.old stream }
        ensures after { self.new ≡ rule.after_taking stream self.old }
    {
        self.streams[usize::from(stream)].take()
    }

    /// The interval that a stream requests, in seconds and 0 for none, where a request of it is due. Returns `None` if and only
    /// if none is.
    pub fn due_of(&self, stream: u8) -> Option<u8>
        requires { stream ≤ 3 }
        ensures value { result ≡ rule.due_of self.now stream }
        ensures range { IfSome result (λ wish. wish ≤ 120) }
    {
        let stream = &self.streams[usize::from(stream)];
        if stream.is_due() {
            Some(stream.wish())
        } else {
            None
        }
    }

    /// The least stream of which a request is due, with its requested interval. Returns `None` if and only if none is due.
    pub fn due(&self) -> Option<(u8, u8)>
        ensures least { result ≡ option_map (rule.with_wish self.now) (rule.due_stream self.now) }
        ensures range { IfSome result (λ r. (r.0 ≤ 3) × (r.1 ≤ 120)) }
    {
        for i in 0..4_u8 {
            if let Some(wish) = self.due_of(i) {
                return Some((i, wish));
            }
        }
        None
    }

    /// How often the node has contended since its host last answered, at most 4.
    pub fn tries(&self) -> u8
        ensures value { result ≡ self.now.tries }
        ensures range { result ≤ 4 }
    {
        self.tries
    }

    /// The node's own contention slot begins. Returns the request that it sends, as a stream with its requested interval.
    /// Returns `None` if and only if none is due or slots are still to be skipped; then one skip less is left.
    pub fn request_now(&mut self, node: NodeId) -> Option<(u8, u8)>
        ensures answer { result ≡ option_map (rule.with_wish self.old) (rule.requested self.old) }
        ensures range { IfSome result (λ r. (r.0 ≤ 3) × (r.1 ≤ 120)) }
        ensures after { self.new ≡ rule.after_contention node self.old }
    {
        let request = self.due()?;
        if self.skips > 0 {
            self.skips -= 1;
            return None;
        }
        self.tries = TRIES.min(self.tries + 1);
        self.skips = node.number() % (1 << self.tries);
        Some(request)
    }

    /// The node accepted a schedule in this frame, and does not host. `boot` is the node's own.
    pub fn schedule_heard(&mut self, node: NodeId, boot: u8, frame: u32, s: &Schedule)
        requires { list_all ask_in_range s.now.plan.acks ≡ true }
        ensures { self.new ≡ rule.schedule_heard node boot frame s.now self.old }
    {
        self.hear_host(s.host, s.host_boot);
        self.hear_acks(node, boot, frame, &s.acks);
        self.hear_owners(node, frame, &s.owners);
        if s.gap > 0 {
            self.forget(frame);
        }
    }

    /// The node begins to host: nothing is agreed, and contention begins anew.
    pub fn hosting(&mut self)
        ensures { self.new ≡ rule.unbound self.old }
    {
        disagree(&mut self.streams);
        self.tries = 0;
        self.skips = 0;
    }

    /// Sets the interval that is agreed with the host: 1 to 120 seconds, or 0 for nothing.
    pub fn set_agreed(&mut self, stream: u8, interval: u8)
        requires stream { stream ≤ 3 }
        requires interval { interval ≤ 120 }
        ensures { self.new ≡ rule.with_agreed stream interval self.old }
    {
        self.streams[usize::from(stream)].set_agreed(interval);
    }

    // A schedule of this host was received.
    fn hear_host(&mut self, rank: Rank, boot: u8)
        ensures { self.new ≡ rule.heard_host rank boot self.old }
    {
        if self.host != Some((rank, boot)) {
            self.hosting();
            self.host = Some((rank, boot));
        }
    }

    fn hear_ack(&mut self, node: NodeId, boot: u8, frame: u32, ack: Ack)
        requires { ack.stream ≤ 3 }
        ensures { self.new ≡ rule.acknowledged node boot frame self.old ack }
    {
        if ack.node == node && ack.boot == boot {
            self.streams[usize::from(ack.stream)].grant(ack.interval, frame);
            self.tries = 0;
            self.skips = 0;
        }
    }

    fn hear_acks(&mut self, node: NodeId, boot: u8, frame: u32, acks: &Acks)
        requires { list_all ask_in_range acks.now ≡ true }
        ensures { self.new ≡ fold (rule.acknowledged node boot frame) self.old acks.now }
    {
        for i in 0..usize::from(acks.count()) {
            let ack = acks.at(i).unwrap();
            self.hear_ack(node, boot, frame, ack);
        }
    }

    fn hear_owner(&mut self, node: NodeId, frame: u32, owner: Owner)
        ensures { self.new ≡ rule.owner_named node frame self.old owner }
    {
        if owner.node() == node {
            self.streams[usize::from(owner.stream())].name(frame);
        }
    }

    fn hear_owners(&mut self, node: NodeId, frame: u32, owners: &Owners)
        ensures { self.new ≡ fold (rule.owner_named node frame) self.old owners.now }
    {
        for i in 0..usize::from(owners.count()) {
            let owner = owners.at(i).unwrap();
            self.hear_owner(node, frame, owner);
        }
    }

    fn forget(&mut self, frame: u32)
        ensures { self.new ≡ rule.after_forgetting frame self.old }
    {
        forget_each(&mut self.streams, frame);
    }
}

fn clear_each(streams: &mut [Stream])
    ensures { streams.new ≡ replicate (length streams.old) rule.no_stream }
{
    for stream in streams.iter_mut() {
        stream.clear();
    }
}

fn disagree(streams: &mut [Stream])
    ensures { streams.new ≡ map (rule.with_granted_interval 0) streams.old }
{
    for stream in streams.iter_mut() {
        stream.set_agreed(0);
    }
}

fn forget_each(streams: &mut [Stream], frame: u32)
    ensures { streams.new ≡ map (rule.forgotten frame) streams.old }
{
    for stream in streams.iter_mut() {
        stream.forget(frame);
    }
}
