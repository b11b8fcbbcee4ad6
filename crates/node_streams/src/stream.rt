//! One stream of a node, and the packets that wait in it.

ghost use Rattle.std.specs.Prelude.{◌≡◌, ◌==◌, ◌<◌, ◌≤◌, IfOk, if◌then◌else◌, length};
ghost use Rattle.std.specs.List.{slice_get};
ghost use Rattle.bus_rules.specs.Streams as rule;
ghost use Rattle.node_streams.specs.declared.stream.Put.TheVariants.{Queued, Dropped};

use circular_buffer::HeapCircularBuffer;
use lwb_base::{Memory, Payload};
use std::alloc::Global;
use std::marker::Model;

// How many packets may wait, and how many sequence numbers there are.
const ROOM: usize = 16;

const NUMBERS: u16 = 65535;

/// A packet that waits, with its number in its stream.
#[derive(Drop)]
pub struct Waiting {
    /// 0 to 65,534.
    pub seq: u16,
    /// What it carries.
    pub payload: Payload,
}

impl Model for Waiting {
    ghost use Rattle.std.specs.Prelude.{◌≤◌};
    ghost use Rattle.bus_rules.specs.Streams.{WaitingPacket as Waits};

    ghost Value = { Waits };

    ghost view = { λ w. record { seq = w.seq; payload = w.payload } };

    ghost invariant = { λ w. w.seq ≤ 65534 };

    ghost inverse = { λ w. record { seq = w.seq; payload = w.payload } };
}

/// What became of a packet that was put into a stream.
#[derive(Clone, Copy, Debug, PartialEq, Eq)]
pub enum Put {
    /// It waits, with this number.
    Queued(u16),
    /// It is gone, and the stream is as it was.
    Dropped,
}

// One stream of a node.
#[derive(Drop)]
pub(crate) struct Stream {
    wish: u8,
    agreed: u8,
    last: u32,
    queue: HeapCircularBuffer<Waiting>,
    next: u16,
}

impl Model for Stream {
    ghost use Rattle.std.specs.Prelude.{◌≡◌, ◌≤◌, length};
    ghost use Rattle.bus_rules.specs.Streams.{Stream as StreamOf};

    ghost Value = { StreamOf };

    ghost view = { λ s. record { wish = s.wish; agreed = s.agreed; last = s.last; queue = s.queue.items; next = s.next } };

    ghost invariant = { λ s. (s.queue.capacity ≡ 16) × (s.wish ≤ 120) };
}

impl Stream {
    pub(crate) fn new(alloc: Global) -> Result<Stream, Memory>
        ensures { IfOk result (λ s. s ≡ rule.no_stream) }
    {
        let queue = HeapCircularBuffer::with_capacity(alloc, ROOM)?;
        Ok(Stream {
            wish: 0,
            agreed: 0,
            last: 0,
            queue,
            next: 0,
        })
    }

    pub(crate) fn clear(&mut self)
        ensures { self.new ≡ rule.no_stream }
    {
        self.wish = 0;
        self.agreed = 0;
        self.last = 0;
        self.queue.clear();
        self.next = 0;
    }

    pub(crate) fn wish(&self) -> u8
        ensures value { result ≡ self.now.wish }
        ensures range { result ≤ 120 }
    {
        self.wish
    }

    pub(crate) fn set_wish(&mut self, interval: u8)
        requires { interval ≤ 120 }
        ensures { self.new ≡ rule.wishes interval self.old }
    {
        self.wish = interval;
    }

    pub(crate) fn leave(&mut self)
        ensures { self.new ≡ rule.emptied self.old }
    {
        self.wish = 0;
        self.queue.clear();
    }

    pub(crate) fn put(&mut self, payload: &Payload) -> Put
        ensures answer { result ≡ (if rule.refuses self.old then Dropped else Queued self.old.next) }
        ensures after { self.new ≡ rule.put_to payload.now self.old }
    {
        if self.wish == 0 || self.queue.len() >= ROOM || self.next >= NUMBERS {
            return Put::Dropped;
        }
        let seq = self.next;
        let payload = Payload::new(payload.bytes()).unwrap();
        self.queue.push_back(Waiting { seq, payload });
        self.next += 1;
        Put::Queued(seq)
    }

    pub(crate) fn take(&mut self) -> Option<Waiting>
        ensures answer { result ≡ slice_get self.old.queue 0 }
        ensures after { self.new ≡ rule.without_first self.old }
    {
        self.queue.pop_front()
    }

    pub(crate) fn is_due(&self) -> bool
        ensures { result ≡ rule.has_due_request self.now }
    {
        self.wish != self.agreed && (self.wish == 0 || !self.queue.is_empty())
    }

    pub(crate) fn set_agreed(&mut self, interval: u8)
        ensures { self.new ≡ rule.with_granted_interval interval self.old }
    {
        self.agreed = interval;
    }

    pub(crate) fn grant(&mut self, interval: u8, frame: u32)
        ensures { self.new ≡ rule.granted_stream interval frame self.old }
    {
        self.agreed = interval;
        self.last = frame;
    }

    pub(crate) fn name(&mut self, frame: u32)
        ensures { self.new ≡ rule.named_in frame self.old }
    {
        self.last = frame;
    }

    pub(crate) fn forget(&mut self, frame: u32)
        ensures { self.new ≡ rule.forgotten frame self.old }
    {
        if self.agreed > 0 && frame.saturating_sub(self.last) > u32::from(self.agreed) + 8 {
            self.agreed = 0;
        }
    }
}
