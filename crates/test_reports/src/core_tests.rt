//! Node cores alone, driven through the receptions of a run's log: they order what the log says was sent and tuned.

ghost use Rattle.std.specs.Prelude.{◌≡◌, IfOk, OnOk};
ghost use Rattle.lwb_base.specs.Profile.{one};

use crate::calls::run_log;
use air_log::{Air, Entry, HeardEntry, SentEntry};
use lwb_base::{Event, NodeId, Order, Packet, Payload, Profile, Rank, RecordingRadio};
use node_core::Node;
use std::alloc::Global;
use std::test::Fail;
use test_texts::ONE_PACKET;
use tick_clock::{At, DriftClock, SegmentClock};

// No tick or reading of the run comes to this.
const FAR: u64 = 1 << 45;

/// A core whose clock reads the true tick, with its alarm and its transmissions: the one that is ordered, and the end of the
/// one that runs. Its radio is on at a rank since a tick, and was on at ranks from a tick on and before another.
#[derive(Drop)]
struct Driven {
    core: Node,
    clock: SegmentClock,
    alarm: Option<u64>,
    ordered: Option<(u64, Packet)>,
    sends_until: Option<u64>,
    listening: Option<(Rank, u64)>,
    tuned: Vec<(Rank, u64, u64)>,
}

// The core of a node. Node 1 hosts, and each node sends at most twice in a flood.
fn core_of(alloc: Global, id: u8) -> Result<Node, Fail>
    ensures { IfOk result (λ c. c.setup.profile ≡ one) }
{
    let host = NodeId::new(1).ok_or("id")?;
    let id = NodeId::new(id).ok_or("id")?;
    Ok(Node::new(alloc, &Profile::one(), id, &[host], 2)?)
}

// It has booted at tick 0.
fn booted(alloc: Global, id: u8) -> Result<Driven, Fail>
    ensures { IfOk result (λ d. d.core.setup.profile ≡ one) }
{
    let core = core_of(alloc, id)?;
    let clock = SegmentClock::new(alloc, 0, &[])?;
    let mut driven = Driven {
        core,
        clock,
        alarm: None,
        ordered: None,
        sends_until: None,
        listening: None,
        tuned: Vec::new(alloc),
    };
    driven.tell(0, Event::Boot)?;
    Ok(driven)
}

impl Driven {
    // The event happens at tick t, and what it orders is kept.
    fn tell(&mut self, t: u64, event: Event) -> Result<(), Fail>
        ensures { OnOk result (self.new.core.setup ≡ self.old.core.setup) }
    {
        if t > FAR || self.is_late_by(t) {
            return Err("late")?;
        }
        let mut radio = RecordingRadio::new();
        self.core.step(&At::new(&self.clock, t), &mut radio, event);
        for _ in 0..8 {
            if let Some(order) = radio.take() {
                self.obey(t, order)?;
            }
        }
        Ok(())
    }

    // An order that it gives at tick t is kept.
    fn obey(&mut self, t: u64, order: Order) -> Result<(), Fail>
        ensures { OnOk result (self.new.core.setup ≡ self.old.core.setup) }
    {
        match order {
            Order::Listen(rank) => self.turn(Some(rank), t),
            Order::Off => self.turn(None, t),
            Order::SendAt(local, packet) => {
                self.ordered = Some((self.due(local).max(t), packet));
                Ok(())
            }
            Order::Alarm(local) => {
                self.alarm = Some(self.due(local).max(t));
                Ok(())
            }
        }
    }

    // The radio goes to a rank at tick t, or off.
    fn turn(&mut self, rank: Option<Rank>, t: u64) -> Result<(), Fail>
        ensures { OnOk result (self.new.core.setup ≡ self.old.core.setup) }
    {
        if let Some((before, since)) = self.listening {
            if rank == Some(before) {
                return Ok(());
            }
            self.tuned.push((before, since, t))?;
        }
        self.listening = match rank {
            Some(rank) => Some((rank, t)),
            None => None,
        };
        Ok(())
    }

    // Whether its ordered transmission was to begin before this tick.
    fn is_late_by(&self, t: u64) -> bool {
        match &self.ordered {
            Some((tick, _)) => *tick < t,
            None => false,
        }
    }

    fn due(&self, local: u64) -> u64 {
        self.clock.due(local.min(FAR))
    }

    // Tells it of the end of its transmission and of its alarms, as far as they come before this tick.
    fn come_to(&mut self, t: u64) -> Result<(), Fail> {
        for _ in 0..1000 {
            if let Some(end) = self.sends_until
                && end < t
                && end <= self.alarm.unwrap_or(FAR)
            {
                self.sends_until = None;
                self.tell(end, Event::Sent)?;
            } else if let Some(due) = self.alarm
                && due < t
            {
                self.alarm = None;
                self.tell(due, Event::Alarm)?;
            } else {
                return Ok(());
            }
        }
        Err("more alarms than a frame can have")?
    }

    // Whether it has ordered this transmission, and it begins to send.
    fn begins(&mut self, sent: &SentEntry) -> bool {
        let ordered = self.ordered.take();
        self.sends_until = Some(sent.end);
        match ordered {
            Some((tick, packet)) => tick == sent.start && packet.bytes() == sent.packet.bytes(),
            None => false,
        }
    }

    // It receives what an entry of a log has, at the end of the reception.
    fn hears(&mut self, heard: &HeardEntry) -> Result<(), Fail> {
        self.come_to(heard.end)?;
        let packet = Packet::new(heard.packet.bytes()).ok_or("length")?;
        self.tell(heard.end, Event::Heard(packet))
    }

    // It has ordered the transmission that an entry has, and begins to send.
    fn sends(&mut self, sent: &SentEntry) -> Result<(), Fail> {
        self.come_to(sent.start.saturating_add(1))?;
        if !self.begins(sent) {
            return Err("another sending")?;
        }
        Ok(())
    }

    // Follows an entry of a log if that is of this node, and says whether it is a transmission.
    fn follows(&mut self, entry: &Entry, node: u8) -> Result<bool, Fail> {
        match entry {
            Entry::Heard(heard) if heard.node.number() == node => {
                self.hears(heard)?;
                Ok(false)
            }
            Entry::Sent(sent) if sent.node.number() == node => {
                self.sends(sent)?;
                Ok(true)
            }
            _ => Ok(false),
        }
    }

    // Nothing is that was to begin before this tick, and its radio goes off then.
    fn ends(&mut self, t: u64) -> Result<(), Fail> {
        self.come_to(t)?;
        if self.is_late_by(t) {
            return Err("late")?;
        }
        self.turn(None, t)
    }
}

// Drives a node through what it receives in a log, up to a tick, at which its radio goes off. What it orders to be sent is
// what the log has as sent, and nothing in addition; the answer says whether that is anything.
fn drive(driven: &mut Driven, air: &Air, node: u8, end: u64) -> Result<bool, Fail> {
    let mut has_sent = false;
    for i in 0..air.len() {
        if let Some(entry) = air.at(i)
            && driven.follows(entry, node)?
        {
            has_sent = true;
        }
    }
    driven.ends(end)?;
    Ok(has_sent)
}

// When the radio of a node was on, by a log.
fn tuned(alloc: Global, air: &Air, node: u8) -> Result<Vec<(Rank, u64, u64)>, Fail> {
    let mut tuned = Vec::new(alloc);
    for i in 0..air.len() {
        if let Some(Entry::Tuned(entry)) = air.at(i)
            && entry.node.number() == node
        {
            tuned.push((entry.rank, entry.start, entry.end))?;
        }
    }
    Ok(tuned)
}

// The end of the run: twelve frames of the first profile.
const END: u64 = 12 * 256_000_000;

// Whether a node that is driven through a log sends something, and is tuned when the log says.
fn orders_what_the_log_has(
    alloc: Global,
    driven: &mut Driven,
    air: &Air,
    node: u8,
) -> Result<bool, Fail> {
    let has_sent = drive(driven, air, node, END)?;
    let by_log = tuned(alloc, air, node)?;
    Ok(has_sent && driven.tuned.as_slice() == by_log.as_slice())
}

// Its stream 0 requests a slot each 4 seconds, and gets a packet.
fn give_packet(driven: &mut Driven) -> Result<(), Fail>
    requires { driven.old.core.setup.profile ≡ one }
{
    driven.core.declare(0, 4);
    driven.core.put(0, &Payload::new(&[0xaa]).ok_or("length")?);
    Ok(())
}

#[test]
fn host_orders_what_the_log_has(rt: HostRuntime) -> Result<(), Fail> {
    let alloc = rt.alloc();
    let air = run_log(alloc, ONE_PACKET)?;
    let mut host = booted(alloc, 1)?;
    assert!(rt; orders_what_the_log_has(alloc, &mut host, &air, 1)?);
    Ok(())
}

#[test]
fn sender_orders_what_the_log_has(rt: HostRuntime) -> Result<(), Fail> {
    let alloc = rt.alloc();
    let air = run_log(alloc, ONE_PACKET)?;
    let mut sender = booted(alloc, 2)?;
    give_packet(&mut sender)?;
    assert!(rt; orders_what_the_log_has(alloc, &mut sender, &air, 2)?);
    Ok(())
}
