//! Tests of a node's orders.

ghost use Rattle.std.specs.Prelude.{◌≡◌, IfSome};
ghost use Rattle.lwb_base.specs.Profile.{one};

use crate::{Call, follow};
use lwb_base::{Event, LocalClock, NodeId, Order, Profile, RecordingRadio};
use node_core::{Node, Place};
use std::alloc::{AllocError, Global};

// A clock that reads this.
#[derive(Drop)]
struct Reads {
    time: u32,
}

impl LocalClock for Reads {
    ghost time = { λ c. c.time };

    fn now(&self) -> u64 {
        u64::from(self.time)
    }
}

// Node 1, which hosts; each node sends at most twice in a flood.
fn host(alloc: Global) -> Option<Node>
    ensures { IfSome result (λ n. n.setup.profile ≡ one) }
{
    let id = NodeId::new(1)?;
    Node::new(alloc, &Profile::one(), id, &[id], 2).ok()
}

fn add(text: &mut String, order: &Order) -> Result<(), AllocError> {
    match order {
        Order::Listen(rank) => write!(text, "listen {} ", rank.number()),
        Order::Off => write!(text, "off "),
        Order::Alarm(time) => write!(text, "alarm {time} "),
        Order::SendAt(time, packet) => {
            write!(text, "send {time} ")?;
            for byte in packet.bytes() {
                write!(text, "{byte:02x}")?;
            }
            write!(text, " ")
        }
    }
}

// The orders that a radio was given, as text.
fn told(alloc: Global, radio: &mut RecordingRadio) -> Result<String, AllocError> {
    let mut text = String::new(alloc);
    for _ in 0..8 {
        if let Some(order) = radio.take() {
            add(&mut text, &order)?;
        }
    }
    Ok(text)
}

// Whether a radio was given these orders.
fn has_told(alloc: Global, radio: &mut RecordingRadio, want: &str) -> bool {
    match told(alloc, radio) {
        Ok(text) => text.as_str() == want,
        Err(_) => false,
    }
}

// Whether an event at this reading gives these orders.
fn gives(alloc: Global, node: &mut Node, time: u32, event: Event, want: &str) -> bool {
    let mut radio = RecordingRadio::new();
    node.step(&Reads { time }, &mut radio, event);
    has_told(alloc, &mut radio, want)
}

// Whether an alarm at this reading does.
fn alarm_gives(alloc: Global, node: &mut Node, time: u32, want: &str) -> bool {
    gives(alloc, node, time, Event::Alarm, want)
}

fn boots(alloc: Global, node: &mut Node) -> bool {
    let opens = "listen 0 send 1344064000 01000000010000000000 alarm 1346096000 ";
    gives(alloc, node, 0, Event::Boot, "listen 0 alarm 204800000 ")
        && alarm_gives(alloc, node, 204_800_000, "listen 0 alarm 460800000 ")
        && alarm_gives(alloc, node, 460_800_000, "listen 0 alarm 716800000 ")
        && alarm_gives(alloc, node, 716_800_000, "listen 0 alarm 972800000 ")
        && alarm_gives(alloc, node, 972_800_000, "listen 0 alarm 1228800000 ")
        && alarm_gives(alloc, node, 1_228_800_000, "off alarm 1344000000 ")
        && alarm_gives(alloc, node, 1_344_000_000, opens)
}

fn host_boots(alloc: Global) -> Option<bool> {
    let mut one = host(alloc)?;
    Some(boots(alloc, &mut one))
}

// A host boots, and opens its first round in frame 5.
#[test]
fn orders_of_a_booting_host(rt: HostRuntime) {
    assert!(rt; host_boots(rt.alloc()) == Some(true));
}

// Whether a node is followed through a whole list of calls, of which one tells of a transmission where there is none.
fn is_followed(alloc: Global) -> Option<bool> {
    let mut one = host(alloc)?;
    let mut radio = RecordingRadio::new();
    follow(
        &mut one,
        &[Call::Step(0, Event::Boot), Call::Step(1, Event::Sent)],
        &mut radio,
    );
    let is_scanning = one.place() == Place::Scanning;
    Some(is_scanning && has_told(alloc, &mut radio, "listen 0 alarm 204800000 "))
}

#[test]
fn calls_are_followed(rt: HostRuntime) {
    assert!(rt; is_followed(rt.alloc()) == Some(true));
}
