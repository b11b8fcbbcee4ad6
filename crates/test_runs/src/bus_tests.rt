//! What is delivered and dropped over any clocks is what the bus delivers and drops.

use crate::runs::{all_have_lines, bus_lines};
use scenario_text::Scenario;
use std::alloc::{AllocError, Global};
use std::fmt::Write;
use std::test::Fail;
use test_texts::{
    FAILOVER, OF_NODE_2, ONE_HOST, THREE_NODES, TWO_HOSTS, TWO_NODES, TWO_ON, scenario,
};

// One packet of node 2, with so many frames, and lines at the end.
fn one_packet(alloc: Global, frames: &str, last: &str) -> Result<Scenario, Fail> {
    scenario(
        alloc,
        &[TWO_NODES, ONE_HOST, frames, TWO_ON, OF_NODE_2, last],
    )
}

// Whether that is delivered on the bus and over all kinds of clocks.
fn all_deliver(alloc: Global, s: &Scenario, lines: &str) -> bool {
    match bus_lines(alloc, s) {
        Some(by_bus) => by_bus.as_str() == lines && all_have_lines(alloc, s, lines),
        None => false,
    }
}

// Whether it is of one packet.
fn delivers(alloc: Global, frames: &str, last: &str, lines: &str) -> Result<bool, Fail> {
    let s = one_packet(alloc, frames, last)?;
    Ok(all_deliver(alloc, &s, lines))
}

#[test]
fn worked_faults(rt: HostRuntime) -> Result<(), Fail> {
    let alloc = rt.alloc();
    let late = "deliver 14 0 1 1 2 1 0 0 aa\n";
    assert!(rt; delivers(alloc, "frames 16\n", "off 5 1\non 5 1\n", late)?);
    assert!(rt; delivers(alloc, "frames 12\n", "cut 9 1 0 2\n", "")?);
    Ok(())
}

// Whether all kinds of clocks deliver and drop what the bus does.
fn is_as_on_bus(alloc: Global, s: &Scenario) -> bool {
    match bus_lines(alloc, s) {
        Some(lines) => all_have_lines(alloc, s, lines.as_str()),
        None => false,
    }
}

// Whether they do of one packet.
fn one_packet_is(alloc: Global, frames: &str, last: &str) -> Result<bool, Fail> {
    let s = one_packet(alloc, frames, last)?;
    Ok(is_as_on_bus(alloc, &s))
}

fn with_cut(alloc: Global, slot: u8, step: u8) -> Result<bool, Fail> {
    let line = format!(in alloc; "cut 9 {slot} {step} 2\n")?;
    one_packet_is(alloc, "frames 12\n", line.as_str())
}

// The sender of the one packet is cut, in each slot of its round and each step.
#[test]
fn cuts_of_a_sender(rt: HostRuntime) -> Result<(), Fail> {
    let alloc = rt.alloc();
    for slot in 0..7u8 {
        for step in 0..12u8 {
            assert!(rt; with_cut(alloc, slot, step)?, "slot {slot}, step {step}");
        }
    }
    Ok(())
}

fn with_restart(alloc: Global, frame: u8) -> Result<bool, Fail> {
    let lines = format!(in alloc; "off {frame} 1\non {frame} 1\n")?;
    one_packet_is(alloc, "frames 20\n", lines.as_str())
}

#[test]
fn restarts_of_the_host(rt: HostRuntime) -> Result<(), Fail> {
    let alloc = rt.alloc();
    for frame in 1..13u8 {
        assert!(rt; with_restart(alloc, frame)?, "frame {frame}");
    }
    Ok(())
}

// One direction of a pair is lost in the first step of all slots of the backup host's first frame.
fn losses(alloc: Global, from: u8, to: u8) -> Result<String, AllocError> {
    let mut text = String::new(alloc);
    for slot in 0..43u8 {
        write!(text, "lose 27 {slot} 0 {from} {to}\n")?;
    }
    Ok(text)
}

fn without_direction(alloc: Global, from: u8, to: u8) -> Result<bool, Fail> {
    let lines = losses(alloc, from, to)?;
    let text = [
        THREE_NODES,
        TWO_HOSTS,
        "frames 32\n",
        FAILOVER,
        lines.as_str(),
    ];
    let s = scenario(alloc, &text)?;
    Ok(is_as_on_bus(alloc, &s))
}

const DIRECTIONS: &[(u8, u8)] = &[(1, 2), (2, 1), (1, 3), (3, 1), (2, 3), (3, 2)];

#[test]
fn lost_directions(rt: HostRuntime) -> Result<(), Fail> {
    let alloc = rt.alloc();
    for &(from, to) in DIRECTIONS {
        assert!(rt; without_direction(alloc, from, to)?, "{from} to {to}");
    }
    Ok(())
}
