//! Logs of worked scenarios are safe, and some that were changed manually are not.

use crate::moves::{Move, MovedEntry, add_all};
use crate::runs::{Speeds, log_after, trails};
use crate::safe::Clause;
use air_log::{Air, Entry, SentEntry, Trail};
use scenario_text::Scenario;
use std::alloc::{AllocError, Global};
use std::test::Fail;
use test_texts::{
    FAILOVER, LONGEST_RUN, OF_NODE_2, OF_NODE_3, ONE_HOST, ONE_PACKET, THREE_NODES, THREE_ON,
    TWO_HOSTS, TWO_NODES, TWO_ON, scenario,
};

const TWO_CONTENDERS: &[&str] = &[
    THREE_NODES,
    ONE_HOST,
    "pair 1 3\nframes 18\n",
    THREE_ON,
    OF_NODE_2,
    OF_NODE_3,
];

const RESTART: &[&str] = &[
    TWO_NODES,
    ONE_HOST,
    "frames 16\n",
    TWO_ON,
    OF_NODE_2,
    "off 6 1\non 6 1\nput 10 2 0 bb\n",
];

const TAKE_OVER: &[&str] = &[THREE_NODES, TWO_HOSTS, "frames 32\n", FAILOVER];

const COLLECTION_LINE: &[&str] = &[
    "node 1 0\nnode 2 9000\nnode 3 100\nnode 4 256000\nrate 1 0 15\nrate 2 0 -12\nrate 3 0 3\nrate 4 0 -20\n",
    ONE_HOST,
    "pair 2 3\npair 3 4\nframes 14\n",
    THREE_ON,
    "on 0 4\nstream 0 4 0 10\nput 0 4 0 aa\nput 8 4 0 bb\n",
];

/// A log, its transmissions, and the trails of all nodes over it.
#[derive(Drop)]
struct Logged {
    air: Air,
    sent: Vec<SentEntry>,
    trails: Vec<Trail>,
}

fn sendings(alloc: Global, air: &Air) -> Result<Vec<SentEntry>, AllocError> {
    let mut sent = Vec::new(alloc);
    for i in 0..air.len() {
        if let Some(Entry::Sent(x)) = air.at(i) {
            sent.push(x.copy())?;
        }
    }
    Ok(sent)
}

// The log of a run, unless memory is out.
fn log_of(alloc: Global, s: &Scenario, speeds: Speeds) -> Option<Logged> {
    let air = log_after(alloc, s, speeds)?;
    let sent = sendings(alloc, &air).ok()?;
    let trails = trails(alloc, s, &air, speeds)?;
    Some(Logged { air, sent, trails })
}

fn keeps(s: &Scenario, log: &Logged, clause: Clause) -> bool {
    clause.holds(s, &log.sent, &log.air, &log.trails)
}

fn keeps_all(s: &Scenario, log: &Logged) -> bool {
    keeps(s, log, Clause::WithinOneFrame)
        && keeps(s, log, Clause::NoOverlap)
        && keeps(s, log, Clause::SameButForCounter)
        && keeps(s, log, Clause::OneInitiator)
        && keeps(s, log, Clause::HostSchedules)
        && keeps(s, log, Clause::Silence)
}

fn is_safe_over(alloc: Global, s: &Scenario, speeds: Speeds) -> bool {
    match log_of(alloc, s, speeds) {
        Some(log) => keeps_all(s, &log),
        None => false,
    }
}

fn is_safe_over_all(alloc: Global, s: &Scenario) -> bool {
    is_safe_over(alloc, s, Speeds::AllFast)
        && is_safe_over(alloc, s, Speeds::AllSlow)
        && is_safe_over(alloc, s, Speeds::Alternating)
}

// Whether the logs of a scenario are safe over all kinds of clocks.
fn is_safe(alloc: Global, parts: &[&str]) -> Result<bool, Fail> {
    let s = scenario(alloc, parts)?;
    Ok(is_safe_over_all(alloc, &s))
}

// Scenarios whose logs are safe. The table is a constant, which a proof does not carry along.
const SAFE: &[&[&str]] = &[
    ONE_PACKET,
    TWO_CONTENDERS,
    RESTART,
    TAKE_OVER,
    LONGEST_RUN,
    COLLECTION_LINE,
];

#[test]
fn every_pair_of_sendings(rt: HostRuntime) -> Result<(), Fail> {
    let alloc = rt.alloc();
    for (case, parts) in SAFE.iter().enumerate() {
        assert!(rt; is_safe(alloc, parts)?, "case {case}");
    }
    Ok(())
}

// Ticks of a slot, and of a frame, of the first profile.
const SLOT: u64 = 2_112_000;

const FRAME: u64 = 256_000_000;

// How many transmissions of the log of a scenario are moved, and whether it still keeps a clause then.
fn moved(alloc: Global, s: &Scenario, row: &MovedEntry, clause: Clause) -> Option<(u32, bool)> {
    let log = log_of(alloc, s, Speeds::Alternating)?;
    let mut sent = Vec::new(alloc);
    let count = add_all(&mut sent, &s.profile(), &log.sent, row)?;
    Some((count, clause.holds(s, &sent, &log.air, &log.trails)))
}

// Whether one transmission of two contenders is moved, which breaks a clause.
fn breaks(alloc: Global, row: &MovedEntry, clause: Clause) -> Result<bool, Fail> {
    let s = scenario(alloc, TWO_CONTENDERS)?;
    Ok(moved(alloc, &s, row, clause) == Some((1, false)))
}

// A transmission of a node in frame 13, by the slot and counter of its packet.
fn at_13(node: u8, slot: u8, counter: u8, done: Move) -> MovedEntry {
    MovedEntry {
        frame: 13,
        slot,
        counter,
        node,
        done,
    }
}

// A transmission of two contenders by its node, slot and counter, what is done to it, and the
// clause that this breaks. In frame 13 node 2 has slots 1 to 4 and sends in the first, and node 3
// asks for a stream in slot 5.
const BROKEN: &[(u8, u8, u8, Move, Clause)] = &[
    (2, 1, 0, Move::Earlier(SLOT), Clause::NoOverlap),
    (2, 0, 1, Move::Later(SLOT), Clause::SameButForCounter),
    (1, 1, 1, Move::Byte(2, 0), Clause::OneInitiator),
    (1, 0, 0, Move::By(2), Clause::HostSchedules),
    (2, 1, 0, Move::Later(FRAME), Clause::Silence),
    (3, 5, 0, Move::Byte(1, 2), Clause::Silence),
    (2, 1, 0, Move::Longer(FRAME), Clause::WithinOneFrame),
];

#[test]
fn logs_with_one_entry_moved(rt: HostRuntime) -> Result<(), Fail> {
    let alloc = rt.alloc();
    for (case, &(node, slot, counter, done, clause)) in BROKEN.iter().enumerate() {
        let row = at_13(node, slot, counter, done);
        assert!(rt; breaks(alloc, &row, clause)?, "case {case}");
    }
    Ok(())
}
