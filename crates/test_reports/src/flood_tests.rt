//! Floods, by their reports and logs.

ghost use Rattle.std.specs.Prelude.{◌≡◌, IfOk, length};

use crate::calls::flood_log;
use air_log::{Air, Entry};
use bus_rules::FloodResult;
use lwb_base::Memory;
use lwb_flood::flood;
use scenario_text::FloodText;
use std::alloc::{AllocError, Global};
use std::fmt::Write;
use std::test::Fail;
use test_texts::{THREE_IN_A_LINE, flood_text};
use tick_clock::JumpClock;

// One clock for each node: of the first three the fast ones are those whose bit is in `fast`, the others are slow.
fn jump_clocks(alloc: Global, f: &FloodText, fast: u8) -> Result<Vec<JumpClock>, AllocError>
    ensures { IfOk result (λ clocks. length clocks.items ≡ length f.now.nodes) }
{
    let mut clocks = Vec::new(alloc);
    let mut bits = fast;
    for _ in 0..f.nodes().len() {
        clocks.push(JumpClock::new(0, bits % 2 == 1))?;
        bits /= 2;
    }
    Ok(clocks)
}

fn report_of(alloc: Global, flood: &FloodResult) -> Result<String, AllocError> {
    let mut text = String::new(alloc);
    for (node, step) in flood.accepts() {
        let node = node.number();
        write!(text, "accept {node} {step}\n")?;
    }
    let sent = flood.sent();
    write!(text, "sent {sent}\n")?;
    Ok(text)
}

// The report of a flood over these clocks.
fn report_over(alloc: Global, f: &FloodText, fast: u8) -> Result<String, Memory> {
    let clocks = jump_clocks(alloc, f, fast)?;
    let result = flood(alloc, f, clocks)?;
    Ok(report_of(alloc, &result)?)
}

// Whether that is the report over every choice of clocks.
fn all_report(alloc: Global, f: &FloodText, report: &str) -> Result<bool, Memory> {
    for fast in 0..8 {
        if report_over(alloc, f, fast)?.as_str() != report {
            return Ok(false);
        }
    }
    Ok(true)
}

// The same of the flood of a text.
fn is_report(alloc: Global, text: &str, report: &str) -> Result<bool, Fail> {
    let f = flood_text(alloc, text)?;
    Ok(all_report(alloc, &f, report)?)
}

const FIRST_HOP_LOST: &str =
    "sends 2\nnode 1 0\nnode 2 0\nnode 3 0\npair 1 2\npair 2 3\nlose 0 1 2\nstart 1\n";

const EQUAL_RELAYS: &str =
    "sends 1\nnode 1 0\nnode 2 0\nnode 3 0\nnode 4 0\npair 1 2\npair 1 3\npair 2 3\npair 2 4\npair 3 4\nstart 1\n";

// The last of these nodes is too far.
const FOURTEEN_IN_A_LINE: &str =
    "sends 1\nnode 1 0\nnode 2 0\nnode 3 0\nnode 4 0\nnode 5 0\nnode 6 0\nnode 7 0\n\
    node 8 0\nnode 9 0\nnode 10 0\nnode 11 0\nnode 12 0\nnode 13 0\nnode 14 0\npair 1 2\npair 2 3\npair 3 4\npair 4 5\n\
    pair 5 6\npair 6 7\npair 7 8\npair 8 9\npair 9 10\npair 10 11\npair 11 12\npair 12 13\npair 13 14\nstart 1\n";

const TWELVE_HOPS: &str =
    "accept 2 0\naccept 3 1\naccept 4 2\naccept 5 3\naccept 6 4\naccept 7 5\naccept 8 6\n\
    accept 9 7\naccept 10 8\naccept 11 9\naccept 12 10\naccept 13 11\nsent 12\n";

#[test]
fn floods_over_every_choice_of_clocks(rt: HostRuntime) -> Result<(), Fail> {
    let alloc = rt.alloc();
    assert!(rt; is_report(alloc, THREE_IN_A_LINE, "accept 2 0\naccept 3 1\nsent 6\n")?);
    assert!(rt; is_report(alloc, FIRST_HOP_LOST, "sent 1\n")?);
    let equal = "accept 2 0\naccept 3 0\naccept 4 1\nsent 4\n";
    assert!(rt; is_report(alloc, EQUAL_RELAYS, equal)?);
    assert!(rt; is_report(alloc, FOURTEEN_IN_A_LINE, TWELVE_HOPS)?);
    Ok(())
}

// The log of the flood along a line of three nodes with such a rate line.
fn log_with(alloc: Global, rate: &str) -> Result<Air, Fail> {
    let mut text = String::from_str(alloc, THREE_IN_A_LINE)?;
    text.push_str(rate)?;
    flood_log(alloc, text.as_str())
}

// The node, the start and the end of each transmission of a log.
fn sendings(alloc: Global, air: &Air) -> Result<Vec<(u8, u64, u64)>, Fail> {
    let mut sendings = Vec::new(alloc);
    for i in 0..air.len() {
        if let Some(Entry::Sent(sent)) = air.at(i) {
            sendings.push((sent.node.number(), sent.start, sent.end))?;
        }
    }
    Ok(sendings)
}

// The step and the sender of each transmission: the counter of a packet is its step.
fn steps(alloc: Global, air: &Air) -> Result<Vec<(u8, u8)>, Fail> {
    let mut steps = Vec::new(alloc);
    for i in 0..air.len() {
        if let Some(Entry::Sent(sent)) = air.at(i) {
            steps.push((sent.packet.counter(), sent.node.number()))?;
        }
    }
    steps.sort()?;
    Ok(steps)
}

// Whether with a rate line the first relay is sent from that tick on, and each node in its steps. Six transmissions, five
// receptions, and three nodes that were tuned.
fn relays_from(alloc: Global, rate: &str, start: u64) -> Result<bool, Fail> {
    let air = log_with(alloc, rate)?;
    let first = [
        (1, 1_344_064_000, 1_344_096_768),
        (2, start, start.saturating_add(32_768)),
    ];
    let in_steps = [(0, 1), (1, 2), (2, 1), (2, 3), (3, 2), (4, 3)];
    Ok(
        air.len() == 14
            && sendings(alloc, &air)?.starts_with(&first)
            && steps(alloc, &air)?.as_slice() == in_steps.as_slice(),
    )
}

#[test]
fn first_relay_in_true_time(rt: HostRuntime) -> Result<(), Fail> {
    let alloc = rt.alloc();
    assert!(rt; relays_from(alloc, "", 1_344_109_056)?);
    assert!(rt; relays_from(alloc, "rate 2 0 20\n", 1_344_109_055)?);
    assert!(rt; relays_from(alloc, "rate 2 0 -20\n", 1_344_109_057)?);
    Ok(())
}
