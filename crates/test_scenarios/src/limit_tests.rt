//! Texts at the limits, with ample memory: no contract says that memory suffices.

use crate::tests::first_fault;
use lwb_base::{INPUT_LIMIT, Memory};
use scenario_text::{
    FaultKind, ParseFault, Scenario, parse, parse_flood, parse_long, print, with_script,
};
use std::alloc::{AllocError, Global};
use std::fmt::Write;

fn push_nodes(text: &mut String) -> Result<(), AllocError> {
    for id in 1..65 {
        write!(text, "node {id} 256000\n")?;
    }
    Ok(())
}

fn push_rates(text: &mut String, count: u32) -> Result<(), AllocError> {
    for tick in 0..count {
        write!(text, "rate 64 {tick} -20\n")?;
    }
    Ok(())
}

fn push_links(text: &mut String) -> Result<(), AllocError> {
    for to in 2..65 {
        write!(text, "link 1 {to}\n")?;
    }
    Ok(())
}

fn push_puts(text: &mut String, count: u32) -> Result<(), AllocError> {
    for n in 0..count {
        let frame = n / 100;
        write!(text, "put {frame} 64 3 00ff\n")?;
    }
    Ok(())
}

fn push_steps(text: &mut String, word: &str, count: u32, ends: &str) -> Result<(), AllocError> {
    for n in 0..count {
        let (frame, slot, step) = (n / 500, n % 500 / 12, n % 500 % 12);
        write!(text, "{word} {frame} {slot} {step} {ends}\n")?;
    }
    Ok(())
}

// The lines of such a text up to its script, with so many rates.
fn push_head(text: &mut String, rates: u32) -> Result<(), AllocError> {
    text.push_str("profile 1\nframes 256\nsends 4\n")?;
    push_nodes(text)?;
    push_rates(text, rates)?;
    text.push_str("host 0 64\nhost 1 1\nhost 2 2\nhost 3 3\n")?;
    push_links(text)
}

// A canonical text of 64 nodes in 256 frames, with so many script lines of each kind: rates of one node, puts, losses, cuts and
// captures. There are 20,000 at most.
fn push_full(text: &mut String, lines: [u32; 5]) -> Result<(), AllocError> {
    let [rates, puts, losses, cuts, captures] = lines;
    push_head(text, rates)?;
    push_puts(text, puts)?;
    push_steps(text, "lose", losses, "1 64")?;
    push_steps(text, "cut", cuts, "64")?;
    push_steps(text, "capture", captures, "64 1")
}

fn full_text(alloc: Global, lines: [u32; 5]) -> Option<String> {
    let mut text = String::new(alloc);
    push_full(&mut text, lines).ok()?;
    Some(text)
}

// The scenario of a text, unless that is longer than it may be.
fn read(alloc: Global, text: &str) -> Option<Scenario> {
    let bytes = text.as_bytes();
    if bytes.len() > INPUT_LIMIT {
        return None;
    }
    parse(alloc, bytes).ok()
}

// What is printed of a text.
fn printed(alloc: Global, text: &str) -> Option<String> {
    print(alloc, &read(alloc, text)?).ok()
}

// Whether a text with so many script lines of each kind is printed as it was.
fn comes_back(alloc: Global, lines: [u32; 5]) -> Option<bool> {
    let text = full_text(alloc, lines)?;
    let printed = printed(alloc, text.as_str())?;
    Some(printed.as_str() == text.as_str())
}

#[test]
fn full_scenarios_come_back(rt: HostRuntime) {
    let alloc = rt.alloc();
    assert!(rt; comes_back(alloc, [20_000, 0, 0, 0, 0]) == Some(true));
    assert!(rt; comes_back(alloc, [0, 0, 20_000, 0, 0]) == Some(true));
    assert!(rt; comes_back(alloc, [4_000; 5]) == Some(true));
}

fn push_long(text: &mut String) -> Result<(), AllocError> {
    text.push_str("profile 1\nframes 4096\nsends 4\n")?;
    push_nodes(text)?;
    text.push_str("host 0 64\n")?;
    push_links(text)
}

// A text of 64 nodes in as many frames as there may be.
fn long_text(alloc: Global) -> Option<String> {
    let mut text = String::new(alloc);
    push_long(&mut text).ok()?;
    Some(text)
}

// What is printed of such a text over the long horizon.
fn printed_long(alloc: Global, text: &str) -> Option<String> {
    let bytes = text.as_bytes();
    if bytes.len() > INPUT_LIMIT {
        return None;
    }
    print(alloc, &parse_long(alloc, bytes).ok()?).ok()
}

fn long_text_comes_back(alloc: Global) -> Option<bool> {
    let text = long_text(alloc)?;
    let printed = printed_long(alloc, text.as_str())?;
    Some(printed.as_str() == text.as_str())
}

fn fault_of_long_text(alloc: Global) -> Option<ParseFault> {
    first_fault(alloc, long_text(alloc)?.as_bytes())?
}

#[test]
fn all_frames_over_the_long_horizon(rt: HostRuntime) {
    let alloc = rt.alloc();
    let fault = ParseFault::Line(3 + 64 + 1 + 63 + 1, FaultKind::TooBig);
    assert!(rt; fault_of_long_text(alloc) == Some(fault));
    assert!(rt; long_text_comes_back(alloc) == Some(true));
}

// With each line of the script twice.
fn doubled(alloc: Global, s: &Scenario) -> Result<Option<Scenario>, Memory> {
    with_script(alloc, s, s.script())
}

// What is printed of that, if there are not too many lines.
fn printed_doubled(alloc: Global, s: &Scenario) -> Result<Option<String>, Memory> {
    match doubled(alloc, s)? {
        Some(double) => Ok(Some(print(alloc, &double)?)),
        None => Ok(None),
    }
}

// The same of a text with so many script lines of each kind.
fn twice(alloc: Global, lines: [u32; 5]) -> Option<Option<String>> {
    let text = full_text(alloc, lines)?;
    let scenario = read(alloc, text.as_str())?;
    printed_doubled(alloc, &scenario).ok()
}

// The text of 20,000 puts, two hundred in a frame.
fn push_doubled(text: &mut String) -> Result<(), AllocError> {
    push_full(text, [0; 5])?;
    for n in 0..20_000 {
        let frame = n / 200;
        write!(text, "put {frame} 64 3 00ff\n")?;
    }
    Ok(())
}

fn ten_thousand_puts_are_added(alloc: Global) -> Option<bool> {
    let mut expected = String::new(alloc);
    push_doubled(&mut expected).ok()?;
    let double = twice(alloc, [0, 10_000, 0, 0, 0])??;
    Some(double.as_str() == expected.as_str())
}

#[test]
fn lines_are_added_up_to_the_limit(rt: HostRuntime) {
    let alloc = rt.alloc();
    assert!(rt; ten_thousand_puts_are_added(alloc) == Some(true));
    // There would be more than 20,000.
    assert!(rt; matches!(twice(alloc, [1, 10_000, 0, 0, 0]), Some(None)));
}

fn push_comments(text: &mut String) -> Result<(), AllocError> {
    push_full(text, [0; 5])?;
    for _ in 0..30_100 {
        text.push_str("#\n")?;
    }
    Ok(())
}

fn fault_below_comments(alloc: Global) -> Option<ParseFault> {
    let mut text = String::new(alloc);
    push_comments(&mut text).ok()?;
    text.push_str("frames 0\n").ok()?;
    first_fault(alloc, text.as_bytes())?
}

fn push_to_limit(text: &mut String) -> Result<(), AllocError> {
    for _ in text.len()..INPUT_LIMIT {
        text.push_str("#")?;
    }
    Ok(())
}

// The length of the longest text, and its first fault.
fn longest(alloc: Global) -> Option<(usize, Option<ParseFault>)> {
    let mut text = String::new(alloc);
    push_comments(&mut text).ok()?;
    push_to_limit(&mut text).ok()?;
    let fault = first_fault(alloc, text.as_bytes())?;
    Some((text.len(), fault))
}

#[test]
fn the_longest_text(rt: HostRuntime) {
    let alloc = rt.alloc();
    let count = 3 + 64 + 4 + 63 + 30_100;
    let fault = ParseFault::Line(count + 1, FaultKind::Range);
    assert!(rt; fault_below_comments(alloc) == Some(fault));
    assert!(rt; longest(alloc) == Some((4_194_304, None)));
}

fn push_losses(text: &mut String, count: u32) -> Result<(), AllocError> {
    for n in 0..count {
        let (step, pair) = (n % 12, n / 12);
        let (from, other) = (pair / 63 + 1, pair % 63 + 1);
        let to = if other < from { other } else { other + 1 };
        write!(text, "lose {step} {from} {to}\n")?;
    }
    Ok(())
}

fn push_flood(text: &mut String) -> Result<(), AllocError> {
    text.push_str("sends 4\n")?;
    push_nodes(text)?;
    push_links(text)?;
    push_rates(text, 10_000)?;
    push_losses(text, 10_000)?;
    text.push_str("start 64\n")
}

// The nodes, rates, links and losses of such a flood.
fn counts_of_a_full_flood(alloc: Global) -> Option<(usize, usize, usize, usize)> {
    let mut text = String::new(alloc);
    push_flood(&mut text).ok()?;
    let bytes = text.as_bytes();
    if bytes.len() > INPUT_LIMIT {
        return None;
    }
    let flood = parse_flood(alloc, bytes).ok()?;
    let trace = flood.trace();
    Some((
        flood.nodes().len(),
        flood.rates().len(),
        trace.links().len(),
        trace.losses().len(),
    ))
}

#[test]
fn a_full_flood(rt: HostRuntime) {
    let counts = counts_of_a_full_flood(rt.alloc());
    assert!(rt; counts == Some((64, 10_000, 63, 10_000)));
}
