//! Tests of logs.

use air_log::{Air, Entry, HeardEntry, SentEntry, TunedEntry, text};
use lwb_base::{NodeId, Packet, Rank};
use std::alloc::Global;

fn heard(rank: u8, node: u8, from: u8, bytes: &[u8]) -> Option<Entry> {
    Some(Entry::Heard(HeardEntry {
        rank: Rank::new(rank)?,
        node: NodeId::new(node)?,
        from: NodeId::new(from)?,
        start: 64,
        end: 30_784,
        packet: Packet::new(bytes)?,
    }))
}

fn tuned(rank: u8, end: u64) -> Option<Entry> {
    Some(Entry::Tuned(TunedEntry {
        rank: Rank::new(rank)?,
        node: NodeId::new(1)?,
        start: 64,
        end,
    }))
}

// Whether there is an entry, and it is added.
fn is_added(air: &mut Air, entry: Option<Entry>) -> bool {
    match entry {
        Some(entry) => air.push(entry).is_ok(),
        None => false,
    }
}

fn are_added(air: &mut Air) -> bool {
    is_added(air, tuned(1, 9))
        && is_added(air, heard(1, 3, 9, &[171, 10, 255]))
        && is_added(air, tuned(0, 8))
        && is_added(air, heard(0, 3, 4, &[1, 2, 3]))
}

// The text of those entries.
fn text_of_few(alloc: Global) -> Option<String> {
    let mut air = Air::new(alloc);
    if are_added(&mut air) {
        text(alloc, &air).ok()
    } else {
        None
    }
}

// Whether that is their text.
fn is_text_of_few(alloc: Global, wanted: &str) -> Option<bool> {
    Some(text_of_few(alloc)?.as_str() == wanted)
}

#[test]
fn equal_entries_keep_their_order(rt: HostRuntime) {
    let wanted =
        "heard 1 3 9 64 30784 ab0aff\nheard 0 3 4 64 30784 010203\ntuned 1 1 64 9\ntuned 0 1 64 8\n";
    assert!(rt; is_text_of_few(rt.alloc(), wanted) == Some(true));
}

// A transmission of 125 bytes.
fn long_entry(i: u64) -> Option<Entry> {
    let start = 1_000_000_000 + i % 1_000_000;
    Some(Entry::Sent(SentEntry {
        rank: Rank::new(0)?,
        node: NodeId::new(1)?,
        start,
        end: start + 272_384,
        packet: Packet::new(&[7; 125])?,
    }))
}

// Adds so many of them.
fn add_long_entries(air: &mut Air, count: u64) -> bool {
    for i in 0..count {
        if !is_added(air, long_entry(i)) {
            return false;
        }
    }
    true
}

// The text of a log of ten thousand of them.
fn long_text(alloc: Global) -> Option<String> {
    let mut air = Air::new(alloc);
    if add_long_entries(&mut air, 10_000) {
        text(alloc, &air).ok()
    } else {
        None
    }
}

// The length of that text, and whether it begins and ends so.
fn length_and_ends(alloc: Global, first: &str, last: &str) -> Option<(usize, bool)> {
    let text = long_text(alloc)?;
    let has_ends = text.starts_with(first) && text.ends_with(last);
    Some((text.len(), has_ends))
}

#[test]
fn text_of_a_long_log(rt: HostRuntime) {
    let text = length_and_ends(
        rt.alloc(),
        "sent 0 1 1000000000 1000272384 070707",
        "0707\n",
    );
    // `sent 0 1`, two numbers of ten digits, 250 digits, and what is between them.
    assert!(rt; text == Some((10_000 * 282, true)));
}
