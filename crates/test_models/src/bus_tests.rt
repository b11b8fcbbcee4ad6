//! Tests of floods by steps.

use lwb_base::NodeId;
use plain_bus::accepts;
use scenario_text::parse_flood;
use std::alloc::Global;
use test_texts::THREE_IN_A_LINE;

// Whether a node accepted in a step.
fn is_accepted(entry: Option<&(NodeId, u8)>, node: u8, step: u8) -> bool {
    match entry {
        Some((id, at)) => id.number() == node && *at == step,
        None => false,
    }
}

// Whether node 2 accepted in the first step and node 3 in the next, and no other node.
fn are_two(entries: &[(NodeId, u8)]) -> bool {
    entries.len() == 2 && is_accepted(entries.first(), 2, 0) && is_accepted(entries.last(), 3, 1)
}

// Whether these accept, with six transmissions.
fn is_flooded(alloc: Global) -> Option<bool> {
    let flood = parse_flood(alloc, THREE_IN_A_LINE.as_bytes()).ok()?;
    let end = accepts(alloc, &flood).ok()?;
    Some(end.sent() == 6 && are_two(end.accepts()))
}

#[test]
fn three_in_a_line(rt: HostRuntime) {
    assert!(rt; is_flooded(rt.alloc()) == Some(true));
}
