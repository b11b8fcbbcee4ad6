//! Tests of network texts, and of the links that they describe.

ghost use Rattle.std.specs.Prelude.{◌≤◌, length};

use drawn_links::DrawnLinks;
use link_trace::Links;
use network_text::parse_network;
use std::alloc::Global;

const NETWORK: &[u8; 191] = b"\
frames 30
sends 2
node 1 0
node 2 0
node 3 0
host 0 1
pair 1 2
pair 2 3
on 0 1
on 0 2
on 0 3
stream 0 3 0 8
ratios
ratio 0 1 2 700000
ratio 0 2 1 700000
ratio 0 2 3 700000
ratio 0 3 2 700000
";

// From which nodes a link passes to each of three, and to which one passes from each.
fn masks(links: &DrawnLinks, frame: u32, slot: u8, step: u8) -> ([u64; 3], [u64; 3])
    requires { 3 ≤ length links.now.trace.nodes }
{
    let from = [
        links.from_mask(frame, slot, step, 0),
        links.from_mask(frame, slot, step, 1),
        links.from_mask(frame, slot, step, 2),
    ];
    let to = [
        links.to_mask(frame, slot, step, 0),
        links.to_mask(frame, slot, step, 1),
        links.to_mask(frame, slot, step, 2),
    ];
    (from, to)
}

// Whether links lose by the coins.
fn lose_by_coins(links: &DrawnLinks) -> bool
    requires { 3 ≤ length links.now.trace.nodes }
{
    masks(links, 5, 0, 1) == ([0, 1, 0], [2, 0, 0])
        && masks(links, 5, 2, 2) == ([2, 0, 2], [0, 5, 0])
        && masks(links, 9, 2, 3) == ([2, 5, 0], [2, 1, 2])
        && masks(links, 30, 0, 1) == ([2, 5, 2], [2, 5, 2])
}

// Whether those of the network do.
fn network_loses_by_coins(alloc: Global) -> Option<bool> {
    let Ok((scenario, ratios)) = parse_network(alloc, NETWORK) else {
        return None;
    };
    if ratios.len() != 4 || ratios.nodes().len() < 3 {
        return None;
    }
    let links = DrawnLinks::new(scenario.trace(), &ratios, 7, scenario.frames());
    Some(lose_by_coins(&links))
}

#[test]
fn links_lose_by_the_coins_that_were_worked_out_elsewhere(rt: HostRuntime) {
    assert!(rt; network_loses_by_coins(rt.alloc()) == Some(true));
}
