//! A worked run, by the nodes at its end.

use bus_rules::Tune;
use lwb_base::{Memory, NodeId, Rank};
use lwb_world::{World, world_after};
use node_core::Place;
use scenario_text::Scenario;
use std::alloc::Global;
use std::test::Fail;
use test_texts::{ONE_HOST, TWO_NODES, TWO_ON, scenario};
use tick_clock::SegmentClock;

// Two nodes, of which node 1 hosts, up to its first round in frame 5.
const FIRST_ROUND: &[&str] = &[TWO_NODES, ONE_HOST, "frames 6\n", TWO_ON];

// What the node scans, holds or hosts, if it awaits the end of a frame.
fn tune_at_rest(world: &World<'_, SegmentClock>, id: u8) -> Option<Tune> {
    let node = world.node(NodeId::new(id)?)?;
    if node.place() != Place::AwaitFrame {
        return None;
    }
    Some(node.tune())
}

// That of the two nodes at the end of a run.
fn tunes_at_rest(alloc: Global, s: &Scenario) -> Result<(Option<Tune>, Option<Tune>), Memory> {
    let world = world_after(alloc, s)?;
    Ok((tune_at_rest(&world, 1), tune_at_rest(&world, 2)))
}

#[test]
fn nodes_after_a_first_round(rt: HostRuntime) -> Result<(), Fail> {
    let alloc = rt.alloc();
    let rank = Rank::new(0).ok_or("rank")?;
    let s = scenario(alloc, FIRST_ROUND)?;
    let (host, member) = tunes_at_rest(alloc, &s)?;
    assert!(rt; host == Some(Tune::Host(rank, 9)));
    assert!(rt; member == Some(Tune::Hold(rank, 9)));
    Ok(())
}
