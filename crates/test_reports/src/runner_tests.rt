//! The returns of a worked text, by a runner of which nothing is asked but logs.

ghost use Rattle.std.specs.Prelude.{⊤};

use air_log::Air;
use host_return::{Return, Runner, follow_returns};
use lwb_base::{Memory, NodeId, Rank};
use lwb_world::{RunParts, world_after};
use scenario_text::Scenario;
use std::alloc::Global;
use std::test::Fail;
use test_texts::{FAILOVER, THREE_NODES, TWO_HOSTS, scenario};

/// A world for each run. Nothing is kept of it but the log.
#[derive(Drop)]
struct Logs;

impl Runner for Logs {
    ghost kept = { λ r s air. ⊤ };

    fn run(&mut self, alloc: Global, s: &Scenario) -> Result<Air, Memory> {
        let RunParts { air, .. } = world_after(alloc, s)?.into_parts();
        Ok(air)
    }
}

// Node 1 comes back, scans for 5 frames, and hosts from frame 36 on. Node 2 is idle in frames 28 to 30, 32 to 34 and 36, and in the
// last of them a schedule of node 1 would reach it.
const BACK: &[&str] = &[THREE_NODES, TWO_HOSTS, "frames 38\n", FAILOVER, "on 31 1\n"];

// The returns of a scenario, and in how many frames a node has probed.
fn returns_and_probes(
    alloc: Global,
    s: &Scenario,
    node: NodeId,
) -> Result<(Vec<Return>, u32), Memory> {
    let returned = follow_returns(alloc, s, &mut Logs)?;
    let returns = Vec::from_slice(alloc, returned.returns())?;
    Ok((returns, returned.probes(node)))
}

#[test]
fn a_backup_host_goes_back(rt: HostRuntime) -> Result<(), Fail> {
    let alloc = rt.alloc();
    let node = NodeId::new(2).ok_or("id")?;
    let rank = Rank::new(0).ok_or("rank")?;
    let s = scenario(alloc, BACK)?;
    let (returns, probes) = returns_and_probes(alloc, &s, node)?;
    let back = [Return {
        frame: 36,
        node,
        rank,
    }];
    assert!(rt; returns.as_slice() == back.as_slice());
    assert!(rt; probes == 7);
    Ok(())
}
