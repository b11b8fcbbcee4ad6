//! What comes to all nodes alike: the rounds of a frame begin, and a frame ends.

ghost use Rattle.std.specs.Prelude.{◌≡◌, ◌≤◌, ◌<◌, ℕ, All, length, map};
ghost use Rattle.lwb_base.specs.declared.limits.TheConstants.{LAST_FRAME, MOST_FRAMES};
ghost use Rattle.bus_rules.specs.States.{State};
ghost use Rattle.bus_terms.specs.Bus.{Cost as CostOf};
ghost use Rattle.bus_terms.specs.FloodOfText.{ids};
ghost use Rattle.scenario_text.specs.ScenarioParts.{ScenarioParts};
ghost use Rattle.bus_model.specs.FrameNodes.{with_round_rank, ended_at, nodes_with};
ghost use Rattle.bus_model.specs.RoundCosts.{with_scan};

use plain_bus::{BusNode, Cost};

/// The rounds of a frame begin: each node takes part in that of the rank which it scans, holds or hosts now.
pub fn begin_all(nodes: &mut [BusNode])
    ensures { nodes.new ≡ map with_round_rank nodes.old }
{
    for node in nodes.iter_mut() {
        node.begin_rounds();
    }
}

/// This frame ends, which is at most `LAST_FRAME`.
pub fn end_all(nodes: &mut [BusNode], frame: u32)
    requires { frame ≤ LAST_FRAME }
    ensures { nodes.new ≡ map (ended_at frame) nodes.old }
{
    for node in nodes.iter_mut() {
        node.end_frame(frame);
    }
}

/// A frame more for those that scan.
pub fn count_scans(costs: &mut [Cost], nodes: &[BusNode])
    requires nodes { length nodes.now ≡ length costs.old }
    requires few { All (λ c. c.scanned ≤ MOST_FRAMES) costs.old }
    ensures { (s : ScenarioParts) (ranks : ℕ → ℕ) (states : ℕ → State) (cost : ℕ → CostOf) → nodes.now ≡ nodes_with s ranks states
        → costs.old ≡ map cost (ids s.nodes)
        → costs.new ≡ map (λ v. with_scan (states v) (cost v)) (ids s.nodes) }
{
    let mut place = 0;
    for cost in costs.iter_mut() {
        let node = &nodes[place];
        count_scan(cost, node);
        place += 1;
    }
}

fn count_scan(cost: &mut Cost, node: &BusNode)
    requires { cost.old.scanned ≤ MOST_FRAMES }
    ensures { cost.new ≡ with_scan node.now.state cost.old }
{
    if node.scans() {
        cost.scanned += 1;
    }
}
