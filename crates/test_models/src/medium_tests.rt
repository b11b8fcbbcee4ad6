//! Tests of the medium.

use lwb_base::{NodeId, Profile};
use radio_model::Medium;
use std::alloc::Global;

// Whether a medium of three nodes is made.
#[tactic(auto, using(link_trace::proofs::SmallSeals::three_nodes))]
fn is_made(alloc: Global) -> Option<bool> {
    let nodes = [NodeId::new(1)?, NodeId::new(2)?, NodeId::new(200)?];
    Some(Medium::new(alloc, &Profile::one(), &nodes).is_ok())
}

#[test]
fn a_medium_of_three_nodes_can_be_made(rt: HostRuntime) {
    assert!(rt; is_made(rt.alloc()) == Some(true));
}
