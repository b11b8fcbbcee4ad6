//! Tests of plans with deadlines.

ghost use Rattle.std.specs.Prelude.{IfSome};
ghost use Rattle.deadline_plan.specs.Jobs.{IsDeadlineStream};

use deadline_plan::{Admit, DeadlineStream, Deadlines};
use lwb_base::{NodeId, Owner};
use std::alloc::Global;

// A stream of that node that has no job in the first frame.
fn late_stream(node: u8) -> Option<DeadlineStream>
    ensures { IfSome result IsDeadlineStream }
{
    let node = NodeId::new(node)?;
    Some(DeadlineStream {
        owner: Owner::new(node, 0),
        start: 1,
        period: 64,
        deadline: 1,
    })
}

// What a plan answers to such a stream of that node.
fn answer(plan: &mut Deadlines, alloc: Global, node: u8) -> Option<Admit> {
    plan.admit(alloc, &late_stream(node)?).ok()
}

// Whether it takes as many streams as it may have, each of them once.
fn fills(plan: &mut Deadlines, alloc: Global) -> bool {
    for node in 1..=32 {
        if answer(plan, alloc, node) != Some(Admit::Yes)
            || answer(plan, alloc, node) != Some(Admit::Twice)
        {
            return false;
        }
    }
    true
}

#[test]
fn an_owner_again_and_the_thirty_third(rt: HostRuntime) {
    let alloc = rt.alloc();
    let mut plan = Deadlines::new(1, 1);
    assert!(rt; fills(&mut plan, alloc));
    assert!(rt; answer(&mut plan, alloc, 33) == Some(Admit::Full));
}
