//! Tests of recorded traces.

ghost use Rattle.std.specs.Prelude.{◌≡◌, IfSome, length};

use link_trace::{Links, Trace};
use lwb_base::{Memory, NodeId};
use std::alloc::Global;

// The masks of the three nodes, through the bound that a medium has.
fn masks_of_three<L: Links>(links: &L, frame: u32, slot: u8, step: u8) -> [u64; 3]
    requires { length (L.nodes links.now) ≡ 3 }
{
    [
        links.from_mask(frame, slot, step, 0),
        links.from_mask(frame, slot, step, 1),
        links.from_mask(frame, slot, step, 2),
    ]
}

// Whom each of the three nodes reaches, through that bound.
fn reach_of_three<L: Links>(links: &L, frame: u32, slot: u8, step: u8) -> [u64; 3]
    requires { length (L.nodes links.now) ≡ 3 }
{
    [
        links.to_mask(frame, slot, step, 0),
        links.to_mask(frame, slot, step, 1),
        links.to_mask(frame, slot, step, 2),
    ]
}

// Links both ways between the first and the second and between the second and the third; and a loss, a cut and a capture.
fn add_lines(trace: &mut Trace, one: NodeId, two: NodeId, three: NodeId) -> Result<bool, Memory> {
    trace.link(one, two)?;
    trace.link(two, one)?;
    trace.link(two, three)?;
    trace.link(three, two)?;
    trace.lose(5, 1, 0, one, two)?;
    trace.cut(5, 1, 2, three)?;
    trace.capture(5, 1, 0, two, three)
}

#[tactic(auto, using(link_trace::proofs::SmallSeals::three_nodes))]
fn three_in_a_line(alloc: Global) -> Option<Trace>
    ensures { IfSome result (λ t. length t.nodes ≡ 3) }
{
    let one = NodeId::new(1)?;
    let two = NodeId::new(2)?;
    let three = NodeId::new(3)?;
    let mut trace = Trace::new(alloc);
    add_lines(&mut trace, one, two, three).ok()?;
    trace.seal(&[one, two, three]).ok()?;
    Some(trace)
}

// Whether links pass so in the step of the loss, in that of the cut, and later.
fn pass_as_they_should(alloc: Global) -> Option<bool> {
    let trace = three_in_a_line(alloc)?;
    Some(
        masks_of_three(&trace, 5, 1, 0) == [0b010, 0b100, 0b010]
            && reach_of_three(&trace, 5, 1, 0) == [0, 0b101, 0b010]
            && masks_of_three(&trace, 5, 1, 2) == [0b010, 0b001, 0]
            && masks_of_three(&trace, 6, 0, 0) == [0b010, 0b101, 0b010],
    )
}

#[test]
fn masks_of_three_nodes_in_a_line(rt: HostRuntime) {
    assert!(rt; pass_as_they_should(rt.alloc()) == Some(true));
}

// A loss in each of 20,000 frames, the last one first.
fn lose_from_the_last(trace: &mut Trace, one: NodeId, two: NodeId) -> Result<(), Memory> {
    for frame in (0..20_000).rev() {
        trace.lose(frame, 1, 0, one, two)?;
    }
    Ok(())
}

#[tactic(auto, using(link_trace::proofs::SmallSeals::two_nodes))]
fn losing_pair(alloc: Global) -> Option<Trace>
    ensures { IfSome result (λ t. length t.nodes ≡ 2) }
{
    let one = NodeId::new(1)?;
    let two = NodeId::new(2)?;
    let mut trace = Trace::new(alloc);
    trace.link(one, two).ok()?;
    lose_from_the_last(&mut trace, one, two).ok()?;
    trace.seal(&[one, two]).ok()?;
    Some(trace)
}

// The number of its losses, and the masks of the second node in the step of the last one and in the next.
fn losses_and_masks(alloc: Global) -> Option<(usize, u64, u64)> {
    let trace = losing_pair(alloc)?;
    let lost = trace.from_mask(19_999, 1, 0, 1);
    Some((trace.losses().len(), lost, trace.from_mask(19_999, 1, 1, 1)))
}

#[test]
fn twenty_thousand_lose_lines_in_descending_order(rt: HostRuntime) {
    assert!(rt; losses_and_masks(rt.alloc()) == Some((20_000, 0, 1)));
}
