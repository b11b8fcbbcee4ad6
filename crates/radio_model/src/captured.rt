//! Captures, decided over a list of transmissions: the sender that the trace names for a node where several meet.

ghost use Rattle.std.specs.Prelude.{◌≡◌, ◌≤◌, ◌^◌, All};
ghost use Rattle.std.specs.List.{list_any};
ghost use Rattle.link_trace.specs.Passes.{captured};
ghost use Rattle.radio_model.specs.Hearing.{frame_of_sending, slot_of_sending, counter_of_sending};
ghost use Rattle.radio_model.specs.Receptions.{arrives as arrival, repeats_from, is_captured as captured_by};

use crate::meeting::repeats;
use crate::sending::Sending;
use link_trace::Trace;
use lwb_base::{NodeId, Profile};

/// Whether the link passes from the sender of y to the node.
pub(crate) fn arrives(profile: &Profile, trace: &Trace, node: NodeId, y: &Sending) -> bool
    requires { y.now.start ≤ 2 ^ 46 }
    ensures { result ≡ arrival profile.now trace.now.lines node y.now }
{
    let frame = (y.start / profile.frame()) as u32;
    trace.passes(frame, y.packet.slot(), y.packet.counter(), y.node, node)
}

/// Whether the trace names for the node a sender from which the packet of x comes while x does.
pub(crate) fn is_captured(
    profile: &Profile,
    trace: &Trace,
    near: &[Sending],
    node: NodeId,
    x: &Sending,
) -> bool
    requires start { x.now.start ≤ 2 ^ 46 }
    requires starts { All (λ y. y.start ≤ 2 ^ 46) near.now }
    ensures { result ≡ captured_by profile.now trace.now.lines node x.now near.now
        (captured trace.now.lines (frame_of_sending profile.now x.now) (slot_of_sending x.now) (counter_of_sending x.now) node) }
{
    let frame = (x.start / profile.frame()) as u32;
    match trace.captured(frame, x.packet.slot(), x.packet.counter(), node) {
        Some(sender) => comes_from(profile, trace, near, node, x, sender),
        None => false,
    }
}

// Whether the packet of x comes to the node from that sender while x does.
fn comes_from(
    profile: &Profile,
    trace: &Trace,
    near: &[Sending],
    node: NodeId,
    x: &Sending,
    sender: NodeId,
) -> bool
    requires { All (λ y. y.start ≤ 2 ^ 46) near.now }
    ensures { result ≡ list_any (repeats_from profile.now trace.now.lines node x.now sender) near.now }
{
    for y in near {
        if y.node == sender && repeats(x, y) && arrives(profile, trace, node, y) {
            return true;
        }
    }
    false
}
