//! Whole runs of a node: all that happens to it, one after another.

ghost use Rattle.std.specs.Prelude.{◌≡◌, ◌≤◌, ◌+◌, ◌*◌, ◌++◌, All, length};
ghost use Rattle.test_nodes.specs.Calls.{IsAllowedCall, after_call, after_calls, delivery_after, delivery_after_calls, orders_of, orders_of_all};

use crate::call::{Call, Reading, copy_of_event};
use lwb_base::Radio;
use node_core::Node;

/// Takes a node through all of this, one after another. It is then where the rows of the node table and the calls of the
/// script leave it, and the radio, which has room for 4 orders a call, was given their orders.
pub fn follow<R: Radio>(node: &mut Node, calls: &[Call], radio: &mut R)
    requires allowed { All (IsAllowedCall node.old.setup) calls.now }
    requires room { 4 * length calls.now ≤ (R.told radio.old).room }
    ensures node { node.new.node ≡ after_calls node.old.setup node.old.node calls.now }
    ensures orders { (R.told radio.new).given ≡ (R.told radio.old).given ++ orders_of_all node.old.setup node.old.node calls.now }
    ensures delivery { node.new.delivery ≡ delivery_after_calls node.old.setup node.old.node node.old.delivery calls.now }
    ensures setup { node.new.setup ≡ node.old.setup }
{
    for call in calls {
        undergo(node, call, radio);
    }
}

#[tactic(auto, using(crate::proofs::LeftDeliveries::delivery_follows))]
fn undergo<R: Radio>(node: &mut Node, call: &Call, radio: &mut R)
    requires allowed { IsAllowedCall node.old.setup call.now }
    requires room { 4 ≤ (R.told radio.old).room }
    ensures node { node.new.node ≡ after_call node.old.setup node.old.node call.now }
    ensures orders { (R.told radio.new).given ≡ (R.told radio.old).given ++ orders_of node.old.setup node.old.node call.now }
    ensures delivery { node.new.delivery ≡ delivery_after node.old.setup node.old.node node.old.delivery call.now }
    ensures room { (R.told radio.old).room ≤ (R.told radio.new).room + 4 }
    ensures setup { node.new.setup ≡ node.old.setup }
{
    match call {
        Call::Step(now, event) => node.step(&Reading::new(*now), radio, copy_of_event(event)),
        Call::Declare(stream, interval) => node.declare(*stream, *interval),
        Call::Leave(stream) => node.leave(*stream),
        Call::Put(stream, payload) => {
            node.put(*stream, payload);
        }
        Call::Reboot(boot) => node.reboot(*boot),
    }
}
