//! The row of the node table in which a transmission ends, and the order of a relay.

ghost use Rattle.std.specs.Prelude.{◌≤◌, ◌<◌, ◌^◌};
ghost use Rattle.node_core.specs.Rows.{at_sent, relaying};
ghost use Rattle.node_core.specs.Standing.{GoesThroughRow};
ghost use Rattle.lwb_base.specs.Orders.{Gives};

use crate::node::{Node, forget};
use crate::stage::Stage;
use glossy_relay::{After, Reply};
use lwb_base::{Profile, Radio};

impl Node {
    // Sent, where the flood of a window waits for it.
    pub(crate) fn end_sending<R: Radio>(&mut self, radio: &mut R)
        requires { 1 ≤ (R.told radio.old).room }
        ensures { GoesThroughRow self.old self.new (R.told radio.old) (R.told radio.new) (at_sent self.old.node self.old.node.stage) }
    {
        let Stage::InWindow(_, window) = &mut self.stage else {
            return;
        };
        if !window.flood.waits() {
            return;
        }
        let after = window.sent();
        forget(&mut self.delivery);
        match after {
            After::Off => radio.off(),
            After::More => {}
        }
    }
}

// A relay begins a turnaround after the end of the reception.
pub(crate) fn relay<R: Radio>(profile: &Profile, now: u64, reply: &Reply, radio: &mut R)
    requires now { now < 2 ^ 46 }
    requires room { 1 ≤ (R.told radio.old).room }
    ensures { Gives (R.told radio.old) (R.told radio.new) (relaying profile.now now reply.now) }
{
    match reply {
        Reply::Relay(packet) => radio.send_at(now + profile.turn(), packet),
        Reply::Keep | Reply::Ignore => {}
    }
}
