//! One node of a flood.

ghost use Rattle.std.specs.Prelude.{◌≡◌};
ghost use Rattle.lwb_flood.specs.FloodWorlds.{is_off as off};

use glossy_relay::Flood;
use lwb_base::{NodeId, Packet};
use radio_model::sending::Sending;

// What a node of a flood is doing.
#[derive(Drop)]
pub(crate) enum Act {
    // It is tuned in and has nothing to send.
    Listens,
    // It is tuned in and starts to send this packet at that true tick.
    Waits(u64, Packet),
    Sends(Sending),
    // It has gone off.
    Off,
}

// One node of a flood.
#[derive(Drop)]
pub(crate) struct Member {
    pub(crate) node: NodeId,
    pub(crate) flood: Flood,
    pub(crate) act: Act,
}

pub(crate) fn is_off(act: &Act) -> bool
    ensures { result ≡ off act.now }
{
    matches!(act, Act::Off)
}

pub(crate) fn copy_of_act(act: &Act) -> Act
    ensures { result ≡ act.now }
{
    match act {
        Act::Listens => Act::Listens,
        Act::Waits(t, packet) => Act::Waits(*t, packet.copy()),
        Act::Sends(x) => Act::Sends(x.copy()),
        Act::Off => Act::Off,
    }
}
