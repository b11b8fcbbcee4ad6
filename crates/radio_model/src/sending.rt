//! A packet on the air.

ghost use Rattle.std.specs.Prelude.{◌≡◌};

use lwb_base::{NodeId, Packet, Rank};

/// A packet on the air, on the channel of a rank, from its start to its end in ticks of 1/64 µs.
#[derive(Drop)]
pub struct Sending {
    pub rank: Rank,
    pub node: NodeId,
    pub start: u64,
    pub end: u64,
    pub packet: Packet,
}

impl Sending {
    /// The same transmission again.
    pub fn copy(&self) -> Sending
        ensures { result ≡ self.now }
    {
        Sending {
            rank: self.rank,
            node: self.node,
            start: self.start,
            end: self.end,
            packet: self.packet.copy(),
        }
    }
}
