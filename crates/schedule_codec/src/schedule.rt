//! What a host says of one round.

use crate::{Acks, Owners};
use lwb_base::Rank;
use std::marker::Model;

/// What a host says of one round: who owns its data slots, what it acknowledges, and whether it opens this round or, at
/// the end of the round before, names the frame in which it comes.
#[derive(Drop)]
pub struct Schedule {
    /// The rank of the host.
    pub host: Rank,
    /// The boot of the host, 1 to `MOST_BOOTS`.
    pub host_boot: u8,
    /// 0 opens the round; 1 to `GREATEST_GAP` is the number of frames from this frame to the round.
    pub gap: u8,
    /// The number of contention slots, 1 to 4; 0 names none, and then there is one.
    pub contend: u8,
    /// At most one where the number of contention slots is not named.
    pub acks: Acks,
    /// The owners of the data slots, from slot 1 on.
    pub owners: Owners,
}

impl Model for Schedule {
    ghost use Rattle.lwb_base.specs.Messages.{Schedule as Said};

    ghost Value = { Said };

    ghost view = { λ s. record { plan = record { rank = s.host; boot = s.host_boot; contend = s.contend; acks = s.acks; owners = s.owners }; gap = s.gap } };
}
