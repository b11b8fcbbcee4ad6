//! Ranks of hosts, which are the numbers of their channels.

ghost use Rattle.std.specs.Prelude.{◌≡◌, ℕ, ◌≤◌, SomeIff};
ghost use Rattle.lwb_base.specs.declared.limits.TheConstants.{LAST_RANK};

use crate::limits::LAST_RANK;
use std::marker::Model;

/// The rank of a host, 0 to `LAST_RANK`, which is also the number of its channel. Contracts see the number.
#[derive(Clone, Copy, Debug, PartialEq, Eq, PartialOrd, Ord)]
pub struct Rank {
    rank: u8,
}

impl Model for Rank {
    ghost Value = { ℕ };

    ghost view = { λ r. r.rank };

    ghost invariant = { λ r. r.rank ≤ LAST_RANK };

    ghost inverse = { λ n. record { rank = n } };
}

impl Rank {
    /// Returns `None` if and only if the number is above `LAST_RANK`.
    pub fn new(rank: u8) -> Option<Rank>
        ensures { SomeIff result (rank ≤ LAST_RANK) rank }
    {
        if rank <= LAST_RANK {
            Some(Rank { rank })
        } else {
            None
        }
    }

    /// The rank, 0 to `LAST_RANK`.
    pub fn number(&self) -> u8
        ensures value { result ≡ self.now }
        ensures range { self.now ≤ LAST_RANK }
    {
        self.rank
    }
}
