//! Ids of nodes.

ghost use Rattle.std.specs.Prelude.{◌≡◌, ℕ, ◌≤◌, SomeIff};
ghost use Rattle.lwb_base.specs.declared.limits.TheConstants.{GREATEST_ID};

use crate::GREATEST_ID;
use std::marker::Model;

/// The id of a node, 1 to `GREATEST_ID`. Contracts see the number.
#[derive(Clone, Copy, Debug, PartialEq, Eq, PartialOrd, Ord)]
pub struct NodeId {
    id: u8,
}

impl Model for NodeId {
    ghost Value = { ℕ };

    ghost view = { λ n. n.id };

    ghost invariant = { λ n. (1 ≤ n.id) × (n.id ≤ GREATEST_ID) };

    ghost inverse = { λ n. record { id = n } };
}

impl NodeId {
    /// Returns `None` if and only if the id is outside 1 to `GREATEST_ID`.
    pub fn new(id: u8) -> Option<NodeId>
        ensures { SomeIff result ((1 ≤ id) × (id ≤ GREATEST_ID)) id }
    {
        if 1 <= id && id <= GREATEST_ID {
            Some(NodeId { id })
        } else {
            None
        }
    }

    /// The id, 1 to `GREATEST_ID`.
    pub fn number(&self) -> u8
        ensures value { result ≡ self.now }
        ensures range { (1 ≤ self.now) × (self.now ≤ GREATEST_ID) }
    {
        self.id
    }
}
