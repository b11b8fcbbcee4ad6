//! The receivers of one transmission.

ghost use Rattle.std.specs.Prelude.{◌≡◌, ◌+◌, ◌≤◌, ◌<◌, ◌^◌, ℕ, List, [], ◌∷◌, ◌++◌, length, slice_get};
ghost use Rattle.lwb_base.specs.declared.limits.TheConstants.{MOST_NODES};

use arrayvec::ArrayVec;
use lwb_base::{MOST_NODES, NodeId};
use std::marker::Model;

/// A receiver and its sender.
#[derive(Clone, Copy)]
struct Pair {
    hearer: NodeId,
    sender: NodeId,
}

impl Default for Pair {
    fn default() -> Pair
        ensures { result ≡ record { hearer = 1; sender = 1 } }
    {
        let first = NodeId::new(1).unwrap();
        Pair {
            hearer: first,
            sender: first,
        }
    }
}

/// Who receives one transmission: pairs of a receiver and its sender, at most `MOST_NODES`, by receiver ascending. Contracts see the
/// list.
#[derive(Drop)]
pub struct Hearers {
    pairs: ArrayVec<Pair, MOST_NODES>,
}

impl Model for Hearers {
    ghost use Rattle.std.specs.Prelude.{ℕ, List, map};
    ghost use Rattle.radio_model.specs.declared.hearers.Pair.{Pair};
    ghost use Rattle.radio_model.specs.Pairs.{pair_in};

    ghost Value = { List (ℕ × ℕ) };

    ghost view = { λ h. map pair_in h.pairs.items };
}

impl Hearers {
    /// Nobody receives.
    pub(crate) fn none() -> Hearers
        ensures { result ≡ [] }
    {
        Hearers {
            pairs: ArrayVec::new(),
        }
    }

    /// One more receives.
    pub(crate) fn push(&mut self, hearer: NodeId, sender: NodeId)
        requires { length self.old < MOST_NODES }
        ensures { self.new ≡ self.old ++ (hearer, sender) ∷ [] }
    {
        self.pairs.push(Pair { hearer, sender });
    }

    /// The number of receivers.
    pub fn count(&self) -> u8
        ensures value { result ≡ length self.now }
        ensures range { result ≤ MOST_NODES }
    {
        self.pairs.len() as u8
    }

    /// The receiver and the sender of the pair at place i, counted from 0. Returns `None` if and only if i is not below the
    /// count.
    pub fn at(&self, i: usize) -> Option<(NodeId, NodeId)>
        ensures { result ≡ slice_get self.now i }
    {
        let pairs = self.pairs.as_slice();
        if i >= pairs.len() {
            return None;
        }
        let pair = pairs[i];
        Some((pair.hearer, pair.sender))
    }
}
