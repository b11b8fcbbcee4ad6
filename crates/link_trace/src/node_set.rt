//! Sets of nodes.

ghost use Rattle.std.specs.Prelude.{◌≡◌, ◌≢◌, ℕ, ◌<◌, ◌-◌, ◌==◌, min};
ghost use Rattle.std.specs.Int.{bit_at};
ghost use Rattle.std.specs.Prelude.{bit_and, bit_or};
ghost use Rattle.lwb_base.specs.declared.limits.TheConstants.{MOST_NODES};

use std::marker::Model;

/// A set of nodes, of which there are at most `MOST_NODES`. A node is named by its place: nodes are counted from 0. Contracts see
/// the set as a number, in which bit i is 1 if and only if node i is in the set.
#[derive(Clone, Copy, PartialEq, Eq, Default)]
pub struct NodeSet {
    word: u64,
}

impl Model for NodeSet {
    ghost use Rattle.std.specs.Prelude.{ℕ};

    ghost Value = { ℕ };

    ghost view = { λ s. s.word };

    ghost inverse = { λ n. record { word = n } };
}

impl NodeSet {
    /// The set without a node.
    pub const EMPTY: NodeSet = NodeSet { word: 0 };

    /// The set of the nodes whose bits are 1.
    #[inline(always)]
    pub fn of_word(word: u64) -> NodeSet
        ensures { result ≡ word }
    {
        NodeSet { word }
    }

    /// The word in which bit i is 1 if and only if node i is in the set.
    #[inline(always)]
    pub fn word(self) -> u64
        ensures { result ≡ self }
    {
        self.word
    }

    /// Whether no node is in it.
    #[inline(always)]
    pub fn is_empty(&self) -> bool
        ensures { result ≡ (self.now == 0) }
    {
        self.word == 0
    }

    /// Whether the node at that place is in it.
    #[inline(always)]
    #[tactic(auto, using(std::proofs::lemmas::Nat::Bits::shr_and_one))]
    pub fn has(&self, place: u8) -> bool
        requires { place < MOST_NODES }
        ensures { result ≡ (bit_at self.now place == 1) }
    {
        (self.word >> place) & 1 == 1
    }

    /// The lowest place of a node that is in it. Something is in it.
    #[inline(always)]
    pub fn lowest(&self) -> u8
        requires { 0 < self.now }
        ensures below { result < MOST_NODES }
        ensures set { bit_at self.now result ≡ 1 }
        ensures first { (i : ℕ) → i < result → bit_at self.now i ≡ 0 }
    {
        self.word.trailing_zeros() as u8
    }

    /// The set with the node at that place too.
    #[inline(always)]
    pub fn with(self, place: u8) -> NodeSet
        requires { place < MOST_NODES }
        ensures set { bit_at result place ≡ 1 }
        ensures others { (i : ℕ) → i ≢ place → bit_at result i ≡ bit_at self i }
    {
        NodeSet {
            word: self.word | 1 << place,
        }
    }

    /// The set without the node at that place.
    #[inline(always)]
    pub fn without(self, place: u8) -> NodeSet
        requires { place < MOST_NODES }
        ensures less { bit_at self place ≡ 1 → result < self }
        ensures cleared { bit_at result place ≡ 0 }
        ensures others { (i : ℕ) → i ≢ place → bit_at result i ≡ bit_at self i }
    {
        NodeSet {
            word: self.word & !(1 << place),
        }
    }

    /// The nodes that are in this one and not in the other.
    #[inline(always)]
    pub fn except(self, other: NodeSet) -> NodeSet
        ensures { (i : ℕ) → bit_at result i ≡ min (bit_at self i) (1 - bit_at other i) }
    {
        NodeSet {
            word: self.word & !other.word,
        }
    }

    /// The nodes that are in both.
    #[inline(always)]
    pub fn and(self, other: NodeSet) -> NodeSet
        ensures { result ≡ bit_and self other }
    {
        NodeSet {
            word: self.word & other.word,
        }
    }

    /// The nodes that are in this one or the other.
    #[inline(always)]
    pub fn or(self, other: NodeSet) -> NodeSet
        ensures { result ≡ bit_or self other }
    {
        NodeSet {
            word: self.word | other.word,
        }
    }
}
