//! A slot of a round, and what holds for all nodes in each.

use bus_rules::Part;
use lwb_base::{NodeId, Profile, Rank};

/// A slot of a round.
#[derive(Clone, Copy)]
pub struct RoundSlot {
    /// The rank whose round it is.
    pub rank: Rank,
    /// The frame of the round.
    pub frame: u32,
    /// Its place in the round, counted from 0.
    pub number: u8,
    /// What it is for.
    pub part: Part,
}

/// What holds for all nodes in each slot.
#[derive(Clone, Copy)]
pub struct Setting<'a> {
    /// All nodes, by ascending ids.
    pub ids: &'a [NodeId],
    pub profile: Profile,
    /// How often a node sends at most in a flood, 1 to 4.
    pub limit: u8,
}
