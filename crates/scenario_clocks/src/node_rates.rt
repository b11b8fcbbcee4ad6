//! The rates of the clock of one node.

ghost use Rattle.std.specs.Prelude.{◌≡◌, ◌++◌, ◌∷◌, [], OnErr, OnOk};

use lwb_base::Memory;
use std::alloc::Global;
use std::marker::Model;

/// The rates of one node, each with the tick from which it is in force. Contracts see the list.
#[derive(Drop)]
pub struct NodeRates {
    entries: Vec<(u64, i8)>,
}

impl Model for NodeRates {
    ghost use Rattle.std.specs.Prelude.{ℕ, ℤ, List};

    ghost Value = { List (ℕ × ℤ) };

    ghost view = { λ r. r.entries.items };
}

impl NodeRates {
    pub fn new(alloc: Global) -> NodeRates
        ensures { result ≡ [] }
    {
        NodeRates {
            entries: Vec::new(alloc),
        }
    }

    /// Adds a rate after those that are there. After `Memory` they are as they were.
    pub fn push(&mut self, from: u64, ppm: i8) -> Result<(), Memory>
        ensures added { OnOk result (self.new ≡ self.old ++ (from, ppm) ∷ []) }
        ensures kept { OnErr result (self.new ≡ self.old) }
    {
        self.entries.push((from, ppm))?;
        Ok(())
    }

    pub fn entries(&self) -> &[(u64, i8)]
        ensures { result.now ≡ self.now }
    {
        &self.entries
    }
}
