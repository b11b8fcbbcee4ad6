//! The radio log of a run: its list of entries.

ghost use Rattle.std.specs.Prelude.{◌≡◌, ◌++◌, ◌∷◌, [], length, OnOk, OnErr, slice_get};
ghost use Rattle.std.specs.Option.{option_copied};

use crate::Entry;
use lwb_base::Memory;
use std::alloc::Global;
use std::marker::Model;

/// The entries of a run in the order in which they were made. Contracts see the list.
#[derive(Drop)]
pub struct Air {
    entries: Vec<Entry>,
}

impl Model for Air {
    ghost use Rattle.std.specs.Prelude.{List};
    ghost use Rattle.air_log.specs.declared.entry.Entry.{Entry};

    ghost Value = { List Entry };

    ghost view = { λ a. a.entries.items };
}

impl Air {
    /// A radio log with no entry. It keeps the allocator and takes no memory.
    pub fn new(alloc: Global) -> Air
        ensures { result ≡ [] }
    {
        Air {
            entries: Vec::new(alloc),
        }
    }

    /// Adds an entry after those that are there. After `Memory` the log is as it was.
    pub fn push(&mut self, e: Entry) -> Result<(), Memory>
        ensures ok { OnOk result (self.new ≡ self.old ++ e ∷ []) }
        ensures err { OnErr result (self.new ≡ self.old) }
    {
        self.entries.reserve(1)?;
        self.entries.push_reserved(e);
        Ok(())
    }

    /// The number of entries.
    pub fn len(&self) -> usize
        ensures { result ≡ length self.now }
    {
        self.entries.len()
    }

    /// The entry at this place, counted from 0; returns `None` if and only if there are at most `i` entries.
    pub fn at(&self, i: usize) -> Option<&Entry>
        ensures { option_copied result ≡ slice_get self.now i }
    {
        self.entries.get(i)
    }

    /// All entries.
    pub fn entries(&self) -> &[Entry]
        ensures { result.now ≡ self.now }
    {
        self.entries.as_slice()
    }
}
