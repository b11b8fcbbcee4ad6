//! The schedules that nodes received of their rounds: for each round the first one.

ghost use Rattle.std.specs.Prelude.{◌≡◌, ◌++◌, ◌∷◌, [], List, OnOk, None, true};
ghost use Rattle.bus_time.specs.Words.{Note, AreFirsts, IsFirstWord, word_comes_before};
ghost use Rattle.bus_time.specs.declared.words.Round.{Round as RoundOf};
ghost use Rattle.bus_time.specs.declared.words.Word.{Word as WordOf};

use lwb_base::Memory;
use std::alloc::Global;
use std::collections::HashMap;

// A round at a node: the id of the node, the rank and the frame.
#[derive(Clone, Copy, PartialEq, Eq, Hash)]
pub(crate) struct Round {
    pub(crate) node: u8,
    pub(crate) rank: u8,
    pub(crate) frame: u64,
}

// A schedule that a node received: how many frames before its round, the tick at which the reception ended, the slot, the
// counter and the number of bytes.
#[derive(Clone, Copy)]
pub(crate) struct Word {
    pub(crate) ahead: u8,
    pub(crate) end: u64,
    pub(crate) slot: u8,
    pub(crate) counter: u8,
    pub(crate) length: u8,
}

// For each round the schedule of the latest frame. Of several in one frame it is the one that ended first.
#[derive(Drop)]
pub(crate) struct Words {
    first: HashMap<Round, Word>,
}

impl Words {
    pub(crate) fn new(alloc: Global) -> Words
        ensures { AreFirsts [] result }
    {
        Words {
            first: HashMap::new(alloc),
        }
    }

    pub(crate) fn note(&mut self, round: Round, word: Word) -> Result<(), Memory>
        ensures { OnOk result ((notes : List Note) → AreFirsts notes self.old → AreFirsts (notes ++ (round, word) ∷ []) self.new) }
    {
        let old = self.first.get(&round).copied();
        if let Some(old) = old {
            if !comes_before(word, old) {
                return Ok(());
            }
        }
        self.first.insert(round, word)?;
        Ok(())
    }

    pub(crate) fn first(&self, round: Round) -> Option<Word>
        ensures { (notes : List Note) → AreFirsts notes self.now → IsFirstWord notes round result }
    {
        self.first.get(&round).copied()
    }
}

fn comes_before(a: Word, b: Word) -> bool
    ensures { result ≡ word_comes_before a b }
{
    a.ahead < b.ahead || a.ahead == b.ahead && a.end < b.end
}
