//! What the lines of a text say so far, as a trait.

ghost use Rattle.std.specs.Prelude.{◌≡◌, ℕ, List, Result, map};
ghost use Rattle.text_readers.specs.Reading.{Reads};
ghost use Rattle.text_readers.specs.declared.fault.FaultKind.{FaultKind as KindOf};

use crate::fault::Refusal;

/// What the lines of a text say so far, in one of the grammars.
pub trait Draft: Drop {
    /// The draft after a line of these words, or the fault of the line.
    ghost after: { Self → List (List ℕ) → Result Self KindOf };

    /// Goes on by a line of these words, unless it is rejected.
    fn read(&mut self, words: &[&[u8]]) -> Result<(), Refusal>
        ensures { Reads result self.new (after self.old (map (λ w. w.now) words.now)) };
}
