//! The commands of a program, as a trait.

ghost use Rattle.std.specs.Prelude.{◌≡◌, ◌⊎◌, ◌<◌, ◌^◌, ◌↔◌, ℕ, List, Bool, true, Option, Some, None, String as StringOf, IfOk, length};
ghost use Rattle.std.specs.declared.alloc.Global.{Global as GlobalOf};
ghost use Rattle.text_readers.specs.declared.fault.FaultKind.{FaultKind as KindOf};
ghost use Rattle.command_line.specs.Answers.{IsAnswer};

use crate::answer::{Answer, ReportInParts};
use lwb_base::Memory;
use std::alloc::Global;

/// What the words of a program's command line can ask for: one of its commands.
pub trait ProgramCommand: Copy {
    /// What comes with a report.
    type Log: Drop;

    /// A report that is written in parts.
    type Parts: ReportInParts;

    /// The words ask for it.
    ghost asks: { List (StringOf GlobalOf) → Self → Type 0 };

    /// Whether it reads its source.
    ghost reads: { Self → Bool };

    /// The first fault of the bytes that it reads, by its grammar.
    ghost fault_of: { Self → List ℕ → Option (ℕ × KindOf) };

    /// The text is its report on the bytes that it read, and comes with the log.
    ghost reports: { Self → List ℕ → Self.Log → List ℕ → Type 0 };

    /// Its report is written in these parts, so memory may run out after some of them.
    ghost in_parts: { Self → Self.Parts → Type 0 };

    /// What comes with any other text.
    ghost no_log: { Self.Log };

    /// The usage line of the program.
    ghost usage: { List ℕ };

    /// The command that the words ask for.
    fn of_words(words: &[String]) -> Option<Self>
        ensures { (c : Self) → (result ≡ Some c) ↔ asks words.now c };

    /// The usage line.
    fn usage() -> &'static [u8]
        ensures { result.now ≡ usage };

    /// Whether the command reads its source.
    fn reads(self) -> bool
        ensures { result ≡ reads self };

    /// The log that comes with no report.
    fn no_log(alloc: Global) -> Self::Log
        ensures { result ≡ no_log };

    /// What the command has to write of these bytes. The only error is out of memory.
    fn answer(self, alloc: Global, bytes: &[u8]) -> Result<Answer<Self::Log, Self::Parts>, Memory>
        requires length { length bytes.now < 2 ^ 31 }
        requires asked { (words : List (StringOf GlobalOf)) × asks words self }
        ensures { IfOk result
            (IsAnswer (reports self bytes.now) no_log (fault_of self bytes.now) (in_parts self) Self.Parts.text) };

    // A report tells that the bytes have no fault.
    ghost has_text: { (c : Self) (b : List ℕ) (log : Self.Log) (text : List ℕ) → reports c b log text → fault_of c b ≡ None };

    // Parts of a report can be written.
    ghost are_ready: { (c : Self) (x : Self.Parts) → in_parts c x → Self.Parts.is_ready x };

    // A command that reads nothing has no fault.
    ghost reads_or_none: { (c : Self) (b : List ℕ) → (reads c ≡ true) ⊎ (fault_of c b ≡ None) };
}
