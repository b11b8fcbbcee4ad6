//! What a command answers, and how a call ended.

ghost use Rattle.std.specs.Prelude.{◌≡◌, ◌≢◌, ◌⊎◌, ◌≤◌, List, ℕ};
ghost use Rattle.std.specs.Io.KnownBytes.{Appends};
ghost use Rattle.lwb_base.specs.Causes.{Rose};
ghost use Rattle.command_line.specs.Streams.{PartWritten};

use lwb_base::Sink;
use std::alloc::Global;

/// What a command writes of its input.
#[derive(Drop)]
pub enum Answer<L, P> {
    /// Its report, with the log of what it ran.
    Report(String, L),
    /// The line of the first fault.
    Fault(String),
    /// Its report, which is written in parts. It has no log.
    Parts(P),
}

/// A report whose parts are made and written one after another.
pub trait ReportInParts: Drop {
    /// The whole text.
    ghost text: { Self → List ℕ };

    /// It can be written.
    ghost is_ready: { Self → Type 0 };

    /// Writes the whole text, and gives 0. Or it writes a proper prefix of it, and gives 4 where the sink failed and 5 where memory
    /// ran out.
    fn write<K: Sink>(&self, alloc: Global, sink: &mut K) -> u8
        requires { is_ready self.now }
        ensures known { (result ≡ 0) ⊎ ((result ≡ 4) ⊎ (result ≡ 5)) }
        ensures whole { result ≡ 0 → Appends (K.held sink.old) (K.held sink.new) (text self.now) }
        ensures part { result ≢ 0 → PartWritten (K.held sink.old) (K.held sink.new) (λ t. t ≡ text self.now) }
        ensures fault { result ≡ 4 → Rose (K.faults sink.old) (K.faults sink.new) }
        ensures later { K.faults sink.old ≤ K.faults sink.new };
}

/// How a call ended.
#[derive(Drop)]
pub struct Ended<L> {
    /// 0: the whole text was written. 1: the input was rejected. 2: the words are no command. 3: the source failed. 4: the sink
    /// failed. 5: out of memory.
    pub status: u8,
    /// The log of what was run, if the text is a report.
    pub log: L,
}
