//! The call `top`: from words and input to the text that is written.

ghost use Rattle.std.specs.Prelude.{◌≡◌, ◌≢◌, ◌≤◌, ℕ, List, []};
ghost use Rattle.lwb_base.specs.Causes.{Rose};
ghost use Rattle.run_commands.specs.Commands.{Asks, IsCommand, IsReading, reads};
ghost use Rattle.command_line.specs.Streams.{IsInput, PartRead, Written, PartWritten};
ghost use Rattle.run_commands.specs.CommandLine.{ReportDue, FaultDue, UsageDue, SomeDue, IsComplete};
ghost use Rattle.run_commands.specs.declared.command.Command.{Command as CommandOf};

use crate::command::Command;
use air_log::Air;
use lwb_base::{Sink, Source};
use std::alloc::Global;

/// How a call of `top` ended.
#[derive(Drop)]
pub struct Outcome {
    /// 0: the whole text was written. 1: the input was rejected. 2: the words are no command. 3: the source failed. 4: the sink
    /// failed. 5: out of memory.
    pub status: u8,
    /// The log of what was run over the clocks that the text states. It is empty but with status 0, and with status 4
    /// where a report could not be written.
    pub air: Air,
}

/// Does what the words of the command line ask for: it reads the source to its end, or nothing for `demo`, and writes the
/// text that is due. The words do not contain the program's name.
///
/// With status 0, and with 4 where the text is a report, of `run`, `log` and `demo`: the log is valid (`Lawful`); one node at
/// most initiates in a data slot of a channel, transmissions of different steps never overlap there, relays of one data or
/// schedule flood differ only by counter; and the printed deliveries and drops are those of the ideal single-hop bus, received
/// by relay paths, each stream in order and no packet twice (`IsOfRun`). The report of `check` is the verdict on the log that
/// was read, and where that is `lawful`, the same holds of this log (`IsCheckReport`).
pub fn top<S: Source, K: Sink>(
    alloc: Global,
    words: &[String],
    source: &mut S,
    sink: &mut K,
) -> Outcome
    ensures known { result.status ≤ 5 }
    ensures report { result.status ≡ 0
        → Written (K.held sink.old) (K.held sink.new) (ReportDue words.now (S.left source.old) (S.left source.new) result.air) }
    ensures fault { result.status ≡ 1
        → Written (K.held sink.old) (K.held sink.new) (FaultDue words.now (S.left source.old) (S.left source.new)) }
    ensures usage { result.status ≡ 2 → Written (K.held sink.old) (K.held sink.new) (UsageDue words.now) }

    // A source that failed, a sink that failed, and out of memory. What was taken before is gone from the source, and no more is.
    ensures read_fault { result.status ≡ 3 → IsReading words.now × Rose (S.faults source.old) (S.faults source.new)
        × PartRead (S.left source.old) (S.left source.new) × (sink.new ≡ sink.old) }
    ensures write_fault { result.status ≡ 4 → Rose (K.faults sink.old) (K.faults sink.new)
        × PartWritten (K.held sink.old) (K.held sink.new) (SomeDue words.now (S.left source.old) (S.left source.new) result.air) }
    ensures memory { result.status ≡ 5 → IsCommand words.now × PartRead (S.left source.old) (S.left source.new) × (sink.new ≡ sink.old) }

    ensures no_log { result.status ≢ 0 → result.status ≢ 4 → result.air ≡ [] }

    // The counts of faults never fall, and for words that ask for no command that reads the source stays as it was.
    ensures source_later { S.faults source.old ≤ S.faults source.new }
    ensures sink_later { K.faults sink.old ≤ K.faults sink.new }
    ensures complete { (c : CommandOf) → Asks words.now c → (Rose (S.faults source.old) (S.faults source.new) → ⊥)
        → (Rose (K.faults sink.old) (K.faults sink.new) → ⊥)
        → (b : List ℕ) → IsInput (reads c) (S.left source.old) b → IsComplete c b result.status }
    ensures complete_usage { (IsCommand words.now → ⊥) → (Rose (K.faults sink.old) (K.faults sink.new) → ⊥) → result.status ≡ 2 }
    ensures untouched { (IsReading words.now → ⊥) → source.new ≡ source.old }
{
    let ended = command_line::top::<Command, S, K>(alloc, words, source, sink);
    Outcome {
        status: ended.status,
        air: ended.log,
    }
}
