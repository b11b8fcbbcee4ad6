//! The call `plan_top`: from words and input to the text that is written.

ghost use Rattle.std.specs.Prelude.{◌≡◌, ◌⊎◌, ◌≤◌, ℕ, List, Some};
ghost use Rattle.lwb_base.specs.Causes.{Rose};
ghost use Rattle.command_line.specs.Streams.{PartRead, Written, PartWritten};
ghost use Rattle.plan_commands.specs.Commands.{Asks, IsCommand};
ghost use Rattle.plan_commands.specs.TextsDue.{ReportDue, FaultDue, UsageDue, SomeDue, IsComplete, IsSample};
ghost use Rattle.plan_commands.specs.declared.command.Command.{Command as CommandOf};

use crate::command::Command;
use lwb_base::{Sink, Source};
use std::alloc::Global;

/// Does what the words of the command line ask for: it reads the source to its end, and writes the text that is due. The words
/// do not contain the program's name. Returns the status. 0: the whole text was written. 1: the input was rejected. 2: the words
/// are no command. 3: the source failed. 4: the sink failed. 5: out of memory.
///
/// With status 0 the text of `draw` is a scenario that a run accepts, whose deliveries, drops and costs on the bus are those of the
/// scenario with all losses that the seed draws (`IsDrawnText`). So `run` of it delivers and drops these (`top` of `run_commands`,
/// clause `report`: `AgreesWithBus`). The text of `outcome` is the bus report of the scenario with all these losses, and that of
/// `fates` says what became of each packet that it puts, and whether the host of its round delivered it. That of `sample` is the texts of
/// its seeds, one after another (`IsReport`). It writes each before it runs the next one, which no clause says. The texts of `run` and `log`
/// are those of a run of the scenario with all these losses in true time, of which all is said that is said of a run of `top` in
/// `run_commands` (`IsOfRun`).
/// With status 1 the line names the first fault by the grammar of networks, or, of `draw`, the line after the last where there is no
/// such text: `TooBig` for more nodes times frames than a run takes, else `TooMany` for more lines than a scenario has.
pub fn plan_top<S: Source, K: Sink>(
    alloc: Global,
    words: &[String],
    source: &mut S,
    sink: &mut K,
) -> u8
    ensures known { result ≤ 5 }
    ensures report { result ≡ 0
        → Written (K.held sink.old) (K.held sink.new) (ReportDue words.now (S.left source.old) (S.left source.new)) }
    ensures fault { result ≡ 1
        → Written (K.held sink.old) (K.held sink.new) (FaultDue words.now (S.left source.old) (S.left source.new)) }
    ensures usage { result ≡ 2 → Written (K.held sink.old) (K.held sink.new) (UsageDue words.now) }

    // A source that failed, a sink that failed, and out of memory. What was taken before is gone from the source, and no more is. Only
    // a sample may have written a part of its report before the memory ran out.
    ensures read_fault { result ≡ 3 → IsCommand words.now × Rose (S.faults source.old) (S.faults source.new)
        × PartRead (S.left source.old) (S.left source.new) × (sink.new ≡ sink.old) }
    ensures write_fault { result ≡ 4 → Rose (K.faults sink.old) (K.faults sink.new)
        × PartWritten (K.held sink.old) (K.held sink.new) (SomeDue words.now (S.left source.old) (S.left source.new)) }
    ensures memory { result ≡ 5 → IsCommand words.now × PartRead (S.left source.old) (S.left source.new)
        × ((sink.new ≡ sink.old) ⊎ (IsSample words.now
        × PartWritten (K.held sink.old) (K.held sink.new) (ReportDue words.now (S.left source.old) (S.left source.new)))) }

    // The counts of faults never fall, and for words that ask for no command the source stays as it was.
    ensures source_later { S.faults source.old ≤ S.faults source.new }
    ensures sink_later { K.faults sink.old ≤ K.faults sink.new }
    ensures complete { (c : CommandOf) → Asks words.now c → (Rose (S.faults source.old) (S.faults source.new) → ⊥)
        → (Rose (K.faults sink.old) (K.faults sink.new) → ⊥)
        → (b : List ℕ) → S.left source.old ≡ Some b → IsComplete c b result }
    ensures complete_usage { (IsCommand words.now → ⊥) → (Rose (K.faults sink.old) (K.faults sink.new) → ⊥) → result ≡ 2 }
    ensures untouched { (IsCommand words.now → ⊥) → source.new ≡ source.old }
{
    command_line::top::<Command, S, K>(alloc, words, source, sink).status
}
