//! The one call of a program: from words and input to the text that is written.

ghost use Rattle.std.specs.Prelude.{◌≡◌, ◌≢◌, ◌⊎◌, ◌≤◌, ◌<◌, ◌^◌, ℕ, List, length};
ghost use Rattle.lwb_base.specs.Causes.{Rose};
ghost use Rattle.command_line.specs.Streams.{IsInput, PartRead, Written, PartWritten};
ghost use Rattle.command_line.specs.TextsDue.{AskForOne, AskToRead, IsReportDue, IsFaultDue, IsUsageDue, IsStatusDue};

use crate::answer::{Answer, Ended, ReportInParts};
use crate::faults::TOO_LONG;
use crate::program_command::ProgramCommand;
use crate::streams::{input, say};
use lwb_base::{Memory, ReadStop, Sink, Source};
use std::alloc::Global;

/// Does what the words of the command line ask for: it reads the source to its end, or nothing for a command that reads none, and
/// writes the text that is due. The words do not contain the program's name.
pub fn top<C: ProgramCommand, S: Source, K: Sink>(
    alloc: Global,
    words: &[String],
    source: &mut S,
    sink: &mut K,
) -> Ended<C::Log>
    ensures known { result.status ≤ 5 }
    ensures report { result.status ≡ 0 → Written (K.held sink.old) (K.held sink.new)
        (IsReportDue C.asks C.reads (λ c b. C.reports c b result.log) words.now (S.left source.old) (S.left source.new)) }
    ensures fault { result.status ≡ 1
        → Written (K.held sink.old) (K.held sink.new) (IsFaultDue C.asks C.reads C.fault_of words.now (S.left source.old) (S.left source.new)) }
    ensures usage { result.status ≡ 2 → Written (K.held sink.old) (K.held sink.new) (IsUsageDue C.asks C.usage words.now) }

    // A source that failed, a sink that failed, and out of memory. What was taken before is gone from the source, and no more is. Only
    // a report that is written in parts may have gone out before the memory ran out.
    ensures read_fault { result.status ≡ 3 → AskToRead C.asks C.reads words.now × Rose (S.faults source.old) (S.faults source.new)
        × PartRead (S.left source.old) (S.left source.new) × (sink.new ≡ sink.old) }
    ensures write_fault { result.status ≡ 4 → Rose (K.faults sink.old) (K.faults sink.new) × PartWritten (K.held sink.old) (K.held sink.new)
        (λ text. IsReportDue C.asks C.reads (λ c b. C.reports c b result.log) words.now (S.left source.old) (S.left source.new) text
        ⊎ ((IsFaultDue C.asks C.reads C.fault_of words.now (S.left source.old) (S.left source.new) text ⊎ IsUsageDue C.asks C.usage words.now text)
        × (result.log ≡ C.no_log))) }
    ensures memory { result.status ≡ 5 → AskForOne C.asks words.now × PartRead (S.left source.old) (S.left source.new)
        × ((sink.new ≡ sink.old) ⊎ (((c : C) × (x : C.Parts) × C.asks words.now c × C.in_parts c x) × PartWritten (K.held sink.old) (K.held sink.new)
        (IsReportDue C.asks C.reads (λ c b. C.reports c b result.log) words.now (S.left source.old) (S.left source.new)))) }
    ensures no_log { result.status ≢ 0 → result.status ≢ 4 → result.log ≡ C.no_log }

    // The counts of faults never fall, and for words that ask for no command that reads the source stays as it was.
    ensures source_later { S.faults source.old ≤ S.faults source.new }
    ensures sink_later { K.faults sink.old ≤ K.faults sink.new }
    ensures complete { (c : C) → C.asks words.now c → (Rose (S.faults source.old) (S.faults source.new) → ⊥)
        → (Rose (K.faults sink.old) (K.faults sink.new) → ⊥)
        → (b : List ℕ) → IsInput (C.reads c) (S.left source.old) b → IsStatusDue (C.fault_of c b) b result.status }
    ensures complete_usage { (AskForOne C.asks words.now → ⊥) → (Rose (K.faults sink.old) (K.faults sink.new) → ⊥) → result.status ≡ 2 }
    ensures untouched { (AskToRead C.asks C.reads words.now → ⊥) → source.new ≡ source.old }
{
    let Some(command) = C::of_words(words) else {
        return without_log::<C>(alloc, say(sink, C::usage(), 2));
    };
    let bytes = match input(alloc, command.reads(), source) {
        Ok(bytes) => bytes,
        Err(ReadStop::ReadFault) => return without_log::<C>(alloc, 3),
        Err(ReadStop::TooLong) => return without_log::<C>(alloc, say(sink, TOO_LONG, 1)),
        Err(ReadStop::Memory) => return without_log::<C>(alloc, 5),
    };
    match command.answer(alloc, &bytes) {
        Ok(Answer::Report(text, log)) => {
            let status = say(sink, text.as_bytes(), 0);
            Ended { status, log }
        }
        Ok(Answer::Fault(text)) => without_log::<C>(alloc, say(sink, text.as_bytes(), 1)),
        Ok(Answer::Parts(report)) => without_log::<C>(alloc, report.write(alloc, sink)),
        Err(Memory) => without_log::<C>(alloc, 5),
    }
}

fn without_log<C: ProgramCommand>(alloc: Global, status: u8) -> Ended<C::Log>
    ensures status { result.status ≡ status }
    ensures log { result.log ≡ C.no_log }
{
    Ended {
        status,
        log: C::no_log(alloc),
    }
}
