//! The run of a process, over any source and sink.

ghost use Rattle.std.specs.Prelude.{ℕ, List, String as StringOf};
ghost use Rattle.std.specs.Process.{exit_status};
ghost use Rattle.std.specs.declared.alloc.Global.{Global as GlobalOf};
ghost use Rattle.command_line.specs.ProcessRuns.{IsProcessRun};

use crate::process_words::words_of;
use std::alloc::Global;
use std::env::Args;
use std::io;
use std::process::ExitCode;

/// The call that a program makes on the words of its process, over a source and a sink.
pub trait ProcessCall<S, K> {
    /// What such a call does: from the source and the sink before it to those after it, on these words, with this status.
    ghost is_call: { S → S → K → K → List (StringOf GlobalOf) → ℕ → Type 0 };

    /// Makes the call, and returns its status.
    fn call(alloc: Global, words: &[String], source: &mut S, sink: &mut K) -> u8
        ensures { is_call source.old source.new sink.old sink.new words.now result };
}

/// Makes the call of the program once on the words after its name, of those that the call for the process's words answered, and
/// exits with its status. Where there are none it reads and writes nothing, and exits with 5 or 6, as `words_of` says.
pub fn run_process<P: ProcessCall<S, K>, S, K>(
    alloc: Global,
    answer: io::Result<Args>,
    source: &mut S,
    sink: &mut K,
) -> ExitCode
    ensures { IsProcessRun (P.is_call source.old source.new sink.old sink.new) answer source.old source.new sink.old sink.new (exit_status result) }
{
    match words_of(alloc, answer) {
        Ok(words) => ExitCode::from(P::call(alloc, &words, source, sink)),
        Err(status) => ExitCode::from(status),
    }
}
