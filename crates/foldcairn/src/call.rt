//! The call that the process makes.

ghost use Rattle.foldcairn.specs.TopCalls.{CallsTop};

use command_line::ProcessCall;
use lwb_base::{Sink, Source};
use run_commands::top;
use std::alloc::Global;

/// The process calls `top`, over any source and sink, and ends with its status.
pub struct TopCall;

impl<S: Source, K: Sink> ProcessCall<S, K> for TopCall {
    ghost is_call = { CallsTop (record { left = S.left; read_faults = S.faults; held = K.held; write_faults = K.faults }) };

    fn call(alloc: Global, words: &[String], source: &mut S, sink: &mut K) -> u8 {
        top(alloc, words, source, sink).status
    }
}
