//! The call that the process makes.

ghost use Rattle.foldcairn_plan.specs.PlanCalls.{IsPlanCall};

use command_line::ProcessCall;
use lwb_base::{Sink, Source};
use plan_commands::plan_top;
use std::alloc::Global;

/// The process calls `plan_top`, over any source and sink, and ends with its status.
pub struct PlanTopCall;

impl<S: Source, K: Sink> ProcessCall<S, K> for PlanTopCall {
    ghost is_call = { IsPlanCall (record { left = S.left; read_faults = S.faults; held = K.held; write_faults = K.faults }) };

    fn call(alloc: Global, words: &[String], source: &mut S, sink: &mut K) -> u8 {
        plan_top(alloc, words, source, sink)
    }
}
