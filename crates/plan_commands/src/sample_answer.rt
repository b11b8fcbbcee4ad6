//! The answer to the command `sample`.

ghost use Rattle.std.specs.Prelude.{◌+◌, ◌<◌, ◌^◌, IfOk, length};
ghost use Rattle.plan_commands.specs.Answers.{Answers};
ghost use Rattle.plan_commands.specs.declared.command.Command.TheVariants as asked;

use crate::answer::{Answer, fault_answer};
use crate::sampled_network::SampledNetwork;
use lwb_base::Memory;
use network_text::parse_network;
use std::alloc::Global;
use text_readers::ParseFault;

/// The network that the bytes are a text of, with the seeds whose texts are to be written; or the line of their first fault.
pub fn sample_answer(alloc: Global, from: u64, count: u64, bytes: &[u8]) -> Result<Answer, Memory>
    requires short { length bytes.now < 2 ^ 31 }
    requires few { from + count < 2 ^ 64 }
    ensures { IfOk result (λ a. Answers (asked.Sample from count) bytes.now a) }
{
    match parse_network(alloc, bytes) {
        Ok((scenario, ratios)) => Ok(Answer::Parts(SampledNetwork {
            scenario,
            ratios,
            from,
            count,
        })),
        Err(ParseFault::Line(line, kind)) => fault_answer(alloc, line, kind),
        Err(ParseFault::Memory) => Err(Memory),
    }
}
