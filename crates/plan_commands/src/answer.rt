//! What a command answers.

ghost use Rattle.std.specs.Prelude.{◌≡◌, ℕ, List, Some, IfOk};
ghost use Rattle.plan_commands.specs.Commands.{fault_of};
ghost use Rattle.plan_commands.specs.Answers.{Answers};
ghost use Rattle.plan_commands.specs.declared.command.Command.{Command as CommandOf};

use crate::sampled_network::SampledNetwork;
use command_line::fault_line;
use lwb_base::Memory;
use std::alloc::Global;
use text_readers::FaultKind;

/// What a command writes. No report has a log, and that of `sample` is written in parts.
pub type Answer = command_line::Answer<(), SampledNetwork>;

/// The answer to a text whose first fault is of this kind and in this line.
pub fn fault_answer(alloc: Global, line: u32, kind: FaultKind) -> Result<Answer, Memory>
    ensures { (c : CommandOf) (b : List ℕ) → fault_of c b ≡ Some (line, kind) → IfOk result (λ a. Answers c b a) }
{
    Ok(Answer::Fault(fault_line(alloc, line, kind)?))
}
