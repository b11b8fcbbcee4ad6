//! What a command answers.

ghost use Rattle.std.specs.Prelude.{◌≡◌, ℕ, List, Some, IfOk};
ghost use Rattle.run_commands.specs.Answers.{Answers};
ghost use Rattle.run_commands.specs.Commands.{fault_of};
ghost use Rattle.run_commands.specs.declared.command.Command.{Command as CommandOf};

use air_log::Air;
use command_line::{NoParts, fault_line};
use lwb_base::Memory;
use scenario_text::FaultKind;
use std::alloc::Global;

/// What a command writes, and the log of what it ran.
pub type Answer = command_line::Answer<Air, NoParts>;

/// The answer to a text whose first fault is of this kind and in this line.
pub fn fault_answer(alloc: Global, line: u32, kind: FaultKind) -> Result<Answer, Memory>
    ensures { (c : CommandOf) (b : List ℕ) → fault_of c b ≡ Some (line, kind) → IfOk result (λ a. Answers c b a) }
{
    Ok(Answer::Fault(fault_line(alloc, line, kind)?))
}
