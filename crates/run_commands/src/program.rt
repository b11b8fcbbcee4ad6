//! What each command reads and answers.

ghost use Rattle.std.specs.Prelude.{◌<◌, ◌^◌, [], IfOk, length};
ghost use Rattle.run_commands.specs.Answers.{Answers, IsAsked};
ghost use Rattle.run_commands.specs.CommandLaws.{is_text, reads_or_none};
ghost use Rattle.run_commands.specs.Commands.{Asks, reads, fault_of, usage};
ghost use Rattle.run_commands.specs.Reports.{IsReport};

use crate::answer::Answer;
use crate::bus_answer::bus_answer;
use crate::check_answer::check_answer;
use crate::command::{Command, command_of};
use crate::deadline_answer::deadline_answer;
use crate::demo_answer::demo_answer;
use crate::flood_answer::flood_answer;
use crate::log_answer::log_answer;
use crate::return_answer::return_answer;
use crate::run_answer::run_answer;
use crate::times_answer::times_answer;
use air_log::Air;
use command_line::{NoParts, ProgramCommand};
use lwb_base::Memory;
use std::alloc::Global;

impl ProgramCommand for Command {
    type Log = Air;

    type Parts = NoParts;

    ghost asks = { Asks };

    ghost reads = { reads };

    ghost fault_of = { fault_of };

    ghost reports = { IsReport };

    ghost in_parts = { λ c x. ⊥ };

    ghost no_log = { [] };

    ghost usage = { usage };

    fn of_words(words: &[String]) -> Option<Command> {
        command_of(words)
    }

    fn usage() -> &'static [u8] {
        b"usage: flood | run | log | bus | demo SEED NODES FRAMES | check | deadlines | times | return\n"
    }

    fn reads(self) -> bool {
        match self {
            Command::Demo { .. } => false,
            Command::Flood
            | Command::Run
            | Command::Log
            | Command::Bus
            | Command::Check
            | Command::Deadlines
            | Command::Times
            | Command::Return => true,
        }
    }

    fn no_log(alloc: Global) -> Air {
        Air::new(alloc)
    }

    fn answer(self, alloc: Global, bytes: &[u8]) -> Result<Answer, Memory> {
        answer(alloc, self, bytes)
    }

    ghost has_text = { is_text };

    ghost are_ready = { λ c x none. tt };

    ghost reads_or_none = { reads_or_none };
}

// What the command has to write of these bytes.
fn answer(alloc: Global, command: Command, bytes: &[u8]) -> Result<Answer, Memory>
    requires length { length bytes.now < 2 ^ 31 }
    requires asked { IsAsked command }
    ensures { IfOk result (λ a. Answers command bytes.now a) }
{
    match command {
        Command::Flood => flood_answer(alloc, bytes),
        Command::Run => run_answer(alloc, bytes),
        Command::Log => log_answer(alloc, bytes),
        Command::Bus => bus_answer(alloc, bytes),
        Command::Demo {
            seed,
            nodes,
            frames,
        } => demo_answer(alloc, seed, nodes, frames),
        Command::Check => check_answer(alloc, bytes),
        Command::Deadlines => deadline_answer(alloc, bytes),
        Command::Times => times_answer(alloc, bytes),
        Command::Return => return_answer(alloc, bytes),
    }
}
