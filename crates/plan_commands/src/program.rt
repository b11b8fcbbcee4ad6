//! What each command reads and answers.

ghost use Rattle.std.specs.Prelude.{◌<◌, ◌^◌, IfOk, length};
ghost use Rattle.std.proofs.Common.{inl, refl};
ghost use Rattle.plan_commands.specs.Answers.{Answers, IsAsked, IsSampledBy};
ghost use Rattle.plan_commands.specs.CommandLaws.{is_text};
ghost use Rattle.plan_commands.specs.Commands.{Asks, reads, fault_of, usage};
ghost use Rattle.plan_commands.specs.Reports.{IsReport};

use crate::answer::Answer;
use crate::bounds_answer::bounds_answer;
use crate::command::{Command, command_of};
use crate::draw_answer::draw_answer;
use crate::fates_answer::fates_answer;
use crate::log_answer::log_answer;
use crate::outcome_answer::outcome_answer;
use crate::run_answer::run_answer;
use crate::sample_answer::sample_answer;
use crate::sampled_network::SampledNetwork;
use command_line::ProgramCommand;
use lwb_base::Memory;
use std::alloc::Global;

impl ProgramCommand for Command {
    type Log = ();

    type Parts = SampledNetwork;

    ghost asks = { Asks };

    ghost reads = { reads };

    ghost fault_of = { fault_of };

    ghost reports = { λ c b log. IsReport c b };

    ghost in_parts = { IsSampledBy };

    ghost no_log = { tt };

    ghost usage = { usage };

    fn of_words(words: &[String]) -> Option<Command> {
        command_of(words)
    }

    fn usage() -> &'static [u8] {
        b"usage: draw SEED | outcome SEED | fates SEED | run SEED | log SEED | sample FROM COUNT | bounds\n"
    }

    fn reads(self) -> bool {
        true
    }

    fn no_log(_alloc: Global) {}

    fn answer(self, alloc: Global, bytes: &[u8]) -> Result<Answer, Memory> {
        answer(alloc, self, bytes)
    }

    ghost has_text = { λ c b log. is_text c b };

    ghost are_ready = { λ c x of. of.1 };

    ghost reads_or_none = { λ c b. inl refl };
}

// What the command has to write of these bytes.
fn answer(alloc: Global, command: Command, bytes: &[u8]) -> Result<Answer, Memory>
    requires length { length bytes.now < 2 ^ 31 }
    requires asked { IsAsked command }
    ensures { IfOk result (λ a. Answers command bytes.now a) }
{
    match command {
        Command::Draw { seed } => draw_answer(alloc, seed, bytes),
        Command::Outcome { seed } => outcome_answer(alloc, seed, bytes),
        Command::Fates { seed } => fates_answer(alloc, seed, bytes),
        Command::Run { seed } => run_answer(alloc, seed, bytes),
        Command::Log { seed } => log_answer(alloc, seed, bytes),
        Command::Sample { from, count } => sample_answer(alloc, from, count, bytes),
        Command::Bounds => bounds_answer(alloc, bytes),
    }
}
