//! The commands, by the words that ask for them.

ghost use Rattle.std.specs.Prelude.{◌≡◌, ◌↔◌, Some, SomeIff, false};
ghost use Rattle.scenario_maker.specs.Made.{IsSize};
ghost use Rattle.run_commands.specs.Commands.{Asks, reads as reads_of};
ghost use Rattle.run_commands.specs.declared.command.Command.{Command as CommandOf};
ghost use Rattle.run_commands.specs.declared.command.Command.TheVariants as asked;

use command_line::{is_word, number};
use lwb_base::{MOST_FRAMES, MOST_NODES};
use scenario_text::RUN_NODE_FRAMES;

/// What the words of the command line can ask for.
#[derive(Clone, Copy)]
pub enum Command {
    /// One flood of a flood text.
    Flood,
    /// The run of a scenario.
    Run,
    /// The same, with the text of its log.
    Log,
    /// What the scenario gives on the ideal single-hop bus, without clocks.
    Bus,
    /// The summary of the run of the scenario that a seed makes, of 2 to 64 nodes and 1 to 4,096 frames; nodes times frames
    /// is at most `RUN_NODE_FRAMES`.
    Demo { seed: u64, nodes: u8, frames: u32 },
    /// Whether a recorded log of a scenario is valid (`Lawful`), or what is wrong with it.
    Check,
    /// What becomes of streams with deadlines, and the rounds of those that are admitted.
    Deadlines,
    /// When each data packet of the run of a scenario was sent first, in the time of the host.
    Times,
    /// The run of a scenario in which backup hosts go back to a lower host that runs again.
    Return,
}

/// The command that the words ask for: its one word, or `demo` and three numbers, and nothing after it.
pub fn command_of(words: &[String]) -> Option<Command>
    ensures { (c : CommandOf) → (result ≡ Some c) ↔ Asks words.now c }
{
    if is_word(words, b"flood") {
        Some(Command::Flood)
    } else if is_word(words, b"run") {
        Some(Command::Run)
    } else if is_word(words, b"log") {
        Some(Command::Log)
    } else if is_word(words, b"bus") {
        Some(Command::Bus)
    } else if is_word(words, b"check") {
        Some(Command::Check)
    } else if is_word(words, b"deadlines") {
        Some(Command::Deadlines)
    } else if is_word(words, b"times") {
        Some(Command::Times)
    } else if is_word(words, b"return") {
        Some(Command::Return)
    } else {
        demo_of(words)
    }
}

// The command that reads nothing.
fn demo_of(words: &[String]) -> Option<Command>
    ensures { (c : CommandOf) → (result ≡ Some c) ↔ ((reads_of c ≡ false) × Asks words.now c) }
{
    let [word, seed, nodes, frames] = words else {
        return None;
    };
    if word.as_str() != "demo" {
        return None;
    }
    let seed = number(seed.as_str())?;
    let nodes = number(nodes.as_str())?;
    let frames = number(frames.as_str())?;
    sized(seed, nodes, frames)
}

// Such a command, unless it has too few or too many nodes or frames.
fn sized(seed: u64, nodes: u64, frames: u64) -> Option<Command>
    ensures { SomeIff result (IsSize nodes frames) (asked.Demo seed nodes frames) }
{
    if !(2..=MOST_NODES as u64).contains(&nodes)
        || !(1..=u64::from(MOST_FRAMES)).contains(&frames)
    {
        return None;
    }
    if nodes * frames > u64::from(RUN_NODE_FRAMES) {
        return None;
    }
    Some(Command::Demo {
        seed,
        nodes: nodes as u8,
        frames: frames as u32,
    })
}
