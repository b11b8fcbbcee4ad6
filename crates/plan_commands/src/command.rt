//! The commands, by the words that ask for them.

ghost use Rattle.std.specs.Prelude.{◌≡◌, ◌↔◌, ◌<◌, ◌^◌, [], ◌∷◌, Some};
ghost use Rattle.plan_commands.specs.Commands.{Asks, IsSampled, IsSeeded, Spell};
ghost use Rattle.plan_commands.specs.declared.command.Command.{Command as CommandOf};

use command_line::number;

/// How many seeds there are, from 0 on.
const SEEDS: u64 = 10_000_000_000_000;

/// What the words of the command line can ask for.
#[derive(Clone, Copy)]
pub enum Command {
    /// The scenario with those losses of the seed that change what somebody receives, as a text for a run.
    Draw { seed: u64 },
    /// What a network gives on the ideal single-hop bus, with the losses that the seed draws.
    Outcome { seed: u64 },
    /// What became of each packet that the script puts, on that bus with those losses.
    Fates { seed: u64 },
    /// The report of a run of the network in true time, with the losses that the seed draws.
    Run { seed: u64 },
    /// The same, with the text of its log.
    Log { seed: u64 },
    /// What became of the packets for each seed of a sample: the first one and their number. No seed is above the greatest.
    Sample { from: u64, count: u64 },
    /// Which bounds hold of a network for every seed, and which are open and why.
    Bounds,
}

/// The command that the words ask for: its word and its numbers, and nothing after them.
pub fn command_of(words: &[String]) -> Option<Command>
    ensures { (c : CommandOf) → (result ≡ Some c) ↔ Asks words.now c }
{
    match words {
        [word] => alone(word.as_str()),
        [word, seed] => seeded_by(word.as_str(), seed.as_str()),
        [word, from, count] => sampled_by(word.as_str(), from.as_str(), count.as_str()),
        _ => None,
    }
}

fn alone(word: &str) -> Option<Command>
    ensures { (c : CommandOf) → (result ≡ Some c) ↔ Spell (word.now ∷ []) c }
{
    if word == "bounds" {
        Some(Command::Bounds)
    } else {
        None
    }
}

fn seeded_by(word: &str, seed: &str) -> Option<Command>
    ensures { (c : CommandOf) → (result ≡ Some c) ↔ Spell (word.now ∷ seed.now ∷ []) c }
{
    let seed = number(seed)?;
    seeded(word, seed)
}

fn sampled_by(word: &str, from: &str, count: &str) -> Option<Command>
    ensures { (c : CommandOf) → (result ≡ Some c) ↔ Spell (word.now ∷ from.now ∷ count.now ∷ []) c }
{
    let from = number(from)?;
    let count = number(count)?;
    sampled(word, from, count)
}

// The command of this word, with this seed.
fn seeded(word: &str, seed: u64) -> Option<Command>
    ensures { (c : CommandOf) → (result ≡ Some c) ↔ IsSeeded word.now seed c }
{
    if word == "draw" {
        Some(Command::Draw { seed })
    } else if word == "outcome" {
        Some(Command::Outcome { seed })
    } else if word == "fates" {
        Some(Command::Fates { seed })
    } else if word == "run" {
        Some(Command::Run { seed })
    } else if word == "log" {
        Some(Command::Log { seed })
    } else {
        None
    }
}

// And with these seeds, where none is above the greatest.
fn sampled(word: &str, from: u64, count: u64) -> Option<Command>
    requires few { from < 10 ^ 13 }
    requires fewer { count < 10 ^ 13 }
    ensures { (c : CommandOf) → (result ≡ Some c) ↔ IsSampled word.now from count c }
{
    if word == "sample" && from + count <= SEEDS {
        Some(Command::Sample { from, count })
    } else {
        None
    }
}
