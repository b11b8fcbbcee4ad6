//! The lines of a flood text.

ghost use Rattle.std.specs.Prelude.{◌≡◌, map};
ghost use Rattle.text_readers.specs.Faults.{spelled};
ghost use Rattle.scenario_text.specs.FloodGrammar.{flood_line as flood_line_of, flood_numbers};

use crate::FaultKind;
use crate::network_line::NetworkLine;
use text_readers::{is, one_number, three_numbers, word};

/// A line of a flood text, with its numbers as written.
#[derive(Clone, Copy)]
pub enum FloodLine {
    /// A line that scenarios have too.
    InNetwork(NetworkLine),
    /// In that step of the flood the link is lost.
    Lose { step: u64, from: u64, to: u64 },
    /// The node that starts the flood.
    Start { id: u64 },
}

impl FloodLine {
    /// What the words say. `BadWord` comes where they are not those of a line, and else `BadNumber` where a number is
    /// misspelled.
    #[tactic(auto, unfolding(crate::specs::FloodGrammar::flood_line))]
    pub fn new(words: &[&[u8]]) -> Result<FloodLine, FaultKind>
        ensures { result ≡ spelled (flood_line_of (map (λ w. w.now) words.now)) (λ l. flood_numbers l (map (λ w. w.now) words.now)) }
    {
        let first = word(words, 0);
        if is(first, b"lose") {
            let (step, from, to) = three_numbers(words)?;
            Ok(FloodLine::Lose { step, from, to })
        } else if is(first, b"start") {
            let id = one_number(words)?;
            Ok(FloodLine::Start { id })
        } else {
            let line = NetworkLine::new(words)?;
            Ok(FloodLine::InNetwork(line))
        }
    }
}
