//! The lines that floods and scenarios have in common.

ghost use Rattle.std.specs.Prelude.{◌≡◌, map};
ghost use Rattle.text_readers.specs.Faults.{spelled};
ghost use Rattle.scenario_text.specs.Network.{network_line as network_line_of, network_numbers};
ghost use Rattle.text_readers.specs.Words.{line_of_words, has_minus, magnitude, number as number_of, number_at, word as word_of};
ghost use Rattle.scenario_text.specs.declared.network_line.NetworkLine.TheVariants.{Rate};

use crate::FaultKind;
use text_readers::{is, number, one_number, signed_number, two_numbers, word};

/// A line that both texts have, with its numbers as written.
#[derive(Clone, Copy)]
pub enum NetworkLine {
    /// How often a node sends at most.
    Sends {
        count: u64,
    },
    /// A node, and what its clock reads at tick 0.
    Node {
        id: u64,
        offset: u64,
    },
    /// From that tick on the node's clock is this number of millionths fast, or slow.
    Rate {
        id: u64,
        tick: u64,
        slow: bool,
        parts: u64,
    },
    /// A link in one direction.
    Link {
        from: u64,
        to: u64,
    },
    /// A link in both directions.
    Pair {
        one: u64,
        other: u64,
    },
}

impl NetworkLine {
    /// What the words say. `BadWord` comes where they are not those of such a line, and else `BadNumber` where a number
    /// is misspelled.
    #[tactic(auto, unfolding(crate::specs::Network::network_line))]
    pub fn new(words: &[&[u8]]) -> Result<NetworkLine, FaultKind>
        ensures { result ≡ spelled (network_line_of (map (λ w. w.now) words.now)) (λ l. network_numbers l (map (λ w. w.now) words.now)) }
    {
        let first = word(words, 0);
        if is(first, b"sends") {
            let count = one_number(words)?;
            Ok(NetworkLine::Sends { count })
        } else if is(first, b"node") {
            let (id, offset) = two_numbers(words)?;
            Ok(NetworkLine::Node { id, offset })
        } else if is(first, b"rate") {
            rate_line(words)
        } else if is(first, b"link") {
            let (from, to) = two_numbers(words)?;
            Ok(NetworkLine::Link { from, to })
        } else if is(first, b"pair") {
            let (one, other) = two_numbers(words)?;
            Ok(NetworkLine::Pair { one, other })
        } else {
            Err(FaultKind::BadWord)
        }
    }
}

// The words after `rate`. Only the last number may have a `-`.
fn rate_line(words: &[&[u8]]) -> Result<NetworkLine, FaultKind>
    ensures { let ws = map (λ w. w.now) words.now in
        result ≡ spelled
        (line_of_words 4 ws (Rate (number_at ws 1) (number_at ws 2) (has_minus (word_of ws 3)) (number_of (magnitude (word_of ws 3)))))
        (λ l. network_numbers l ws) }
{
    let [_, id, tick, ppm] = words else {
        return Err(FaultKind::BadWord);
    };
    let id = number(id)?;
    let tick = number(tick)?;
    let (slow, parts) = signed_number(ppm)?;
    Ok(NetworkLine::Rate {
        id,
        tick,
        slow,
        parts,
    })
}
