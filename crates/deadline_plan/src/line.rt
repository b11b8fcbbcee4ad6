//! The lines of a plan's text.

ghost use Rattle.std.specs.Prelude.{◌≡◌, map, drop};
ghost use Rattle.std.specs.List.{list_all};
ghost use Rattle.text_readers.specs.Faults.{spelled};
ghost use Rattle.text_readers.specs.Words.{is_number};
ghost use Rattle.deadline_plan.specs.DeadlineText.{deadline_line};

use text_readers::{FaultKind, five_numbers, is, one_number, word};

/// A line of the text, with its numbers as written.
#[derive(Clone, Copy)]
pub enum DeadlineLine {
    /// How many slots a frame has.
    Slots {
        count: u64,
    },
    /// How many frames there are.
    Frames {
        count: u64,
    },
    /// A stream that asks for admission.
    Stream {
        node: u64,
        stream: u64,
        start: u64,
        period: u64,
        deadline: u64,
    },
}

impl DeadlineLine {
    /// What the words say. `BadWord` comes where they are not those of a line, and else `BadNumber` where a number is
    /// misspelled.
    #[tactic(auto, unfolding(crate::specs::DeadlineText::deadline_line))]
    pub fn new(words: &[&[u8]]) -> Result<DeadlineLine, FaultKind>
        ensures { let ws = map (λ w. w.now) words.now in result ≡ spelled (deadline_line ws) (λ _. list_all is_number (drop 1 ws)) }
    {
        let first = word(words, 0);
        if is(first, b"slots") {
            let count = one_number(words)?;
            Ok(DeadlineLine::Slots { count })
        } else if is(first, b"frames") {
            let count = one_number(words)?;
            Ok(DeadlineLine::Frames { count })
        } else if is(first, b"stream") {
            let (node, stream, start, period, deadline) = five_numbers(words)?;
            Ok(DeadlineLine::Stream {
                node,
                stream,
                start,
                period,
                deadline,
            })
        } else {
            Err(FaultKind::BadWord)
        }
    }
}
