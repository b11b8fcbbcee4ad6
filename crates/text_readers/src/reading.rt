//! Reads a text line by line.

ghost use Rattle.std.specs.Prelude.{◌≡◌, ◌<◌, ◌≤◌, ◌^◌, ℕ, IfOk, length};
ghost use Rattle.std.specs.Str.Lines.{lines};
ghost use Rattle.text_readers.specs.Faults.{draft_after_lines};
ghost use Rattle.text_readers.specs.Reading.{draft_after_line, Reads, Drafts};

use crate::draft::Draft;
use crate::fault::Refusal;
use crate::words::{first_line, is_skipped, is_text, split_into};
use crate::{FaultKind, ParseFault};
use std::alloc::Global;

/// Goes on from a draft by all lines of a text of fewer than 2^31 bytes. The draft after them comes with their number, and
/// `Line` names the first line that is rejected and why.
pub fn read_lines<D: Draft>(alloc: Global, draft: D, bytes: &[u8]) -> Result<(D, u32), ParseFault>
    requires { length bytes.now < 2 ^ 31 }
    ensures draft { Drafts result (draft_after_lines (draft_after_line D.after) 1 draft (lines bytes.now)) }
    ensures count { IfOk result (λ d. (d.1 ≡ length (lines bytes.now)) × (d.1 ≤ length bytes.now)) }
{
    let mut draft = draft;
    let mut words = Vec::new(alloc);
    let mut rest = bytes;
    let mut count = 0;
    while !rest.is_empty() {
        let (line, others) = first_line(rest);
        match read_line(&mut words, &mut draft, line) {
            Ok(()) => {}
            Err(refusal) => return Err(refusal.in_line(count + 1)),
        }
        rest = others;
        count += 1;
    }
    Ok((draft, count))
}

// Goes on by one line, unless it is rejected. Its words take the place of those of the line before.
#[tactic(auto, unfolding(crate::specs::Reading::draft_after_line))]
fn read_line<'a, D: Draft>(
    words: &mut Vec<&'a [u8]>,
    draft: &mut D,
    line: &'a [u8],
) -> Result<(), Refusal>
    ensures { Reads result draft.new (draft_after_line D.after draft.old line.now) }
{
    split_into(words, line)?;
    let words = words.as_slice();
    if is_skipped(words) {
        return Ok(());
    }
    if !is_text(line) {
        return Err(Refusal::Fault(FaultKind::NotUtf8));
    }
    draft.read(words)
}
