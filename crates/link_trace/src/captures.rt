//! Capture lines, in the order of their keys.

ghost use Rattle.std.specs.Prelude.{◌≡◌, ℕ, Ok, true, false, IfOk, IfErr, OnErr};
ghost use Rattle.std.specs.List.{list_any, find};
ghost use Rattle.std.specs.Option.{option_map};
ghost use Rattle.link_trace.specs.Passes.{is_capture};
ghost use Rattle.link_trace.specs.Order.{Ascends, HasPlace, IsFirst, with_line, by_capture};
ghost use Rattle.link_trace.specs.Starts.{AreStarts, of_capture};
ghost use Rattle.link_trace.specs.declared.lines.CaptureLine.{CaptureLine};

use crate::CaptureLine;
use crate::starts::{of_slots, slot_number};
use lwb_base::{Memory, NodeId};

/// Adds a line at its place by key. Returns `Ok(false)` if and only if a line of that key is there already.
pub fn add_capture(lines: &mut Vec<CaptureLine>, line: CaptureLine) -> Result<bool, Memory>
    requires { Ascends by_capture lines.old.items }
    ensures added { result ≡ Ok true → lines.new.items ≡ with_line by_capture line lines.old.items }
    ensures fresh { result ≡ Ok true
        → list_any (is_capture line.frame line.slot line.step line.at) lines.old.items ≡ false }
    ensures ascends { Ascends by_capture lines.new.items }
    ensures twice { result ≡ Ok false
        → list_any (is_capture line.frame line.slot line.step line.at) lines.old.items ≡ true }
    ensures there { list_any (is_capture line.frame line.slot line.step line.at) lines.old.items ≡ true
        → result ≡ Ok false }
    ensures same { result ≡ Ok false → lines.new.items ≡ lines.old.items }
    ensures err { OnErr result (lines.new.items ≡ lines.old.items) }
{
    match find_capture(lines, line.frame, line.slot, line.step, line.at) {
        Ok(_) => Ok(false),
        Err(place) => {
            lines.insert(place, line)?;
            Ok(true)
        }
    }
}

/// The sender that the line of the key names. Returns `None` if and only if there is no such line.
pub fn captured_sender(
    lines: &[CaptureLine],
    starts: &[usize],
    frame: u32,
    slot: u8,
    step: u8,
    at: NodeId,
) -> Option<NodeId>
    requires ascends { Ascends by_capture lines.now }
    requires starts { AreStarts of_capture lines.now starts.now }
    ensures { result ≡ option_map (λ (l : CaptureLine). l.from) (find (is_capture frame slot step at) lines.now) }
{
    let number = slot_number(frame, slot);
    let of_slot = of_slots(lines, starts, number, number);
    match find_capture(of_slot, frame, slot, step, at) {
        Ok(place) => Some(of_slot[place].from),
        Err(_) => None,
    }
}

// Where the line of that frame, slot, step and node is, or where it would go.
fn find_capture(
    lines: &[CaptureLine],
    frame: u32,
    slot: u8,
    step: u8,
    at: NodeId,
) -> Result<usize, usize>
    requires { Ascends by_capture lines.now }
    ensures found { IfOk result (IsFirst (is_capture frame slot step at) lines.now) }
    ensures absent { IfErr result (λ _. list_any (is_capture frame slot step at) lines.now ≡ false) }
    ensures place { IfErr result (λ place. (from : ℕ)
        → HasPlace by_capture lines.now (record { frame = frame; slot = slot; step = step; at = at; from = from }) place) }
{
    let key = (frame, slot, step, at);
    lines.binary_search_by_key(&key, |l| (l.frame, l.slot, l.step, l.at))
}
