//! Lines that are kept in ascending order.

ghost use Rattle.std.specs.Prelude.{◌≡◌, Ok, true, false, IfOk, IfErr, OnErr};
ghost use Rattle.std.specs.List.{list_any};
ghost use Rattle.std.specs.Ordering.{is_eq};
ghost use Rattle.link_trace.specs.Passes.{is_link, is_loss};
ghost use Rattle.link_trace.specs.Order.{Ascends, HasPlace, by_link, by_loss, with_line};

use crate::{LinkLine, LoseLine};
use lwb_base::{Memory, NodeId};

/// Adds a line at its place in the ascending lines. Returns `Ok(false)` if and only if it is there already.
pub fn add_in_order<L: Ord + Drop>(lines: &mut Vec<L>, line: L) -> Result<bool, Memory>
    requires { Ascends L.cmp lines.old.items }
    ensures added { result ≡ Ok true → lines.new.items ≡ with_line L.cmp line lines.old.items }
    ensures fresh { result ≡ Ok true → list_any (λ l. is_eq (L.cmp l line)) lines.old.items ≡ false }
    ensures ascends { Ascends L.cmp lines.new.items }
    ensures twice { result ≡ Ok false → list_any (λ l. is_eq (L.cmp l line)) lines.old.items ≡ true }
    ensures there { list_any (λ l. is_eq (L.cmp l line)) lines.old.items ≡ true → result ≡ Ok false }
    ensures same { result ≡ Ok false → lines.new.items ≡ lines.old.items }
    ensures err { OnErr result (lines.new.items ≡ lines.old.items) }
{
    match find_line(lines, &line) {
        Ok(_) => Ok(false),
        Err(place) => {
            lines.insert(place, line)?;
            Ok(true)
        }
    }
}

/// Whether the line is one of the ascending lines.
pub fn is_there<L: Ord>(lines: &[L], line: &L) -> bool
    requires { Ascends L.cmp lines.now }
    ensures { result ≡ list_any (λ l. is_eq (L.cmp l line.now)) lines.now }
{
    find_line(lines, line).is_ok()
}

/// Whether the pair is one of the links.
pub fn has_link(links: &[LinkLine], from: NodeId, to: NodeId) -> bool
    requires { Ascends by_link links.now }
    ensures { result ≡ list_any (is_link from to) links.now }
{
    is_there(links, &LinkLine { from, to })
}

/// Whether one of the lose lines loses the link of the pair in that frame, slot and step.
pub fn has_loss(
    losses: &[LoseLine],
    frame: u32,
    slot: u8,
    step: u8,
    from: NodeId,
    to: NodeId,
) -> bool
    requires { Ascends by_loss losses.now }
    ensures { result ≡ list_any (is_loss frame slot step from to) losses.now }
{
    let line = LoseLine {
        frame,
        slot,
        step,
        from,
        to,
    };
    is_there(losses, &line)
}

// Where the line is, or where it would go.
fn find_line<L: Ord>(lines: &[L], line: &L) -> Result<usize, usize>
    requires { Ascends L.cmp lines.now }
    ensures found { IfOk result (λ _. list_any (λ l. is_eq (L.cmp l line.now)) lines.now ≡ true) }
    ensures absent { IfErr result (λ _. list_any (λ l. is_eq (L.cmp l line.now)) lines.now ≡ false) }
    ensures place { IfErr result (HasPlace L.cmp lines.now line.now) }
{
    lines.binary_search(line)
}
