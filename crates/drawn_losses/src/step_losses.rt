//! The losses in a step of a flood that change what somebody receives in it.

ghost use Rattle.std.specs.Prelude.{◌≡◌, ◌<◌, ◌≤◌, ◌++◌, ◌&&◌, ℕ, Bool, List, OnOk, filter, length, map, not, slice_index};
ghost use Rattle.lwb_base.specs.declared.limits.TheConstants.{MOST_NODES};
ghost use Rattle.link_trace.specs.Masks.{IsMask};
ghost use Rattle.link_trace.specs.Passes.{passes};
ghost use Rattle.bus_terms.specs.Flooding.{Moment, Setting, moment};
ghost use Rattle.plain_bus.specs.FloodMasks.{AreAt, IsMaskedFlood, SendsForInitiators, station_at, traced};
ghost use Rattle.drawn_bus.specs.FloodLosses.{line_at};
ghost use Rattle.drawn_bus.specs.KeptLosses.{flood_over, receives_otherwise as receives_otherwise_in};
ghost use Rattle.drawn_losses.specs.StepLosses.{HaveSameCaptures, losses_of_step};

use link_trace::{Links, LoseLine, NodeSet};
use lwb_base::Memory;
use plain_bus::{Flood, Stations, hears};

/// Adds the losses of the step, by sender and receiver: of the links by which a node sends in it, that pass by `base` and not by
/// `links`, and whose receiver would receive something else by `base`. `now` is the beginning of the step. `Err` means out of
/// memory.
pub fn losses_in_step<M: Links, B: Links>(
    links: &M,
    base: &B,
    flood: &Flood,
    now: &Stations,
    step: u8,
    lines: &mut Vec<LoseLine>,
) -> Result<(), Memory>
    requires sealed { length now.now.each.items ≡ length (M.nodes links.now) }
    requires few { length (M.nodes links.now) ≤ MOST_NODES }
    requires same { B.nodes base.now ≡ M.nodes links.now }
    requires captures { HaveSameCaptures (B.lines base.now) (M.lines links.now) }
    ensures { OnOk result ((x : Setting) → IsMaskedFlood x (traced (M.lines links.now) (M.nodes links.now)) flood.now
        → SendsForInitiators x (moment x step) → AreAt (moment x step) (M.nodes links.now) now.now
        → lines.new.items
        ≡ lines.old.items ++ losses_of_step (B.lines base.now) flood.now.frame flood.now.slot (M.nodes links.now) x step) }
{
    if now.senders.is_empty() {
        return Ok(());
    }
    let changed = changed_nodes(links, base, flood, now, step);
    if changed.is_empty() {
        return Ok(());
    }
    losses_at(links, base, flood, now, step, changed, lines)
}

// Those at these nodes, which receive something else.
fn losses_at<M: Links, B: Links>(
    links: &M,
    base: &B,
    flood: &Flood,
    now: &Stations,
    step: u8,
    changed: NodeSet,
    lines: &mut Vec<LoseLine>,
) -> Result<(), Memory>
    requires sealed { length now.now.each.items ≡ length (M.nodes links.now) }
    requires few { length (M.nodes links.now) ≤ MOST_NODES }
    requires same { B.nodes base.now ≡ M.nodes links.now }
    ensures { OnOk result ((x : Setting) → IsMaskedFlood x (traced (M.lines links.now) (M.nodes links.now)) flood.now
        → AreAt (moment x step) (M.nodes links.now) now.now
        → IsMask (λ v. receives_otherwise_in x (flood_over (B.lines base.now) flood.now.frame flood.now.slot x) step v) (M.nodes links.now) changed
        → lines.new.items
        ≡ lines.old.items ++ losses_of_step (B.lines base.now) flood.now.frame flood.now.slot (M.nodes links.now) x step) }
{
    for place in 0..now.each.len() as u8 {
        let lost = lost_from(links, base, flood, now.senders, step, place);
        add_losses(flood, now, step, place, lost.and(changed), lines)?;
    }
    Ok(())
}

// The nodes that receive something else in the step by `base`.
fn changed_nodes<M: Links, B: Links>(
    links: &M,
    base: &B,
    flood: &Flood,
    now: &Stations,
    step: u8,
) -> NodeSet
    requires sealed { length now.now.each.items ≡ length (M.nodes links.now) }
    requires few { length (M.nodes links.now) ≤ MOST_NODES }
    requires same { B.nodes base.now ≡ M.nodes links.now }
    requires captures { HaveSameCaptures (B.lines base.now) (M.lines links.now) }
    ensures { (x : Setting) → IsMaskedFlood x (traced (M.lines links.now) (M.nodes links.now)) flood.now
        → SendsForInitiators x (moment x step) → AreAt (moment x step) (M.nodes links.now) now.now
        → IsMask (λ v. receives_otherwise_in x (flood_over (B.lines base.now) flood.now.frame flood.now.slot x) step v) (M.nodes links.now) result }
{
    let mut changed = NodeSet::EMPTY;
    for place in 0..now.each.len() as u8 {
        if receives_otherwise(links, base, flood, now, step, place) {
            changed = changed.with(place);
        }
    }
    changed
}

// Whether the node at this place receives something else in the step by `base`.
fn receives_otherwise<M: Links, B: Links>(
    links: &M,
    base: &B,
    flood: &Flood,
    now: &Stations,
    step: u8,
    place: u8,
) -> bool
    requires place { place < length now.now.each.items }
    requires sealed { length now.now.each.items ≡ length (M.nodes links.now) }
    requires few { length (M.nodes links.now) ≤ MOST_NODES }
    requires same { B.nodes base.now ≡ M.nodes links.now }
    requires captures { HaveSameCaptures (B.lines base.now) (M.lines links.now) }
    ensures { (x : Setting) → IsMaskedFlood x (traced (M.lines links.now) (M.nodes links.now)) flood.now
        → SendsForInitiators x (moment x step) → AreAt (moment x step) (M.nodes links.now) now.now
        → result ≡ receives_otherwise_in x (flood_over (B.lines base.now) flood.now.frame flood.now.slot x) step (slice_index (M.nodes links.now) place) }
{
    hears(links, flood, now, step, place) != hears(base, flood, now, step, place)
}

// The nodes to which a link from the node at this place passes by `base` and not by `links`, if it is one of the senders.
fn lost_from<M: Links, B: Links>(
    links: &M,
    base: &B,
    flood: &Flood,
    senders: NodeSet,
    step: u8,
    from: u8,
) -> NodeSet
    requires from { from < length (M.nodes links.now) }
    requires few { length (M.nodes links.now) ≤ MOST_NODES }
    requires same { B.nodes base.now ≡ M.nodes links.now }
    ensures { (sends : ℕ → Bool) → IsMask sends (M.nodes links.now) senders
        → IsMask (λ v. sends (slice_index (M.nodes links.now) from)
        && (passes (B.lines base.now) flood.now.frame flood.now.slot step (slice_index (M.nodes links.now) from) v
        && not (passes (M.lines links.now) flood.now.frame flood.now.slot step (slice_index (M.nodes links.now) from) v))) (M.nodes links.now) result }
{
    if !senders.has(from) {
        return NodeSet::EMPTY;
    }
    let passing = NodeSet::of_word(links.to_mask(flood.frame, flood.slot, step, from));
    let by_base = NodeSet::of_word(base.to_mask(flood.frame, flood.slot, step, from));
    by_base.except(passing)
}

// Adds those of the links from the node at this place to these nodes.
fn add_losses(
    flood: &Flood,
    now: &Stations,
    step: u8,
    from: u8,
    lost: NodeSet,
    lines: &mut Vec<LoseLine>,
) -> Result<(), Memory>
    requires from { from < length now.now.each.items }
    requires few { length now.now.each.items ≤ MOST_NODES }
    ensures { OnOk result ((m : Moment) (nodes : List ℕ) (test : ℕ → Bool) → now.now.each.items ≡ map (station_at m) nodes → IsMask test nodes lost
        → lines.new.items ≡ lines.old.items ++ map (line_at flood.now.frame flood.now.slot step (slice_index nodes from)) (filter test nodes)) }
{
    if lost.is_empty() {
        return Ok(());
    }
    let sender = now.each[usize::from(from)].node;
    for place in 0..now.each.len() as u8 {
        if lost.has(place) {
            lines.push(LoseLine {
                frame: flood.frame,
                slot: flood.slot,
                step,
                from: sender,
                to: now.each[usize::from(place)].node,
            })?;
        }
    }
    Ok(())
}
