//! The deliveries of a run in the order in which a report has them.

ghost use Rattle.std.specs.Prelude.{◌≡◌, ◌<◌, ◌≤◌, OnOk, length};
ghost use Rattle.lwb_base.specs.Sorting.{in_order};
ghost use Rattle.air_log.specs.Deliveries.{delivery_comes_before};
ghost use Rattle.world_engine.specs.SortedRuns.{KeepsTies};

use bus_rules::Delivery;
use lwb_base::Memory;
use std::alloc::Global;

// By frame, rank, slot and node. Deliveries that this order leaves equal stay in theirs.
pub(crate) fn sort_deliveries(alloc: Global, deliveries: &mut Vec<Delivery>) -> Result<(), Memory>
    ensures { OnOk result (deliveries.new.items ≡ in_order delivery_comes_before deliveries.old.items) }
{
    // They were made slot by slot, so that hardly anything is out of order after this.
    sort_slots(alloc, deliveries)?;
    deliveries.sort_by_key(|delivery| place(delivery))?;
    Ok(())
}

// The deliveries of a slot that are next to each other are sorted among themselves.
fn sort_slots(alloc: Global, deliveries: &mut [Delivery]) -> Result<(), Memory>
    ensures ties { OnOk result (KeepsTies deliveries.old deliveries.new) }
    ensures many { length deliveries.new ≡ length deliveries.old }
{
    let mut first = 0;
    while first < deliveries.len() {
        let past = end_of_slot(deliveries, first);
        sort_run(alloc, deliveries, first, past)?;
        first = past;
    }
    Ok(())
}

// Where the deliveries end that are of the slot of the first one and next to it.
fn end_of_slot(deliveries: &[Delivery], first: usize) -> usize
    requires { first < length deliveries.now }
    ensures { (first < result) × (result ≤ length deliveries.now) }
{
    let (frame, slot) = (deliveries[first].frame, deliveries[first].slot);
    let mut past = first + 1;
    while past < deliveries.len() {
        if deliveries[past].slot != slot || deliveries[past].frame != frame {
            return past;
        }
        past += 1;
    }
    past
}

// The deliveries from the first place up to that past the last are sorted among themselves.
fn sort_run(
    alloc: Global,
    deliveries: &mut [Delivery],
    first: usize,
    past: usize,
) -> Result<(), Memory>
    requires { (first ≤ past) × (past ≤ length deliveries.old) }
    ensures ties { OnOk result (KeepsTies deliveries.old deliveries.new) }
    ensures many { length deliveries.new ≡ length deliveries.old }
{
    let run = &mut deliveries[first..past];
    run.sort_by_key(alloc, |delivery| place(delivery))?;
    Ok(())
}

// What the order goes by.
fn place(delivery: &Delivery) -> (u32, u8, u8, u8)
    ensures { result ≡ (delivery.now.frame, delivery.now.rank, delivery.now.slot, delivery.now.node) }
{
    (
        delivery.frame,
        delivery.rank.number(),
        delivery.slot,
        delivery.node.number(),
    )
}
