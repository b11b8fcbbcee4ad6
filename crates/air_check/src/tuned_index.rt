//! The tunings of a log in the order in which they are searched.

ghost use Rattle.std.specs.Prelude.{◌≡◌, ◌≤◌, ◌⊎◌, ◌++◌, IfOk, OnOk, map, AllPairs, option_to_list};
ghost use Rattle.std.specs.Option.{option_map};
ghost use Rattle.air_log.specs.Entries.{tunings_of, tuning_in};
ghost use Rattle.air_check.specs.Tunings.{AreTuned, IsNoLater, IsUntilAfter, tuning_of_tuned};

use crate::sent::entry_at;
use crate::tunings::Tuned;
use air_log::{Air, Entry};
use lwb_base::Memory;
use std::alloc::Global;

/// The tunings of a log by node, then channel, then start. `Err` means out of memory.
pub(crate) fn tuned_of(alloc: Global, air: &Air) -> Result<Vec<Tuned>, Memory>
    ensures { IfOk result (λ es. AreTuned (tunings_of air.now) es.items) }
{
    let mut tunings = tunings_in(alloc, air)?;
    tunings.sort_by_key(|e| place(e))?;
    let tuned = extended(alloc, &tunings)?;
    Ok(tuned)
}

// What the order goes by.
fn place(e: &Tuned) -> (u8, u8, u64)
    ensures { result ≡ (e.now.node, e.now.rank, e.now.start) }
{
    (e.node.number(), e.rank.number(), e.start)
}

// In this order, each lasts at least as long as those of its node and channel before it.
fn extended(alloc: Global, tunings: &[Tuned]) -> Result<Vec<Tuned>, Memory>
    requires { AllPairs IsNoLater tunings.now }
    ensures { IfOk result (λ es. AreTuned (map tuning_of_tuned tunings.now) es.items) }
{
    let mut tuned: Vec<Tuned> = Vec::new(alloc);
    for e in tunings {
        let until = until_after(&tuned, *e);
        tuned.push(Tuned {
            node: e.node,
            rank: e.rank,
            start: e.start,
            until,
        })?;
    }
    Ok(tuned)
}

// Until when the node is on the channel of e, by e and those before it.
fn until_after(tuned: &[Tuned], e: Tuned) -> u64
    ensures { IsUntilAfter tuned.now e result }
{
    let count = tuned.len();
    if count == 0 {
        return e.until;
    }
    longer(tuned[count - 1], e)
}

// Until when the node is on the channel of e, where this is the last before it.
fn longer(last: Tuned, e: Tuned) -> u64
    ensures own { e.until ≤ result }
    ensures lasts { last.node ≡ e.node → last.rank ≡ e.rank → last.until ≤ result }
    ensures from { (result ≡ e.until) ⊎ ((last.node ≡ e.node) × (last.rank ≡ e.rank) × (last.until ≡ result)) }
{
    if last.node == e.node && last.rank == e.rank && last.until > e.until {
        last.until
    } else {
        e.until
    }
}

// The tunings of a log as they are.
fn tunings_in(alloc: Global, air: &Air) -> Result<Vec<Tuned>, Memory>
    ensures { IfOk result (λ es. map tuning_of_tuned es.items ≡ tunings_of air.now) }
{
    let mut tunings = Vec::new(alloc);
    for i in 0..air.len() {
        push_some(&mut tunings, tuned_by(entry_at(air, i)))?;
    }
    Ok(tunings)
}

fn push_some(tunings: &mut Vec<Tuned>, e: Option<Tuned>) -> Result<(), Memory>
    ensures { OnOk result (tunings.new.items ≡ tunings.old.items ++ option_to_list e) }
{
    if let Some(e) = e {
        tunings.push(e)?;
    }
    Ok(())
}

// The tuning that an entry says.
fn tuned_by(entry: &Entry) -> Option<Tuned>
    ensures { option_map tuning_of_tuned result ≡ tuning_in entry.now }
{
    match entry {
        Entry::Tuned(tuned) => Some(Tuned {
            node: tuned.node,
            rank: tuned.rank,
            start: tuned.start,
            until: tuned.end,
        }),
        Entry::Sent(_) | Entry::Heard(_) => None,
    }
}
