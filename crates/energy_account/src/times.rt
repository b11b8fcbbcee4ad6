//! How long each node sent and was tuned in a log.

ghost use Rattle.std.specs.Prelude.{◌≡◌, ◌<◌, ℕ, List, [], ◌∷◌, ◌++◌, IfOk, All, length, replicate, slice_index_or, get_or};
ghost use Rattle.lwb_base.specs.declared.limits.TheConstants.{PLACES_BY_ID};
ghost use Rattle.air_log.specs.declared.entry.Entry.{Entry as EntryOf};
ghost use Rattle.energy_account.specs.Times.{HasTimes, IsRaised, EndsEarly};

use air_log::{Air, Entry};
use lwb_base::{Memory, NodeId, PLACES_BY_ID};
use std::alloc::Global;
use std::marker::Model;

// Times in ticks of 1/64 µs, at the place of each node's id. Sums may wrap on the way: by a law of valid logs no node sends or
// is tuned for 2^64 ticks.
#[derive(Drop)]
pub(crate) struct Times {
    sent: Vec<u64>,
    on: Vec<u64>,
}

impl Model for Times {
    ghost use Rattle.std.specs.Prelude.{◌≡◌, length};
    ghost use Rattle.lwb_base.specs.declared.limits.TheConstants.{PLACES_BY_ID};
    ghost use Rattle.energy_account.specs.Times.{TimesState};

    ghost Value = { TimesState };

    ghost view = { λ t. record { sent = t.sent.items; on = t.on.items } };

    ghost invariant = { λ t. (length t.sent.items ≡ PLACES_BY_ID) × (length t.on.items ≡ PLACES_BY_ID) };
}

impl Times {
    // The times that the `Sent` and the `Tuned` entries of a log sum up to.
    pub(crate) fn of(alloc: Global, air: &Air) -> Result<Times, Memory>
        ensures times { IfOk result (λ t. HasTimes air.now t) }
        ensures early { IfOk result (λ t. All EndsEarly air.now) }
    {
        let mut times = Times {
            sent: zeros(alloc)?,
            on: zeros(alloc)?,
        };
        for i in 0..air.len() {
            let entry = entry_at(air, i);
            times.add(entry);
        }
        Ok(times)
    }

    // No entry ends before it starts.
    fn add(&mut self, entry: &Entry)
        ensures times { (air : List EntryOf) → HasTimes air self.old → HasTimes (air ++ entry.now ∷ []) self.new }
        ensures early { EndsEarly entry.now }
    {
        match entry {
            Entry::Sent(x) => raise(&mut self.sent, x.node, x.end.saturating_sub(x.start)),
            Entry::Tuned(t) => raise(&mut self.on, t.node, t.end.saturating_sub(t.start)),
            Entry::Heard(_) => {}
        }
    }

    // How long a node sent.
    pub(crate) fn sent(&self, node: NodeId) -> u64
        ensures { result ≡ slice_index_or self.now.sent node 0 }
    {
        self.sent[usize::from(node.number())]
    }

    // How long its radio was on.
    pub(crate) fn on(&self, node: NodeId) -> u64
        ensures { result ≡ slice_index_or self.now.on node 0 }
    {
        self.on[usize::from(node.number())]
    }
}

fn raise(times: &mut Vec<u64>, node: NodeId, time: u64)
    requires { length times.old.items ≡ PLACES_BY_ID }
    ensures { IsRaised node time times.old.items times.new.items }
{
    let i = usize::from(node.number());
    times[i] = times[i].wrapping_add(time);
}

fn zeros(alloc: Global) -> Result<Vec<u64>, Memory>
    ensures { IfOk result (λ v. v.items ≡ replicate PLACES_BY_ID 0) }
{
    let mut times = Vec::new(alloc);
    for _ in 0..PLACES_BY_ID {
        times.push(0)?;
    }
    Ok(times)
}

fn entry_at(air: &Air, i: usize) -> &Entry
    requires { i < length air.now }
    ensures { result.now ≡ get_or air.now i result.now }
{
    air.at(i).unwrap()
}
