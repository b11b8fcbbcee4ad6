//! What one flood gives, read off its log.

ghost use Rattle.std.specs.Prelude.{◌≡◌, ◌≤◌, ℕ, IfOk, length, slice_get, is_some, option_and_then, Some};
ghost use Rattle.lwb_base.specs.declared.limits.TheConstants.{GREATEST_ID};
ghost use Rattle.bus_terms.specs.FloodOfText.{ids, outcome};
ghost use Rattle.air_log.specs.Entries.{sendings_of, sending_in};
ghost use Rattle.air_log.specs.FloodLaw.{FloodLaw};
ghost use Rattle.lwb_flood.specs.FloodLog.{HasClocks, accepting};
ghost use Rattle.lwb_flood.specs.LogReading.{AreFirst, reception_of_entry, earlier_reception as earlier_of, with_earlier, step_of as step_by};

use air_log::{Air, Entry};
use bus_rules::FloodResult;
use lwb_base::{Memory, NodeId, PLACES_BY_ID};
use scenario_text::FloodText;
use std::alloc::Global;

// The end of a reception, a true tick, and the counter of what was received.
#[derive(Clone, Copy)]
pub(crate) struct FirstHearing {
    pub(crate) end: u64,
    pub(crate) counter: u8,
}

/// What one flood gives, read off its log, which may be over any clocks of the drift law: each node but the starting one
/// accepts at the counter of its reception that ends first, and each Sent entry counts. `Err` means out of memory.
pub fn outcome_of(alloc: Global, f: &FloodText, air: &Air) -> Result<FloodResult, Memory>
    requires { (clocks : ℕ → ℕ → ℕ) × HasClocks f.now clocks × FloodLaw f.now clocks air.now }
    ensures { IfOk result (λ r. r ≡ outcome f.now) }
{
    let firsts = first_hearings(air);
    let sent = sendings(air) as u32;
    let accepts = acceptances(alloc, f, &firsts)?;
    Ok(FloodResult::new(accepts, sent))
}

// The number of Sent entries.
fn sendings(air: &Air) -> usize
    ensures { result ≡ length (sendings_of air.now) }
{
    let mut sent = 0;
    for i in 0..air.len() {
        if is_sent(air, i) {
            sent += 1;
        }
    }
    sent
}

fn is_sent(air: &Air, i: usize) -> bool
    ensures { result ≡ is_some (option_and_then sending_in (slice_get air.now i)) }
{
    matches!(air.at(i), Some(Entry::Sent(_)))
}

// The reception of each node that ends first, at the place of its id.
fn first_hearings(air: &Air) -> [Option<FirstHearing>; PLACES_BY_ID]
    ensures { AreFirst air.now result }
{
    let mut firsts = [None; PLACES_BY_ID];
    for i in 0..air.len() {
        if let Some(heard) = hearing_at(air, i) {
            keep_earlier(&mut firsts, heard);
        }
    }
    firsts
}

fn hearing_at(air: &Air, i: usize) -> Option<(NodeId, FirstHearing)>
    ensures { result ≡ option_and_then reception_of_entry (slice_get air.now i) }
{
    match air.at(i) {
        Some(Entry::Heard(heard)) => {
            let hearing = FirstHearing {
                end: heard.end,
                counter: heard.packet.counter(),
            };
            Some((heard.node, hearing))
        }
        _ => None,
    }
}

fn keep_earlier(firsts: &mut [Option<FirstHearing>; PLACES_BY_ID], heard: (NodeId, FirstHearing))
    ensures range { heard.0 ≤ GREATEST_ID }
    ensures kept { firsts.new ≡ with_earlier firsts.old (Some heard) }
{
    let (node, hearing) = heard;
    let place = node.number() as usize;
    firsts[place] = Some(earlier(firsts[place], hearing));
}

fn earlier(first: Option<FirstHearing>, hearing: FirstHearing) -> FirstHearing
    ensures { result ≡ earlier_of first hearing }
{
    match first {
        Some(first) if first.end <= hearing.end => first,
        _ => hearing,
    }
}

fn acceptances(
    alloc: Global,
    f: &FloodText,
    firsts: &[Option<FirstHearing>; PLACES_BY_ID],
) -> Result<Vec<(NodeId, u8)>, Memory>
    ensures { IfOk result (λ v. v.items ≡ accepting (step_by f.now.start firsts.now) (ids f.now.nodes)) }
{
    let mut accepts = Vec::new(alloc);
    for line in f.nodes() {
        if let Some(step) = step_of(f.start(), firsts, line.node) {
            accepts.push((line.node, step))?;
        }
    }
    Ok(accepts)
}

// The step at which a node accepts.
fn step_of(start: NodeId, firsts: &[Option<FirstHearing>; PLACES_BY_ID], node: NodeId) -> Option<u8>
    ensures { result ≡ step_by start firsts.now node }
{
    if node == start {
        return None;
    }
    firsts[node.number() as usize].map(|first| first.counter)
}
