//! Transmissions in the order in which they are searched, and who receives each of them.

ghost use Rattle.std.specs.Prelude.{◌≡◌, ◌≤◌, ◌^◌, All, AllPairs, Contains, IfOk, IsPermutation};
ghost use Rattle.link_trace.specs.Masks.{AreNodes};
ghost use Rattle.radio_model.specs.Hearing.{Before};
ghost use Rattle.radio_model.specs.Reaches.{AreReaches, AreSearchable, IsReceivedBy};

use crate::near::{longest, near_places};
use crate::receivers::{Reach, reach_of, receivers};
use crate::sending::Sending;
use link_trace::{NodeSet, Trace};
use lwb_base::{Memory, NodeId, Profile};
use std::alloc::Global;
use std::marker::Model;

/// Transmissions by start, then sender, and what each reaches. Contracts see the parts.
#[derive(Drop)]
pub struct Transmissions {
    sent: Vec<Sending>,
    reaches: Vec<Reach>,
    // The longest time that one of them is on the air, in ticks.
    longest: u64,
}

impl Model for Transmissions {
    ghost use Rattle.radio_model.specs.Reaches.{SentParts};

    ghost Value = { SentParts };

    ghost view = { λ t. record { sent = t.sent.items; reaches = t.reaches.items; longest = t.longest } };
}

impl Transmissions {
    /// These transmissions, put in order, over a trace that is sealed with these nodes. `Err` means out of memory.
    pub fn of(
        alloc: Global,
        profile: &Profile,
        trace: &Trace,
        nodes: &[NodeId],
        sent: Vec<Sending>,
    ) -> Result<Transmissions, Memory>
        requires nodes { AreNodes nodes.now }
        requires sealed { nodes.now ≡ trace.now.nodes }
        requires early { All (λ y. y.start ≤ 2 ^ 46) sent.items }
        ensures sent { IfOk result (λ t. IsPermutation sent.items t.sent) }
        ensures searchable { IfOk result (AreSearchable profile.now trace.now.lines nodes.now) }
    {
        let sent = in_order(sent)?;
        let reaches = reaches_of(alloc, profile, trace, nodes, &sent)?;
        Ok(Transmissions {
            longest: longest(&sent),
            reaches,
            sent,
        })
    }

    /// The transmissions by start, then sender.
    pub fn sent(&self) -> &[Sending]
        ensures { result.now ≡ self.now.sent }
    {
        &self.sent
    }

    /// The transmissions alone.
    pub fn into_sent(self) -> Vec<Sending>
        ensures { result.items ≡ self.sent }
    {
        let Transmissions { sent, .. } = self;
        sent
    }

    /// The nodes that receive x, one of these, if they are tuned to it.
    pub fn receivers(
        &self,
        profile: &Profile,
        trace: &Trace,
        nodes: &[NodeId],
        x: &Sending,
    ) -> NodeSet
        requires nodes { AreNodes nodes.now }
        requires sealed { nodes.now ≡ trace.now.nodes }
        requires searchable { AreSearchable profile.now trace.now.lines nodes.now self.now }
        requires there { Contains self.now.sent x.now }
        ensures { IsReceivedBy profile.now trace.now.lines nodes.now self.now.sent x.now result }
    {
        let (first, count) = near_places(&self.sent, self.longest, x);
        let near = &self.sent[first..][..count];
        let reaches = &self.reaches[first..][..count];
        let reach = reach_of(profile, trace, nodes, x);
        receivers(profile, trace, nodes, near, reaches, x, reach)
    }
}

fn in_order(sent: Vec<Sending>) -> Result<Vec<Sending>, Memory>
    ensures sent { IfOk result (λ xs. IsPermutation sent.items xs.items) }
    ensures in_order { IfOk result (λ xs. AllPairs Before xs.items) }
{
    let mut sent = sent;
    sent.sort_by_key(|x| place(x))?;
    Ok(sent)
}

// What the order goes by.
fn place(x: &Sending) -> (u64, u8)
    ensures { result ≡ (x.now.start, x.now.node) }
{
    (x.start, x.node.number())
}

// What each of the transmissions reaches.
fn reaches_of(
    alloc: Global,
    profile: &Profile,
    trace: &Trace,
    nodes: &[NodeId],
    sent: &[Sending],
) -> Result<Vec<Reach>, Memory>
    requires nodes { AreNodes nodes.now }
    requires sealed { nodes.now ≡ trace.now.nodes }
    requires early { All (λ y. y.start ≤ 2 ^ 46) sent.now }
    ensures { IfOk result (λ reaches. AreReaches profile.now trace.now.lines nodes.now sent.now reaches.items) }
{
    let mut reaches = Vec::new(alloc);
    for x in sent {
        reaches.push(reach_of(profile, trace, nodes, x))?;
    }
    Ok(reaches)
}
