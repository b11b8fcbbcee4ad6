//! Links of a trace that also lose by coins.

ghost use Rattle.std.specs.Prelude.{◌≡◌, ◌+◌, ◌*◌, ◌^◌, ◌<◌, ℕ, length, slice_index};
ghost use Rattle.std.specs.Int.{bit_at};
ghost use Rattle.drawn_links.specs.DrawnLosses.{is_drawn};
ghost use Rattle.drawn_links.specs.Drawings.{IsWithout, has_coins as throws_coins};

use crate::Ratios;
use crate::coins::{coin, is_within, link_key, start_of, step_key};
use link_trace::{Links, NodeSet, Trace};
use lwb_base::{FLOOD_STEPS, NodeId, greatest_slot};
use std::marker::Model;

/// The links of a sealed trace which are also lost where the coin of a seed does not pass by the ratio of the link. Coins are
/// thrown in the frames below a number. No list of losses is made: a coin is thrown when a mask is asked for, and only for a link
/// that the trace lets through and that is asked for. Contracts see the trace, the lines of the ratios, the seed and the number of frames.
#[derive(Drop)]
pub struct DrawnLinks<'a> {
    trace: &'a Trace,
    ratios: &'a Ratios,
    seed: u64,
    start: u64,
    frames: u32,
}

impl<'a> Model for DrawnLinks<'a> {
    ghost use Rattle.std.specs.Prelude.{◌≡◌};
    ghost use Rattle.drawn_links.specs.Drawings.{Drawing};
    ghost use Rattle.drawn_links.specs.Seeds.{start_of as start_of_seed};

    ghost Value = { Drawing };

    ghost view = { λ d. record { trace = d.trace.now; ratios = d.ratios.now.lines; seed = d.seed; frames = d.frames } };

    ghost invariant = { λ d. (d.ratios.now.nodes ≡ d.trace.now.nodes) × (d.start ≡ start_of_seed d.seed) };
}

impl<'a> DrawnLinks<'a> {
    /// The links of the trace, which is sealed with the nodes of the ratios, with the losses that the seed draws in the frames below
    /// `frames`.
    pub fn new(trace: &'a Trace, ratios: &'a Ratios, seed: u64, frames: u32) -> DrawnLinks<'a>
        requires { ratios.now.nodes ≡ trace.now.nodes }
        ensures { result ≡ record { trace = trace.entry.now; ratios = ratios.entry.now.lines; seed = seed; frames = frames } }
    {
        DrawnLinks {
            trace,
            ratios,
            seed,
            start: start_of(seed),
            frames,
        }
    }

    /// The seed.
    pub fn seed(&self) -> u64
        ensures { result ≡ self.now.seed }
    {
        self.seed
    }

    // Those of the senders whose link to the node passes by its coin.
    fn kept_from(&self, senders: NodeSet, frame: u32, key: u64, at: u8) -> NodeSet
        requires at { at < length self.now.trace.nodes }
        requires senders { (i : ℕ) → bit_at senders i ≡ 1 → i < length self.now.trace.nodes }
        requires key { key < 2 ^ 47 }
        ensures { (j k : ℕ) → key ≡ (frame * 64 + j) * 16 + k
            → IsWithout (λ i. is_drawn self.now.ratios self.now.seed frame j k (slice_index self.now.trace.nodes i) (slice_index self.now.trace.nodes at))
            senders result }
    {
        let mut kept = senders;
        let mut rest = senders;
        while !rest.is_empty() {
            let place = rest.lowest();
            rest = rest.without(place);
            if self.is_drawn(frame, key, place, at) {
                kept = kept.without(place);
            }
        }
        kept
    }

    // Those of the receivers to which a link from the node passes by its coin.
    fn kept_to(&self, receivers: NodeSet, frame: u32, key: u64, from: u8) -> NodeSet
        requires from { from < length self.now.trace.nodes }
        requires receivers { (i : ℕ) → bit_at receivers i ≡ 1 → i < length self.now.trace.nodes }
        requires key { key < 2 ^ 47 }
        ensures { (j k : ℕ) → key ≡ (frame * 64 + j) * 16 + k
            → IsWithout (λ i. is_drawn self.now.ratios self.now.seed frame j k (slice_index self.now.trace.nodes from) (slice_index self.now.trace.nodes i))
            receivers result }
    {
        let mut kept = receivers;
        let mut rest = receivers;
        while !rest.is_empty() {
            let place = rest.lowest();
            rest = rest.without(place);
            if self.is_drawn(frame, key, from, place) {
                kept = kept.without(place);
            }
        }
        kept
    }

    // Whether the link between the nodes at these places has a ratio in the frame, and its coin in the step of the key does not pass.
    fn is_drawn(&self, frame: u32, key: u64, from: u8, to: u8) -> bool
        requires from { from < length self.now.trace.nodes }
        requires to { to < length self.now.trace.nodes }
        requires key { key < 2 ^ 47 }
        ensures { (j k : ℕ) → key ≡ (frame * 64 + j) * 16 + k
            → result ≡ is_drawn self.now.ratios self.now.seed frame j k (slice_index self.now.trace.nodes from) (slice_index self.now.trace.nodes to) }
    {
        match self.ratios.ratio(frame, from, to) {
            Some(ratio) => {
                let key = link_key(key, self.node(from), self.node(to));
                !is_within(coin(self.start, key), ratio)
            }
            None => false,
        }
    }

    fn node(&self, place: u8) -> NodeId
        requires { place < length self.now.trace.nodes }
        ensures { result ≡ slice_index self.now.trace.nodes place }
    {
        self.ratios.nodes()[usize::from(place)]
    }
}

impl<'a> Links for DrawnLinks<'a> {
    ghost use Rattle.drawn_links.specs.Drawings.{lines_of};

    ghost lines = { λ d. lines_of d };

    ghost nodes = { λ d. d.trace.nodes };

    fn from_mask(&self, frame: u32, slot: u8, step: u8, at: u8) -> u64 {
        let senders = self.trace.from_mask(frame, slot, step, at);
        if !has_coins(self.frames, frame, slot, step) {
            return senders;
        }
        self.kept_from(
            NodeSet::of_word(senders),
            frame,
            step_key(frame, slot, step),
            at,
        )
        .word()
    }

    // No coin is thrown.
    fn may_reach(&self, frame: u32, slot: u8, step: u8, at: u8) -> NodeSet {
        self.trace.may_reach(frame, slot, step, at)
    }

    fn to_mask(&self, frame: u32, slot: u8, step: u8, from: u8) -> u64 {
        let receivers = self.trace.to_mask(frame, slot, step, from);
        if !has_coins(self.frames, frame, slot, step) {
            return receivers;
        }
        self.kept_to(
            NodeSet::of_word(receivers),
            frame,
            step_key(frame, slot, step),
            from,
        )
        .word()
    }

    // Coins are thrown for those of the set alone.
    fn to_mask_among(&self, frame: u32, slot: u8, step: u8, from: u8, among: NodeSet) -> NodeSet {
        let receivers = self.trace.to_mask_among(frame, slot, step, from, among);
        if !has_coins(self.frames, frame, slot, step) {
            return receivers;
        }
        self.kept_to(receivers, frame, step_key(frame, slot, step), from)
    }

    fn captured(&self, frame: u32, slot: u8, step: u8, at: NodeId) -> Option<NodeId> {
        self.trace.captured(frame, slot, step, at)
    }
}

// Whether coins are thrown in that step, in a run of this many frames.
fn has_coins(frames: u32, frame: u32, slot: u8, step: u8) -> bool
    ensures { result ≡ throws_coins frames frame slot step }
{
    frame < frames && slot <= greatest_slot(4) && step < FLOOD_STEPS
}
