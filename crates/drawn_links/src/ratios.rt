//! The reception ratios of the links of a network.

ghost use Rattle.std.specs.Prelude.{◌≡◌, ◌*◌, ◌==◌, ◌<◌, ◌∷◌, ◌++◌, [], true, false, length, slice_index, replicate, ◌≤◌, IfOk, IfSome, IfNone, OnOk, OnErr};
ghost use Rattle.std.specs.List.{list_any, AllPairs};
ghost use Rattle.lwb_base.specs.declared.limits.TheConstants.{MOST_NODES};
ghost use Rattle.link_trace.specs.Masks.{AreNodes};
ghost use Rattle.drawn_links.specs.Ratios.{ratio_in};
ghost use Rattle.drawn_links.specs.RatioTables.{last_frame as last_frame_of, link_place as link_place_of, steps_of};

use crate::RatioLine;
use crate::link_ratios::LinkRatios;
use crate::ratio_step::RatioStep;
use lwb_base::{MOST_NODES, Memory, NodeId};
use std::alloc::Global;
use std::marker::Model;

// For each two places.
const LINK_PLACES: usize = MOST_NODES * MOST_NODES;

/// The reception ratios of the links between the nodes of a network, at most `MOST_NODES`, each from some frame on. Nodes are also named by
/// their places, counted from 0 in the order of their ids. Contracts see the nodes, and the lines in the order in which they came.
#[derive(Drop)]
pub struct Ratios {
    nodes: Vec<NodeId>,
    lines: Vec<RatioLine>,
    links: Vec<LinkRatios>,
}

impl Model for Ratios {
    ghost use Rattle.drawn_links.specs.RatioTables.{AreRatioParts, Rated};

    ghost Value = { Rated };

    ghost view = { λ r. record { nodes = r.nodes.items; lines = r.lines.items } };

    ghost invariant = { λ r. AreRatioParts r.nodes.items r.lines.items r.links.items };
}

impl Ratios {
    /// No ratios, between these nodes: 1 to `MOST_NODES` ascending ids.
    pub fn new(alloc: Global, nodes: &[NodeId]) -> Result<Ratios, Memory>
        requires { AreNodes nodes.now }
        ensures { IfOk result (λ r. r ≡ record { nodes = nodes.now; lines = [] }) }
    {
        Ok(Ratios {
            nodes: Vec::from_slice(alloc, nodes)?,
            lines: Vec::new(alloc),
            links: no_ratios(alloc)?,
        })
    }

    /// The nodes, ascending.
    pub fn nodes(&self) -> &[NodeId]
        ensures { result.now ≡ self.now.nodes }
    {
        &self.nodes
    }

    /// All lines, in the order in which they came.
    pub fn lines(&self) -> &[RatioLine]
        ensures { result.now ≡ self.now.lines }
    {
        &self.lines
    }

    /// How many lines there are.
    pub fn len(&self) -> usize
        ensures { result ≡ length self.now.lines }
    {
        self.lines.len()
    }

    /// The ratio, in millionths, that is in force in that frame for the link between the nodes at these places. Returns `None` if
    /// and only if no line of the link has begun.
    pub fn ratio(&self, frame: u32, from: u8, to: u8) -> Option<u32>
        requires from { from < length self.now.nodes }
        requires to { to < length self.now.nodes }
        ensures { result ≡ ratio_in self.now.lines frame (slice_index self.now.nodes from) (slice_index self.now.nodes to) }
    {
        self.link(from, to).ratio(frame)
    }

    /// The frame of the last line of the link between these two of the nodes. Returns `None` if and only if it has no line.
    pub fn last_frame(&self, from: NodeId, to: NodeId) -> Option<u32>
        requires from { list_any (λ v. v == from) self.now.nodes ≡ true }
        requires to { list_any (λ v. v == to) self.now.nodes ≡ true }
        ensures { result ≡ last_frame_of self.now.lines from to }
    {
        let from = place_of(&self.nodes, from);
        let to = place_of(&self.nodes, to);
        self.link(from, to).last_frame()
    }

    /// Adds a line between two of the nodes, from a later frame on than all other lines of its link. After Memory nothing has
    /// changed.
    pub fn add(&mut self, line: RatioLine) -> Result<(), Memory>
        requires from { list_any (λ v. v == line.from) self.old.nodes ≡ true }
        requires to { list_any (λ v. v == line.to) self.old.nodes ≡ true }
        requires later { IfSome (last_frame_of self.old.lines line.from line.to) (λ f. f < line.frame) }
        ensures added { OnOk result (self.new ≡ record { nodes = self.old.nodes; lines = self.old.lines ++ line ∷ [] }) }
        ensures err { OnErr result (self.new ≡ self.old) }
    {
        let from = place_of(&self.nodes, line.from);
        let to = place_of(&self.nodes, line.to);
        self.lines.reserve(1)?;
        let link = &mut self.links[link_place(from, to)];
        link.add(RatioStep {
            frame: line.frame,
            ratio: line.ratio,
        })?;
        self.lines.push_reserved(line);
        Ok(())
    }

    // The ratios of the link between the nodes at these places.
    fn link(&self, from: u8, to: u8) -> &LinkRatios
        requires from { from < length self.now.nodes }
        requires to { to < length self.now.nodes }
        ensures { result.now ≡ steps_of self.now.lines (slice_index self.now.nodes from) (slice_index self.now.nodes to) }
    {
        &self.links[link_place(from, to)]
    }
}

// Where the ratios of the link between the nodes at these places are.
fn link_place(from: u8, to: u8) -> usize
    ensures { result ≡ link_place_of from to }
{
    MOST_NODES * usize::from(to) + usize::from(from)
}

// The place of one of the nodes.
fn place_of(nodes: &[NodeId], node: NodeId) -> u8
    requires few { length nodes.now ≤ MOST_NODES }
    requires ascending { AllPairs (λ a b. a < b) nodes.now }
    requires known { list_any (λ v. v == node) nodes.now ≡ true }
    ensures within { result < length nodes.now }
    ensures node { slice_index nodes.now result ≡ node }
{
    nodes.binary_search(&node).unwrap() as u8
}

// No ratios for each two places.
fn no_ratios(alloc: Global) -> Result<Vec<LinkRatios>, Memory>
    ensures { IfOk result (λ links. links.items ≡ replicate (MOST_NODES * MOST_NODES) []) }
{
    let mut links = Vec::new(alloc);
    for _ in 0..LINK_PLACES {
        links.push(LinkRatios::new(alloc))?;
    }
    Ok(links)
}
