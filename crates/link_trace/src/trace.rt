//! A recorded trace by its lines: how they are added, and which links pass.

ghost use Rattle.std.specs.Prelude.{◌≡◌, [], IfOk, OnOk, OnErr, Ok, true, false};
ghost use Rattle.std.specs.List.{list_any};
ghost use Rattle.link_trace.specs.Passes.{is_link, is_loss, is_cut, is_capture};
ghost use Rattle.link_trace.specs.Order.{Ascends, by_link, by_loss, by_cut, by_capture, with_link, with_loss, with_cut, with_capture};
ghost use Rattle.link_trace.specs.Sealed.{unsealed, no_lines};

use crate::captures::{add_capture, captured_sender};
use crate::in_order::{add_in_order, has_link, has_loss};
use crate::masks::{LinkMasks, unseal};
use crate::ranges::is_cut_off;
use crate::starts::Starts;
use crate::{CaptureLine, CutLine, LinkLine, LoseLine};
use lwb_base::{Memory, NodeId};
use std::alloc::Global;
use std::marker::Model;

/// The lines of a recorded trace: the links, where they are lost, where nodes are cut off, and which sender a node
/// captures. Contracts see the lists of lines, each ascending, and the nodes of the seal.
#[derive(Drop)]
pub struct Trace {
    pub(crate) links: Vec<LinkLine>,
    pub(crate) losses: Vec<LoseLine>,
    pub(crate) cuts: Vec<CutLine>,
    pub(crate) captures: Vec<CaptureLine>,
    pub(crate) nodes: Vec<NodeId>,
    pub(crate) masks: Vec<LinkMasks>,
    pub(crate) starts: Starts,
    pub(crate) alloc: Global,
}

impl Model for Trace {
    ghost use Rattle.link_trace.specs.Masks.{AreTraceParts};
    ghost use Rattle.link_trace.specs.Sealed.{Traced};

    ghost Value = { Traced };

    ghost view = { λ t. record {
      lines = record { links = t.links.items; losses = t.losses.items; cuts = t.cuts.items; captures = t.captures.items };
      nodes = t.nodes.items;
    } };

    ghost invariant = { λ t. AreTraceParts
        (record { links = t.links.items; losses = t.losses.items; cuts = t.cuts.items; captures = t.captures.items })
        t.nodes.items t.masks.items t.starts };
}

impl Trace {
    ghost use Rattle.link_trace.specs.Passes.{passes as passes_by, captured as captured_by};

    /// A trace with no lines, which is not sealed. It keeps the allocator and takes no memory.
    pub fn new(alloc: Global) -> Trace
        ensures { result ≡ unsealed no_lines }
    {
        Trace {
            links: Vec::new(alloc),
            losses: Vec::new(alloc),
            cuts: Vec::new(alloc),
            captures: Vec::new(alloc),
            nodes: Vec::new(alloc),
            masks: Vec::new(alloc),
            starts: Starts::new(alloc),
            alloc,
        }
    }

    /// A trace of the same lines that is not sealed.
    pub fn unsealed_copy(&self, alloc: Global) -> Result<Trace, Memory>
        ensures { IfOk result (λ t. t ≡ unsealed self.now.lines) }
    {
        Ok(Trace {
            links: Vec::from_slice(alloc, &self.links)?,
            losses: Vec::from_slice(alloc, &self.losses)?,
            cuts: Vec::from_slice(alloc, &self.cuts)?,
            captures: Vec::from_slice(alloc, &self.captures)?,
            nodes: Vec::new(alloc),
            masks: Vec::new(alloc),
            starts: Starts::new(alloc),
            alloc,
        })
    }

    /// Adds a link, which unseals the trace. Returns `Ok(false)` if and only if it is there already, and then nothing changes.
    /// After Memory the trace is as it was.
    pub fn link(&mut self, from: NodeId, to: NodeId) -> Result<bool, Memory>
        ensures added { result ≡ Ok true
            → self.new ≡ unsealed (with_link (record { from = from; to = to }) self.old.lines) }
        ensures fresh { result ≡ Ok true → list_any (is_link from to) self.old.lines.links ≡ false }
        ensures twice { result ≡ Ok false
            → (list_any (is_link from to) self.old.lines.links ≡ true) × (self.new ≡ self.old) }
        ensures there { list_any (is_link from to) self.old.lines.links ≡ true → result ≡ Ok false }
        ensures err { OnErr result (self.new ≡ self.old) }
    {
        let line = LinkLine { from, to };
        let is_new = add_in_order(&mut self.links, line)?;
        if is_new {
            unseal(&mut self.nodes, &mut self.masks, &mut self.starts);
        }
        Ok(is_new)
    }

    /// Loses a link in one step, which unseals the trace. Returns `Ok(false)` if and only if that line is there already, and
    /// then nothing changes. After Memory the trace is as it was.
    #[tactic(auto, using(crate::proofs::Orders::tells_loss))]
    pub fn lose(
        &mut self,
        frame: u32,
        slot: u8,
        step: u8,
        from: NodeId,
        to: NodeId,
    ) -> Result<bool, Memory>
        ensures added { result ≡ Ok true
            → self.new ≡ unsealed (with_loss (record { frame = frame; slot = slot; step = step; from = from; to = to }) self.old.lines) }
        ensures fresh { result ≡ Ok true → list_any (is_loss frame slot step from to) self.old.lines.losses ≡ false }
        ensures twice { result ≡ Ok false
            → (list_any (is_loss frame slot step from to) self.old.lines.losses ≡ true) × (self.new ≡ self.old) }
        ensures there { list_any (is_loss frame slot step from to) self.old.lines.losses ≡ true → result ≡ Ok false }
        ensures err { OnErr result (self.new ≡ self.old) }
    {
        let line = LoseLine {
            frame,
            slot,
            step,
            from,
            to,
        };
        let is_new = add_in_order(&mut self.losses, line)?;
        if is_new {
            unseal(&mut self.nodes, &mut self.masks, &mut self.starts);
        }
        Ok(is_new)
    }

    /// Cuts a node off from that step on until the frame ends, which unseals the trace. Returns `Ok(false)` if and only if that
    /// line is there already, and then nothing changes. After Memory the trace is as it was.
    pub fn cut(&mut self, frame: u32, slot: u8, step: u8, node: NodeId) -> Result<bool, Memory>
        ensures added { result ≡ Ok true
            → self.new ≡ unsealed (with_cut (record { frame = frame; slot = slot; step = step; node = node }) self.old.lines) }
        ensures fresh { result ≡ Ok true → list_any (is_cut frame slot step node) self.old.lines.cuts ≡ false }
        ensures twice { result ≡ Ok false
            → (list_any (is_cut frame slot step node) self.old.lines.cuts ≡ true) × (self.new ≡ self.old) }
        ensures there { list_any (is_cut frame slot step node) self.old.lines.cuts ≡ true → result ≡ Ok false }
        ensures err { OnErr result (self.new ≡ self.old) }
    {
        let line = CutLine {
            frame,
            slot,
            step,
            node,
        };
        let is_new = add_in_order(&mut self.cuts, line)?;
        if is_new {
            unseal(&mut self.nodes, &mut self.masks, &mut self.starts);
        }
        Ok(is_new)
    }

    /// Names the sender from which a node receives in that step where different packets meet, which unseals the trace. Returns
    /// `Ok(false)` if and only if a line of that frame, slot, step and node is there already, and then nothing changes. After
    /// Memory the trace is as it was.
    pub fn capture(
        &mut self,
        frame: u32,
        slot: u8,
        step: u8,
        at: NodeId,
        from: NodeId,
    ) -> Result<bool, Memory>
        ensures added { result ≡ Ok true
            → self.new ≡ unsealed (with_capture (record { frame = frame; slot = slot; step = step; at = at; from = from }) self.old.lines) }
        ensures fresh { result ≡ Ok true → list_any (is_capture frame slot step at) self.old.lines.captures ≡ false }
        ensures twice { result ≡ Ok false
            → (list_any (is_capture frame slot step at) self.old.lines.captures ≡ true) × (self.new ≡ self.old) }
        ensures there { list_any (is_capture frame slot step at) self.old.lines.captures ≡ true → result ≡ Ok false }
        ensures err { OnErr result (self.new ≡ self.old) }
    {
        let line = CaptureLine {
            frame,
            slot,
            step,
            at,
            from,
        };
        let is_new = add_capture(&mut self.captures, line)?;
        if is_new {
            unseal(&mut self.nodes, &mut self.masks, &mut self.starts);
        }
        Ok(is_new)
    }

    /// The sender that the capture line of that frame, slot and step at the node names. Returns `None` if and only if there is
    /// no such line.
    pub fn captured(&self, frame: u32, slot: u8, step: u8, at: NodeId) -> Option<NodeId>
        ensures { result ≡ captured_by self.now.lines frame slot step at }
    {
        captured_sender(&self.captures, &self.starts.captures, frame, slot, step, at)
    }

    /// Whether the pair is a link, no line loses it in that frame, slot and step, and neither of its nodes is cut off
    /// by then.
    pub fn passes(&self, frame: u32, slot: u8, step: u8, from: NodeId, to: NodeId) -> bool
        ensures { result ≡ passes_by self.now.lines frame slot step from to }
    {
        has_link(&self.links, from, to)
            && !has_loss(&self.losses, frame, slot, step, from, to)
            && !is_cut_off(&self.cuts, frame, slot, step, from)
            && !is_cut_off(&self.cuts, frame, slot, step, to)
    }

    /// The links, ascending by the sender and then the receiver.
    pub fn links(&self) -> &[LinkLine]
        ensures value { result.now ≡ self.now.lines.links }
        ensures ascends { Ascends by_link self.now.lines.links }
    {
        &self.links
    }

    /// The lose lines, ascending by frame, slot, step, sender and receiver.
    pub fn losses(&self) -> &[LoseLine]
        ensures value { result.now ≡ self.now.lines.losses }
        ensures ascends { Ascends by_loss self.now.lines.losses }
    {
        &self.losses
    }

    /// The cut lines, ascending by frame, slot, step and node.
    pub fn cuts(&self) -> &[CutLine]
        ensures value { result.now ≡ self.now.lines.cuts }
        ensures ascends { Ascends by_cut self.now.lines.cuts }
    {
        &self.cuts
    }

    /// The capture lines, ascending by frame, slot, step and receiving node.
    pub fn captures(&self) -> &[CaptureLine]
        ensures value { result.now ≡ self.now.lines.captures }
        ensures ascends { Ascends by_capture self.now.lines.captures }
    {
        &self.captures
    }
}
