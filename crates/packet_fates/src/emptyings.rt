//! When the queue of a stream is emptied: its node leaves the stream, or its power fails.

ghost use Rattle.std.specs.Prelude.{◌≡◌, ◌==◌, ◌&&◌, ◌++◌, ℕ, List, Some, None, IfOk, OnOk, if◌then◌else◌, option_to_list};
ghost use Rattle.scenario_text.specs.declared.script.ScriptLine.{ScriptLine as ScriptLineOf};
ghost use Rattle.packet_fates.specs.Clearings.{AreNext, cleared_in, clearing_below, empties_queue, next_emptying, put_clearings};

use bus_rules::Act;
use lwb_base::{Memory, NodeId};
use scenario_text::ScriptLine;
use std::alloc::Global;
use std::collections::BTreeMap;

// The frames in which queues are emptied next: those of a node by an `off`, and one of its streams by a `leave` above that.
#[derive(Drop)]
pub(crate) struct Emptyings {
    offs: BTreeMap<NodeId, u32>,
    leaves: BTreeMap<(NodeId, u8), u32>,
}

/// For each put line the frame of the first line below it that empties the queue of its stream.
pub(crate) fn clearings(alloc: Global, script: &[ScriptLine]) -> Result<Vec<Option<u32>>, Memory>
    ensures { IfOk result (λ frames. frames.items ≡ put_clearings script.now) }
{
    let mut next = Emptyings::new(alloc);
    let mut frames = Vec::new(alloc);
    let mut above = script;
    while let Some((line, others)) = above.split_last() {
        push_clearing(&mut frames, &next, line)?;
        next.note(line)?;
        above = others;
    }
    frames.reverse();
    Ok(frames)
}

fn push_clearing(
    frames: &mut Vec<Option<u32>>,
    next: &Emptyings,
    line: &ScriptLine,
) -> Result<(), Memory>
    ensures { (below : List ScriptLineOf) → AreNext below next.now
        → OnOk result (frames.new.items ≡ frames.old.items ++ option_to_list (clearing_below line.now below)) }
{
    if let Some(stream) = line.act.put_stream() {
        frames.push(next.of(line.node, stream))?;
    }
    Ok(())
}

impl Emptyings {
    fn new(alloc: Global) -> Emptyings
        ensures { (v i : ℕ) → next_emptying result v i ≡ None }
    {
        Emptyings {
            offs: BTreeMap::new(alloc),
            leaves: BTreeMap::new(alloc),
        }
    }

    fn of(&self, node: NodeId, stream: u8) -> Option<u32>
        ensures { result ≡ next_emptying self.now node stream }
    {
        match self.leaves.get(&(node, stream)) {
            Some(frame) => Some(*frame),
            None => self.offs.get(&node).copied(),
        }
    }

    // A line above those that were noted.
    fn note(&mut self, line: &ScriptLine) -> Result<(), Memory>
        ensures { OnOk result ((v i : ℕ) → next_emptying self.new v i
            ≡ (if empties_queue v i line.now then Some line.now.frame else next_emptying self.old v i)) }
    {
        match &line.act {
            Act::Off => self.note_off(line.node, line.frame),
            Act::Leave(stream) => self.note_leave(line.node, *stream, line.frame),
            Act::On | Act::Declare(..) | Act::Put(..) => Ok(()),
        }
    }

    fn note_off(&mut self, node: NodeId, frame: u32) -> Result<(), Memory>
        ensures { OnOk result ((v i : ℕ) → next_emptying self.new v i ≡ (if node == v then Some frame else next_emptying self.old v i)) }
    {
        self.leaves.retain(|queue, _| queue.0 != node);
        self.offs.insert(node, frame)?;
        Ok(())
    }

    fn note_leave(&mut self, node: NodeId, stream: u8, frame: u32) -> Result<(), Memory>
        ensures { OnOk result ((v i : ℕ) → next_emptying self.new v i ≡ (if (node == v) && (i == stream) then Some frame else next_emptying self.old v i)) }
    {
        self.leaves.insert((node, stream), frame)?;
        Ok(())
    }
}
