//! The script of a made scenario.

ghost use Rattle.std.specs.Prelude.{◌≡◌, ◌+◌, ◌-◌, ◌≤◌, ◌<◌, ◌++◌, map, IfOk, OnOk};
ghost use Rattle.std.specs.List.{flat_map, range_with_len};
ghost use Rattle.lwb_base.specs.declared.limits.TheConstants.{GREATEST_ID, MOST_FRAMES, MOST_NODES};
ghost use Rattle.scenario_maker.specs.Drawn.{later};
ghost use Rattle.scenario_maker.specs.Made.{all_nodes, later_nodes, on_line, stream_line};
ghost use Rattle.scenario_maker.specs.Made.{made_put_line as put_line_of, put_lines, frame_lines, script as whole_script};

use crate::draws::{Draws, node_of};
use lwb_base::{Memory, Payload};
use scenario_text::{Act, ScriptLine};
use std::alloc::Global;

/// The script lines of the nodes, by frame.
pub fn script(
    alloc: Global,
    draws: &mut Draws,
    nodes: u32,
    frames: u32,
) -> Result<Vec<ScriptLine>, Memory>
    requires nodes { (1 ≤ nodes) × (nodes ≤ MOST_NODES) }
    requires frames { frames ≤ MOST_FRAMES }
    ensures lines { IfOk result (λ v. v.items ≡ whole_script draws.old nodes frames) }
    ensures left { OnOk result (draws.new ≡ later (nodes - 1) draws.old) }
{
    let mut lines = Vec::new(alloc);
    add_ons(&mut lines, nodes)?;
    add_streams(&mut lines, draws, nodes)?;
    add_frames(&mut lines, nodes, frames)?;
    Ok(lines)
}

// All nodes go on.
fn add_ons(lines: &mut Vec<ScriptLine>, nodes: u32) -> Result<(), Memory>
    requires { nodes ≤ MOST_NODES }
    ensures { OnOk result (lines.new.items ≡ lines.old.items ++ map on_line (all_nodes nodes)) }
{
    for k in 0..nodes {
        lines.push(ScriptLine {
            frame: 0,
            node: node_of(k + 1),
            act: Act::On,
        })?;
    }
    Ok(())
}

// Each node from 2 on has a stream with a random interval.
fn add_streams(lines: &mut Vec<ScriptLine>, draws: &mut Draws, nodes: u32) -> Result<(), Memory>
    requires { (1 ≤ nodes) × (nodes ≤ MOST_NODES) }
    ensures lines { OnOk result (lines.new.items ≡ lines.old.items ++ map (stream_line draws.old) (later_nodes nodes)) }
    ensures left { OnOk result (draws.new ≡ later (nodes - 1) draws.old) }
{
    for k in 0..nodes - 1 {
        let interval = 4 + draws.below(13) as u8;
        lines.push(ScriptLine {
            frame: 0,
            node: node_of(k + 2),
            act: Act::Declare(0, interval),
        })?;
    }
    Ok(())
}

// What happens in each frame.
fn add_frames(lines: &mut Vec<ScriptLine>, nodes: u32, frames: u32) -> Result<(), Memory>
    requires nodes { (1 ≤ nodes) × (nodes ≤ MOST_NODES) }
    requires frames { frames ≤ MOST_FRAMES }
    ensures { OnOk result (lines.new.items ≡ lines.old.items ++ flat_map (frame_lines nodes frames) (range_with_len 0 frames)) }
{
    for frame in 0..frames {
        add_frame(lines, nodes, frames, frame)?;
    }
    Ok(())
}

// In a run of at least 40 frames node 1 goes off in the middle. After that come the puts.
fn add_frame(lines: &mut Vec<ScriptLine>, nodes: u32, frames: u32, frame: u32) -> Result<(), Memory>
    requires nodes { (1 ≤ nodes) × (nodes ≤ MOST_NODES) }
    requires frame { frame < MOST_FRAMES }
    ensures { OnOk result (lines.new.items ≡ lines.old.items ++ frame_lines nodes frames frame) }
{
    if frames >= 40 && frame == frames / 2 {
        lines.push(ScriptLine {
            frame,
            node: node_of(1),
            act: Act::Off,
        })?;
    }
    add_puts(lines, nodes, frame)
}

// Each node from 2 on puts in each fourth frame.
fn add_puts(lines: &mut Vec<ScriptLine>, nodes: u32, frame: u32) -> Result<(), Memory>
    requires nodes { (1 ≤ nodes) × (nodes ≤ MOST_NODES) }
    requires frame { frame < MOST_FRAMES }
    ensures { OnOk result (lines.new.items ≡ lines.old.items ++ put_lines nodes frame) }
{
    for k in 0..nodes - 1 {
        let node = k + 2;
        if (frame + node) % 4 == 0 {
            lines.push(put_line(frame, node))?;
        }
    }
    Ok(())
}

// The number of the frame in two bytes, put by the node.
fn put_line(frame: u32, node: u32) -> ScriptLine
    requires node { (1 ≤ node) × (node ≤ GREATEST_ID) }
    requires frame { frame < MOST_FRAMES }
    ensures { result ≡ put_line_of frame node }
{
    let number = [(frame / 256) as u8, (frame % 256) as u8];
    ScriptLine {
        frame,
        node: node_of(node),
        act: Act::Put(0, Payload::new(&number).unwrap()),
    }
}
