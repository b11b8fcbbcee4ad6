//! The script lines by which a backup host restarts, with its streams.

ghost use Rattle.std.specs.Prelude.{◌≡◌, ◌+◌, ◌<◌, ◌≤◌, ◌++◌, List, true, IfOk, IfSome, IfNone, OnOk, All, AllPairs};
ghost use Rattle.scenario_text.specs.AddedLines.{IsWithScript, HasRoom};
ghost use Rattle.scenario_text.specs.FloodParts.{knows};
ghost use Rattle.scenario_text.specs.ScenarioFacts.{IsScriptLine};
ghost use Rattle.scenario_text.specs.ScenarioGrammar.{IsScenario};
ghost use Rattle.air_log.specs.declared.entry.Entry.{Entry as EntryOf};
ghost use Rattle.host_return.specs.Restarts.{declared_again, restart, lines_of_going_back as lines_of_return};
ghost use Rattle.host_return.specs.Returned.{NoRoom};
ghost use Rattle.host_return.specs.Wishes.{told, told_by};

use crate::Return;
use bus_rules::Switch;
use lwb_base::{Memory, NodeId};
use scenario_text::{Act, Scenario, ScriptLine, with_script};
use std::alloc::Global;

// The script lines of a return: in the next frame the node goes off and on, and declares the intervals that its streams requested.
fn lines_of(alloc: Global, s: &Scenario, r: &Return) -> Result<Vec<ScriptLine>, Memory>
    requires in_run { r.now.frame + 1 < s.now.frames }
    requires known { knows s.now.nodes r.now.node ≡ true }
    ensures lines { IfOk result (λ lines. (air : List EntryOf) → lines.items ≡ lines_of_return s.now air r.now) }
    ensures in_range { IfOk result (λ lines. All (IsScriptLine s.now) lines.items) }
    ensures ascending { IfOk result (λ lines. AllPairs (λ a b. a.frame ≤ b.frame) lines.items) }
{
    let script = s.script();
    let lines = restart_lines(alloc, script, r.frame + 1, r.node)?;
    Ok(lines)
}

/// The scenario with the script lines of a return. Returns `None` if and only if there is no room for them.
pub(crate) fn with_return(
    alloc: Global,
    s: &Scenario,
    r: &Return,
) -> Result<Option<Scenario>, Memory>
    requires in_run { r.now.frame + 1 < s.now.frames }
    requires known { knows s.now.nodes r.now.node ≡ true }
    ensures some { (air : List EntryOf)
        → IfOk result (λ o. IfSome o (λ t. IsWithScript s.now (lines_of_return s.now air r.now) t × HasRoom t)) }
    ensures said { IfOk result (λ o. IfSome o IsScenario) }
    ensures none { (air : List EntryOf) → IfOk result (λ o. IfNone o (NoRoom s.now air r.now)) }
{
    let lines = lines_of(alloc, s, r)?;
    with_script(alloc, s, &lines)
}

fn restart_lines(
    alloc: Global,
    script: &[ScriptLine],
    frame: u32,
    node: NodeId,
) -> Result<Vec<ScriptLine>, Memory>
    ensures { IfOk result (λ lines. lines.items ≡ restart frame node (λ i. (told frame node i script.now).1)) }
{
    let mut lines = Vec::new(alloc);
    lines.push(ScriptLine {
        frame,
        node,
        act: Act::Off,
    })?;
    lines.push(ScriptLine {
        frame,
        node,
        act: Act::On,
    })?;
    declare_again(&mut lines, script, frame, node, 0)?;
    declare_again(&mut lines, script, frame, node, 1)?;
    declare_again(&mut lines, script, frame, node, 2)?;
    declare_again(&mut lines, script, frame, node, 3)?;
    Ok(lines)
}

fn declare_again(
    lines: &mut Vec<ScriptLine>,
    script: &[ScriptLine],
    frame: u32,
    node: NodeId,
    stream: u8,
) -> Result<(), Memory>
    ensures { OnOk result (lines.new.items ≡ lines.old.items ++ declared_again frame node stream (told frame node stream script.now).1) }
{
    let wish = wish_of(script, frame, node, stream);
    if wish == 0 {
        return Ok(());
    }
    lines.push(ScriptLine {
        frame,
        node,
        act: Act::Declare(stream, wish),
    })?;
    Ok(())
}

// The interval that the stream of the node requests after the lines of the frame, 0 for none.
fn wish_of(script: &[ScriptLine], frame: u32, node: NodeId, stream: u8) -> u8
    ensures { result ≡ (told frame node stream script.now).1 }
{
    let mut wish = Wish {
        on: false,
        interval: 0,
    };
    for line in script {
        if line.frame <= frame && line.node == node {
            wish.tell(&line.act, stream);
        }
    }
    wish.interval
}

// Whether a node is on, and the interval that one of its streams requests, 0 for none.
#[derive(Drop)]
struct Wish {
    on: bool,
    interval: u8,
}

impl Wish {
    fn tell(&mut self, act: &Act, stream: u8)
        ensures { (self.new.on, self.new.interval) ≡ told_by stream act.now (self.old.on, self.old.interval) }
    {
        match act.switch() {
            Some(Switch::On) => self.on = true,
            Some(Switch::Off) => {
                self.on = false;
                self.interval = 0;
            }
            None if self.on => self.interval = act.wish_after(stream, self.interval),
            None => {}
        }
    }
}
