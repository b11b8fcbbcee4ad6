//! Copies the script of a scenario.

ghost use Rattle.std.specs.Prelude.{◌≡◌, IfOk};

use lwb_base::Memory;
use scenario_text::ScriptLine;
use std::alloc::Global;

/// The same lines in memory of their own.
pub fn copied_script(alloc: Global, lines: &[ScriptLine]) -> Result<Vec<ScriptLine>, Memory>
    ensures { IfOk result (λ script. script.items ≡ lines.now) }
{
    let mut script = Vec::new(alloc);
    for line in lines {
        script.push(copied(line))?;
    }
    Ok(script)
}

fn copied(line: &ScriptLine) -> ScriptLine
    ensures { result ≡ line.now }
{
    ScriptLine {
        frame: line.frame,
        node: line.node,
        act: line.act.copy(),
    }
}
