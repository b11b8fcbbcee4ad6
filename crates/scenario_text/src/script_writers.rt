//! Writes the lines of a script.

ghost use Rattle.std.specs.Prelude.{◌≡◌, ◌++◌, OnOk, string_bytes, codes, [], ◌∷◌};
ghost use Rattle.text_writers.specs.Lines.{line_text};
ghost use Rattle.scenario_text.specs.Canonical.{script_words, act_words};
ghost use Rattle.bus_rules.specs.declared.act.Act.TheVariants as act;

use crate::{Act, ScriptLine};
use lwb_base::{NodeId, Payload};
use std::alloc::AllocError;
use text_writers::{end_line, write_line, write_payload, write_words};

/// Writes a line of the script.
pub fn write_script_line(text: &mut String, line: &ScriptLine) -> Result<(), AllocError>
    ensures { OnOk result (string_bytes text.new ≡ string_bytes text.old ++ line_text (script_words line.now)) }
{
    let frame = line.frame;
    let node = u32::from(line.node.number());
    match &line.act {
        Act::On => write_line(text, "on", &[frame, node]),
        Act::Off => write_line(text, "off", &[frame, node]),
        Act::Declare(stream, interval) => write_line(
            text,
            "stream",
            &[frame, node, u32::from(*stream), u32::from(*interval)],
        ),
        Act::Leave(stream) => write_line(text, "leave", &[frame, node, u32::from(*stream)]),
        Act::Put(stream, payload) => {
            write_words(text, "put", &[frame, node, u32::from(*stream)])?;
            text.push(' ')?;
            write_payload(text, payload.bytes())?;
            end_line(text)
        }
    }
}
