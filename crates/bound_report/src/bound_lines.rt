//! The lines of what is found of the bounds of a text.

ghost use Rattle.std.specs.Prelude.{◌≡◌, ◌<◌, ◌^◌, ◌++◌, ◌∷◌, [], OnOk, flat_map, length, option_to_list, string_bytes};
ghost use Rattle.std.specs.Str.Lines.{lines};
ghost use Rattle.bound_report.specs.BoundLines.{after_space, bound_word as bound_word_of, finding_line, reason_word as reason_word_of, spaced};
ghost use Rattle.bound_report.specs.BoundLines.{verdict_text, verdict_word as verdict_word_of, whom};

use crate::line_numbers::line_saying;
use bus_bounds::{Bound, Finding, Reason, Verdict};
use lwb_base::Memory;
use std::alloc::{AllocError, Global};
use text_writers::{end_line, write_number};

/// Writes a line for each finding: `holds NAME NODE FRAME FROM FRAMES`, or `open NAME NODE [FRAME] REASON [LINE]`. LINE is the number of the
/// first line of the text that says what breaks the premise. The text has fewer than 2^31 bytes.
pub fn write_findings(
    alloc: Global,
    text: &mut String,
    findings: &[Finding],
    bytes: &[u8],
) -> Result<(), Memory>
    requires { length bytes.now < 2 ^ 31 }
    ensures { OnOk result (string_bytes text.new ≡ string_bytes text.old ++ flat_map (finding_line bytes.now) findings.now) }
{
    for finding in findings {
        write_finding(alloc, text, finding, bytes)?;
    }
    Ok(())
}

fn write_finding(
    alloc: Global,
    text: &mut String,
    finding: &Finding,
    bytes: &[u8],
) -> Result<(), Memory>
    requires { length bytes.now < 2 ^ 31 }
    ensures { OnOk result (string_bytes text.new ≡ string_bytes text.old ++ finding_line bytes.now finding.now) }
{
    text.push_str(verdict_word(&finding.verdict))?;
    write_whom(text, finding)?;
    write_verdict(alloc, text, &finding.verdict, bytes)?;
    end_line(text)?;
    Ok(())
}

fn write_whom(text: &mut String, finding: &Finding) -> Result<(), AllocError>
    ensures { OnOk result (string_bytes text.new ≡ string_bytes text.old ++ whom finding.now) }
{
    write_word(text, bound_word(finding.bound))?;
    write_number(text, u32::from(finding.node.number()))?;
    write_option(text, finding.frame)
}

fn write_verdict(
    alloc: Global,
    text: &mut String,
    verdict: &Verdict,
    bytes: &[u8],
) -> Result<(), Memory>
    requires { length bytes.now < 2 ^ 31 }
    ensures { OnOk result (string_bytes text.new ≡ string_bytes text.old ++ verdict_text bytes.now verdict.now) }
{
    match verdict {
        Verdict::Holds { from, frames } => {
            write_number(text, *from)?;
            write_number(text, *frames)?;
        }
        Verdict::Broken { reason, line } => {
            let number = line_saying(alloc, line, bytes)?;
            write_word(text, reason_word(*reason))?;
            write_option(text, number)?;
        }
        Verdict::Open { reason } => write_word(text, reason_word(*reason))?,
    }
    Ok(())
}

fn write_word(text: &mut String, word: &str) -> Result<(), AllocError>
    ensures { OnOk result (string_bytes text.new ≡ string_bytes text.old ++ after_space word.now) }
{
    text.push(' ')?;
    text.push_str(word)
}

fn write_option(text: &mut String, number: Option<u32>) -> Result<(), AllocError>
    ensures { OnOk result (string_bytes text.new ≡ string_bytes text.old ++ spaced (option_to_list number)) }
{
    match number {
        Some(number) => write_number(text, number),
        None => Ok(()),
    }
}

fn bound_word(bound: Bound) -> &'static str
    ensures { result.now ≡ bound_word_of bound }
{
    match bound {
        Bound::First => "first",
        Bound::Failover => "failover",
        Bound::Joined => "joined",
        Bound::Scanning => "scanning",
    }
}

fn reason_word(reason: Reason) -> &'static str
    ensures { result.now ≡ reason_word_of reason }
{
    match reason {
        Reason::Power => "power",
        Reason::Boots => "boots",
        Reason::Rounds => "rounds",
        Reason::Loss => "loss",
        Reason::Ratio => "ratio",
        Reason::Reach => "reach",
    }
}

fn verdict_word(verdict: &Verdict) -> &'static str
    ensures { result.now ≡ verdict_word_of verdict.now }
{
    match verdict {
        Verdict::Holds { .. } => "holds",
        Verdict::Broken { .. } | Verdict::Open { .. } => "open",
    }
}
