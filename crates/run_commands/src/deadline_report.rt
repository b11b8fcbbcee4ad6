//! The report of a plan with deadlines.

ghost use Rattle.std.specs.Prelude.{◌≡◌, ◌<◌, ◌++◌, IfOk, OnOk, flat_map, length, slice_index, string_bytes};
ghost use Rattle.std.specs.List.{enumerate_from};
ghost use Rattle.run_commands.specs.DeadlineReport.{answer_line, owners_line, round_line, deadline_lines};

use deadline_plan::{Admit, DeadlineStream};
use schedule_codec::Owners;
use std::alloc::{AllocError, Global};
use text_writers::{
    end_line, write_line, write_lines, write_lines_in_places, write_number, write_words,
};

/// The report of a plan: `admit NODE S` or `refuse NODE S FROM UNTIL DEMAND` for each stream, then `round FRAME CODE ..` for
/// each frame with an owner.
pub fn deadline_report(
    alloc: Global,
    answers: &[(DeadlineStream, Admit)],
    rounds: &[Owners],
) -> Result<String, AllocError>
    ensures { IfOk result (λ text. string_bytes text ≡ deadline_lines answers.now rounds.now) }
{
    let mut text = String::new(alloc);
    write_answers(&mut text, answers)?;
    write_rounds(&mut text, rounds)?;
    Ok(text)
}

fn write_answers(text: &mut String, answers: &[(DeadlineStream, Admit)]) -> Result<(), AllocError>
    ensures { OnOk result (string_bytes text.new ≡ string_bytes text.old ++ flat_map answer_line answers.now) }
{
    write_lines(text, answers, write_answer)
}

fn write_answer(text: &mut String, answered: &(DeadlineStream, Admit)) -> Result<(), AllocError>
    ensures { OnOk result (string_bytes text.new ≡ string_bytes text.old ++ answer_line answered.now) }
{
    let (stream, answer) = answered;
    let node = u32::from(stream.owner.node().number());
    let number = u32::from(stream.owner.stream());
    match answer {
        Admit::Yes => write_line(text, "admit", &[node, number]),
        Admit::Over {
            from,
            until,
            demand,
        } => write_line(text, "refuse", &[node, number, *from, *until, *demand]),
        // An owner is nowhere twice in a text, nor are there more streams than can be admitted.
        Admit::Twice | Admit::Full => Ok(()),
    }
}

fn write_rounds(text: &mut String, rounds: &[Owners]) -> Result<(), AllocError>
    ensures { OnOk result (string_bytes text.new ≡ string_bytes text.old ++ flat_map round_line (enumerate_from 0 rounds.now)) }
{
    write_lines_in_places(text, rounds, write_round)
}

// Nothing for a frame without an owner.
fn write_round(text: &mut String, frame: usize, owners: &Owners) -> Result<(), AllocError>
    ensures { OnOk result (string_bytes text.new ≡ string_bytes text.old ++ owners_line frame owners.now) }
{
    if owners.count() == 0 {
        return Ok(());
    }
    write_words(text, "round", &[frame])?;
    for place in 0..owners.count() {
        write_number(text, code_at(owners, place))?;
    }
    end_line(text)
}

fn code_at(owners: &Owners, place: u8) -> u16
    requires { place < length owners.now }
    ensures { result ≡ slice_index owners.now place }
{
    owners.at(usize::from(place)).unwrap().code()
}
