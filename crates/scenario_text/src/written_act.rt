//! What a node has to do by a line of the script, with its numbers as written.

ghost use Rattle.std.specs.Prelude.{◌≡◌, [], ◌∷◌, true, map, IfOk, Some};
ghost use Rattle.text_readers.specs.Faults.{first_fault, spelled, RefusesBy};
ghost use Rattle.text_readers.specs.declared.fault.FaultKind.TheVariants.{Range};
ghost use Rattle.scenario_text.specs.ScenarioGrammar.{scenario_numbers};
ghost use Rattle.scenario_text.specs.ScriptGrammar.{script_line as script_line_of, put_line as put_line_of, act_in_range, act_of};

use crate::payloads::{is_payload, payload};
use crate::scenario_line::{ScenarioLine, step_line};
use crate::{Act, FaultKind};
use lwb_base::{Payload, Profile};
use text_readers::{four_numbers, is, number, three_numbers, two_numbers, word};

/// What a node has to do, with its numbers as written.
#[derive(Drop)]
pub enum WrittenAct {
    /// It boots.
    On,
    /// It is powered off.
    Off,
    /// From now on the stream has an interval of this number of seconds.
    Stream {
        stream: u64,
        interval: u64,
    },
    /// The stream ends.
    Leave {
        stream: u64,
    },
    /// The stream gets a payload to send. `None` where that is longer than any may be.
    Put {
        stream: u64,
        payload: Option<Payload>,
    },
}

impl WrittenAct {
    /// What the node has to do. `Range` where a number or the length of the payload is out of its range.
    pub fn in_range(self, profile: &Profile) -> Result<Act, FaultKind>
        ensures fault { RefusesBy result (first_fault ((act_in_range profile.now self, Range) ∷ [])) }
        ensures range { IfOk result (λ a. act_in_range profile.now self ≡ true) }
        ensures act { IfOk result (λ a. act_of self ≡ Some a) }
    {
        match self {
            WrittenAct::On => Ok(Act::On),
            WrittenAct::Off => Ok(Act::Off),
            WrittenAct::Stream { stream, interval } => {
                if stream > 3 || interval < 1 || interval > 120 {
                    return Err(FaultKind::Range);
                }
                Ok(Act::Declare(stream as u8, interval as u8))
            }
            WrittenAct::Leave { stream } => {
                if stream > 3 {
                    return Err(FaultKind::Range);
                }
                Ok(Act::Leave(stream as u8))
            }
            WrittenAct::Put { stream, payload } => {
                let Some(payload) = payload else {
                    return Err(FaultKind::Range);
                };
                let longest = usize::from(profile.payload_max());
                if stream > 3 || payload.bytes().len() > longest {
                    return Err(FaultKind::Range);
                }
                Ok(Act::Put(stream as u8, payload))
            }
        }
    }
}

/// What the words of a line of the script say, or of one that `step_line` knows. `BadWord` where they are not those of a line,
/// and else `BadNumber` where a number is misspelled.
#[tactic(auto, unfolding(crate::specs::ScriptGrammar::script_line))]
pub fn script_line(words: &[&[u8]]) -> Result<ScenarioLine, FaultKind>
    ensures { let ws = map (λ w. w.now) words.now in
        result ≡ spelled (script_line_of ws) (λ l. scenario_numbers l ws) }
{
    let first = word(words, 0);
    if is(first, b"on") {
        let (frame, id) = two_numbers(words)?;
        let act = WrittenAct::On;
        Ok(ScenarioLine::Script { frame, id, act })
    } else if is(first, b"off") {
        let (frame, id) = two_numbers(words)?;
        let act = WrittenAct::Off;
        Ok(ScenarioLine::Script { frame, id, act })
    } else if is(first, b"stream") {
        let (frame, id, stream, interval) = four_numbers(words)?;
        let act = WrittenAct::Stream { stream, interval };
        Ok(ScenarioLine::Script { frame, id, act })
    } else if is(first, b"leave") {
        let (frame, id, stream) = three_numbers(words)?;
        let act = WrittenAct::Leave { stream };
        Ok(ScenarioLine::Script { frame, id, act })
    } else if is(first, b"put") {
        put_line(words)
    } else {
        step_line(words)
    }
}

// What the words after `put` say. A payload that is misspelled comes before a number that is.
#[tactic(auto, unfolding(crate::specs::ScriptGrammar::put_line))]
fn put_line(words: &[&[u8]]) -> Result<ScenarioLine, FaultKind>
    ensures { let ws = map (λ w. w.now) words.now in
        result ≡ spelled (put_line_of ws) (λ l. scenario_numbers l ws) }
{
    let hex = word(words, 4);
    if !is_payload(hex) {
        return Err(FaultKind::BadWord);
    }
    let [_, frame, id, stream, _] = words else {
        return Err(FaultKind::BadWord);
    };
    let frame = number(frame)?;
    let id = number(id)?;
    let stream = number(stream)?;
    let payload = payload(hex);
    let act = WrittenAct::Put { stream, payload };
    Ok(ScenarioLine::Script { frame, id, act })
}
