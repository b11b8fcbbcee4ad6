//! The lines of a scenario.

ghost use Rattle.std.specs.Prelude.{◌≡◌, map};
ghost use Rattle.text_readers.specs.Faults.{spelled};
ghost use Rattle.scenario_text.specs.ScenarioGrammar.{scenario_line as scenario_line_of, scenario_numbers, is_profile_two};
ghost use Rattle.scenario_text.specs.ScriptGrammar.{step_line as step_line_of};

use crate::FaultKind;
use crate::network_line::NetworkLine;
use crate::written_act::{WrittenAct, script_line};
use text_readers::{five_numbers, four_numbers, is, one_number, two_numbers, word};

/// A line of a scenario, with its numbers as written.
#[derive(Drop)]
pub enum ScenarioLine {
    /// A line that flood texts have too.
    InNetwork(NetworkLine),
    /// The profile, by its number.
    Profile {
        number: u64,
    },
    /// The number of contention slots.
    Contend {
        slots: u64,
    },
    /// The number of frames.
    Frames {
        count: u64,
    },
    /// A host, and its rank.
    Host {
        rank: u64,
        id: u64,
    },
    /// At the start of the frame the node has to do this.
    Script {
        frame: u64,
        id: u64,
        act: WrittenAct,
    },
    /// In that step the link is lost.
    Lose {
        frame: u64,
        slot: u64,
        step: u64,
        from: u64,
        to: u64,
    },
    /// From that step on the node is cut off, until its slot is over.
    Cut {
        frame: u64,
        slot: u64,
        step: u64,
        id: u64,
    },
    /// The sender from which the node receives in that step where several meet.
    Capture {
        frame: u64,
        slot: u64,
        step: u64,
        at: u64,
        from: u64,
    },
}

impl ScenarioLine {
    /// What the words say. `BadWord` comes where they are not those of a line, and else `BadNumber` where a number is
    /// misspelled.
    #[tactic(auto, unfolding(crate::specs::ScenarioGrammar::scenario_line))]
    pub fn new(words: &[&[u8]]) -> Result<ScenarioLine, FaultKind>
        ensures { result ≡ spelled (scenario_line_of (map (λ w. w.now) words.now)) (λ l. scenario_numbers l (map (λ w. w.now) words.now)) }
    {
        let first = word(words, 0);
        if is(first, b"profile") {
            let number = one_number(words)?;
            Ok(ScenarioLine::Profile { number })
        } else if is(first, b"contend") {
            let slots = one_number(words)?;
            Ok(ScenarioLine::Contend { slots })
        } else if is(first, b"frames") {
            let count = one_number(words)?;
            Ok(ScenarioLine::Frames { count })
        } else if is(first, b"host") {
            let (rank, id) = two_numbers(words)?;
            Ok(ScenarioLine::Host { rank, id })
        } else {
            script_line(words)
        }
    }

    pub fn is_profile_two(&self) -> bool
        ensures { result ≡ is_profile_two self.now }
    {
        match self {
            ScenarioLine::Profile { number } => *number == 2,
            _ => false,
        }
    }
}

/// What the words of a line say that names a step, or of one that flood texts have too.
#[tactic(auto, unfolding(crate::specs::ScriptGrammar::step_line))]
pub fn step_line(words: &[&[u8]]) -> Result<ScenarioLine, FaultKind>
    ensures { let ws = map (λ w. w.now) words.now in
        result ≡ spelled (step_line_of ws) (λ l. scenario_numbers l ws) }
{
    let first = word(words, 0);
    if is(first, b"lose") {
        let (frame, slot, step, from, to) = five_numbers(words)?;
        Ok(ScenarioLine::Lose {
            frame,
            slot,
            step,
            from,
            to,
        })
    } else if is(first, b"cut") {
        let (frame, slot, step, id) = four_numbers(words)?;
        Ok(ScenarioLine::Cut {
            frame,
            slot,
            step,
            id,
        })
    } else if is(first, b"capture") {
        let (frame, slot, step, at, from) = five_numbers(words)?;
        Ok(ScenarioLine::Capture {
            frame,
            slot,
            step,
            at,
            from,
        })
    } else {
        let line = NetworkLine::new(words)?;
        Ok(ScenarioLine::InNetwork(line))
    }
}
