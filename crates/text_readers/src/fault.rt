//! Why a text is rejected.

ghost use Rattle.std.specs.Prelude.{◌≡◌, Some, true, false, MatchResult};
ghost use Rattle.text_readers.specs.FaultNames.{kind_name};
ghost use Rattle.text_readers.specs.Faults.{at_line};
ghost use Rattle.text_readers.specs.declared.fault.Refusal.TheVariants.{Fault, NoMemory};

use lwb_base::Memory;
use std::alloc::AllocFailed;
use std::fmt;

/// Why a line of a text is rejected. Where several hold of a line, the first of this list is named. Its text is the name of the
/// variant.
#[derive(Clone, Copy, Debug, PartialEq, Eq)]
pub enum FaultKind {
    /// The line is not UTF-8.
    NotUtf8,
    /// The first word is unknown, the count of words is wrong, or a payload is misspelled: an odd count of digits, or
    /// another character.
    BadWord,
    /// A number is misspelled: it is `0`, or 1 to 13 digits of which the first is not 0. A rate may have a `-` before
    /// a number that is not 0.
    BadNumber,
    /// A number or a payload is out of its range, or two ids that must differ are equal.
    Range,
    /// No line above has the node.
    UnknownNode,
    /// The line is not allowed here: `profile` or `contend` is not at the top, frames are not given yet, a rate is not later
    /// than the one before, a host's rank leaves one out, or the frame is below that of the script so far.
    Order,
    /// A line above says this already.
    Twice,
    /// It would be the 65th node, the 20,001st line of the script, or the 201st boot of a node.
    TooMany,
    /// At the end of the text: sends or a second node is missing, or frames or a host of a scenario, or the start of
    /// a flood.
    Missing,
    /// At the end of a scenario: its nodes times its frames exceed what its reader takes.
    TooBig,
}

impl fmt::Display for FaultKind {
    ghost output = { λ k. Some (kind_name k) };

    fn fmt<W: fmt::Write>(&self, f: &mut fmt::Formatter<W>) -> fmt::Result {
        f.write_str(match self {
            FaultKind::NotUtf8 => "NotUtf8",
            FaultKind::BadWord => "BadWord",
            FaultKind::BadNumber => "BadNumber",
            FaultKind::Range => "Range",
            FaultKind::UnknownNode => "UnknownNode",
            FaultKind::Order => "Order",
            FaultKind::Twice => "Twice",
            FaultKind::TooMany => "TooMany",
            FaultKind::Missing => "Missing",
            FaultKind::TooBig => "TooBig",
        })
    }
}

/// Why a text is not read.
#[derive(Clone, Copy, Debug, PartialEq, Eq)]
pub enum ParseFault {
    /// The first line that is rejected, counted from 1, and why. What is missed at the end of the text is missed in the line
    /// after the last.
    Line(u32, FaultKind),
    /// There was too little memory. It comes at no other time, and says nothing of the text.
    Memory,
}

/// Why a draft doesn't go on by a line: the fault of the line, or out of memory.
#[derive(Clone, Copy, Debug, PartialEq, Eq)]
pub enum Refusal {
    /// The line has this fault.
    Fault(FaultKind),
    /// There was too little memory.
    NoMemory,
}

impl From<FaultKind> for Refusal {
    ghost from_gives = { λ k e. e ≡ Fault k };

    fn from(kind: FaultKind) -> Refusal {
        Refusal::Fault(kind)
    }
}

impl From<Memory> for Refusal {
    ghost from_gives = { λ _ e. e ≡ NoMemory };

    fn from(_: Memory) -> Refusal {
        Refusal::NoMemory
    }
}

impl<T: Drop> From<AllocFailed<T>> for Refusal {
    ghost from_gives = { λ _ e. e ≡ NoMemory };

    fn from(_: AllocFailed<T>) -> Refusal {
        Refusal::NoMemory
    }
}

impl Refusal {
    /// The answer to a text whose line of that number is rejected.
    pub fn in_line(self, line: u32) -> ParseFault
        ensures { result ≡ at_line line self }
    {
        match self {
            Refusal::Fault(kind) => ParseFault::Line(line, kind),
            Refusal::NoMemory => ParseFault::Memory,
        }
    }
}

/// A fault of that kind, unless the test holds.
pub fn refuse_unless(holds: bool, kind: FaultKind) -> Result<(), FaultKind>
    ensures { MatchResult result (λ done. holds ≡ true) (λ k. (holds ≡ false) × (k ≡ kind)) }
{
    if holds { Ok(()) } else { Err(kind) }
}
