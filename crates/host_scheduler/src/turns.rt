//! The slots of a round where more are owed than it has.

ghost use Rattle.std.specs.Prelude.{◌≡◌, ◌+◌, ◌<◌, ◌≤◌, [], ◌∷◌, ◌++◌, true, if◌then◌else◌, length, map, take};
ghost use Rattle.lwb_base.specs.declared.limits.TheConstants.{DATA_SLOTS};
ghost use Rattle.host_scheduler.specs.Debts.{debts_from_place, is_owed_from, early, turns_of, beyond, code_of_debt};

use crate::debts::Debt;
use crate::plan::SLOTS;
use arrayvec::ArrayVec;
use lwb_base::MOST_OWNERS;

// The slots of a round where more is owed, in the order in which they are given: in each turn one to each owner that is
// still owed something, beginning at the place and wrapping round.
pub(crate) fn give(debts: &[Debt], place: u16) -> ArrayVec<u16, MOST_OWNERS>
    requires { length debts.now ≤ 32 }
    ensures { result.items ≡ take DATA_SLOTS (turns_of (debts_from_place place debts.now) DATA_SLOTS) }
{
    let mut given = ArrayVec::new();
    let mut line = line_from(debts, place);
    for turn in 0..SLOTS {
        line = give_turn(&mut given, line.as_slice(), turn);
    }
    given
}

// The owners that are owed something, in the order of a turn.
fn line_from(debts: &[Debt], place: u16) -> ArrayVec<Debt, 32>
    requires { length debts.now ≤ 32 }
    ensures { result.items ≡ beyond 0 (debts_from_place place debts.now) }
{
    let mut line = ArrayVec::new();
    for debt in debts {
        push_if(&mut line, debt, is_late(debt, place));
    }
    for debt in debts {
        push_if(&mut line, debt, is_early(debt, place));
    }
    line
}

// Owed something, and from the place on.
fn is_late(debt: &Debt, place: u16) -> bool
    ensures { result ≡ is_owed_from place debt.now }
{
    debt.code >= place && debt.owed > 0
}

// Owed something, and before the place.
fn is_early(debt: &Debt, place: u16) -> bool
    ensures { result ≡ early place debt.now }
{
    debt.code < place && debt.owed > 0
}

// One turn, as far as there are slots. The owners that are still owed something after it.
fn give_turn(given: &mut ArrayVec<u16, MOST_OWNERS>, line: &[Debt], turn: u32) -> ArrayVec<Debt, 32>
    requires turn { turn < DATA_SLOTS }
    requires line { length line.now ≤ 32 }
    requires given { length given.old.items ≤ DATA_SLOTS }
    ensures given { given.new.items ≡ take DATA_SLOTS (given.old.items ++ map code_of_debt line.now) }
    ensures rest { result.items ≡ beyond (turn + 1) line.now }
{
    let mut rest = ArrayVec::new();
    for debt in line {
        push_slot(given, debt.code);
        push_if(&mut rest, debt, debt.owed > turn + 1);
    }
    rest
}

// One slot more, as long as the round has one.
fn push_slot(given: &mut ArrayVec<u16, MOST_OWNERS>, code: u16)
    ensures { given.new.items ≡ take DATA_SLOTS (given.old.items ++ code ∷ []) }
{
    if !given.is_full() {
        given.push(code);
    }
}

fn push_if(line: &mut ArrayVec<Debt, 32>, debt: &Debt, stays: bool)
    requires { stays ≡ true → length line.old.items < 32 }
    ensures { line.new.items ≡ line.old.items ++ (if stays then debt.now ∷ [] else []) }
{
    if stays {
        line.push(*debt);
    }
}
