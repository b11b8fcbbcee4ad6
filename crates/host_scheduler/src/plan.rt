//! The plan that a host makes for its next round.

ghost use Rattle.std.specs.Prelude.{◌≡◌, ◌+◌, ◌≤◌, All, length};
ghost use Rattle.std.specs.List.Sorted.{IsPermutation, IsNonDecreasing};
ghost use Rattle.lwb_base.specs.declared.limits.TheConstants.{DATA_SLOTS, GREATEST_GAP, LAST_FRAME};
ghost use Rattle.bus_rules.specs.Granting.{gap_of, last_code, owed_to, plan_round as planned};
ghost use Rattle.bus_rules.specs.Tables.{AreEntries};
ghost use Rattle.host_scheduler.specs.Debts.{IsGrantable, granted_all, slots_given, place_after};

use crate::debts::{all, debts};
use crate::turns::give;
use arrayvec::ArrayVec;
use lwb_base::{DATA_SLOTS, GREATEST_GAP, MOST_OWNERS, Owner, Profile};
use schedule_codec::Owners;
use stream_table::Table;

// The data slots of a round.
pub(crate) const SLOTS: u32 = DATA_SLOTS as u32;

/// What a host plans: its next round is `gap` frames from now, at least 1 and at most `GREATEST_GAP`, and has these owners.
#[derive(Drop)]
pub struct Plan {
    /// The frames from this one to the round, 1 to `GREATEST_GAP`.
    pub gap: u8,
    /// The owners of its data slots, at most `DATA_SLOTS`.
    pub owners: Owners,
}

/// Plans the next round in this frame, which is at most `LAST_FRAME` and not below that in which any stream was accepted,
/// and counts in the table what it grants.
pub fn plan_round(table: &mut Table, profile: &Profile, frame: u32) -> Plan
    requires accepted { All (λ e. e.accepted ≤ frame) table.old.entries }
    requires frame { frame ≤ LAST_FRAME }
    ensures gap { result.gap ≡ (planned profile.now.seconds frame table.old).gap }
    ensures owners { result.owners ≡ (planned profile.now.seconds frame table.old).owners }
    ensures table { table.new ≡ (planned profile.now.seconds frame table.old).table }
{
    let seconds = profile.seconds();
    let gap = gap(table, seconds, frame);
    let codes = sorted(slots(table, seconds, frame + u32::from(gap)));
    let owners = grant(table, codes.as_slice());
    Plan { gap, owners }
}

// The slots that are given for a round in this frame. The place of the turns moves on where not all that is owed fits.
fn slots(table: &mut Table, seconds: u8, frame: u32) -> ArrayVec<u16, MOST_OWNERS>
    requires seconds { seconds ≤ 5 }
    requires accepted { All (λ e. e.accepted ≤ frame) table.old.entries }
    requires frame { frame ≤ LAST_FRAME + GREATEST_GAP }
    ensures codes { result.items ≡ slots_given (owed_to seconds frame) table.old }
    ensures place { table.new ≡ record table.old { place = place_after (owed_to seconds frame) table.old } }
    ensures grantable { All (IsGrantable table.old.entries) result.items }
    ensures few { length result.items ≤ DATA_SLOTS }
    ensures kept { AreEntries table.old.entries }
{
    let place = table.place();
    let debts = debts(table, seconds, frame);
    if table.total(seconds, frame) <= SLOTS {
        return all(debts.as_slice());
    }
    let given = give(debts.as_slice(), place);
    table.set_place(last_of(given.as_slice()) + 1);
    given
}

// The last of these codes, 0 where there are none.
fn last_of(codes: &[u16]) -> u16
    requires { All (λ c. c ≤ 803) codes.now }
    ensures value { result ≡ last_code codes.now }
    ensures range { result ≤ 803 }
{
    match codes.last() {
        Some(code) => *code,
        None => 0,
    }
}

// The greatest gap at which all that is owed fits one round, else 1.
fn gap(table: &Table, seconds: u8, frame: u32) -> u8
    requires seconds { seconds ≤ 5 }
    requires accepted { All (λ e. e.accepted ≤ frame) table.now.entries }
    requires frame { frame ≤ LAST_FRAME }
    ensures value { result ≡ gap_of seconds frame table.now.entries }
    ensures range { result ≤ GREATEST_GAP }
{
    if table.total(seconds, frame + u32::from(GREATEST_GAP)) <= SLOTS {
        GREATEST_GAP
    } else if table.total(seconds, frame + 3) <= SLOTS {
        3
    } else if table.total(seconds, frame + 2) <= SLOTS {
        2
    } else {
        1
    }
}

fn sorted(codes: ArrayVec<u16, MOST_OWNERS>) -> ArrayVec<u16, MOST_OWNERS>
    ensures same { IsPermutation codes.items result.items }
    ensures ascend { IsNonDecreasing result.items }
{
    let mut codes = codes;
    codes.sort_unstable();
    codes
}

// Counts a slot for each of these codes, which ascend.
fn grant(table: &mut Table, codes: &[u16]) -> Owners
    requires few { length codes.now ≤ DATA_SLOTS }
    requires ascend { IsNonDecreasing codes.now }
    requires grantable { All (IsGrantable table.old.entries) codes.now }
    ensures owners { result ≡ codes.now }
    ensures table { table.new ≡ granted_all codes.now table.old }
{
    let mut owners = Owners::new();
    for code in codes {
        let owner = Owner::from_code(*code).unwrap();
        table.grant(owner);
        owners.add(owner);
    }
    owners
}
