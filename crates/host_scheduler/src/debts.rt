//! The slots that are owed to each owner.

ghost use Rattle.std.specs.Prelude.{◌≡◌, ◌+◌, ◌≤◌, ◌++◌, All, length, replicate, sum_by};
ghost use Rattle.lwb_base.specs.declared.limits.TheConstants.{DATA_SLOTS, GREATEST_GAP, LAST_FRAME};
ghost use Rattle.bus_rules.specs.Granting.{owed_to};
ghost use Rattle.bus_rules.specs.Tables.{AreEntries};
ghost use Rattle.host_scheduler.specs.Debts.{debts_of, all_owed, IsCode, owed_in};

use arrayvec::ArrayVec;
use lwb_base::MOST_OWNERS;
use stream_table::Table;

// What is owed to an owner.
#[derive(Clone, Copy, Default)]
pub(crate) struct Debt {
    pub(crate) code: u16,
    pub(crate) owed: u32,
}

// What is owed in a frame to each owner of a table, by ascending code.
pub(crate) fn debts(table: &Table, seconds: u8, frame: u32) -> ArrayVec<Debt, 32>
    requires kept { AreEntries table.now.entries }
    requires seconds { seconds ≤ 5 }
    requires accepted { All (λ e. e.accepted ≤ frame) table.now.entries }
    requires frame { frame ≤ LAST_FRAME + GREATEST_GAP }
    ensures value { result.items ≡ debts_of (owed_to seconds frame) table.now.entries }
    ensures codes { All (λ d. IsCode d.code) result.items }
{
    let mut debts = ArrayVec::new();
    for i in 0..32 {
        let Some(owner) = table.owner_at(i) else {
            return debts;
        };
        let owed = table.owed(seconds, owner, frame);
        debts.push(Debt {
            code: owner.code(),
            owed,
        });
    }
    debts
}

// Each code as often as it is owed, where that is at most `DATA_SLOTS` in all.
pub(crate) fn all(debts: &[Debt]) -> ArrayVec<u16, MOST_OWNERS>
    requires { sum_by owed_in debts.now ≤ DATA_SLOTS }
    ensures { result.items ≡ all_owed debts.now }
{
    let mut codes = ArrayVec::new();
    for debt in debts {
        push_times(&mut codes, debt.code, debt.owed);
    }
    codes
}

fn push_times(codes: &mut ArrayVec<u16, MOST_OWNERS>, code: u16, times: u32)
    requires { length codes.old.items + times ≤ DATA_SLOTS }
    ensures { codes.new.items ≡ codes.old.items ++ replicate times code }
{
    for slot in 0..times {
        codes.push(code);
    }
}
