//! Tests of the host's scheduler.

ghost use Rattle.std.specs.Prelude.{◌≤◌, All};

use host_scheduler::plan_round;
use lwb_base::{NodeId, Owner, Profile};
use lwb_packets::Request;
use schedule_codec::Owners;
use stream_table::Table;

// A stream is accepted in frame 0.
fn accept(table: &mut Table, node: NodeId, interval: u8)
    requires interval { interval ≤ 120 }
    requires early { All (λ e. e.accepted ≤ 9) table.old.entries }
    ensures { All (λ e. e.accepted ≤ 9) table.new.entries }
{
    let ask = Request {
        slot: 1,
        counter: 0,
        node,
        boot: 1,
        stream: 0,
        interval,
    };
    table.request(&ask, 0);
}

// Whether the first 39 owners have code 8, and the last of 40 has code 12.
fn are_in_turns(owners: &Owners) -> bool {
    for i in 0..39 {
        if owners.at(i) != Owner::from_code(8) {
            return false;
        }
    }
    owners.count() == 40 && owners.at(39) == Owner::from_code(12)
}

// The gap of a plan for a stream with 40 slots owed and one with one; whether its owners are those; and where the table stands.
fn planned() -> Option<(u8, bool, u16)> {
    let two = NodeId::new(2)?;
    let three = NodeId::new(3)?;
    let mut table = Table::new();
    accept(&mut table, two, 1);
    accept(&mut table, three, 40);
    let plan = plan_round(&mut table, &Profile::one(), 9);
    Some((plan.gap, are_in_turns(&plan.owners), table.place()))
}

#[test]
fn forty_one_slots_owed_are_given_in_turns(rt: HostRuntime) {
    assert!(rt; planned() == Some((1, true, 9)));
}
