//! Tests of the host's table.

ghost use Rattle.std.specs.Prelude.{◌≤◌};

use lwb_base::NodeId;
use lwb_packets::Request;
use stream_table::{Answer, Table};

// The answer to a request of stream 0 of a node.
fn answer(table: &mut Table, node: u8, interval: u8) -> Option<Answer>
    requires { interval ≤ 120 }
{
    let ask = Request {
        slot: 1,
        counter: 0,
        node: NodeId::new(node)?,
        boot: 1,
        stream: 0,
        interval,
    };
    Some(table.request(&ask, 5))
}

// Whether a table takes as many streams as it may have.
fn fills(table: &mut Table) -> bool {
    for node in 10..42 {
        if answer(table, node, 4) != Some(Answer::Accepted) {
            return false;
        }
    }
    true
}

// The code of the last owner, and its interval.
fn last_owner(table: &Table) -> Option<(u16, u8)> {
    let last = table.owner_at(31)?;
    Some((last.code(), table.interval(last)))
}

#[test]
fn a_full_table_changes_nothing(rt: HostRuntime) {
    let mut table = Table::new();
    assert!(rt; fills(&mut table));
    assert!(rt; answer(&mut table, 2, 4) == Some(Answer::Full));
    assert!(rt; answer(&mut table, 2, 0) == Some(Answer::Removed));
    assert!(rt; last_owner(&table) == Some((164, 4)));
}
