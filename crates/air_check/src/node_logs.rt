//! The entries of a log by ids.

ghost use Rattle.std.specs.Prelude.{◌≡◌, ◌≤◌, [], IfOk, OnOk, length, get_or, set};
ghost use Rattle.lwb_base.specs.declared.limits.TheConstants.{GREATEST_ID};
ghost use Rattle.air_log.specs.Entries.{node_of_entry as node_with};
ghost use Rattle.air_check.specs.NodeLogs.{AreLogsOf, after_entry, empty_node_log};

use crate::node_log::NodeLog;
use air_log::Entry;
use lwb_base::{Memory, NodeId, PLACES_BY_ID};
use std::alloc::Global;

/// What each id did by these entries, at the place of that id. `Err` means out of memory.
pub fn logs_by_id(alloc: Global, entries: &[Entry]) -> Result<Vec<NodeLog>, Memory>
    ensures { IfOk result (λ logs. AreLogsOf entries.now logs.items) }
{
    let mut logs = empty_logs(alloc)?;
    for entry in entries {
        add_entry(&mut logs, entry)?;
    }
    Ok(logs)
}

fn empty_logs(alloc: Global) -> Result<Vec<NodeLog>, Memory>
    ensures { IfOk result (λ logs. AreLogsOf [] logs.items) }
{
    let mut logs = Vec::new(alloc);
    for _ in 0..PLACES_BY_ID {
        logs.push(NodeLog::new(alloc))?;
    }
    Ok(logs)
}

fn add_entry(logs: &mut Vec<NodeLog>, entry: &Entry) -> Result<(), Memory>
    requires { length logs.old.items ≡ PLACES_BY_ID }
    ensures range { (1 ≤ node_with entry.now) × (node_with entry.now ≤ GREATEST_ID) }
    ensures added { OnOk result (logs.new.items
        ≡ set logs.old.items (node_with entry.now) (after_entry (get_or logs.old.items (node_with entry.now) empty_node_log) entry.now)) }
{
    let place = node_of(entry).number() as usize;
    let log = &mut logs[place];
    log.add(entry)
}

fn node_of(entry: &Entry) -> NodeId
    ensures { result ≡ node_with entry.now }
{
    match entry {
        Entry::Sent(sent) => sent.node,
        Entry::Heard(heard) => heard.node,
        Entry::Tuned(tuned) => tuned.node,
    }
}
