//! The summary of a run.

ghost use Rattle.std.specs.Prelude.{◌≡◌, ◌<◌, IfOk, get_or, length, string_bytes, sum_by};
ghost use Rattle.run_commands.specs.Summary.{summary_lines, sent_ticks as sent_ticks_of, on_ticks as on_ticks_of};

use air_log::{Air, Entry};
use std::alloc::{AllocError, Global};
use text_writers::write_line;

/// The summary of a run with these numbers of deliveries and drops: both numbers, and the ticks in which all nodes sent and in
/// which their radios were on.
pub fn summary(
    alloc: Global,
    deliveries: usize,
    drops: usize,
    air: &Air,
) -> Result<String, AllocError>
    ensures { IfOk result (λ text. string_bytes text ≡ summary_lines deliveries drops air.now) }
{
    let (sent, on) = ticks(air);
    let mut text = String::new(alloc);
    write_line(&mut text, "deliveries", &[deliveries])?;
    write_line(&mut text, "drops", &[drops])?;
    write_line(&mut text, "sent", &[sent])?;
    write_line(&mut text, "on", &[on])?;
    Ok(text)
}

// The ticks of all transmissions of a log, and those of all its tunings.
fn ticks(air: &Air) -> (u128, u128)
    ensures sent { result.0 ≡ sum_by sent_ticks_of air.now }
    ensures on { result.1 ≡ sum_by on_ticks_of air.now }
{
    let mut sent = 0u128;
    let mut on = 0u128;
    for i in 0..air.len() {
        let entry = entry_at(air, i);
        sent += u128::from(sent_ticks(entry));
        on += u128::from(on_ticks(entry));
    }
    (sent, on)
}

fn entry_at(air: &Air, i: usize) -> &Entry
    requires { i < length air.now }
    ensures { result.now ≡ get_or air.now i result.now }
{
    air.at(i).unwrap()
}

// No entry ends before it starts.
fn sent_ticks(entry: &Entry) -> u64
    ensures { result ≡ sent_ticks_of entry.now }
{
    match entry {
        Entry::Sent(sent) => sent.end.saturating_sub(sent.start),
        Entry::Heard(_) | Entry::Tuned(_) => 0,
    }
}

fn on_ticks(entry: &Entry) -> u64
    ensures { result ≡ on_ticks_of entry.now }
{
    match entry {
        Entry::Tuned(tuned) => tuned.end.saturating_sub(tuned.start),
        Entry::Sent(_) | Entry::Heard(_) => 0,
    }
}
