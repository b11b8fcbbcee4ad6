//! The lines of what became of the packets of each stream, counted.

ghost use Rattle.std.specs.Prelude.{◌≡◌, ◌++◌, OnOk, flat_map, string_bytes};
ghost use Rattle.fate_report.specs.SampleLines.{counts_line, host_line, hosted_line, latency_line, latency_numbers};

use bus_terms::{HostedCount, LatencyCount, StreamCounts};
use std::alloc::AllocError;
use text_writers::{write_line, write_lines};

/// Writes a line for each stream, with how many of its packets had each fate:
/// `puts NODE STREAM PUT DROPPED SENT WAITING CLEARED`.
pub fn write_counts(text: &mut String, counts: &[StreamCounts]) -> Result<(), AllocError>
    ensures { OnOk result (string_bytes text.new ≡ string_bytes text.old ++ flat_map counts_line counts.now) }
{
    write_lines(text, counts, write_stream)
}

/// Writes a line for each host of a stream, with how many packets were sent in its rounds: `hosted NODE STREAM AT COUNT`.
pub fn write_hosted(text: &mut String, counts: &[HostedCount]) -> Result<(), AllocError>
    ensures { OnOk result (string_bytes text.new ≡ string_bytes text.old ++ flat_map hosted_line counts.now) }
{
    write_lines(text, counts, write_host)
}

/// Writes a line for each latency that came, with how often it did: `latency NODE STREAM AT FRAMES COUNT`.
pub fn write_latencies(text: &mut String, counts: &[LatencyCount]) -> Result<(), AllocError>
    ensures { OnOk result (string_bytes text.new ≡ string_bytes text.old ++ flat_map latency_line counts.now) }
{
    write_lines(text, counts, write_latency)
}

/// Writes a line for each latency that came at the hosts of rounds, with how often it did: `host NODE STREAM AT FRAMES COUNT`.
pub fn write_host_latencies(text: &mut String, counts: &[LatencyCount]) -> Result<(), AllocError>
    ensures { OnOk result (string_bytes text.new ≡ string_bytes text.old ++ flat_map host_line counts.now) }
{
    write_lines(text, counts, write_host_latency)
}

fn write_stream(text: &mut String, counts: &StreamCounts) -> Result<(), AllocError>
    ensures { OnOk result (string_bytes text.new ≡ string_bytes text.old ++ counts_line counts.now) }
{
    let node = u32::from(counts.node.number());
    let stream = u32::from(counts.stream);
    write_line(
        text,
        "puts",
        &[
            node,
            stream,
            counts.put,
            counts.dropped,
            counts.sent,
            counts.waiting,
            counts.cleared,
        ],
    )
}

fn write_host(text: &mut String, counts: &HostedCount) -> Result<(), AllocError>
    ensures { OnOk result (string_bytes text.new ≡ string_bytes text.old ++ hosted_line counts.now) }
{
    let node = u32::from(counts.node.number());
    let stream = u32::from(counts.stream);
    let at = u32::from(counts.at.number());
    write_line(text, "hosted", &[node, stream, at, counts.count])
}

fn write_latency(text: &mut String, counted: &LatencyCount) -> Result<(), AllocError>
    ensures { OnOk result (string_bytes text.new ≡ string_bytes text.old ++ latency_line counted.now) }
{
    write_line(text, "latency", &numbers_of(counted))
}

fn write_host_latency(text: &mut String, counted: &LatencyCount) -> Result<(), AllocError>
    ensures { OnOk result (string_bytes text.new ≡ string_bytes text.old ++ host_line counted.now) }
{
    write_line(text, "host", &numbers_of(counted))
}

fn numbers_of(counted: &LatencyCount) -> [u32; 5]
    ensures { result ≡ latency_numbers counted.now }
{
    let latency = &counted.latency;
    [
        u32::from(latency.node.number()),
        u32::from(latency.stream),
        u32::from(latency.at.number()),
        latency.frames,
        counted.count,
    ]
}
