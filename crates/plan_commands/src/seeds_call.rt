//! The texts of the seeds of a sample, written one after another.

ghost use Rattle.std.specs.Prelude.{◌≡◌, ◌≢◌, ◌⊎◌, ◌+◌, ◌≤◌, ◌<◌, ◌^◌, map};
ghost use Rattle.std.specs.Io.KnownBytes.{Appends};
ghost use Rattle.lwb_base.specs.Causes.{Rose};
ghost use Rattle.scenario_text.specs.FloodParts.{node_id};
ghost use Rattle.command_line.specs.Streams.{PartWritten};
ghost use Rattle.plan_commands.specs.SeedTexts.{seed_text as seed_text_of, seeds_text};

use crate::sampled_network::SampledNetwork;
use crate::seed_text::seed_text;
use command_line::say;
use lwb_base::{Memory, Sink};
use std::alloc::Global;

/// Writes the text of each seed, one after another, and gives 0. Or it writes a proper prefix of all of it, and gives 4 where the
/// sink failed and 5 where memory ran out. It keeps the text of one seed at a time, which no clause says.
pub fn write_seeds<K: Sink>(alloc: Global, network: &SampledNetwork, sink: &mut K) -> u8
    requires nodes { network.now.ratios.nodes ≡ map node_id network.now.scenario.nodes }
    requires few { network.now.from + network.now.count < 2 ^ 64 }
    ensures known { (result ≡ 0) ⊎ ((result ≡ 4) ⊎ (result ≡ 5)) }
    ensures whole { result ≡ 0 → Appends (K.held sink.old) (K.held sink.new)
        (seeds_text network.now.scenario network.now.ratios.lines network.now.from network.now.count) }
    ensures part { result ≢ 0 → PartWritten (K.held sink.old) (K.held sink.new)
        (λ t. t ≡ seeds_text network.now.scenario network.now.ratios.lines network.now.from network.now.count) }
    ensures fault { result ≡ 4 → Rose (K.faults sink.old) (K.faults sink.new) }
    ensures later { K.faults sink.old ≤ K.faults sink.new }
{
    for i in 0..network.count {
        let status = write_seed(alloc, network, network.from + i, sink);
        if status != 0 {
            return status;
        }
    }
    0
}

// One of them.
fn write_seed<K: Sink>(alloc: Global, network: &SampledNetwork, seed: u64, sink: &mut K) -> u8
    requires nodes { network.now.ratios.nodes ≡ map node_id network.now.scenario.nodes }
    ensures known { (result ≡ 0) ⊎ ((result ≡ 4) ⊎ (result ≡ 5)) }
    ensures whole { result ≡ 0 → Appends (K.held sink.old) (K.held sink.new) (seed_text_of network.now.scenario network.now.ratios.lines seed) }
    ensures part { result ≢ 0 → PartWritten (K.held sink.old) (K.held sink.new) (λ t. t ≡ seed_text_of network.now.scenario network.now.ratios.lines seed) }
    ensures fault { result ≡ 4 → Rose (K.faults sink.old) (K.faults sink.new) }
    ensures later { K.faults sink.old ≤ K.faults sink.new }
{
    match seed_text(alloc, &network.scenario, &network.ratios, seed) {
        Ok(text) => say(sink, text.as_bytes(), 0),
        Err(Memory) => 5,
    }
}
