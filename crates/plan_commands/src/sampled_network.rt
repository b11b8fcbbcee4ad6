//! A network with the seeds that a sample is to draw.

ghost use Rattle.plan_commands.specs.Answers.{CanBeSampled, sampled_text};

use crate::seeds_call::write_seeds;
use command_line::ReportInParts;
use drawn_links::Ratios;
use lwb_base::Sink;
use scenario_text::Scenario;
use std::alloc::Global;

/// A scenario with its reception ratios, and the seeds of a sample: the first one and their number.
#[derive(Drop)]
pub struct SampledNetwork {
    pub scenario: Scenario,
    pub ratios: Ratios,
    pub from: u64,
    pub count: u64,
}

impl ReportInParts for SampledNetwork {
    ghost text = { sampled_text };

    ghost is_ready = { CanBeSampled };

    fn write<K: Sink>(&self, alloc: Global, sink: &mut K) -> u8 {
        write_seeds(alloc, self, sink)
    }
}
