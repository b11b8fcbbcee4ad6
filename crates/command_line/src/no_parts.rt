//! The reports of a program that writes none in parts.

ghost use Rattle.std.specs.Prelude.{ℕ, List, [], ⊤};

use crate::answer::ReportInParts;
use lwb_base::Sink;
use std::alloc::Global;

/// No report is written in parts: such a value is never an answer. It would write nothing.
#[derive(Clone, Copy)]
pub struct NoParts;

impl ReportInParts for NoParts {
    ghost text = { λ x. [] };

    ghost is_ready = { λ x. ⊤ };

    fn write<K: Sink>(&self, _alloc: Global, _sink: &mut K) -> u8 {
        0
    }
}
