//! The call of the program, on the canonical text of a scenario.

ghost use Rattle.std.specs.Prelude.{◌≡◌, ◌≤◌, ◌⊎◌, ℕ, [], ◌∷◌, Some, codes, length, map, string_bytes};
ghost use Rattle.lwb_base.specs.Causes.{Rose};
ghost use Rattle.lwb_base.specs.declared.read.TheConstants.{INPUT_LIMIT};
ghost use Rattle.command_line.specs.Streams.{Written};
ghost use Rattle.scenario_text.specs.Canonical.{canonical};
ghost use Rattle.scenario_text.specs.ScenarioParts.{ScenarioParts};
ghost use Rattle.law_printed.specs.Printed.{CanBeRun, PrintsDeliveries, PrintsSafeLog};

use lwb_base::{Sink, Source};
use std::alloc::Global;

/// Calls `top` of `run_commands` once, as the program does, and returns its status. If the input is the canonical text of a scenario
/// that may be run, and the status is 0: with the word `run` the lines `deliver` of what is written are those of the ideal
/// single-hop bus (`deliveries`), and with the word `log` the lines `sent` are the transmissions of a safe log (`safe`). In both
/// cases the status is 0, or 5 for out of memory, unless the source or the sink failed (`finished`).
pub fn a_run_is_printed<S: Source, K: Sink>(
    alloc: Global,
    words: &[String],
    source: &mut S,
    sink: &mut K,
) -> u8
    ensures deliveries { (s : ScenarioParts) → CanBeRun s → map string_bytes words.now ≡ codes "run" ∷ []
        → S.left source.old ≡ Some (canonical s) → result ≡ 0 → Written (K.held sink.old) (K.held sink.new) (PrintsDeliveries s) }
    ensures safe { (s : ScenarioParts) → CanBeRun s → map string_bytes words.now ≡ codes "log" ∷ []
        → S.left source.old ≡ Some (canonical s) → result ≡ 0 → Written (K.held sink.old) (K.held sink.new) (PrintsSafeLog s) }
    ensures finished { (s : ScenarioParts) → CanBeRun s → length (canonical s) ≤ INPUT_LIMIT
        → (map string_bytes words.now ≡ codes "run" ∷ []) ⊎ (map string_bytes words.now ≡ codes "log" ∷ [])
        → S.left source.old ≡ Some (canonical s) → (Rose (S.faults source.old) (S.faults source.new) → ⊥)
        → (Rose (K.faults sink.old) (K.faults sink.new) → ⊥) → (result ≡ 0) ⊎ (result ≡ 5) }
{
    run_commands::top(alloc, words, source, sink).status
}
