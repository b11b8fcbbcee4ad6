//! How often each node boots along a script.

ghost use Rattle.std.specs.Prelude.{◌≡◌, ◌<◌, ◌≤◌, ◌+◌, ℕ, ◌==◌, ◌||◌, if◌then◌else◌, nat_lt, true, false, slice_set, slice_index, slice_index_or};
ghost use Rattle.lwb_base.specs.declared.limits.TheConstants.{GREATEST_ID, MOST_BOOTS};
ghost use Rattle.scenario_text.specs.AddedLines.{boots_so_far};
ghost use Rattle.scenario_text.specs.ScenarioFacts.{turned, turned_by};

use crate::{Act, ScriptLine};
use lwb_base::{MOST_BOOTS, PLACES_BY_ID};

/// Whether no node boots more than `MOST_BOOTS` times along the script.
pub fn has_few_boots(script: &[ScriptLine]) -> bool
    ensures few { result ≡ true → (v : ℕ) → (turned v (false, 0) script.now).1 ≤ MOST_BOOTS }
    ensures many { result ≡ false → ((v : ℕ) → (turned v (false, 0) script.now).1 ≤ MOST_BOOTS) → ⊥ }
{
    let mut boots = Boots::none();
    for line in script {
        if !boots.follow(line) {
            return false;
        }
    }
    true
}

// For each id whether the node is on, and how often it booted.
#[derive(Drop)]
struct Boots {
    on: [bool; PLACES_BY_ID],
    counts: [u8; PLACES_BY_ID],
}

impl Boots {
    fn none() -> Boots
        ensures { (v : ℕ) → boots_so_far result.on result.counts v ≡ (false, 0) }
    {
        Boots {
            on: [false; PLACES_BY_ID],
            counts: [0; PLACES_BY_ID],
        }
    }

    // What the line says happens. It is `false` where the node would boot once too often.
    fn follow(&mut self, line: &ScriptLine) -> bool
        requires { (v : ℕ) → (boots_so_far self.old.on self.old.counts v).1 ≤ MOST_BOOTS }
        ensures told { result ≡ true → (v : ℕ) → boots_so_far self.new.on self.new.counts v
            ≡ (if line.now.node == v then turned_by line.now.act (boots_so_far self.old.on self.old.counts v) else boots_so_far self.old.on self.old.counts v) }
        ensures few { result ≡ true → (v : ℕ) → (boots_so_far self.new.on self.new.counts v).1 ≤ MOST_BOOTS }
        ensures many { result ≡ false → MOST_BOOTS < (turned_by line.now.act (boots_so_far self.old.on self.old.counts line.now.node)).1 }
    {
        let id = usize::from(line.node.number());
        match &line.act {
            Act::On => self.boot(id),
            Act::Off => {
                self.on[id] = false;
                true
            }
            _ => true,
        }
    }

    fn boot(&mut self, id: usize) -> bool
        requires { id ≤ GREATEST_ID }
        ensures on { result ≡ true → self.new.on ≡ slice_set self.old.on id true }
        ensures counts { result ≡ true → self.new.counts ≡ slice_set self.old.counts id
            (if slice_index_or self.old.on id false then slice_index self.old.counts id else slice_index self.old.counts id + 1) }
        ensures room { result ≡ true → (slice_index_or self.old.on id false || nat_lt (slice_index self.old.counts id) MOST_BOOTS) ≡ true }
        ensures many { result ≡ false → (slice_index_or self.old.on id false ≡ false) × (MOST_BOOTS ≤ slice_index self.old.counts id) }
    {
        if !self.on[id] {
            if self.counts[id] >= MOST_BOOTS {
                return false;
            }
            self.counts[id] += 1;
        }
        self.on[id] = true;
        true
    }
}
