//! Who accepts in a flood by steps, each law a function that does nothing and has the law as its contract.

ghost use Rattle.std.specs.Prelude.{◌≡◌, [], ◌∷◌, ℕ, suc, Bool, true, Some, ◌↔◌, ◌<◌, ◌≤◌};
ghost use Rattle.bus_terms.specs.Distances.{IsDistance};
ghost use Rattle.bus_terms.specs.Flooding.{Setting, Hears, Accepts, has, accepted, STEPS};
ghost use Rattle.bus_terms.specs.RelayPaths.{HasPath, IsLeast};

/// What a node has accepted at the end of a flood is its first reception, and nothing is received after `LAST_STEP`.
pub fn accepts_the_first_hearing()
    ensures accepted { (s : Setting) (v o k : ℕ) → accepted s v ≡ Some (o, k) ↔ Accepts s v o k }
    ensures in_time { (s : Setting) (k v o : ℕ) → Hears s v k o → k < STEPS }
{}

/// With one initiator a node receives in a step if and only if a relay path with one link more leads to it; a listener accepts
/// in the step of the shortest, and accepts at all if and only if there is a path.
pub fn accepts_by_the_least_relay_path()
    ensures hears { (s : Setting) (start : ℕ) → s.initiators ≡ start ∷ [] → has s.everyone start ≡ true → (k v : ℕ) → has s.everyone v ≡ true
        → Hears s v k start ↔ HasPath s start (suc k) v }
    ensures least { (s : Setting) (start : ℕ) → s.initiators ≡ start ∷ [] → has s.everyone start ≡ true → (k v : ℕ) → has s.everyone v ≡ true → (v ≡ start → ⊥)
        → Accepts s v start k ↔ IsLeast s start (suc k) v }
    ensures some { (s : Setting) (start : ℕ) → s.initiators ≡ start ∷ [] → has s.everyone start ≡ true → (v : ℕ) → has s.everyone v ≡ true → (v ≡ start → ⊥)
        → ((k : ℕ) × Accepts s v start k) ↔ ((m : ℕ) × HasPath s start m v) }
{}

/// With one initiator, where each link among those that take part passes in all steps or in none, a listener accepts if and
/// only if its distance by these links is at most `FLOOD_STEPS`, in the step before that number: however often nodes may send.
pub fn accepts_by_distance()
    ensures { (s : Setting) (start : ℕ) (link : ℕ → ℕ → Bool) → s.initiators ≡ start ∷ [] → has s.everyone start ≡ true → 1 ≤ s.limit
        → ((k u v : ℕ) → k < STEPS → has s.everyone u ≡ true → has s.everyone v ≡ true → s.passes k u v ≡ link u v)
        → (k v : ℕ) → has s.everyone v ≡ true → (v ≡ start → ⊥)
        → Accepts s v start k ↔ (IsDistance link s.everyone start (suc k) v × (suc k ≤ STEPS)) }
{}
