//! Laws of one flood: what nodes do on the air is the flood by steps.

ghost use Rattle.std.specs.Prelude.{◌≡◌, ◌≢◌, ℕ, ◌+◌, ◌<◌, ◌≤◌, ◌↔◌, List, Contains, AllPairs, length, slice_set, Bool, true};
ghost use Rattle.lwb_base.specs.Profile.{Numbers, airtime};
ghost use Rattle.lwb_base.specs.declared.limits.TheConstants.{LAST_STEP};
ghost use Rattle.time_reference.specs.Budgets.{Budget, Fits};
ghost use Rattle.lwb_packets.specs.declared.kind.Kind.{Kind};
ghost use Rattle.glossy_relay.specs.Relaying.{is_spelling};
ghost use Rattle.bus_terms.specs.Flooding.{sendings};
ghost use Rattle.radio_model.specs.declared.sending.Sending.{Sending};
ghost use Rattle.radio_model.specs.Hearing.{Scene, HearsInScene, TunedThrough};
ghost use Rattle.air_log.specs.NodeEvents.{Ended};
ghost use Rattle.lwb_flood.specs.FloodRun.{Run, FloodRun, HearsIn, TunedByCount, IsParticipant};
ghost use Rattle.lwb_flood.specs.RunOnAir.{IsPart};
ghost use Rattle.lwb_flood.specs.FloodBySteps.{IsFloodBySteps};
ghost use Rattle.lwb_flood.specs.Windows.{IsListeningWindow, IsSlotFlood};
ghost use Rattle.lwb_flood.specs.TwoNodes.{two_node_run, two_tuned};

/// What nodes do in one flood on the air is the flood by steps, for any number of initiators: with nodes tuned by the tunings
/// of a scene (`scene`), or as any test says (`test`).
pub fn air_floods_by_steps()
    ensures scene { (a : Scene) (r : Run) → FloodRun r (TunedThrough a) → IsFloodBySteps r }
    ensures test { (r : Run) (tuned : ℕ → Sending → Bool) → FloodRun r (λ v x. tuned v x ≡ true) → IsFloodBySteps r }
{}

/// The number of transmissions is the number of pairs of a node and a step in which it sends.
pub fn sendings_are_counted()
    ensures scene { (a : Scene) (r : Run) → FloodRun r (TunedThrough a)
        → AllPairs (λ x y. x ≢ y) r.sendings → AllPairs (λ u v. u ≢ v) r.setting.everyone → length r.sendings ≡ sendings r.setting }
    ensures test { (r : Run) (tuned : ℕ → Sending → Bool) → FloodRun r (λ v x. tuned v x ≡ true)
        → AllPairs (λ x y. x ≢ y) r.sendings → AllPairs (λ u v. u ≢ v) r.setting.everyone → length r.sendings ≡ sendings r.setting }
{}

/// If a run is a part of what is on the air, its nodes receive its transmissions by the rule of the run alone.
pub fn runs_hear_by_the_rule_of_the_air()
    ensures { (a : Scene) (r : Run) → IsPart a r → (v : ℕ) (x : Sending) → IsParticipant r v → Contains r.sendings x
        → HearsInScene a v x ↔ HearsIn r (TunedThrough a) v x }
{}

/// The numbers of a profile have the margins that a run needs (`numbers`), and the packet of any kind may have each counter
/// (`spelled`).
pub fn premises_are_met()
    ensures numbers { (p : Numbers) (b : Budget) → Fits p b → (n q : ℕ) → 7 ≤ n → q ≤ b.contenders
        → (q + 23 < p.turn) × (q + 22 < airtime p n) × (22 ≤ p.delta) }
    ensures spelled { (kind : Kind) (p : List ℕ) (k : ℕ) → is_spelling kind p ≡ true → k ≤ LAST_STEP
        → is_spelling kind (slice_set p 2 k) ≡ true }
{}

/// Take a node that is tuned from the time its window opens until it goes off, and a transmission that overlaps none of its
/// own. The node is tuned all through it if and only if it has sent less often than its limit.
pub fn windows_give_tuning()
    ensures scene { (a : Scene) (r : Run) (v opening closing : ℕ)
        → ((x : Sending) → Contains r.sendings x → x.start < x.end) → IsListeningWindow r (TunedThrough a) v opening closing
        → ((z : Sending) → Contains (r.events v) (Ended z) → Contains r.sendings z × (z.node ≡ v))
        → TunedByCount r (TunedThrough a) v }
    ensures test { (r : Run) (tuned : ℕ → Sending → Bool) (v opening closing : ℕ)
        → ((x : Sending) → Contains r.sendings x → x.start < x.end)
        → IsListeningWindow r (λ v x. tuned v x ≡ true) v opening closing
        → ((z : Sending) → Contains (r.events v) (Ended z) → Contains r.sendings z × (z.node ≡ v))
        → TunedByCount r (λ v x. tuned v x ≡ true) v }
{}

/// A flood of a slot is such a run: its numbers fit, its nodes turn around by their clocks and listen in windows.
pub fn slots_are_runs()
    ensures scene { (p : Numbers) (b : Budget) → Fits p b → (n : ℕ) (clocks : ℕ → ℕ → ℕ) (a : Scene) (r : Run)
        → IsSlotFlood p b n clocks r (TunedThrough a) → FloodRun r (TunedThrough a) }
    ensures test { (p : Numbers) (b : Budget) → Fits p b
        → (n : ℕ) (clocks : ℕ → ℕ → ℕ) (r : Run) (tuned : ℕ → Sending → Bool)
        → IsSlotFlood p b n clocks r (λ v x. tuned v x ≡ true) → FloodRun r (λ v x. tuned v x ≡ true) }
{}

/// Worked example: a run in which one node relays what another initiates meets the record.
pub fn two_nodes_are_a_run()
    ensures { FloodRun two_node_run (λ v x. two_tuned v x ≡ true) }
{}
