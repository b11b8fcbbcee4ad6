//! Laws of the log of one flood, over any clocks that keep the drift law.

ghost use Rattle.std.specs.Prelude.{◌≡◌, ◌≢◌, ℕ, suc, ◌≤◌, ◌↔◌, List, Contains, length, Some, true};
ghost use Rattle.std.specs.declared.option.Option.{Option};
ghost use Rattle.lwb_base.specs.Profile.{one};
ghost use Rattle.lwb_base.specs.declared.limits.TheConstants.{GREATEST_ID, LAST_STEP};
ghost use Rattle.scenario_text.specs.FloodParts.{FloodParts, IsSound, knows};
ghost use Rattle.bus_terms.specs.Flooding.{Sends, Hears};
ghost use Rattle.bus_terms.specs.FloodOfText.{setting, ids, outcome};
ghost use Rattle.bus_terms.specs.RelayPaths.{IsLeast};
ghost use Rattle.air_log.specs.declared.entry.Entry.{Entry};
ghost use Rattle.radio_model.specs.declared.sending.Sending.{Sending};
ghost use Rattle.air_log.specs.Entries.{sendings_of};
ghost use Rattle.radio_model.specs.Hearing.{frame_of_sending, slot_of_sending, counter_of_sending};
ghost use Rattle.air_log.specs.FloodLaw.{FloodLaw};
ghost use Rattle.lwb_flood.specs.FloodBySteps.{IsFloodBySteps};
ghost use Rattle.scenario_clocks.specs.StatedClocks.{stated_clock};
ghost use Rattle.lwb_flood.specs.FloodLog.{HasClocks, run_of, HasSentEntry, HasHeard, HeardFirst, IsAcceptanceStep, accepting};

/// A log that keeps the law of one flood is the flood by steps: a node has a `Sent` entry with counter k if and only if it
/// sends in step k, and a `Heard` entry with counter k if and only if it receives in step k.
pub fn flood_logs_are_floods_by_steps()
    ensures run { (f : FloodParts) (clocks : ℕ → ℕ → ℕ) (air : List Entry) → HasClocks f clocks
        → (law : FloodLaw f clocks air)
        → IsFloodBySteps (run_of f clocks air law) }
    ensures sends { (f : FloodParts) (clocks : ℕ → ℕ → ℕ) (air : List Entry) → HasClocks f clocks
        → FloodLaw f clocks air → (v k : ℕ) → HasSentEntry air v k ↔ Sends (setting f) v k f.start }
    ensures hears { (f : FloodParts) (clocks : ℕ → ℕ → ℕ) (air : List Entry) → HasClocks f clocks
        → FloodLaw f clocks air → (v k : ℕ) → knows f.nodes v ≡ true → HasHeard air v k ↔ Hears (setting f) v k f.start }
    ensures keys { (f : FloodParts) (clocks : ℕ → ℕ → ℕ) (air : List Entry) → HasClocks f clocks
        → FloodLaw f clocks air → (x : Sending) → Contains (sendings_of air) x
        → (frame_of_sending one x ≡ 5) × (slot_of_sending x ≡ 1) × (counter_of_sending x ≤ LAST_STEP) }
{}

/// What is read off such a log is the outcome of the flood: the nodes that accept with the counters of their first receptions,
/// in the order of the text, and the number of Sent entries.
pub fn flood_logs_have_the_outcome()
    ensures accepts { (f : FloodParts) (clocks : ℕ → ℕ → ℕ) (air : List Entry) → HasClocks f clocks
        → FloodLaw f clocks air → (step : ℕ → Option ℕ)
        → ((v : ℕ) → knows f.nodes v ≡ true → IsAcceptanceStep f air v (step v)) → accepting step (ids f.nodes) ≡ (outcome f).accepts }
    ensures sent { (f : FloodParts) (clocks : ℕ → ℕ → ℕ) (air : List Entry) → HasClocks f clocks
        → FloodLaw f clocks air → length (sendings_of air) ≡ (outcome f).sent }
{}

/// In such a log the first reception of a node has counter k if and only if the shortest relay path to it has k + 1 links.
pub fn flood_logs_accept_by_the_least_relay_path()
    ensures { (f : FloodParts) (clocks : ℕ → ℕ → ℕ) (air : List Entry) → HasClocks f clocks
        → FloodLaw f clocks air → (v k : ℕ) → knows f.nodes v ≡ true → v ≢ f.start
        → HeardFirst air v k ↔ IsLeast (setting f) f.start (suc k) v }
{}

/// The clocks that a flood text states keep the drift law, so what is said here holds of the logs over them.
pub fn stated_clocks_keep_the_drift_law()
    ensures { (f : FloodParts) → IsSound f → (1 ≤ f.start) × (f.start ≤ GREATEST_ID) → HasClocks f (stated_clock f) }
{}
