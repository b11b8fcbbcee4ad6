//! Laws of floods at one node, each a function that does nothing and has the law as its contract.

ghost use Rattle.std.specs.Prelude.{◌≡◌, ℕ, ◌+◌, ◌≤◌, ◌<◌, ◌↔◌, ◌++◌, ◌∷◌, List, Contains, true, None, slice_set};
ghost use Rattle.std.specs.Option.{option_map};
ghost use Rattle.lwb_base.specs.declared.limits.TheConstants.{LAST_STEP};
ghost use Rattle.lwb_packets.specs.declared.kind.Kind.{Kind};
ghost use Rattle.glossy_relay.specs.declared.flood.Reply.TheVariants.{Relay};
ghost use Rattle.glossy_relay.specs.declared.flood.After.TheVariants.{Off};
ghost use Rattle.glossy_relay.specs.FloodState.{FloodState, listening, initiating};
ghost use Rattle.glossy_relay.specs.Relaying.{counter_of, reply_to, accepted_of, after_ending};
ghost use Rattle.glossy_relay.specs.Runs.{Call, Heard, Sent, CallOccasion, IsAllowed, call_occasions, flood_after_calls, orders, endings, first_fitting};

/// However a flood is called, each packet that it relays is one that it received with a counter below `LAST_STEP`, with the counter plus
/// 1 and the same other bytes.
pub fn relays_raise_the_counter()
    ensures { (s : FloodState) (calls : List Call) (before : FloodState) (p q : List ℕ)
        → Contains (call_occasions s calls) (record { before = before; call = Heard p }) → reply_to before p ≡ Relay q
        → (counter_of p < LAST_STEP) × (q ≡ slice_set p 2 (counter_of p + 1)) }
{}

/// However it is called, a listening flood orders at most n transmissions, and one that began here orders at most n with its
/// first among them.
pub fn orders_at_most_its_limit()
    ensures listening { (kind : Kind) (slot n : ℕ) (calls : List Call) → IsAllowed (listening kind slot n) calls → orders (listening kind slot n) calls ≤ n }
    ensures initiating { (p : List ℕ) (n : ℕ) (calls : List Call) → 1 ≤ n → IsAllowed (initiating p n) calls → 1 + orders (initiating p n) calls ≤ n }
{}

/// The end of a transmission turns the radio off if and only if it is the n-th, however the flood is called.
pub fn turns_off_after_its_last_sending()
    ensures listening { (kind : Kind) (slot n : ℕ) (calls : List Call) → after_ending (flood_after_calls (listening kind slot n) calls) ≡ Off
        ↔ (endings calls + 1 ≡ n) }
    ensures initiating { (p : List ℕ) (n : ℕ) (calls : List Call) → after_ending (flood_after_calls (initiating p n) calls) ≡ Off ↔ (endings calls + 1 ≡ n) }
{}

/// What a listener has accepted is the first packet that fitted, with its counter; what began here accepts nothing.
pub fn accepts_the_first_that_fits()
    ensures listening { (kind : Kind) (slot n : ℕ) (calls : List Call)
        → accepted_of (flood_after_calls (listening kind slot n) calls)
        ≡ option_map {U = List ℕ × ℕ} (λ p. (p, counter_of p)) (first_fitting (listening kind slot n) calls) }
    ensures initiating { (p : List ℕ) (n : ℕ) (calls : List Call) → accepted_of (flood_after_calls (initiating p n) calls) ≡ None }
{}
