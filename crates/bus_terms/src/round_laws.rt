//! Who delivers in a data slot, and that the rounds of a frame may go in any order: each law a function that does nothing
//! and has the law as its contract.

ghost use Rattle.std.specs.Prelude.{◌≡◌, ℕ, false, List, IsPermutation};
ghost use Rattle.lwb_base.specs.Messages.{Plan};
ghost use Rattle.scenario_text.specs.ScenarioFacts.{IsSoundScenario};
ghost use Rattle.scenario_text.specs.ScenarioParts.{ScenarioParts};
ghost use Rattle.bus_rules.specs.declared.part.Part.TheVariants.{Data};
ghost use Rattle.bus_rules.specs.Slots.{part_of};
ghost use Rattle.bus_rules.specs.States.{State};
ghost use Rattle.bus_terms.specs.Bus.{ranks_of, state_at};
ghost use Rattle.bus_terms.specs.Flooding.{has};
ghost use Rattle.scenario_text.specs.OverLines.{IsOverScenario};
ghost use Rattle.bus_terms.specs.RankOrders.{rounds_in_turn};
ghost use Rattle.bus_terms.specs.Received.{IsReceived};
ghost use Rattle.bus_terms.specs.Rounds.{round_deliveries, rounds};

/// In a data slot of a round each member but the owner's node delivers if and only if a relay path of the slot's flood leads to
/// it from there, and nobody else delivers: for every scenario and whatever the states of its nodes.
pub fn data_is_received_by_relay_paths()
    ensures { (s : ScenarioParts) → IsOverScenario s → (rank f : ℕ) (p : Plan) (states : ℕ → State) (j owner : ℕ) → part_of p j ≡ Data owner
        → IsReceived s rank f p states j owner }
{}

/// The rounds of a frame may go one after another, in any order of their ranks, each from the states that those before it left:
/// each node ends as the round of its own rank leaves it from the states at the start of the frame (`states`), and what a round
/// delivers is the same, whatever rounds of other ranks went before it (`deliveries`).
pub fn ranks_go_in_any_order()
    ensures states { (s : ScenarioParts) → IsSoundScenario s → (f v : ℕ) (order : List ℕ) → IsPermutation (ranks_of s) order
        → rounds_in_turn s f (state_at s f) order v ≡ rounds s f (state_at s f) v }
    ensures deliveries { (s : ScenarioParts) (rank f : ℕ) (before : List ℕ) → has before rank ≡ false
        → round_deliveries s rank f (rounds_in_turn s f (state_at s f) before) ≡ round_deliveries s rank f (state_at s f) }
{}
