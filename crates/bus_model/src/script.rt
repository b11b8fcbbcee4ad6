//! What the script has for a frame.

ghost use Rattle.std.specs.Prelude.{◌≡◌, ◌≤◌, ◌<◌, ◌+◌, ◌++◌, ℕ, Some, IfOk, OnOk, length};
ghost use Rattle.std.specs.Prelude.{option_to_list, slice_index, slice_index_or, slice_set, true};
ghost use Rattle.std.specs.List.{AllPairs};
ghost use Rattle.bus_rules.specs.States.{IsAct};
ghost use Rattle.bus_terms.specs.Bus.{before_frame, state_at};
ghost use Rattle.bus_terms.specs.Flooding.{has};
ghost use Rattle.scenario_text.specs.OverLines.{IsOverScenario};
ghost use Rattle.bus_terms.specs.Packets.{put_by};
ghost use Rattle.plain_bus.specs.BusNodes.{BusNode as NodeOf, MayDo};
ghost use Rattle.plain_bus.specs.Networks.{IsReady};
ghost use Rattle.bus_model.specs.FrameNodes.{HavePower, CountsLinesBefore, puts_to, nodes_with, prior_ranks, node_after_line};

use bus_terms::PutLine;
use link_trace::Links;
use lwb_base::Memory;
use plain_bus::{Network, place_of};
use scenario_text::{ScenarioOver, ScriptLine};

/// The nodes carry out the script lines of this frame, from its line `from` on. What they put is added at the end of `puts`.
/// Returns the place of the first line of a later frame. `Err` means out of memory.
pub fn tell_lines<M: Links>(
    net: &mut Network,
    s: &ScenarioOver<'_, M>,
    frame: u32,
    from: usize,
    puts: &mut Vec<PutLine>,
) -> Result<usize, Memory>
    requires cut { CountsLinesBefore s.now.script frame from }
    requires power { HavePower s.now (before_frame s.now frame) from }
    requires nodes { net.old.nodes ≡ nodes_with s.now (prior_ranks s.now frame) (before_frame s.now frame) }
    requires ready { IsReady s.now frame 1000000 net.old }
    requires puts { puts.old.items ≡ puts_to s.now from }
    ensures cut { IfOk result (CountsLinesBefore s.now.script (frame + 1)) }
    ensures power { IfOk result (HavePower s.now (state_at s.now frame)) }
    ensures nodes { OnOk result (net.new.nodes ≡ nodes_with s.now (prior_ranks s.now frame) (state_at s.now frame)) }
    ensures puts { IfOk result (λ next. puts.new.items ≡ puts_to s.now next) }
    ensures ready { OnOk result ((m : ℕ) → IsReady s.now frame m net.old → IsReady s.now frame m net.new) }
    ensures rest { OnOk result ((net.new.costs ≡ net.old.costs) × (net.new.deliveries ≡ net.old.deliveries) × (net.new.sent ≡ net.old.sent)) }
    ensures said { IsOverScenario s.now }
{
    let script = s.script();
    for next in from..script.len() {
        let line = &script[next];
        if line.frame != frame {
            return Ok(next);
        }
        tell_line(net, line, puts)?;
    }
    Ok(script.len())
}

// Its node is given this line.
fn tell_line(net: &mut Network, line: &ScriptLine, puts: &mut Vec<PutLine>) -> Result<(), Memory>
    requires ascending { AllPairs (λ a b. a < b) net.old.ids }
    requires each { length net.old.nodes ≡ length net.old.ids }
    requires known { has net.old.ids line.now.node ≡ true }
    requires may { (i : ℕ) (d : NodeOf) → i < length net.old.nodes → slice_index net.old.ids i ≡ line.now.node
        → IsAct (slice_index_or net.old.nodes i d).setup.profile line.now.act × MayDo line.now.act (slice_index_or net.old.nodes i d).state }
    ensures nodes { OnOk result ((i : ℕ) × (i < length net.old.ids) × (slice_index net.old.ids i ≡ line.now.node)
        × ((d : NodeOf) → (net.new.nodes ≡ slice_set net.old.nodes i (node_after_line line.now (slice_index_or net.old.nodes i d)))
        × (puts.new.items ≡ puts.old.items ++ option_to_list (put_by line.now line.now.act (slice_index_or net.old.nodes i d).state)))) }
    ensures rest { OnOk result ((net.new.ids ≡ net.old.ids) × (net.new.costs ≡ net.old.costs) × (net.new.deliveries ≡ net.old.deliveries)
        × (net.new.sent ≡ net.old.sent)) }
{
    let Some(place) = place_of(&net.ids, line.node) else {
        return Ok(());
    };
    let node = &mut net.nodes[place];
    node.give(line, puts)
}
