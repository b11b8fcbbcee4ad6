//! In which steps of a flood each node sent, by those who sent in each.

ghost use Rattle.std.specs.Prelude.{◌≡◌, ◌≤◌, ◌<◌, ◌+◌, ◌==◌, ℕ, All, length, slice_index_or, if◌then◌else◌};
ghost use Rattle.lwb_base.specs.declared.limits.TheConstants.{MOST_NODES};
ghost use Rattle.std.specs.Int.{bit_at};
ghost use Rattle.plain_bus.specs.declared.cost.Steps.{Steps as StepsOf};
ghost use Rattle.plain_bus.specs.SentSteps.{AreStepsOf, with_step};

use crate::cost::Steps;
use link_trace::NodeSet;
use lwb_base::MOST_NODES;

/// The steps in which each of `MOST_NODES` nodes sent, by their places.
pub fn steps_of_all(senders: &[NodeSet]) -> [Steps; MOST_NODES]
    requires { length senders.now ≡ 12 }
    ensures { AreStepsOf senders.now 12 result }
{
    let none = Steps {
        count: 0,
        last: None,
    };
    let mut all = [none; MOST_NODES];
    for (step, nodes) in senders.iter().enumerate() {
        add_step(&mut all, *nodes, step as u8);
    }
    all
}

// These nodes sent in this step, which comes after all that are counted.
fn add_step(all: &mut [Steps], nodes: NodeSet, step: u8)
    requires size { length all.old ≡ MOST_NODES }
    requires early { step ≤ 11 }
    requires few { All (λ x. x.count ≤ step) all.old }
    ensures each { (i : ℕ) (d : StepsOf) → i < MOST_NODES → slice_index_or all.new i d
        ≡ (if bit_at nodes i == 1 then with_step step (slice_index_or all.old i d) else slice_index_or all.old i d) }
    ensures size { length all.new ≡ MOST_NODES }
{
    let mut rest = nodes;
    while !rest.is_empty() {
        let place = rest.lowest();
        let steps = all[usize::from(place)];
        all[usize::from(place)] = with(steps, step);
        rest = rest.without(place);
    }
}

// With this step after all others.
fn with(steps: Steps, step: u8) -> Steps
    requires { steps.count ≤ 11 }
    ensures { result ≡ with_step step steps }
{
    Steps {
        count: steps.count + 1,
        last: Some(step),
    }
}
