//! Runs over clocks that gain or lose as early as they may, and on the bus.

use air_log::{Air, Trail, trail_of};
use bus_model::Bus;
use bus_report::report_lines;
use lwb_world::{RunParts, World};
use scenario_text::{NodeLine, Scenario};
use std::alloc::Global;
use tick_clock::JumpClock;

/// Which of the clocks gain; the others lose.
#[derive(Clone, Copy)]
pub enum Speeds {
    AllFast,
    AllSlow,
    Alternating,
}

impl Speeds {
    // Whether the clock of the node at this place gains.
    fn is_fast(self, place: usize) -> bool {
        match self {
            Speeds::AllFast => true,
            Speeds::AllSlow => false,
            Speeds::Alternating => place % 2 == 0,
        }
    }
}

fn jump_clocks(alloc: Global, nodes: &[NodeLine], speeds: Speeds) -> Option<Vec<JumpClock>> {
    let mut clocks = Vec::new(alloc);
    for (place, line) in nodes.iter().enumerate() {
        if line.offset > 256_000 {
            return None;
        }
        clocks
            .push(JumpClock::new(line.offset, speeds.is_fast(place)))
            .ok()?;
    }
    Some(clocks)
}

// What the run of a scenario leaves over jump clocks with the offsets that it states, unless memory is out.
fn parts_after(alloc: Global, s: &Scenario, speeds: Speeds) -> Option<RunParts> {
    let clocks = jump_clocks(alloc, s.nodes(), speeds)?;
    if clocks.len() != s.nodes().len() {
        return None;
    }
    let mut world = World::new(alloc, s, clocks).ok()?;
    world.run(alloc).ok()?;
    Some(world.into_parts())
}

/// The log of such a run, unless memory is out.
pub fn log_after(alloc: Global, s: &Scenario, speeds: Speeds) -> Option<Air> {
    let parts = parts_after(alloc, s, speeds)?;
    Some(parts.air)
}

fn add_trails(
    trails: &mut Vec<Trail>,
    alloc: Global,
    s: &Scenario,
    air: &Air,
    clocks: &[JumpClock],
) -> Option<()> {
    for (line, clock) in s.nodes().iter().zip(clocks) {
        let trail = trail_of(alloc, s, air, line.node, clock).ok()?;
        trails.push(trail).ok()?;
    }
    Some(())
}

/// The trails of all nodes over the log of such a run, by ascending ids, unless memory is out.
pub fn trails(alloc: Global, s: &Scenario, air: &Air, speeds: Speeds) -> Option<Vec<Trail>> {
    let clocks = jump_clocks(alloc, s.nodes(), speeds)?;
    let mut trails = Vec::new(alloc);
    add_trails(&mut trails, alloc, s, air, &clocks)?;
    Some(trails)
}

// The lines on the deliveries and drops of a run over jump clocks.
fn run_lines(alloc: Global, s: &Scenario, speeds: Speeds) -> Option<String> {
    let parts = parts_after(alloc, s, speeds)?;
    report_lines(alloc, &parts.deliveries, &parts.drops).ok()
}

/// The same on the bus, unless memory is out.
pub fn bus_lines(alloc: Global, s: &Scenario) -> Option<String> {
    let bus = Bus::run(alloc, s).ok()?;
    report_lines(alloc, bus.deliveries(), bus.drops()).ok()
}

// Whether a run has these lines.
fn has_lines(alloc: Global, s: &Scenario, speeds: Speeds, wanted: &str) -> bool {
    match run_lines(alloc, s, speeds) {
        Some(lines) => lines.as_str() == wanted,
        None => false,
    }
}

/// Whether a run over each of these kinds of clocks has these lines.
pub fn all_have_lines(alloc: Global, s: &Scenario, wanted: &str) -> bool {
    has_lines(alloc, s, Speeds::AllFast, wanted)
        && has_lines(alloc, s, Speeds::AllSlow, wanted)
        && has_lines(alloc, s, Speeds::Alternating, wanted)
}
