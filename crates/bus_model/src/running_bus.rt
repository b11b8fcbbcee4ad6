//! The bus of a scenario as it goes on frame by frame.

ghost use Rattle.std.specs.Prelude.{◌≤◌, ◌<◌, ◌+◌, IfOk, OnOk};
ghost use Rattle.lwb_base.specs.declared.limits.TheConstants.{MOST_FRAMES};
ghost use Rattle.link_trace.specs.Passes.{Lines};
ghost use Rattle.bus_terms.specs.Bus.{state_at};
ghost use Rattle.scenario_text.specs.OverLines.{over};
ghost use Rattle.plain_bus.specs.RunFloods.{HasRun};
ghost use Rattle.bus_model.specs.FrameFloods.{frame_floods};
ghost use Rattle.bus_model.specs.RunningBuses.{IsBeforeFrame};

use crate::frames::run_frame;
use bus_terms::PutLine;
use link_trace::Links;
use lwb_base::Memory;
use plain_bus::Network;
use scenario_text::{Scenario, ScenarioOver};
use std::alloc::Global;

/// The bus of a scenario between two frames.
#[derive(Drop)]
pub struct RunningBus {
    /// The nodes, with the floods of the last frame.
    pub net: Network,
    /// What the script put so far, in its order.
    pub puts: Vec<PutLine>,
    /// The number of script lines that the nodes were given.
    pub told: usize,
}

impl RunningBus {
    /// The bus before frame 0, over whatever links it will run. `Err` means out of memory.
    pub fn new(alloc: Global, s: &Scenario) -> Result<RunningBus, Memory>
        ensures { IfOk result (λ b. (t : Lines) → IsBeforeFrame (over s.now t) 0 b) }
    {
        Ok(RunningBus {
            net: Network::new(alloc, s)?,
            puts: Vec::new(alloc),
            told: 0,
        })
    }

    /// Runs this frame, which is the next one. `Err` means out of memory.
    pub fn run_frame<M: Links>(
        &mut self,
        alloc: Global,
        s: &ScenarioOver<'_, M>,
        frame: u32,
    ) -> Result<(), Memory>
        requires frame { frame < s.now.frames }
        requires few { s.now.frames ≤ MOST_FRAMES }
        requires before { IsBeforeFrame s.now frame self.old }
        ensures after { OnOk result (IsBeforeFrame s.now (frame + 1) self.new) }
        ensures floods { OnOk result (HasRun s.now frame (frame_floods s.now frame (state_at s.now frame)) self.new.net.floods) }
    {
        self.told = run_frame(alloc, &mut self.net, s, frame, self.told, &mut self.puts)?;
        Ok(())
    }
}
