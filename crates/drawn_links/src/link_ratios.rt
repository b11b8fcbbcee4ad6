//! The reception ratios of one link.

ghost use Rattle.std.specs.Prelude.{◌≡◌, ◌∷◌, ◌++◌, ◌<◌, ◌-◌, [], length, option_map, slice_get, IfSome, OnOk, OnErr};
ghost use Rattle.drawn_links.specs.RatioTables.{ratio_by};

use crate::ratio_step::RatioStep;
use lwb_base::Memory;
use std::alloc::Global;
use std::marker::Model;

/// The ratios of a link, each from a later frame on than the one before it. Contracts see the list.
#[derive(Drop)]
pub struct LinkRatios {
    steps: Vec<RatioStep>,
}

impl Model for LinkRatios {
    ghost use Rattle.std.specs.Prelude.{List};
    ghost use Rattle.drawn_links.specs.RatioTables.{AreRising};
    ghost use Rattle.drawn_links.specs.declared.ratio_step.RatioStep.{RatioStep};

    ghost Value = { List RatioStep };

    ghost view = { λ r. r.steps.items };

    ghost invariant = { λ r. AreRising r.steps.items };
}

impl LinkRatios {
    /// No ratios. It takes no memory.
    pub fn new(alloc: Global) -> LinkRatios
        ensures { result ≡ [] }
    {
        LinkRatios {
            steps: Vec::new(alloc),
        }
    }

    /// The frame from which the last ratio is in force.
    pub fn last_frame(&self) -> Option<u32>
        ensures { result ≡ option_map (λ s. s.frame) (slice_get self.now (length self.now - 1)) }
    {
        Some(self.steps.last()?.frame)
    }

    /// The ratio that is in force in that frame.
    pub fn ratio(&self, frame: u32) -> Option<u32>
        ensures { result ≡ ratio_by self.now frame }
    {
        let begun = self.steps.partition_point(|s| s.frame <= frame);
        if begun == 0 {
            return None;
        }
        Some(self.steps[begun - 1].ratio)
    }

    /// Adds a ratio that is in force from a later frame on than all others. After Memory nothing has changed.
    pub fn add(&mut self, step: RatioStep) -> Result<(), Memory>
        requires { IfSome (slice_get self.old (length self.old - 1)) (λ s. s.frame < step.frame) }
        ensures added { OnOk result (self.new ≡ self.old ++ step ∷ []) }
        ensures err { OnErr result (self.new ≡ self.old) }
    {
        self.steps.push(step)?;
        Ok(())
    }
}
