//! What is counted of the devices of a run: in how many frames each scans, and what its windows come to.

ghost use Rattle.std.specs.Prelude.{◌≡◌, ◌≤◌, ◌<◌, ◌^◌, IfOk, All, length, replicate};
ghost use Rattle.world_engine.specs.Counting.{AreCountedOn, AreCharges};
ghost use Rattle.world_engine.specs.Fields.{sums_of};

use crate::field::Field;
use air_log::NodeCharge;
use lwb_base::Memory;
use std::alloc::Global;

impl Field {
    // The places whose devices scan are counted once more.
    pub(crate) fn count_scanners(&self, scanned: &mut Vec<u32>)
        requires places { length scanned.old.items ≡ length self.now.devices }
        requires few { All (λ n. n < 2 ^ 31) scanned.old.items }
        ensures { AreCountedOn self.now.devices scanned.old.items scanned.new.items }
    {
        for place in 0..self.devices.as_slice().len() {
            scanned[place] += u32::from(self.devices[place].scans());
        }
    }

    // What the listening of each device came to, which was counted in this many frames.
    pub(crate) fn charges(&self, alloc: Global, scanned: &[u32]) -> Result<Vec<NodeCharge>, Memory>
        requires { length scanned.now ≤ length self.now.devices }
        ensures { IfOk result (λ v. AreCharges (sums_of self.now) scanned.now v.items) }
    {
        let mut charges = Vec::new(alloc);
        for place in 0..scanned.len() {
            let charge = NodeCharge {
                windows: self.devices[place].windows(),
                scanned: scanned[place],
            };
            charges.push(charge)?;
        }
        Ok(charges)
    }
}

// At this many places.
pub(crate) fn none_scanned(alloc: Global, places: usize) -> Result<Vec<u32>, Memory>
    ensures { IfOk result (λ v. v.items ≡ replicate places 0) }
{
    let mut scanned = Vec::new(alloc);
    for _ in 0..places {
        scanned.push(0)?;
    }
    Ok(scanned)
}
