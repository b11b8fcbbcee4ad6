//! Where nodes are idle while a run goes on.

ghost use Rattle.std.specs.Prelude.{◌≡◌, ◌++◌, OnOk, filter_map, option_to_list};
ghost use Rattle.world_engine.specs.Idling.{idle_now};

use crate::field::Field;
use air_log::{Device, Idle};
use lwb_base::Memory;

impl Field {
    // The devices that are idle in the frame, after its script lines, are listed.
    pub(crate) fn list_idle(&self, idle: &mut Vec<Idle>, frame: u32) -> Result<(), Memory>
        ensures { OnOk result (idle.new.items ≡ idle.old.items ++ filter_map (idle_now frame) self.now.devices) }
    {
        for device in &self.devices {
            push_some(idle, idle_device(device, frame))?;
        }
        Ok(())
    }
}

fn push_some(idle: &mut Vec<Idle>, one: Option<Idle>) -> Result<(), Memory>
    ensures { OnOk result (idle.new.items ≡ idle.old.items ++ option_to_list one) }
{
    if let Some(one) = one {
        idle.push(one)?;
    }
    Ok(())
}

fn idle_device(device: &Device, frame: u32) -> Option<Idle>
    ensures { result ≡ idle_now frame device.now }
{
    Idle::with_tune(frame, device.node(), device.current_tune())
}
