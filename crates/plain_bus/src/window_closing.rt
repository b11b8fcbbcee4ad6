//! The window of a node of the bus closes, with the packet that it received.

ghost use Rattle.std.specs.Prelude.{◌≡◌, ◌≤◌, ◌++◌, Some, None, OnOk, option_to_list};
ghost use Rattle.std.specs.Option.{option_and_then, option_copied};
ghost use Rattle.lwb_base.specs.declared.limits.TheConstants.{LAST_FRAME};
ghost use Rattle.bus_rules.specs.Slots.{DataOf, delivery_of};
ghost use Rattle.lwb_member.specs.Said.{message_of};
ghost use Rattle.plain_bus.specs.BusNodes.{IsEarlyState, MayAcceptIn};
ghost use Rattle.plain_bus.specs.SlotFloods.{Seen, data_said, seen_window, node_closed, node_delivers};

use crate::node::BusNode;
use crate::round_slot::RoundSlot;
use crate::window::Window;
use bus_rules::Delivery;
use lwb_base::{Memory, NodeId, Packet};
use lwb_member::{Heard, message_in};
use lwb_packets::DataPacket;

impl BusNode {
    /// The slot closes after this window, in a frame of at most `LAST_FRAME`: the node received this packet, or nothing. What it
    /// delivers is added at the end of `log`. A host accepts no schedule, and no more requests than its round has contention
    /// slots. `Err` means out of memory.
    pub(crate) fn hear(
        &mut self,
        slot: &RoundSlot,
        window: &Window,
        packet: Option<&Packet>,
        log: &mut Vec<Delivery>,
    ) -> Result<(), Memory>
        requires frame { slot.now.frame ≤ LAST_FRAME }
        requires early { IsEarlyState slot.now.frame self.old.state }
        ensures state { OnOk result (MayAcceptIn self.old.setup slot.now.frame self.old.state (option_and_then message_of (option_copied packet.entry))
            → self.new
            ≡ node_closed slot.now.frame slot.now.part (seen_window window.now) (option_and_then message_of (option_copied packet.entry)) self.old) }
        ensures log { OnOk result (MayAcceptIn self.old.setup slot.now.frame self.old.state (option_and_then message_of (option_copied packet.entry))
            → log.new.items
            ≡ log.old.items ++ option_to_list (node_delivers slot.now.rank slot.now.frame slot.now.number slot.now.part (seen_window window.now)
            (option_and_then message_of (option_copied packet.entry)) self.old)) }
        ensures early { OnOk result (IsEarlyState slot.now.frame self.new.state) }
    {
        let Some(packet) = packet else {
            self.pass(slot, window);
            return Ok(());
        };
        match message_in(packet) {
            Some(Heard::Data(read)) => self.deliver(slot, read, log),
            heard => {
                let delivery = self.close(
                    slot.rank,
                    slot.frame,
                    slot.number,
                    slot.part,
                    window,
                    heard,
                );
                push_some(log, delivery)
            }
        }
    }

    // The slot closes where the node received nothing.
    fn pass(&mut self, slot: &RoundSlot, window: &Window)
        requires frame { slot.now.frame ≤ LAST_FRAME }
        requires early { IsEarlyState slot.now.frame self.old.state }
        ensures state { self.new ≡ node_closed slot.now.frame slot.now.part (seen_window window.now) None self.old }
        ensures early { IsEarlyState slot.now.frame self.new.state }
    {
        if self.is_on && window.is_open {
            self.member.pass(slot.frame, slot.part, window.initiates);
        }
    }

    // The slot closes, whatever the window, where the node received this data packet, which it delivers.
    fn deliver(
        &mut self,
        slot: &RoundSlot,
        read: DataPacket,
        log: &mut Vec<Delivery>,
    ) -> Result<(), Memory>
        requires frame { slot.now.frame ≤ LAST_FRAME }
        requires early { IsEarlyState slot.now.frame self.old.state }
        ensures state { OnOk result ((w : Seen) → self.new ≡ node_closed slot.now.frame slot.now.part w (Some (DataOf (data_said read))) self.old) }
        ensures log { OnOk result ((w : Seen) → log.new.items ≡ log.old.items ++ option_to_list
            (node_delivers slot.now.rank slot.now.frame slot.now.number slot.now.part w (Some (DataOf (data_said read))) self.old)) }
        ensures early { OnOk result (IsEarlyState slot.now.frame self.new.state) }
    {
        if !self.is_on {
            return Ok(());
        }
        self.member.pass(slot.frame, slot.part, true);
        log.push(delivery(self.member.id(), slot, read))?;
        Ok(())
    }
}

// What the node of this id delivers of a data packet that it received in the slot.
fn delivery(node: NodeId, slot: &RoundSlot, read: DataPacket) -> Delivery
    ensures { result ≡ delivery_of node slot.now.frame slot.now.rank slot.now.number (data_said read) }
{
    Delivery {
        frame: slot.frame,
        rank: slot.rank,
        slot: slot.number,
        node,
        from: read.node,
        boot: read.boot,
        stream: read.stream,
        seq: read.seq,
        payload: read.payload,
    }
}

fn push_some(log: &mut Vec<Delivery>, delivery: Option<Delivery>) -> Result<(), Memory>
    ensures { OnOk result (log.new.items ≡ log.old.items ++ option_to_list delivery) }
{
    if let Some(delivery) = delivery {
        log.push(delivery)?;
    }
    Ok(())
}
