//! What is sent in a data slot.

ghost use Rattle.std.specs.Prelude.{◌≡◌, ◌<◌, ◌++◌, ℕ, OnOk, None, false, length, map, option_to_list};
ghost use Rattle.std.specs.declared.option.Option.{Option};
ghost use Rattle.std.specs.List.{AllPairs};
ghost use Rattle.std.specs.Option.{option_and_then, option_copied};
ghost use Rattle.bus_rules.specs.Slots.{Opened};
ghost use Rattle.bus_rules.specs.States.{State};
ghost use Rattle.lwb_member.specs.Said.{message_of};
ghost use Rattle.bus_terms.specs.Flooding.{has};
ghost use Rattle.bus_terms.specs.Packets.{packet_said, sent_by_owner};
ghost use Rattle.plain_bus.specs.SlotFloods.{seen_by, seen_window};

use crate::closing::said_by;
use crate::round_slot::RoundSlot;
use crate::window::Window;
use bus_rules::Part;
use bus_terms::{PacketId, SentPacket};
use lwb_base::{Memory, NodeId, Packet};
use lwb_member::{Heard, message_in};

/// What is sent in the slot is added at the end of `log`, by the windows of all nodes, whose ids ascend. `Err` means out of memory.
pub(crate) fn add_sent(
    log: &mut Vec<SentPacket>,
    windows: &[Window],
    ids: &[NodeId],
    slot: &RoundSlot,
) -> Result<(), Memory>
    requires windows { length windows.now ≡ length ids.now }
    requires ascending { AllPairs (λ a b. a < b) ids.now }
    ensures { OnOk result ((states : ℕ → State) (window : ℕ → Option Opened)
        → map seen_window windows.now ≡ map (λ v. seen_by slot.now.rank slot.now.part (states v) (window v)) ids.now
        → ((v : ℕ) → has ids.now v ≡ false → window v ≡ None)
        → log.new.items
        ≡ log.old.items ++ option_to_list (sent_by_owner slot.now.rank slot.now.frame slot.now.number slot.now.part window)) }
{
    if let Some(sent) = sent_in(windows, ids, slot) {
        log.push(sent)?;
    }
    Ok(())
}

// What the owner of the slot sends in it, if it is a data slot.
fn sent_in(windows: &[Window], ids: &[NodeId], slot: &RoundSlot) -> Option<SentPacket>
    requires windows { length windows.now ≡ length ids.now }
    requires ascending { AllPairs (λ a b. a < b) ids.now }
    ensures { (states : ℕ → State) (window : ℕ → Option Opened)
        → map seen_window windows.now ≡ map (λ v. seen_by slot.now.rank slot.now.part (states v) (window v)) ids.now
        → ((v : ℕ) → has ids.now v ≡ false → window v ≡ None)
        → result ≡ sent_by_owner slot.now.rank slot.now.frame slot.now.number slot.now.part window }
{
    match slot.part {
        Part::Data(owner) => said_packet(said_by(windows, ids, owner.node()), slot),
        Part::Opening | Part::Contention(_) | Part::Closing => None,
    }
}

// The data packet that is said in the slot.
fn said_packet(said: Option<&Packet>, slot: &RoundSlot) -> Option<SentPacket>
    ensures { result ≡ option_and_then (packet_said slot.now.rank slot.now.frame slot.now.number) (option_and_then message_of (option_copied said.entry)) }
{
    match message_in(said?) {
        Some(Heard::Data(read)) => Some(SentPacket {
            frame: slot.frame,
            rank: slot.rank,
            slot: slot.number,
            packet: PacketId {
                node: read.node,
                boot: read.boot,
                stream: read.stream,
                seq: read.seq,
            },
        }),
        _ => None,
    }
}
