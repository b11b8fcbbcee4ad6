//! What a device is notified of.

ghost use Rattle.std.specs.Prelude.{◌≡◌, is_some, option_copied};
ghost use Rattle.air_log.specs.Notices.{is_sent, packet_sent};

use lwb_base::{Event, Packet};
use radio_model::sending::Sending;

/// An event of a device. A `Sent` comes with the transmission that ended, and no other event comes with one.
#[derive(Drop)]
pub struct Notice<'e, 'x> {
    /// The event.
    pub event: &'e Event,
    /// The transmission that ended.
    pub ended: Option<&'x Sending>,
    ghost fits: { is_some (option_copied ended) ≡ is_sent event.now },
}

impl Notice<'_, '_> {
    // The packet of the transmission that ended.
    pub(crate) fn sent(&self) -> Option<&Packet>
        ensures { option_copied result ≡ packet_sent (option_copied self.now.ended) }
    {
        Some(&self.ended?.packet)
    }
}
