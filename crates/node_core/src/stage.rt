//! The place of a node in its frame.

use crate::window::Window;

// The place of a node in its frame, with its window where it is in one.
#[derive(Drop)]
pub(crate) enum Stage {
    Idle,
    Scanning,
    AwaitFrame,
    AwaitSlot(u8),
    InWindow(u8, Window),
}
