//! The classes of orders.

/// What an order is for. Of orders for one tick, those of an earlier class come first.
#[derive(Clone, Copy, Debug, PartialEq, Eq, PartialOrd, Ord)]
pub enum Class {
    /// A transmission ends.
    SendingEnd,
    /// An alarm rings.
    Alarm,
    /// A transmission starts.
    SendingStart,
}
