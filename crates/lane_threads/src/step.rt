//! What the ends of all lanes are told in a tick.
use link_params::{RxOrder, TxOrder};

/// The orders of a tick: those of the transmitter ends and of the receiver ends of all lanes.
#[derive(Clone, Copy, Debug, PartialEq, Eq)]
pub struct Step {
    /// What each transmitter end sends.
    pub tx: TxOrder,
    /// What each receiver end is told.
    pub rx: RxOrder,
}

fn is_sync<T: Sync>() {}

/// A step may be read by several threads at once.
pub fn steps_are_sync() {
    is_sync::<Step>();
    is_sync::<TxOrder>();
    is_sync::<RxOrder>();
}
