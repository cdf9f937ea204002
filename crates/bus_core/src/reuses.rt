//! What a sender holds beside its turns where rows are used again.

use bus_presence::{Pin, Reclaimer};
use bus_register::SenderNo;

/// How a holder whose frame does not fit the log goes through the passed places of all receivers.
#[derive(Clone, Copy, Debug, PartialEq, Eq)]
pub struct Passing {
    /// How many it has loaded in this tenure.
    pub loaded: u64,
    /// The least of them; 2^64 - 1 where it has loaded none.
    pub least: u64,
}

/// What a sender holds beside its turns where rows are used again.
#[derive(Drop)]
pub struct Reuse {
    /// How far its pin of a tenure has come.
    pub pin: Pin,
    /// As the holder of a page it makes the row of the next tenure ready.
    pub reclaimer: Option<Reclaimer>,
    /// What it has loaded of the passed places, as the holder of a page.
    pub passed: Passing,
    /// Who owns the tenure that it has lost and parts from.
    pub lost: Option<SenderNo>,
    /// How many rows there are.
    pub rows: u64,
}
