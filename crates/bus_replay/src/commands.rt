//! Commands to a bus.

use bus_world::Event;

/// What a line asks for.
#[derive(Debug, Drop)]
pub enum Command {
    /// An event, at most so many times.
    Play { event: Event, times: u64 },
    /// That a receiver forks to a higher number.
    Fork { receiver: u64, number: u64 },
}
