//! The sizes of a run.

use bus_core::limits::MOST_ROWS_AGAIN;

/// Senders that a command line may ask for, of a run or a measurement: 1 to 8, a thread for each.
pub const MOST_SEND_WORKERS: u64 = 8;

/// Receivers that a command line may ask for, of either: 1 to 8, a thread for each.
pub const MOST_RECEIVE_WORKERS: u64 = 8;

/// Messages that each sender of a run sends: at most 400.
pub const MOST_MESSAGES_EACH: u64 = 400;

/// Rounds of each binary decision of a run's bus.
pub const ROUNDS: u64 = 4;

/// Rows of election words of a run's bus, which are used again.
pub const ROWS: u64 = MOST_ROWS_AGAIN as u64;
