//! How many rows a bus has whose rows are used again, and how its passed places lie. Contracts and
//! definitions take it from here.

/// At least two: a holder makes one row ready while late senders stand in another.
pub const LEAST_ROWS_AGAIN: u64 = 2;

/// At most eight.
pub const MOST_ROWS_AGAIN: usize = 8;

/// From one passed place to the next there are so many words: no two share a line of 64 bytes.
pub const PASSED_APART: u64 = 8;
