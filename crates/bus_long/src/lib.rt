//! Long messages, of 0 to 880 bytes, over messages of at most 56: each is cut into pieces, and a
//! joiner for each sender joins them again.
//!
//! ```
//! use bus_long::{Joiner, Taken, cut};
//!
//! let Some(parts) = cut(&[7; 56]) else { return Ok(()) };
//! assert_eq!(rt; parts.before.len(), 1);
//! let mut joiner = Joiner::new();
//! for piece in parts.before.as_slice() {
//!     assert_eq!(rt; joiner.take(piece.as_slice()), Taken::Waits);
//! }
//! assert_eq!(rt; joiner.take(parts.last.as_slice()), Taken::Joined);
//! assert_eq!(rt; joiner.bytes(), [7; 56].as_slice());
//! ```
#![tactic(auto)]

pub mod joiners;
pub mod laws;
pub mod pieces;

pub use joiners::{Joiner, Taken};
pub use pieces::{MOST_LONG_BYTES, Parts, cut};

#[cfg(test)]
mod tests;
