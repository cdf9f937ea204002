//! How a thread waits for another: a bell that all handles of a bus share, and a waiter for each
//! call that waits. Neither is a word of the protocol, and no promise rests on either.
//!
//!     let waiter = Waiter::new(&rt, Waiting::Sleep, &bell);
//!     for _ in waiter.forever() {
//!         if found() {
//!             break;
//!         }
//!         waiter.rest();
//!     }
//!     waiter.ring();
#![tactic(auto)]

mod bells;
mod deadlines;
mod shared;
#[cfg(test)]
mod tests;
mod waiters;

pub use bells::Bell;
pub use deadlines::Deadline;
pub use shared::SharedBell;
pub use waiters::{LONGEST_ASKED_SLEEP, LONGEST_PAUSE, LONGEST_SLEEP, Waiter, Waiting};
