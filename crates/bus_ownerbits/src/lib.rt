//! Elections: the owner's number, bit by bit.
//!
//! The last of five senders, which steps alone, is elected:
//!
//! ```
//! use bus_adoptcommit::ThreeWord;
//! use bus_ownerbits::{Election, bound};
//! use bus_register::{Cells, Machine, Reg, SenderNo};
//!
//! let mut cells = Cells::new(rt.alloc(), Election::<ThreeWord>::width(5, 1))?;
//! let mut process = Election::<ThreeWord>::start(5, SenderNo(4), 1, Reg(0));
//! for _ in 0..bound::<ThreeWord>(5, 1) {
//!     let Some(op) = process.next(0) else { break };
//!     let found = cells.apply(op);
//!     process.feed(found, 0);
//! }
//! assert_eq!(rt; process.owner(), Some(SenderNo(4)));
//! ```
#![tactic(auto)]

pub mod elections;
pub mod laws;
pub mod sizes;
pub mod stages;

pub use elections::Election;
pub use sizes::{bits, bound};
