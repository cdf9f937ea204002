//! Binary decisions: ratifiers and conciliators composed.
//!
//! One of two processes of a decision of one round, which steps alone, decides its input:
//!
//! ```
//! use bus_adoptcommit::ThreeWord;
//! use bus_binconsensus::Decide;
//! use bus_register::{Cells, Machine, Reg, SenderNo};
//!
//! let mut cells = Cells::new(rt.alloc(), Decide::<ThreeWord>::width(2, 1))?;
//! let mut process = Decide::<ThreeWord>::start(2, SenderNo(0), true, 1, Reg(0));
//! for word in [0, 0, 0, 0] {
//!     let Some(op) = process.next(word) else { break };
//!     let found = cells.apply(op);
//!     process.feed(found, word);
//! }
//! assert_eq!(rt; process.decided(), Some(true));
//! ```
#![tactic(auto)]

pub mod decisions;
pub mod fallbacks;
pub mod laws;
pub mod objects;

pub use decisions::Decide;
pub use fallbacks::Fallback;
pub use objects::Object;
