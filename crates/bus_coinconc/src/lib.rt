//! A conciliator (Aspnes 2010) made of two marks and a coin: it gives every process an input, and
//! the only one where there is only one.
//!
//! One of two processes, which steps alone, is given its input:
//!
//! ```
//! use bus_coinconc::Conciliator;
//! use bus_register::{Cells, Machine, Reg, SenderNo};
//!
//! let mut cells = Cells::new(rt.alloc(), Conciliator::width(2))?;
//! let mut process = Conciliator::start(2, SenderNo(0), true, Reg(0));
//! for word in [0, 0] {
//!     let Some(op) = process.next(word) else { break };
//!     let found = cells.apply(op);
//!     process.feed(found, word);
//! }
//! assert_eq!(rt; process.output(), Some(true));
//! ```
#![tactic(auto)]

pub mod conciliators;
pub mod laws;

pub use conciliators::Conciliator;
