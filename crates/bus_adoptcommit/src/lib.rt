//! Adopt-commit objects: what a ratifier is, and ratifiers made of words.
//!
//! One of two processes of a ratifier, which steps alone, commits to its input:
//!
//! ```
//! use bus_adoptcommit::{Ratifier, ThreeWord, Verdict};
//! use bus_register::{Cells, Machine, Reg, SenderNo};
//!
//! let mut cells = Cells::new(rt.alloc(), ThreeWord::width(2))?;
//! let mut process = ThreeWord::start(2, SenderNo(0), true, Reg(0));
//! for _ in 0..ThreeWord::steps(2) {
//!     let Some(op) = process.next(0) else { break };
//!     let found = cells.apply(op);
//!     process.feed(found, 0);
//! }
//! assert_eq!(rt; process.output(), Some(Verdict::Commit(true)));
//! ```
#![tactic(auto)]

pub mod checkers;
pub mod laws;
pub mod objects;
pub mod phases;
pub mod progress;
pub mod ratifiers;
pub mod three_word;
pub mod two_collect;
pub mod verdicts;

pub use ratifiers::Ratifier;
pub use three_word::ThreeWord;
pub use two_collect::TwoCollect;
pub use verdicts::Verdict;
