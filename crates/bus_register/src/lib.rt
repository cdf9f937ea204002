//! Words in memory, the single steps that are taken on them, and machines that take such steps one
//! at a time.
//!
//! Two words, and steps on the second:
//!
//! ```
//! use bus_register::{Cells, Op, Reg};
//!
//! let mut cells = Cells::new(rt.alloc(), 2)?;
//! assert_eq!(rt; cells.apply(Op::Store(Reg(1), 7)), 0);
//! assert_eq!(rt; cells.apply(Op::Cas(Reg(1), 7, 8)), 7);
//! assert_eq!(rt; cells.get(Reg(1)), 8);
//! assert_eq!(rt; cells.get(Reg(0)), 0);
//! ```
#![tactic(auto)]

pub mod kinds;
pub mod limits;
pub mod machines;
pub mod memory;
pub mod registers;

pub use kinds::Kind;
pub use machines::Machine;
pub use memory::{Cells, NoMemory};
pub use registers::{Op, Reg, SenderNo, cell};
