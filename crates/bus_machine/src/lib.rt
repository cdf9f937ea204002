//! The bus as a machine that plays events, with a row of words for each tenure or with rows that
//! are used again, and what it promises.
//!
//! Three messages, one after another, over two rows:
//!
//! ```
//! use bus_adoptcommit::ThreeWord;
//! use bus_machine::World;
//! use bus_register::SenderNo;
//! use bus_world::{Event, Shape};
//!
//! let shape =
//!     Shape { senders: 1, receivers: 1, rounds: 1, rows: 2, log_words: 16, batch: 16 };
//! let mut world = World::<ThreeWord>::cyclic(rt.alloc(), shape, None)?;
//! for _ in 0..3 {
//!     world.put(SenderNo(0), b"a")?;
//!     for _ in 0..40 {
//!         world.step(&Event::Turn { sender: 0, word: 0 })?;
//!     }
//! }
//! assert_eq!(rt; world.order(rt.alloc())?.items.len(), 3);
//! ```
#![tactic(auto)]

pub mod laws;
mod logs;
pub mod shapes;
mod starts;
mod turns;
pub mod worlds;

pub use worlds::World;
