//! Rows used again: each sender shows in a word of its own which tenure it pins, and no row of
//! words is cleared while a sender stands in a tenure that uses it.
//!
//! A sender shows in word 1 that it pins tenure 4, of which word 0 is the stage; then a reclaimer
//! finds it there:
//!
//! ```
//! use bus_presence::{Behind, Pin, Presence, Reclaimer};
//! use bus_register::{Op, Reg};
//!
//! let mut presence = Presence::new(Reg(1), Reg(0));
//! presence.begin(4);
//! assert_eq!(rt; presence.next(), Some(Op::Store(Reg(1), 5)));
//! presence.feed(0);
//! assert_eq!(rt; presence.next(), Some(Op::Load(Reg(0))));
//! presence.feed(8);
//! assert_eq!(rt; presence.pin(), Pin::Pinned { tenure: 4 });
//! let mut reclaimer = Reclaimer::new(4, 1, Reg(1), Reg(2), 6);
//! assert_eq!(rt; reclaimer.feed(5), Some(Behind { tenure: 4, sender: 0 }));
//! ```
#![tactic(auto)]

pub mod laws;
pub mod pins;
pub mod reclaimers;

pub use pins::{Pin, Presence};
pub use reclaimers::{Behind, Reclaimer};
