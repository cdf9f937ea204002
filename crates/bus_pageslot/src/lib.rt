//! A bus between threads, on a table of atomic words.
//!
//! A bus of one sender and one receiver, from its making to its end:
//!
//! ```
//! use bus_adoptcommit::ThreeWord;
//! use bus_deliverylog::RecvTurn;
//! use bus_pageslot::Bus;
//! use bus_tenure::Turn;
//! use bus_waiting::Waiter;
//! use bus_world::Shape;
//! use rand_pcg::Pcg32;
//!
//! let shape =
//!     Shape { senders: 1, receivers: 1, rounds: 1, rows: 2, log_words: 16, batch: 16 };
//! let (bus, mut senders, mut taps) = Bus::<ThreeWord>::new(rt.alloc(), shape)?;
//! let mut sender = senders.pop().context("a sender")?;
//! let mut tap = taps.pop().context("a tap")?;
//! sender.put(b"hello")?;
//! let sent = sender.send(&Waiter::yielding(&rt), &bus, &mut Pcg32::new(0, 0));
//! assert!(rt; matches!(sent, Turn::Delivered { .. }));
//! assert_eq!(rt; tap.turn(&bus), RecvTurn::Going);
//! let ended = bus.end(tap)?;
//! assert_eq!(rt; ended.page().words, 3);
//! ```
#![tactic(auto)]

mod buses;
pub mod laws;
mod listeners;
mod listening;
mod outcomes;
pub mod receiving_laws;
pub mod refusals;
mod rule;
mod seating;
mod seats;
pub mod sending_laws;
mod steps;
mod taps;
mod words;

pub use buses::Bus;
pub use listening::ItemTurn;
pub use outcomes::{EndFault, Ended};
pub use rule::{BusRule, Notes, OfBus, ReceiverView, Seated, SenderTrail, TableLayout, Told, View};
pub use seats::{NeverFits, SendFault, Sender, Unsent};
pub use taps::{Left, Tap};
