//! Receivers of a bus, and a listener that counts what one was given. What a program needs of the
//! crates below stands here too. Of a sender and a tap of one bus:
//!
//!     sender.put(b"hello")?;
//!     let waiter = Waiter::yielding(&rt);
//!     let sent = sender.send(&waiter, &bus, &mut Pcg32::new(0, 0));
//!     let mut receiver = Receiver::new(tap);
//!     let first = receiver.next_item(&waiter, &bus).context("the end")?;
//!
//! The crate `example_hello` is that as a whole program.
#![tactic(auto)]

pub mod hearing;
pub mod laws;
mod receivers;
mod sizes;

pub use bus_adoptcommit::{ThreeWord, TwoCollect};
pub use bus_batch::{CloseFault, Item, Message, PutFault};
pub use bus_core::limits::{LEAST_ROWS_AGAIN, MOST_ROWS_AGAIN};
pub use bus_deliverylog::{LogFault, LogRead, Order, RecvTurn, read_log};
pub use bus_pageslot::{
    Bus, EndFault, Ended, ItemTurn, Left, NeverFits, OfBus, SendFault, Sender, Tap, Unsent,
};
pub use bus_register::limits::{
    LEAST_LOG_WORDS, LOG_MESSAGES, MOST_BYTES, MOST_LOG_WORDS, MOST_MESSAGES, MOST_RECEIVERS,
    MOST_ROUNDS, MOST_ROWS, MOST_SENDERS,
};
pub use bus_register::{Kind, SenderNo};
pub use bus_tenure::{Page, Turn};
pub use bus_waiting::Waiter;
pub use bus_world::{MakeFault, Shape};
pub use hearing::Heard;
pub use receivers::{Found, Next, Receiver};
pub use sizes::{room_to_close, tenures_needed, words_needed};
