//! Handles of a bus. One call opens a bus and gives a handle for each of its senders and receivers.
//! All handles have the bus together, so a program has no bus in hand, passes none to a call, and
//! states nothing of which bus a handle is of. The last handle that is left can end the bus.
//!
//!     let (senders, receivers) = open::<ThreeWord>(rt.alloc(), shape)?;
//!     for mut sender in senders {
//!         sender.put(b"hello")?;
//!         sender.deliver(&rt)?;
//!     }
//!     for mut receiver in receivers {
//!         let first = receiver.next_item(&rt).context("the end")?;
//!     }
//!
//! The crates `example_hello` and `example_carry` are whole programs of that form.
//!
//! A bus that `open` makes is over once its log is full; a *ring*, which `open_ring` makes, uses
//! the cells of its log again. Each receiver of a ring stores its place after each frame that it
//! has heard, and a cell is used again once all of them have passed it. Until then a frame that
//! needs the cell is answered Full, and its batch is kept. So a receiver that is kept and does not
//! hear stops all senders in the end, and one that is let go leaves.
//!
//! **Who sends and hears must hear while it is answered Full.** Else it may wait for itself:
//!
//!     while sender.send(&rt) == Turn::Full {
//!         hear_all(&mut receiver);
//!     }
//!
//! Who sends alone calls `send_when_room` or `deliver_when_room`, which wait for room.
#![tactic(auto)]

mod answers;
mod opening;
mod pages;
mod receivers;
mod senders;

pub use answers::{
    BusNotEnded, Delivered, ForkFault, NotDelivered, OrderNotEnded, RingFault, answered,
};
pub use bus_receiver::{
    CloseFault, Ended, Found, Heard, Item, ItemTurn, Kind, LEAST_LOG_WORDS, LEAST_ROWS_AGAIN,
    LOG_MESSAGES, Left, LogFault, LogRead, MOST_BYTES, MOST_LOG_WORDS, MOST_MESSAGES,
    MOST_RECEIVERS, MOST_ROUNDS, MOST_ROWS, MOST_ROWS_AGAIN, MOST_SENDERS, MakeFault, Message,
    NeverFits, Next, Order, Page, PutFault, RecvTurn, SendFault, SenderNo, Shape, ThreeWord, Turn,
    TwoCollect, Unsent, read_log, room_to_close, tenures_needed, words_needed,
};
pub use bus_waiting::{SharedBell, Waiter, Waiting};
pub use opening::{open, open_after, open_cyclic, open_ring};
pub use pages::{NoPage, senders_page};
pub use receivers::ReceiverHandle;
pub use senders::SenderHandle;
