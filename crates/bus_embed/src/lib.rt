//! The bus for programs in other languages: the calls of handles of one kind of bus, with answers
//! as numbers and as plain structs. `bus_c` exports them to C.
//!
//! Its senders go by the ratifier of three words. No call waits and, but for opening a bus, none
//! takes memory.
#![tactic(auto)]

mod answers;
mod buses;
pub mod codes;
mod finishing;
mod receivers;
mod senders;
mod writing;

pub use answers::{HeardAnswer, HeardItem, TurnAnswer};
pub use bus_handles::{ReceiverHandle, SenderHandle, ThreeWord};
pub use buses::{
    Left, Sizes, begin_page, end_bus, note_sender, open_bus, open_bus_after, refused_code,
};
pub use finishing::finish_sender;
pub use receivers::{
    ReceiverShown, fork_receiver, hear_items, hear_once, receivers_meet, show_receiver,
    tell_receiver,
};
pub use senders::{
    SenderShown, carry_messages, close_sender, leave_sender, look_for_room, put_message,
    show_sender, take_turn, take_turns,
};
