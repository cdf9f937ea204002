//! The bus for C: a static library of `bus_embed`'s calls, over handles that C owns.
//! `include/kioskbasil.h` declares them, and says of each what its contract says here.
#![tactic(auto)]

mod buses;
mod parts;
mod receiver;
mod receiver_calls;
mod seats;
mod sender;
mod sender_calls;
