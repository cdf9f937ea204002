//! Senders of the bus B.

ghost use Rattle.std.specs.Prelude.{◌≡◌, All};
ghost use Rattle.bus_pageslot.specs.Seats.{table_of};

use bus_pageslot::OfBus;
use bus_run::buses::Sender;
use std::alloc::{AllocError, Global};
use std::marker::PhantomData;

/// A sender of the bus B.
#[derive(Drop)]
pub struct TurnSender<B: OfBus> {
    pub sender: Sender,
    of: PhantomData<B>,
    ghost of_bus: { table_of sender ≡ B.table },
}

impl<B: OfBus> TurnSender<B> {
    /// The worker of a sender.
    pub fn new(sender: Sender) -> TurnSender<B>
        requires { table_of sender ≡ B.table }
    {
        TurnSender {
            sender,
            of: PhantomData,
        }
    }

    /// Puts its next message, its number in 8 bytes. Says whether it was taken.
    pub fn put(&mut self) -> bool {
        let number = self.sender.next_number();
        self.sender.put(&number.to_be_bytes()).is_ok()
    }
}

/// A worker for each sender, in order.
pub fn turn_senders_of<B: OfBus>(
    alloc: Global,
    senders: Vec<Sender>,
) -> Result<Vec<TurnSender<B>>, AllocError>
    requires { All (λ sender. table_of sender ≡ B.table) senders.items }
{
    let mut send_workers = Vec::with_capacity(alloc, senders.len())?;
    for sender in senders {
        send_workers.push(TurnSender::new(sender))?;
    }
    Ok(send_workers)
}
