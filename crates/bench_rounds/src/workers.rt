//! What the worker of a sender does, and that of a receiver.

ghost use Rattle.std.specs.Prelude.{◌≡◌, ◌++◌, ◌-◌, ◌≤◌, ◌<◌, All, replicate};
ghost use Rattle.std.specs.Int.{w64, to_be_bytes};
ghost use Rattle.bus_pageslot.specs.Seats.{table_of};
ghost use Rattle.bus_receiver.specs.Listening.{bus_of};

use crate::faults::Fault;
use crate::gates::Gate;
use crate::needs::Load;
use bus_batch::Item;
use bus_pageslot::{NeverFits, OfBus};
use bus_receiver::{Found, Heard};
use bus_register::SenderNo;
use bus_register::limits::MOST_BYTES;
use bus_run::buses::{Receiver, Sender, Tap, TheBus};
use bus_run::spawning::Work;
use bus_run::workers::generator;
use bus_tenure::Turn;
use bus_waiting::Waiter;
use rand_chacha::ChaCha8Rng;
use std::alloc::{AllocError, Global};
use std::marker::PhantomData;
use std::sync::Wait;
use std::time::{Clock, Instant};

/// A sender of the bus B with its random words, and what stopped it.
#[derive(Drop)]
pub struct RoundSender<B: OfBus> {
    pub sender: Sender,
    pub fault: Option<Fault>,
    rng: ChaCha8Rng,
    of: PhantomData<B>,
    ghost of_bus: { table_of sender ≡ B.table },
}

impl<B: OfBus> RoundSender<B> {
    /// The worker of a sender that has not begun.
    pub fn new(sender: Sender, seed: u64) -> RoundSender<B>
        requires { table_of sender ≡ B.table }
        ensures { result.sender ≡ sender }
    {
        let rng = generator(seed, u64::from(sender.number().0));
        RoundSender {
            sender,
            fault: None,
            rng,
            of: PhantomData,
        }
    }

    /// The number of its sender.
    pub fn number(&self) -> u64 {
        u64::from(self.sender.number().0)
    }

    /// Its sender sends what waits in its batch.
    pub fn send<W: Wait>(&mut self, wait: &W, the: &TheBus<B>) -> Turn {
        let waiter = Waiter::yielding(wait);
        self.sender.send(&waiter, &the.bus, &mut self.rng)
    }

    /// The same, of a ring: where there is no room it waits for some, as long as `go_on` says yes.
    pub fn send_when_room<W: Wait, F: FnMut() -> bool>(
        &mut self,
        wait: &W,
        the: &TheBus<B>,
        go_on: F,
    ) -> Option<Turn>
        requires { F.IsAlwaysCallable go_on }
    {
        let waiter = Waiter::yielding(wait);
        let sender = &mut self.sender;
        match sender.send_when_room(&waiter, &the.bus, &mut self.rng, go_on) {
            Ok(turn) => turn,
            Err(NeverFits) => Some(Turn::Full),
        }
    }

    /// Its sender closes the bus. Says whether the bus is closed.
    pub fn close<W: Wait>(&mut self, wait: &W, the: &TheBus<B>) -> bool {
        self.sender.close().is_ok() && self.send(wait, the) == Turn::Closed
    }
}

/// A worker for each sender, in order.
pub fn round_senders_of<B: OfBus>(
    alloc: Global,
    senders: Vec<Sender>,
    seed: u64,
) -> Result<Vec<RoundSender<B>>, AllocError>
    requires { All (λ sender. table_of sender ≡ B.table) senders.items }
{
    let mut send_workers = Vec::with_capacity(alloc, senders.len())?;
    for sender in senders {
        send_workers.push(RoundSender::new(sender, seed))?;
    }
    Ok(send_workers)
}

/// One item that a receiver was given.
#[derive(Clone, Copy, Debug, PartialEq, Eq)]
pub struct Got {
    pub sender: SenderNo,
    pub number: u64,
}

/// A receiver of the bus B with what was noted of its answers, in order.
#[derive(Drop)]
pub struct RoundReceiver<B: OfBus> {
    pub number: u64,
    pub receiver: Receiver,
    pub heard: Heard,
    pub order: Vec<Got>,
    /// The sum of all words of its items, modulo 2^64.
    pub sum: u64,
    /// When it had all items.
    pub done: Option<Instant>,
    pub fault: Option<Fault>,
    of: PhantomData<B>,
    ghost of_bus: { bus_of receiver ≡ B.table },
}

impl<B: OfBus> RoundReceiver<B> {
    /// The worker of a receiver that has not begun, with room for so many items.
    pub fn new(
        alloc: Global,
        number: u64,
        tap: Tap,
        items: u64,
    ) -> Result<RoundReceiver<B>, AllocError>
        requires { tap.table_id ≡ B.table }
    {
        Ok(RoundReceiver {
            number,
            receiver: Receiver::new(tap),
            heard: Heard::new(),
            order: Vec::with_capacity(alloc, items as usize)?,
            sum: 0,
            done: None,
            fault: None,
            of: PhantomData,
        })
    }

    /// Its receiver.
    pub fn into_receiver(self) -> Receiver
        ensures { bus_of result ≡ B.table }
    {
        let RoundReceiver { receiver, .. } = self;
        receiver
    }
}

/// A worker for each receiver, in order, with room for so many items.
pub fn round_receivers_of<B: OfBus>(
    alloc: Global,
    taps: Vec<Tap>,
    items: u64,
) -> Result<Vec<RoundReceiver<B>>, AllocError>
    requires { All (λ tap. tap.table_id ≡ B.table) taps.items }
{
    let mut receive_workers = Vec::with_capacity(alloc, taps.len())?;
    for tap in taps {
        let number = receive_workers.len() as u64;
        receive_workers.push(RoundReceiver::new(alloc, number, tap, items)?)?;
    }
    Ok(receive_workers)
}

/// The work of the senders of a round.
#[derive(Drop)]
pub struct SendRound<'a, B: OfBus, W> {
    pub wait: &'a W,
    pub the: &'a TheBus<B>,
    pub gate: &'a Gate,
    pub load: Load,
}

impl<B: OfBus, W: Wait> Work<RoundSender<B>> for SendRound<'_, B, W> {
    /// Waits at the gate, and sends all messages of a sender.
    fn work(&self, mut send_worker: RoundSender<B>) -> RoundSender<B> {
        if !self.gate.pass(self.wait) {
            return send_worker;
        }
        if let Err(fault) = self.send_batches(&mut send_worker) {
            send_worker.fault = Some(fault);
            self.gate.give_up();
        }
        send_worker
    }
}

impl<B: OfBus, W: Wait> SendRound<'_, B, W> {
    /// Sends the numbers below `load.messages`, a batch at a time, or until the round was given up.
    fn send_batches(&self, send_worker: &mut RoundSender<B>) -> Result<(), Fault> {
        let messages = self.load.messages;
        let most = send_worker.sender.batch_limit();
        for first in (0..messages).step_by(most as usize) {
            if self.gate.is_given_up() {
                return Ok(());
            }
            let end = messages.min(first.saturating_add(most));
            put_all(send_worker, first, end, self.load.size.bytes())?;
            let Some(turn) = self.send_batch(send_worker) else {
                return Ok(());
            };
            if !matches!(turn, Turn::Delivered { .. }) {
                let sender = send_worker.number();
                return Err(Fault::Answer { sender, turn });
            }
        }
        Ok(())
    }

    /// Sends what waits in its batch. Of a ring without room it waits for some. None where the
    /// round was given up before.
    fn send_batch(&self, send_worker: &mut RoundSender<B>) -> Option<Turn> {
        let turn = send_worker.send(self.wait, self.the);
        if turn != Turn::Full || self.load.ring.is_none() {
            return Some(turn);
        }
        let gate = self.gate;
        send_worker.send_when_room(self.wait, self.the, || !gate.is_given_up())
    }
}

/// Puts the messages from `first` up to `end`, of so many bytes each.
fn put_all<B: OfBus>(
    send_worker: &mut RoundSender<B>,
    first: u64,
    end: u64,
    bytes: usize,
) -> Result<(), Fault>
    requires { bytes ≤ MOST_BYTES }
{
    for number in first..end {
        let message = message_of(number);
        if send_worker.sender.put(&message[..bytes]).is_err() {
            let sender = send_worker.number();
            return Err(Fault::Put { sender });
        }
    }
    Ok(())
}

/// The longest message of a number: its bytes, the highest first, and zeros behind them.
fn message_of(number: u64) -> [u8; MOST_BYTES]
    ensures { result ≡ to_be_bytes w64 number ++ replicate (MOST_BYTES - 8) 0 }
{
    let mut message = [0u8; MOST_BYTES];
    message[..8].copy_from_slice(&number.to_be_bytes());
    message
}

/// The work of the receivers of a round.
#[derive(Drop)]
pub struct HearRound<'a, B: OfBus, R> {
    pub rt: &'a R,
    pub the: &'a TheBus<B>,
    pub gate: &'a Gate,
    pub load: Load,
}

impl<B: OfBus, R: Wait + Clock> Work<RoundReceiver<B>> for HearRound<'_, B, R> {
    /// Waits at the gate, takes all items, and notes the instant. A turn more lets a ring know that
    /// the last frame is passed, so that the close finds room.
    fn work(&self, mut receive_worker: RoundReceiver<B>) -> RoundReceiver<B> {
        if !self.gate.pass(self.rt) {
            return receive_worker;
        }
        match self.take_all(&mut receive_worker) {
            Ok(true) => match Instant::now(self.rt) {
                Ok(now) => {
                    receive_worker.done = Some(now);
                    receive_worker.receiver.turn(&self.the.bus);
                }
                Err(_) => receive_worker.fault = Some(Fault::Clock),
            },
            Ok(false) => {}
            Err(fault) => {
                receive_worker.fault = Some(fault);
                self.gate.give_up();
            }
        }
        receive_worker
    }
}

impl<B: OfBus, R: Wait> HearRound<'_, B, R> {
    /// Takes items until it has all. On false the round was given up before.
    fn take_all(&self, receive_worker: &mut RoundReceiver<B>) -> Result<bool, Fault> {
        let gate = self.gate;
        let waiter = Waiter::yielding(self.rt);
        let mut item = Item::blank();
        for _ in 0..self.load.items() {
            let receiver = &mut receive_worker.receiver;
            let go_on = || !gate.is_given_up();
            match receiver.next_item_in_place_while(&waiter, &self.the.bus, go_on, &mut item) {
                Found::Item => note(receive_worker, &item)?,
                Found::End => return Err(heard_amiss(receive_worker)),
                Found::Stopped => return Ok(false),
            }
        }
        Ok(true)
    }
}

/// Notes an item, which has to be the next of its sender, and reads all its bytes.
fn note<B: OfBus>(receive_worker: &mut RoundReceiver<B>, item: &Item) -> Result<(), Fault> {
    let (sender, number) = (item.sender, item.number);
    let words = words_sum(item.message.as_slice());
    if !receive_worker.heard.note_item(item) {
        return Err(heard_amiss(receive_worker));
    }
    receive_worker.sum = receive_worker.sum.wrapping_add(words);
    receive_worker.order.push(Got { sender, number })?;
    Ok(())
}

/// The sum of words of 8 bytes, the highest first, modulo 2^64.
fn words_sum(bytes: &[u8]) -> u64 {
    let mut sum: u64 = 0;
    let (words, _) = bytes.as_chunks::<8>();
    for word in words {
        sum = sum.wrapping_add(u64::from_be_bytes(*word));
    }
    sum
}

/// That a receiver was given what cannot come next.
fn heard_amiss<B: OfBus>(receive_worker: &RoundReceiver<B>) -> Fault {
    Fault::Heard {
        receiver: receive_worker.number,
    }
}
