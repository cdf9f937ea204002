//! What the worker of a sender does, and that of a receiver.

ghost use Rattle.std.specs.Prelude.{◌≡◌, ◌++◌, ◌∷◌, [], ◌<◌, ◌≤◌};
ghost use Rattle.std.specs.Prelude.{◌⊎◌, ◌≢◌, ◌^◌, true, false, None, Some};
ghost use Rattle.std.specs.Prelude.{IfOk, map, All};
ghost use Rattle.std.specs.Int.{w64, to_be_bytes};
ghost use Rattle.bus_batch.specs.Batches.{next_of, IsPutFault, IsCloseFault};
ghost use Rattle.bus_batch.specs.declared.batches.CloseFault.{CloseFault};
ghost use Rattle.bus_batch.specs.declared.batches.PutFault.{PutFault};
ghost use Rattle.bus_pageslot.specs.Seats.{table_of, actions_of};
ghost use Rattle.bus_run.specs.Audit.{IsSummed};
ghost use Rattle.bus_automaton.specs.ThreeWordBuses.{process};
ghost use Rattle.bus_run.specs.Left.{number_of, batch_of};
ghost use Rattle.bus_run.specs.Numbers.{numbers_below};
ghost use Rattle.bus_run.specs.Sending.{SendsOn, ClosesOn};
ghost use Rattle.bus_run.specs.Stops.{HasSent};
ghost use Rattle.bus_run.specs.Words.{generator_of};
ghost use Rattle.bus_world.specs.Headline.{puts};
ghost use Rattle.bus_pageslot.specs.Listening.{Hears};
ghost use Rattle.bus_receiver.specs.Hearing.{nothing};
ghost use Rattle.bus_receiver.specs.HearingRuns.{hearing_after_all};
ghost use Rattle.bus_receiver.specs.Listening.{bus_of};
ghost use Rattle.bus_run.specs.declared.faults.SenderFault.TheVariants.{Stopped as stopped};

use crate::buses::{Receiver, Sender, Tap, TheBus};
use crate::faults::SenderFault;
use crate::gates::Gate;
use crate::limits::MOST_MESSAGES_EACH;
use crate::spawning::Work;
use bus_deliverylog::RecvTurn;
use bus_pageslot::OfBus;
use bus_receiver::Heard;
use bus_register::limits::LOG_MESSAGES;
use bus_tenure::Turn;
use bus_waiting::Waiter;
use rand_chacha::ChaCha8Rng;
use rand_core::SeedableRng;
use std::alloc::{AllocError, Global};
use std::marker::PhantomData;
use std::sync::Wait;
use std::sync::atomic::{AtomicBool, Ordering};

/// How much each sender sends, and what its random words come from.
#[derive(Clone, Copy, Debug)]
pub struct Load {
    pub messages: u64,
    pub seed: u64,
}

/// A sender of the bus B with its random words, and what stopped it. It has put the numbers below
/// `put`, and nothing else.
#[derive(Drop)]
pub struct SendWorker<B: OfBus> {
    pub sender: Sender,
    pub rng: ChaCha8Rng,
    pub fault: Option<SenderFault>,
    put: u64,
    of: PhantomData<B>,
    ghost of_bus: { table_of sender ≡ B.table },
    ghost has_put: { puts (actions_of process sender) ≡ numbers_below put },
}

/// A receiver of the bus B with what was noted of its answers.
#[derive(Drop)]
pub struct ReceiveWorker<B: OfBus> {
    pub receiver: Receiver,
    pub heard: Heard,
    of: PhantomData<B>,
    ghost of_bus: { bus_of receiver ≡ B.table },
    ghost summed: { IsSummed heard },
}

impl<B: OfBus> ReceiveWorker<B> {
    /// The worker of the receiver with this seat, of whose answers nothing was noted.
    pub fn new(tap: Tap) -> ReceiveWorker<B>
        requires { tap.table_id ≡ B.table }
        ensures receiver { result.receiver ≡ tap }
        ensures fresh { result.heard ≡ nothing }
    {
        ReceiveWorker {
            receiver: Receiver::new(tap),
            heard: Heard::new(),
            of: PhantomData,
        }
    }

    /// A turn of its receiver, which is noted. The end is noted where it was answered, or before.
    pub fn hear(&mut self, the: &TheBus<B>) -> RecvTurn
        ensures turn { Hears self.old.receiver.me result self.new.receiver.me }
        ensures noted { self.new.heard ≡ hearing_after_all self.old.heard (result ∷ []) }
        ensures ended { self.new.heard.ended ≡ true
            → (self.old.heard.ended ≡ true) ⊎ (result ≡ RecvTurn.End) }
    {
        let turn = self.receiver.turn(&the.bus);
        let _ = self.heard.note(&turn);
        turn
    }
}

impl<B: OfBus> SendWorker<B> {
    /// The worker of a sender that has not begun.
    pub fn new(sender: Sender, seed: u64) -> SendWorker<B>
        requires table { table_of sender ≡ B.table }
        requires put { puts (actions_of process sender) ≡ [] }
        ensures sender { result.sender ≡ sender }
        ensures words { result.rng ≡ generator_of seed (number_of sender) }
        ensures fault { result.fault ≡ None }
    {
        let rng = generator(seed, u64::from(sender.number().0));
        SendWorker {
            sender,
            rng,
            fault: None,
            put: 0,
            of: PhantomData,
        }
    }

    /// The number of its sender.
    pub fn number(&self) -> u64
        ensures { result ≡ number_of self.now.sender }
    {
        u64::from(self.sender.number().0)
    }

    /// It has put so many messages, the numbers from 0 on, and none of them waits.
    pub fn has_put(&self, messages: u64) -> bool
        ensures all { result ≡ true → HasSent messages self.now.sender }
        ensures not_all { result ≡ false → HasSent messages self.now.sender → ⊥ }
    {
        self.sender.pending() == 0 && self.put == messages
    }

    /// Its sender closes the bus: it lets an end mark wait, where it can, and sends it. Says
    /// whether the bus is closed.
    pub fn close<W: Wait>(&mut self, wait: &W, the: &TheBus<B>) -> bool
        ensures fault { self.new.fault ≡ self.old.fault }
        ensures closed { result ≡ true → ClosesOn self.old.sender Turn.Closed self.new.sender }
        ensures open { result ≡ false
            → ((why : CloseFault) × IsCloseFault (batch_of self.old.sender) why
            × (self.new.sender ≡ self.old.sender))
            ⊎ ((answer : _) × (answer ≢ Turn.Closed)
            × ClosesOn self.old.sender answer self.new.sender) }
    {
        self.sender.close().is_ok() && self.send(wait, the) == Turn::Closed
    }

    /// Its sender sends what waits in its batch.
    pub fn send<W: Wait>(&mut self, wait: &W, the: &TheBus<B>) -> Turn
        ensures fault { self.new.fault ≡ self.old.fault }
        ensures sends { SendsOn self.old.sender result self.new.sender }
    {
        let waiter = Waiter::yielding(wait);
        self.sender.send(&waiter, &the.bus, &mut self.rng)
    }

    /// Says that its sender was stopped, unless it had a fault before.
    pub fn stop(&mut self)
        ensures sender { self.new.sender ≡ self.old.sender }
        ensures stopped { self.old.fault ≡ None → self.new.fault ≡ Some stopped }
        ensures before { (self.old.fault ≡ None → ⊥) → self.new.fault ≡ self.old.fault }
    {
        if self.fault.is_none() {
            self.fault = Some(SenderFault::Stopped);
        }
    }

    /// Puts so many of the next numbers. Says whether all were taken.
    fn put_all(&mut self, many: u64) -> bool {
        for _ in 0..many {
            if !self.put_next() {
                return false;
            }
        }
        true
    }

    /// Puts the next number. Says whether it was taken.
    fn put_next(&mut self) -> bool {
        let taken = self.put < MOST_MESSAGES_EACH && put_number(&mut self.sender, self.put);
        if taken {
            self.put += 1;
        }
        taken
    }
}

/// A worker for each sender, in order.
pub fn send_workers_of<B: OfBus>(
    alloc: Global,
    senders: Vec<Sender>,
    seed: u64,
) -> Result<Vec<SendWorker<B>>, AllocError>
    requires table { All (λ sender. table_of sender ≡ B.table) senders.items }
    requires put { All (λ sender. puts (actions_of process sender) ≡ []) senders.items }
    ensures senders { IfOk result
        (λ send_workers. map (λ send_worker. send_worker.sender) send_workers.items
        ≡ senders.items) }
    ensures words { IfOk result (λ send_workers. All
        (λ send_worker. send_worker.rng ≡ generator_of seed (number_of send_worker.sender))
        send_workers.items) }
    ensures unstopped { IfOk result
        (λ send_workers. All (λ send_worker. send_worker.fault ≡ None) send_workers.items) }
{
    let mut send_workers = Vec::with_capacity(alloc, senders.len())?;
    for sender in senders {
        send_workers.push(SendWorker::new(sender, seed))?;
    }
    Ok(send_workers)
}

/// A worker for each receiver, in order.
pub fn receive_workers_of<B: OfBus>(
    alloc: Global,
    taps: Vec<Tap>,
) -> Result<Vec<ReceiveWorker<B>>, AllocError>
    requires { All (λ tap. tap.table_id ≡ B.table) taps.items }
    ensures receivers { IfOk result
        (λ receive_workers. map (λ receive_worker. receive_worker.receiver) receive_workers.items
        ≡ taps.items) }
    ensures fresh { IfOk result
        (λ receive_workers. All (λ receive_worker. receive_worker.heard ≡ nothing)
        receive_workers.items) }
{
    let mut receive_workers = Vec::with_capacity(alloc, taps.len())?;
    for tap in taps {
        receive_workers.push(ReceiveWorker::new(tap))?;
    }
    Ok(receive_workers)
}

/// The random words of a sender: its own stream under the key of the seed.
pub fn generator(seed: u64, sender: u64) -> ChaCha8Rng
    ensures { result ≡ generator_of seed sender }
{
    let mut key = [0u8; 32];
    key[..8].copy_from_slice(&seed.to_le_bytes());
    let mut rng = ChaCha8Rng::from_seed(key);
    rng.set_stream(sender);
    rng
}

/// The work of the senders of a run, on the bus B.
#[derive(Drop)]
pub struct SendAll<'a, B: OfBus, W, G> {
    pub wait: &'a W,
    pub the: &'a TheBus<B>,
    pub gate: &'a G,
    pub load: Load,
}

impl<B: OfBus, W: Wait, G: Gate> Work<SendWorker<B>> for SendAll<'_, B, W, G> {
    /// Sends the numbers below `load.messages`, in batches.
    fn work(&self, mut send_worker: SendWorker<B>) -> SendWorker<B> {
        let messages = self.load.messages;
        for first in (0..messages).step_by(LOG_MESSAGES) {
            if !self.gate.arrive(send_worker.number()) {
                send_worker.fault = Some(SenderFault::Gate);
                return send_worker;
            }
            let many = messages.saturating_sub(first).min(LOG_MESSAGES as u64);
            if !send_worker.put_all(many) || !self.send_batch(&mut send_worker) {
                send_worker.stop();
                return send_worker;
            }
        }
        send_worker
    }
}

impl<B: OfBus, W: Wait, G> SendAll<'_, B, W, G> {
    /// Sends the messages that wait. Says whether the sender can go on.
    fn send_batch(&self, send_worker: &mut SendWorker<B>) -> bool {
        !matches!(
            send_worker.send(self.wait, self.the),
            Turn::Left { .. } | Turn::Full | Turn::Closed | Turn::Spent
        )
    }
}

/// Puts a number as a message of 8 bytes, the highest first. Says whether it was taken.
fn put_number(sender: &mut Sender, number: u64) -> bool
    ensures taken { result ≡ true
        → (batch_of sender.new).messages
        ≡ (batch_of sender.old).messages ++ to_be_bytes w64 number ∷ [] }
    ensures refused { result ≡ false → (MOST_MESSAGES_EACH ≤ next_of (batch_of sender.old))
        ⊎ ((why : PutFault) × IsPutFault (batch_of sender.old) 8 why) }
    ensures table { table_of sender.new ≡ table_of sender.old }
    ensures put { result ≡ true → puts (actions_of process sender.new)
        ≡ puts (actions_of process sender.old) ++ to_be_bytes w64 number ∷ [] }
    ensures kept { result ≡ false
        → puts (actions_of process sender.new) ≡ puts (actions_of process sender.old) }
{
    sender.next_number() < MOST_MESSAGES_EACH && sender.put(&number.to_be_bytes()).is_ok()
}

/// The work of the receivers of a run, on the bus B.
#[derive(Drop)]
pub struct HearAll<'a, B: OfBus, W> {
    pub wait: &'a W,
    pub the: &'a TheBus<B>,
    pub given_up: &'a AtomicBool,
}

impl<B: OfBus, W: Wait> Work<ReceiveWorker<B>> for HearAll<'_, B, W> {
    /// Takes until the end and notes each answer, or until the bus was given up and has nothing
    /// more.
    fn work(&self, mut receive_worker: ReceiveWorker<B>) -> ReceiveWorker<B> {
        let waiter = Waiter::yielding(self.wait);
        for _ in waiter.forever() {
            match receive_worker.hear(self.the) {
                RecvTurn::End => return receive_worker,
                RecvTurn::Empty => {
                    if self.given_up.load(Ordering::SeqCst) {
                        return receive_worker;
                    }
                    waiter.rest();
                }
                _ => waiter.reset(),
            }
        }
        unreachable!()
    }
}
