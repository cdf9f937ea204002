//! A receiver, and the state that it applies to all that it hears.

ghost use Rattle.std.specs.Prelude.{◌≡◌, ℕ, ◌<◌, ◌≤◌, IfOk, IfErr, IfSome, IfNone, false, length};
ghost use Rattle.std.specs.Prelude.{replicate};
ghost use Rattle.bus_replica.specs.declared.hearers.TheConstants.{NUMBERS};
ghost use Rattle.bus_pageslot.specs.Rule.{known_in, receiver_view_in};
ghost use Rattle.bus_pageslot.specs.Seats.{table_of};
ghost use Rattle.bus_automaton.specs.ThreeWordBuses.{process};
ghost use Rattle.bus_replica.specs.Causes.{HearsEnd};
ghost use Rattle.bus_replica.specs.Replicas.{IsFold, StandsLast, GoesOn, HasCaughtUp, HearsOut};
ghost use Rattle.bus_replica.specs.Replicas.{LeadTo, replayed_by, sitting_of};
ghost use Rattle.bus_replica.specs.Replicas.{HaveAllLeft, HasNobodyLeft, has_heard_leave};

use crate::faults::Fault;
use crate::pasts::Past;
use crate::states::State;
use bus_deliverylog::Order;
use bus_handles::{Item, ItemTurn, ReceiverHandle, RecvTurn, SenderHandle, ThreeWord};
use bus_register::SenderNo;
use std::marker::Model;
use std::sync::Wait;

/// How many numbers a worker can have.
const NUMBERS: usize = 256;

/// What a turn of a hearer came to.
#[derive(Drop)]
pub enum Applied<A> {
    /// It says nothing by itself.
    Going,
    /// Nothing more is there.
    Empty,
    /// The operation of this number, of this worker, was applied, and answered so.
    Op {
        sender: SenderNo,
        number: u64,
        answer: A,
    },
    /// The order has ended.
    End,
}

/// Nobody was heard to have left.
fn nobody() -> [bool; NUMBERS]
    ensures { result ≡ replicate NUMBERS false }
{
    [false; NUMBERS]
}

/// A receiver, and the state that it applies to all that it hears.
#[derive(Drop)]
pub struct Hearer<S: State> {
    receiver: ReceiverHandle<ThreeWord>,
    state: S,
    /// What was replayed before its first turn, for clauses alone.
    replayed: Past<Order>,
    /// Of each number: whether that worker was heard to have left.
    left: [bool; NUMBERS],
}

impl<S: State> Model for Hearer<S> {
    ghost use Rattle.bus_automaton.specs.ThreeWordBuses.{Held};
    ghost use Rattle.bus_replica.specs.Replicas.{Hearing, LeadTo, replayed_by, sitting_of};
    ghost use Rattle.bus_replica.specs.Turns.{IsHearing};

    ghost Value = { Hearing Held S };

    ghost view = { λ h. record {
      bus = sitting_of h.receiver.bus (replayed_by h.replayed.value);
      me = h.receiver.me;
      state = h.state;
    } };

    ghost invariant = { λ h. IsHearing
        (LeadTo S.is_first S.applies (replayed_by h.replayed.value)) S.applies h.receiver.me.0
        h.state h.left };
}

impl<S: State> Hearer<S> {
    ghost use Rattle.bus_replica.specs.Turns.{TakesIn, StandsIfTold};

    /// A hearer by this receiver, of a state that all that was replayed and that it has heard leads
    /// to.
    pub fn new(receiver: ReceiverHandle<ThreeWord>, state: S, replayed: Past<Order>) -> Hearer<S>
        requires fold { IsFold (LeadTo S.is_first S.applies (replayed_by replayed.value)) S.applies
            receiver.me.0 state }
        requires nobody { HasNobodyLeft receiver.me.0 }
        ensures bus { result.bus ≡ sitting_of receiver.bus (replayed_by replayed.value) }
        ensures me { result.me ≡ receiver.me }
        ensures state { result.state ≡ state }
    {
        Hearer {
            receiver,
            state,
            replayed,
            left: nobody(),
        }
    }

    /// The state as it is.
    pub fn state(&self) -> &S
        ensures state { result.now ≡ self.now.state }
        ensures fold { IsFold (LeadTo S.is_first S.applies self.now.bus.replayed) S.applies
            self.now.me.0 self.now.state }
    {
        &self.state
    }

    /// How many words the receiver has read.
    pub fn place(&self) -> u64
        ensures place { result ≡ (receiver_view_in self.now.me.0).place }
        ensures within { result ≤ length (known_in self.now.me.0) }
    {
        self.receiver.place()
    }

    /// The state, without the receiver, which leaves.
    pub fn into_state(self) -> S
        ensures state { result ≡ self.state }
        ensures fold { IsFold (LeadTo S.is_first S.applies self.bus.replayed) S.applies self.me.0
            self.state }
    {
        let Hearer { state, .. } = self;
        state
    }

    /// The first of so many workers of which it was not heard that it has left.
    pub fn missing(&self, workers: u8) -> Option<SenderNo>
        ensures none { IfNone result (HaveAllLeft self.now.me.0 workers) }
        ensures first { IfSome result (λ worker. (worker.0 < workers)
            × (has_heard_leave self.now.me.0 worker.0 ≡ false)
            × HaveAllLeft self.now.me.0 worker.0) }
    {
        for worker in 0..workers {
            if !self.has_left(SenderNo(worker)) {
                return Some(SenderNo(worker));
            }
        }
        None
    }

    /// It was heard that this worker has left.
    fn has_left(&self, worker: SenderNo) -> bool
        ensures { result ≡ has_heard_leave self.now.me.0 worker.0 }
    {
        self.left[usize::from(worker.0)]
    }

    /// One turn of the receiver or more: all but the last take words that say nothing by
    /// themselves. An operation that is heard is written in the item's place, and applied.
    pub fn turn(&mut self, item: &mut Item) -> Applied<S::Answer>
        ensures bus { self.new.bus ≡ self.old.bus }
        ensures takes { TakesIn S.applies self.old result self.new }
        ensures stands { StandsIfTold (LeadTo S.is_first S.applies self.new.bus.replayed)
            S.applies self.new result }
    {
        let mut sign = RecvTurn::Going;
        match self.receiver.signed_turns(item, &mut sign) {
            ItemTurn::Item => {
                let answer = self.state.apply(item.sender, item.message.as_slice());
                Applied::Op {
                    sender: item.sender,
                    number: item.number,
                    answer,
                }
            }
            ItemTurn::Going => match sign {
                RecvTurn::Leave(sender) => {
                    self.left[usize::from(sender.0)] = true;
                    Applied::Going
                }
                _ => Applied::Going,
            },
            ItemTurn::Empty => Applied::Empty,
            ItemTurn::End => Applied::End,
        }
    }

    /// Applies what is there, up to the operation of this number of this worker, if that is there:
    /// then it gives its answer.
    pub fn hear_own<W: Wait>(
        &mut self,
        wait: &W,
        worker: SenderNo,
        number: u64,
    ) -> Result<Option<S::Answer>, Fault>
        ensures bus { self.new.bus ≡ self.old.bus }
        ensures on { GoesOn self.old.me self.new.me }
        ensures stands { IfOk result (λ found. IfSome found (λ answer.
            StandsLast (LeadTo S.is_first S.applies self.new.bus.replayed) S.applies self.new.me.0
            self.new.state worker.0 number answer)) }
        ensures ended { IfErr result
            (λ why. (why ≡ Fault.Ended) × HearsEnd self.old.me self.new.me) }
    {
        let mut item = Item::blank();
        for _ in wait.forever() {
            match self.turn(&mut item) {
                Applied::Op {
                    sender,
                    number: told,
                    answer,
                } => {
                    if sender == worker && told == number {
                        return Ok(Some(answer));
                    }
                }
                Applied::Empty => return Ok(None),
                Applied::End => return Err(Fault::Ended),
                Applied::Going => {}
            }
        }
        unreachable!()
    }

    /// Applies what is there. Says whether the order has ended.
    pub fn hear<W: Wait>(&mut self, wait: &W) -> bool
        ensures bus { self.new.bus ≡ self.old.bus }
        ensures out { HearsOut self.old.me result self.new.me }
    {
        let mut item = Item::blank();
        for _ in wait.forever() {
            match self.turn(&mut item) {
                Applied::Empty => return false,
                Applied::End => return true,
                Applied::Op { .. } | Applied::Going => {}
            }
        }
        unreachable!()
    }

    /// A sender of its bus tells it how long the log is, by a load; and it applies all up to there.
    pub fn catch_up<W: Wait>(&mut self, wait: &W, sender: &mut SenderHandle<ThreeWord>)
        requires { table_of sender.old ≡ self.old.bus.table }
        ensures bus { (self.new.bus ≡ self.old.bus)
            × (table_of sender.new ≡ table_of sender.old) }
        ensures sender { (sender.new.core ≡ sender.old.core)
            × (sender.new.seat.me ≡ sender.old.seat.me) }
        ensures caught { HasCaughtUp self.old.me self.new.me }
    {
        self.receiver.told(sender);
        let length = self.receiver.known();
        let mut item = Item::blank();
        for _ in wait.forever() {
            if self.receiver.place() >= length {
                return;
            }
            let _ = self.turn(&mut item);
        }
        unreachable!()
    }
}
