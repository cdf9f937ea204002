//! A receiver of a bus, with its places compared.

ghost use Rattle.std.specs.Prelude.{◌≡◌, ℕ, ◌≤◌, List, length, Some, None, IfOk};
ghost use Rattle.std.specs.Prelude.{OnErr, IfSome, IfNone, IsSome, true, false};
ghost use Rattle.std.specs.Ordering.{nat_cmp};
ghost use Rattle.bus_automaton.specs.Buses.{process_by, automaton_by, plan_passers};
ghost use Rattle.bus_pageslot.specs.Endings.{IsLeft};
ghost use Rattle.bus_pageslot.specs.Rule.{receiver_view_in, known_in, table_layout_in};
ghost use Rattle.bus_pageslot.specs.Listening.{Hears, HearsAfter, HearsSigned};
ghost use Rattle.bus_pageslot.specs.Steps.{HasLeftBy, Learns};
ghost use Rattle.bus_pageslot.specs.Seats.{table_of, actions_of, stored_of};
ghost use Rattle.bus_receiver.specs.Forking.{HasForked, FindsNoSeat};
ghost use Rattle.bus_receiver.specs.Listening.{bus_of, is_found, Takes, HaveMet, IsTold};
ghost use Rattle.bus_receiver.specs.Listening.{PassesTo, PassesWhile, item_or_end, written_or_end};
ghost use Rattle.bus_receiver.specs.Listening.{next_of, LeavesPlace};

use bus_adoptcommit::{Ratifier, ThreeWord};
use bus_batch::Item;
use bus_deliverylog::RecvTurn;
use bus_pageslot::{Bus, EndFault, Ended, ItemTurn, Left, Sender, Tap};
use bus_waiting::Waiter;
use std::cmp::Ordering;
use std::marker::Model;
use std::sync::Wait;

/// What a wait that can be told to stop came to.
#[derive(Debug, Drop, PartialEq, Eq)]
pub enum Next {
    /// The next message of the order.
    Item(Item),
    /// The order has ended, and all of it was given.
    End,
    /// It found nothing more, and was told to stop.
    Stopped,
}

/// What such a wait came to where the message is written in place.
#[derive(Clone, Copy, Debug, PartialEq, Eq)]
pub enum Found {
    /// The next message of the order was written.
    Item,
    /// The order has ended, and all of it was given.
    End,
    /// It found nothing more, and was told to stop.
    Stopped,
}

/// A receiver of a bus: it reads the log word by word, from where its tap has come to, which is the
/// first one of a new tap. One thread at a time has it. No call of it takes memory, and only those
/// that are passed a waiter wait.
#[derive(Drop)]
pub struct Receiver<Q: Ratifier = ThreeWord> {
    tap: Tap<Q>,
}

impl<Q: Ratifier> Model for Receiver<Q> {
    ghost use Rattle.bus_tenure.specs.Elections.{Elector};
    ghost use Rattle.bus_core.specs.Senders.{Sender as Held};
    ghost use Rattle.bus_pageslot.specs.Seats.{ReceiverSeat};

    ghost Value = { ReceiverSeat (Held (Elector Q)) };

    ghost view = { λ r. r.tap };
}

impl<Q: Ratifier + Drop> Receiver<Q> {
    /// The receiver with this seat.
    pub fn new(tap: Tap<Q>) -> Receiver<Q>
        ensures { result ≡ tap }
    {
        Receiver { tap }
    }

    /// How many words it has read.
    pub fn place(&self) -> u64
        ensures place { result ≡ (receiver_view_in self.now.me.0).place }
        ensures within { result ≤ length (known_in self.now.me.0) }
    {
        self.tap.place()
    }

    /// The end was among what it was answered.
    pub fn has_ended(&self) -> bool
        ensures { result ≡ (receiver_view_in self.now.me.0).ended }
    {
        self.tap.has_ended()
    }

    /// Of a ring: the place that it has stored last, before which the cells may be used again; 0
    /// before the first such store. Of another bus 0.
    #[inline(always)]
    pub fn passed(&self) -> u64
        ensures passed { result ≡ (receiver_view_in self.now.me.0).passed }
        ensures within { result ≤ (receiver_view_in self.now.me.0).place }
        ensures never { (table_layout_in self.now.me.0).passers ≡ 0 → result ≡ 0 }
    {
        self.tap.passed()
    }

    /// One turn. Of a ring, a store of its place where it has heard a whole frame since the last
    /// such store. Else a load of the length where it has read all that it knows, and a load of the
    /// word at its place where it has not. After the end it takes no step.
    #[inline(always)]
    pub fn turn(&mut self, bus: &Bus<Q>) -> RecvTurn
        requires { bus_of self.old ≡ bus.now.table }
        ensures table { bus_of self.new ≡ bus_of self.old }
        ensures hears { Hears self.old.me result self.new.me }
    {
        self.tap.turn(bus)
    }

    /// One turn or more, as the tap's. All but the last take words that say nothing by themselves,
    /// and answer Going. Of the last one it tells the answer, with an item written in its place;
    /// any other answer leaves that as it was. A head or a leave mark is told as Going: `turn`
    /// tells which.
    #[inline(always)]
    pub fn item_turns(&mut self, bus: &Bus<Q>, item: &mut Item) -> ItemTurn
        requires { bus_of self.old ≡ bus.now.table }
        ensures table { bus_of self.new ≡ bus_of self.old }
        ensures hears { HearsAfter self.old.me item.old result item.new self.new.me }
    {
        self.tap.item_turns(bus, item)
    }

    /// As `item_turns`, and a head or a leave mark of the last turn is written as the sign. Any
    /// other answer leaves that as it was.
    #[inline(always)]
    pub fn signed_turns(&mut self, bus: &Bus<Q>, item: &mut Item, sign: &mut RecvTurn) -> ItemTurn
        requires { bus_of self.old ≡ bus.now.table }
        ensures table { bus_of self.new ≡ bus_of self.old }
        ensures hears { HearsSigned self.old.me item.old sign.old result item.new sign.new
            self.new.me }
    {
        self.tap.signed_turns(bus, item, sign)
    }

    /// Tells those that wait for room, where it has stored another place since it had stored this
    /// one.
    #[inline(always)]
    fn ring_where_passed<W: Wait>(&self, waiter: &Waiter<'_, W>, before: u64) {
        if self.passed() != before {
            waiter.ring();
        }
    }

    /// Turns, until one finds a head, an item, a leave mark or the end. That it ends is not
    /// promised.
    pub fn take<W: Wait>(&mut self, waiter: &Waiter<'_, W>, bus: &Bus<Q>) -> RecvTurn
        requires { bus_of self.old ≡ bus.now.table }
        ensures table { bus_of self.new ≡ bus_of self.old }
        ensures takes { Takes self.old.me result self.new.me }
    {
        for _ in waiter.forever() {
            let passed = self.passed();
            let turn = self.turn(bus);
            if finds(&turn) {
                return turn;
            }
            if turn == RecvTurn::Empty {
                waiter.rest();
            } else {
                self.ring_where_passed(waiter, passed);
                waiter.reset();
            }
        }
        unreachable!()
    }

    /// Turns, until one finds an item or the end: the item, and none at the end and ever after. It
    /// passes over leave marks. It waits as `take` does, and that it ends is not promised.
    pub fn next_item<W: Wait>(&mut self, waiter: &Waiter<'_, W>, bus: &Bus<Q>) -> Option<Item>
        requires { bus_of self.old ≡ bus.now.table }
        ensures table { bus_of self.new ≡ bus_of self.old }
        ensures passes { PassesTo self.old.me (item_or_end result) self.new.me }
    {
        let mut item = Item::blank();
        if self.next_item_in_place(waiter, bus, &mut item) {
            Some(item)
        } else {
            None
        }
    }

    /// As `next_item`, with the item written in place, so that it is moved less: it says whether it
    /// has written one. At the end and ever after it has not, and the place is as it was.
    #[must_use]
    pub fn next_item_in_place<W: Wait>(
        &mut self,
        waiter: &Waiter<'_, W>,
        bus: &Bus<Q>,
        item: &mut Item,
    ) -> bool
        requires { bus_of self.old ≡ bus.now.table }
        ensures table { bus_of self.new ≡ bus_of self.old }
        ensures passes { PassesTo self.old.me (written_or_end result item.new) self.new.me }
        ensures kept { result ≡ false → item.new ≡ item.old }
    {
        match self.pass_while(waiter, bus, || true, item) {
            Found::Item => true,
            Found::End => false,
            Found::Stopped => unreachable!(),
        }
    }

    /// As `next_item`, but that it can be told to stop: each time a turn finds nothing more it asks
    /// `go_on` once, goes on where that says yes, and answers Stopped where it says no. It asks
    /// nowhere else. So what it knows of the log comes first.
    pub fn next_item_while<W: Wait, F: FnMut() -> bool>(
        &mut self,
        waiter: &Waiter<'_, W>,
        bus: &Bus<Q>,
        go_on: F,
    ) -> Next
        requires table { bus_of self.old ≡ bus.now.table }
        requires callable { F.IsAlwaysCallable go_on }
        ensures table { bus_of self.new ≡ bus_of self.old }
        ensures passes { PassesWhile F.step self.old.me go_on result self.new.me }
    {
        let mut item = Item::blank();
        match self.pass_while(waiter, bus, go_on, &mut item) {
            Found::Item => Next::Item(item),
            Found::End => Next::End,
            Found::Stopped => Next::Stopped,
        }
    }

    /// As `next_item_while`, with the item written in place, so that it is moved less. Where it
    /// finds none the place is as it was.
    #[must_use]
    pub fn next_item_in_place_while<W: Wait, F: FnMut() -> bool>(
        &mut self,
        waiter: &Waiter<'_, W>,
        bus: &Bus<Q>,
        go_on: F,
        item: &mut Item,
    ) -> Found
        requires table { bus_of self.old ≡ bus.now.table }
        requires callable { F.IsAlwaysCallable go_on }
        ensures table { bus_of self.new ≡ bus_of self.old }
        ensures passes { PassesWhile F.step self.old.me go_on (next_of result item.new)
            self.new.me }
        ensures kept { LeavesPlace result item.old item.new }
    {
        self.pass_while(waiter, bus, go_on, item)
    }

    /// The same, for the calls above.
    #[inline(always)]
    fn pass_while<W: Wait, F: FnMut() -> bool>(
        &mut self,
        waiter: &Waiter<'_, W>,
        bus: &Bus<Q>,
        mut go_on: F,
        item: &mut Item,
    ) -> Found
        requires table { bus_of self.old ≡ bus.now.table }
        requires callable { F.IsAlwaysCallable go_on }
        ensures table { bus_of self.new ≡ bus_of self.old }
        ensures passes { PassesWhile F.step self.old.me go_on (next_of result item.new)
            self.new.me }
        ensures kept { LeavesPlace result item.old item.new }
    {
        for _ in waiter.forever() {
            let passed = self.passed();
            match self.item_turns(bus, item) {
                ItemTurn::Item => return Found::Item,
                ItemTurn::End => return Found::End,
                ItemTurn::Empty => {
                    if !go_on() {
                        return Found::Stopped;
                    }
                    waiter.rest();
                }
                ItemTurn::Going => {
                    self.ring_where_passed(waiter, passed);
                    waiter.reset();
                }
            }
        }
        unreachable!()
    }

    /// How many words of the log it knows; 0 before its first load.
    pub fn known(&self) -> u64
        ensures { result ≡ length (known_in self.now.me.0) }
    {
        self.tap.known()
    }

    /// Looks how long the log is, beside its turns: how many words were published by then. It knows
    /// all of them from then on. One load of the length.
    pub fn look(&mut self, bus: &Bus<Q>) -> u64
        requires { bus_of self.old ≡ bus.now.table }
        ensures table { bus_of self.new ≡ bus_of self.old }
        ensures learns { Learns self.old.me result self.new.me }
    {
        self.tap.load_length(bus)
    }

    /// A sender tells it of the log: it knows from then on all that the sender has published.
    pub fn told(&mut self, sender: &mut Sender<Q>, bus: &Bus<Q>)
        requires table { (bus_of self.old ≡ bus.now.table)
            × (table_of sender.old ≡ bus.now.table) }
        ensures table { (bus_of self.new ≡ bus_of self.old)
            × (table_of sender.new ≡ table_of sender.old) }
        ensures told { let P = process_by Q.Ratifier in
            IsTold P sender.old.core (actions_of P sender.old) (stored_of sender.old)
            self.old.me self.new.me }
        ensures sender { (sender.new.core ≡ sender.old.core)
            × (sender.new.seat.me ≡ sender.old.seat.me) }
    {
        self.tap.told(sender, bus);
    }

    /// Two receivers meet: from then on both know the log up to the length that is loaded. Answers
    /// how its place compares with the other's: Less where it has read fewer words.
    pub fn meet(&mut self, other: &mut Receiver<Q>, bus: &Bus<Q>) -> Ordering
        requires table { (bus_of self.old ≡ bus.now.table)
            × (bus_of other.old ≡ bus.now.table) }
        ensures table { (bus_of self.new ≡ bus_of self.old)
            × (bus_of other.new ≡ bus_of other.old) }
        ensures order { result
            ≡ nat_cmp (receiver_view_in self.old.me.0).place
            (receiver_view_in other.old.me.0).place }
        ensures met { HaveMet self.old.me other.old.me self.new.me other.new.me }
    {
        self.tap.meet(&mut other.tap, bus);
        self.tap.place().cmp(&other.tap.place())
    }

    /// Another receiver, which is just what this one is: with what it knows, has read and passed,
    /// and was answered. So it is given just what this one will be given (`receivers_agree` of
    /// `bus_pageslot`). From then on each is of its own, for whatever thread.
    ///
    /// Of a ring it has the lowest number above this one's that is free, as one is whose receiver
    /// has left. It tries these numbers, one step each, until one is free: None where each was
    /// taken when it was tried. Of another bus its seat shows no step, and it never gives None.
    pub fn fork(&mut self, bus: &Bus<Q>) -> Option<Receiver<Q>>
        requires { bus_of self.old ≡ bus.now.table }
        ensures table { (bus_of self.new ≡ bus_of self.old)
            × IfSome result (λ made. bus_of made ≡ bus_of self.old) }
        ensures made { IfSome result (λ made. HasForked self.old.me made.me self.new.me) }
        ensures none { IfNone result (FindsNoSeat self.old.me self.new.me) }
        ensures never { (table_layout_in self.old.me.0).passers ≡ 0 → IsSome result }
    {
        let own = self.tap.number();
        let passers = self.tap.passers();
        if passers == 0 {
            let tap = self.tap.fork(bus, own)?;
            return Some(Receiver { tap });
        }
        for next in own + 1..passers {
            if let Some(tap) = self.tap.fork(bus, next) {
                return Some(Receiver { tap });
            }
        }
        None
    }

    /// Leaves for good: no cell of a ring waits for this receiver any more. That is one store in
    /// its passed place; of another bus it is no step.
    pub fn leave(self, bus: &Bus<Q>) -> Left<Q>
        requires { bus_of self ≡ bus.now.table }
        ensures table { bus_of result ≡ bus_of self }
        ensures left { HasLeftBy self.me result.me }
    {
        self.tap.leave(bus)
    }

    /// Ends the bus, by a receiver of it: what stands of its log and its page, where the page is at
    /// home, and PageOut where a sender that took it has not given it back. Bus and receiver are
    /// gone in either case.
    pub fn end(bus: Bus<Q>, receiver: Receiver<Q>) -> Result<Ended, EndFault>
        requires { bus_of receiver ≡ bus.table }
        ensures ended { IfOk result
            (λ left. IsLeft (process_by Q.Ratifier) (automaton_by Q.Ratifier bus.plan)
            receiver.me.0 left.log left.floor (Some left.page)) }
        ensures flat { IfOk result (λ left. plan_passers bus.plan ≡ 0 → left.floor ≡ 0) }
        ensures senders { IfOk result (λ left. left.senders ≡ bus.plan.shape.senders) }
        ensures bases { IfOk result (λ left. left.bases ≡ bus.plan.bases) }
        ensures out { OnErr result ((log : List ℕ) × (floor : ℕ)
            × IsLeft (process_by Q.Ratifier) (automaton_by Q.Ratifier bus.plan)
            receiver.me.0 log floor None) }
    {
        bus.end(receiver.tap)
    }
}

/// It is a head, an item, a leave mark or the end.
fn finds(turn: &RecvTurn) -> bool
    ensures { result ≡ is_found turn.now }
{
    match turn {
        RecvTurn::Head { .. } | RecvTurn::Item(_) | RecvTurn::Leave(_) | RecvTurn::End => true,
        RecvTurn::Going | RecvTurn::Empty => false,
    }
}
