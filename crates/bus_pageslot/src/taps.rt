//! A receiver's seat, its loads, and what it stores in its passed place.

ghost use Rattle.std.specs.Prelude.{◌≡◌, ℕ, ◌<◌, ◌≤◌, [], false, length, slice_index, IfNone};
ghost use Rattle.std.specs.Prelude.{IfSome, IsSome, is_some};
ghost use Rattle.bus_automaton.specs.Buses.{automaton_by, process_by};
ghost use Rattle.bus_automaton.specs.Processes.{TableLayout, passed_word};
ghost use Rattle.bus_pageslot.specs.Looks.{IsFoundOn, IsTakenOn};
ghost use Rattle.bus_register.specs.declared.limits.TheConstants.{PASSED_ALL};
ghost use Rattle.bus_pageslot.specs.ReceiverViews.{ReceiverView, Agree, receiver_view_after_load};
ghost use Rattle.bus_pageslot.specs.declared.rule.View.TheVariants as View;
ghost use Rattle.bus_pageslot.specs.Rule.{receiver_view_in, known_in, with_receiver_view};
ghost use Rattle.bus_pageslot.specs.Rule.{log_word_in, table_layout_in};
ghost use Rattle.bus_pageslot.specs.Steps.{HasLeftBy, HasTriedBy, IsForkOf, Learns, KnowsSent};
ghost use Rattle.bus_pageslot.specs.Seats.{IsFresh, IsPassedAt, receiver_seat, table_of};
ghost use Rattle.bus_pageslot.specs.Seats.{actions_of, stored_of};
ghost use Rattle.bus_pageslot.specs.Listening.{Hears, HearsAfter, HearsSigned};

use crate::buses::Bus;
use crate::listeners::{Listener, LogCells};
use crate::listening::{ItemTurn, answered, hear, hear_on};
use crate::rule::BusSeat;
use crate::seats::Sender;
use bus_adoptcommit::{Ratifier, ThreeWord};
use bus_batch::Item;
use bus_deliverylog::RecvTurn;
use bus_register::cell;
use std::marker::{Brand, Model};

/// A receiver of a bus: its seat, how much of the log it knows, and what it has read of that. One
/// thread at a time has it, and no call of it waits or takes memory.
///
/// Its seat shows what its turns have answered, which words its steps were on, and what those that
/// tried to fork have found. The steps are its loads, the stores in its passed place, and these
/// tries. A meeting, which is three loads of the length, counts as one. Only a step on the table
/// adds to any of the three.
///
/// Of a ring a turn after each whole frame, but that of the end, stores its place there. From then
/// on the cells of the words before it may be used again. One that takes no turns holds the ring
/// up. One that is dropped and has not left holds a ring up for good.
#[derive(Drop)]
pub struct Tap<Q: Ratifier = ThreeWord> {
    seat: Option<BusSeat<Q>>,
    listener: Listener,
}

/// The seat of a receiver that has left for good. It is good for nothing any more.
#[derive(Drop)]
pub struct Left<Q: Ratifier = ThreeWord> {
    seat: BusSeat<Q>,
}

impl<Q: Ratifier> Model for Left<Q> {
    ghost use Rattle.bus_core.specs.Senders.{Sender};
    ghost use Rattle.bus_pageslot.specs.Seats.{ReceiverSeat, receiver_seat};
    ghost use Rattle.bus_tenure.specs.Elections.{Elector};

    ghost Value = { ReceiverSeat (Sender (Elector Q)) };

    ghost view = { λ l. receiver_seat l.seat };
}

impl<Q: Ratifier> Model for Tap<Q> {
    ghost use Rattle.bus_core.specs.Senders.{Sender};
    ghost use Rattle.bus_pageslot.specs.Seats.{ReceiverSeat, receiver_seat_of, IsTap};
    ghost use Rattle.bus_tenure.specs.Elections.{Elector};

    ghost Value = { ReceiverSeat (Sender (Elector Q)) };

    ghost view = { λ t. receiver_seat_of t.seat };

    ghost invariant = { λ t. IsTap (receiver_seat_of t.seat) t.listener };
}

impl<Q: Ratifier + Drop> Tap<Q> {
    pub(crate) fn seated(seat: BusSeat<Q>, cells: LogCells, senders: u64) -> Tap<Q>
        requires { IsFresh (receiver_seat seat) cells senders }
        ensures { result ≡ receiver_seat seat }
    {
        Tap {
            seat: Some(seat),
            listener: Listener::new(cells, senders),
        }
    }

    /// Its seat.
    pub(crate) fn into_seat(self) -> BusSeat<Q>
        ensures receiver_seat { receiver_seat result ≡ self }
        ensures tap { (d : _) × (e : ReceiverView) × (result.me ≡ (View.Tap d e, []))
            × (e.gone ≡ false) }
    {
        let Tap { seat, .. } = self;
        seat.unwrap()
    }

    /// How many words of the log it knows; 0 before its first load.
    pub fn known(&self) -> u64
        ensures { result ≡ length (known_in self.now.me.0) }
    {
        self.listener.reader.known()
    }

    /// How many words of the log it has read.
    pub fn place(&self) -> u64
        ensures place { result ≡ (receiver_view_in self.now.me.0).place }
        ensures within { result ≤ length (known_in self.now.me.0) }
    {
        self.listener.reader.place()
    }

    /// The place that it has stored in its passed place; 0 before its first such store, and where
    /// no word of the log is used again. It asks for no word before that any more.
    pub fn passed(&self) -> u64
        ensures passed { result ≡ (receiver_view_in self.now.me.0).passed }
        ensures within { result ≤ (receiver_view_in self.now.me.0).place }
        ensures never { (table_layout_in self.now.me.0).passers ≡ 0 → result ≡ 0 }
    {
        self.listener.passed
    }

    /// Its number: of a ring, which of the passed places is its own. Of other logs several
    /// receivers may have one number.
    pub fn number(&self) -> u64
        ensures number { result ≡ (receiver_view_in self.now.me.0).me }
        ensures within { 0 < (table_layout_in self.now.me.0).passers
            → result < (table_layout_in self.now.me.0).passers }
    {
        self.listener.cells.number
    }

    /// How many passed places its ring has: numbers are below that. 0 where its log is no ring.
    pub fn passers(&self) -> u64
        ensures { result ≡ (table_layout_in self.now.me.0).passers }
    {
        self.listener.cells.passers
    }

    /// The end was among what it was answered.
    pub fn has_ended(&self) -> bool
        ensures { result ≡ (receiver_view_in self.now.me.0).ended }
    {
        self.listener.reader.has_ended()
    }

    /// One turn: a store of its place, where it has read a whole frame since the last; else a load
    /// of the length where it has read all that it knows, and else a load of the word at its place.
    /// After the end it takes no step.
    #[inline(always)]
    pub fn turn(&mut self, bus: &Bus<Q>) -> RecvTurn
        requires { self.old.table_id ≡ bus.now.table }
        ensures table { self.new.table_id ≡ self.old.table_id }
        ensures hears { Hears self.old.me result self.new.me }
    {
        if self.listener.reader.has_ended() {
            return RecvTurn::End;
        }
        let mut item = Item::blank();
        let mut sign = RecvTurn::Going;
        let mut seat = self.seat.take().unwrap();
        let told = hear(
            &bus.words,
            &mut seat,
            &mut self.listener,
            &mut item,
            &mut sign,
        );
        self.seat = Some(seat);
        answered(told, item, sign)
    }

    /// One turn or more. All but the last take words that say nothing by themselves, and answer
    /// Going. Of the last one it tells the answer, with an item written in its place; any other
    /// answer leaves that as it was. A head or a leave mark is told as Going: `turn` tells which.
    #[inline(always)]
    pub fn item_turns(&mut self, bus: &Bus<Q>, item: &mut Item) -> ItemTurn
        requires { self.old.table_id ≡ bus.now.table }
        ensures table { self.new.table_id ≡ self.old.table_id }
        ensures hears { HearsAfter self.old.me item.old result item.new self.new.me }
    {
        if self.listener.reader.has_ended() {
            return ItemTurn::End;
        }
        let mut sign = RecvTurn::Going;
        match &mut self.seat {
            Some(seat) => hear_on(&bus.words, seat, &mut self.listener, item, &mut sign),
            None => unreachable!(),
        }
    }

    /// As `item_turns`, and a head or a leave mark of the last turn is written as the sign. Any
    /// other answer leaves that as it was.
    #[inline(always)]
    pub fn signed_turns(&mut self, bus: &Bus<Q>, item: &mut Item, sign: &mut RecvTurn) -> ItemTurn
        requires { self.old.table_id ≡ bus.now.table }
        ensures table { self.new.table_id ≡ self.old.table_id }
        ensures hears { HearsSigned self.old.me item.old sign.old result item.new sign.new
            self.new.me }
    {
        if self.listener.reader.has_ended() {
            return ItemTurn::End;
        }
        match &mut self.seat {
            Some(seat) => hear_on(&bus.words, seat, &mut self.listener, item, sign),
            None => unreachable!(),
        }
    }

    /// Loads the length, in words, and gives it: it knows the log up to it from then on.
    pub fn load_length(&mut self, bus: &Bus<Q>) -> u64
        requires { self.old.table_id ≡ bus.now.table }
        ensures table { self.new.table_id ≡ self.old.table_id }
        ensures learns { Learns self.old.me result self.new.me }
    {
        let mut seat = self.seat.take().unwrap();
        let length = bus.words.load_length(&mut seat);
        self.seat = Some(seat);
        self.listener.learn(length);
        length
    }

    /// Loads a word of the log that it knows and has not passed; `place` counts the words of the
    /// log from 0 on.
    pub fn load_word(&mut self, bus: &Bus<Q>, place: u64) -> u64
        requires table { self.old.table_id ≡ bus.now.table }
        requires below { place < length (known_in self.old.me.0) }
        requires passed { (receiver_view_in self.old.me.0).passed ≤ place }
        ensures table { self.new.table_id ≡ self.old.table_id }
        ensures loads { self.new.me
            ≡ (
              with_receiver_view self.old.me.0
                  (receiver_view_after_load (receiver_view_in self.old.me.0)
                  (log_word_in self.old.me.0 place)),
              self.old.me.1,
            ) }
        ensures word { result ≡ slice_index (known_in self.old.me.0) place }
    {
        let mut seat = self.seat.take().unwrap();
        let cells = self.listener.cells;
        let at = cells.log + cell(place, cells.log_words);
        let word = bus.words.load_word(&mut seat, at as usize);
        self.seat = Some(seat);
        word
    }

    /// Leaves for good. Of a log that is a ring it stores 2^64 - 1 in its passed place, past all
    /// words: nothing waits for it from then on. Else it takes no step.
    pub fn leave(self, bus: &Bus<Q>) -> Left<Q>
        requires { self.table_id ≡ bus.now.table }
        ensures table { result.table_id ≡ self.table_id }
        ensures left { HasLeftBy self.me result.me }
    {
        let Tap { seat, listener } = self;
        let mut seat = seat.unwrap();
        let Some(at) = listener.cells.passed_at else {
            return Left { seat };
        };
        bus.words.leave(&mut seat, at as usize);
        Left { seat }
    }

    /// Another receiver, which has a higher number whose receiver has left, and is else just what
    /// this one is: with what it knows, has read and passed, and was answered. From then on each is
    /// of its own, for whatever thread. None where somebody has the number: then no word has
    /// changed.
    ///
    /// One step, which the seat of this one shows with the number that it found: a compare_exchange
    /// on the passed place of that number, from 2^64 - 1 to what this one has passed. Of a log that
    /// is no ring its seat shows no step, and it gives a copy with the same number.
    pub fn fork(&mut self, bus: &Bus<Q>, number: u64) -> Option<Tap<Q>>
        requires table { self.old.table_id ≡ bus.now.table }
        requires above { 0 < (table_layout_in self.old.me.0).passers
            → (receiver_view_in self.old.me.0).me < number }
        requires below { 0 < (table_layout_in self.old.me.0).passers
            → number < (table_layout_in self.old.me.0).passers }
        ensures table { (self.new.table_id ≡ self.old.table_id)
            × IfSome result (λ made. made.table_id ≡ self.old.table_id) }
        ensures tries { HasTriedBy self.old.me number (is_some result) self.new.me }
        ensures made { IfSome result (λ made. IsForkOf self.old.me number made.me) }
        ensures free { 0 < (table_layout_in self.old.me.0).passers
            → IfSome result (λ _. IsFoundOn (process_by Q.Ratifier)
            (automaton_by Q.Ratifier bus.now.plan) self.old.me.0
            (passed_word (table_layout_in self.old.me.0) number) PASSED_ALL) }
        ensures taken { IfNone result (IsTakenOn (process_by Q.Ratifier)
            (automaton_by Q.Ratifier bus.now.plan) self.old.me
            (passed_word (table_layout_in self.old.me.0) number) self.new.me) }
        ensures never { (table_layout_in self.old.me.0).passers ≡ 0 → IsSome result }
    {
        let cells = self.listener.cells.of(number);
        let mut seat = self.seat.take().unwrap();
        let made = fork_seat(bus, &mut seat, cells.passed_at, self.listener.passed);
        self.seat = Some(seat);
        let made = made?;
        Some(Tap {
            seat: Some(made),
            listener: self.listener.copied(cells),
        })
    }

    /// Two receivers of one bus meet: from then on each knows the log up to the length that is
    /// loaded, which is given. What the one that had read less was answered begins what the other
    /// was answered.
    pub fn meet(&mut self, other: &mut Tap<Q>, bus: &Bus<Q>) -> u64
        requires table { (self.old.table_id ≡ bus.now.table)
            × (other.old.table_id ≡ bus.now.table) }
        ensures table { (self.new.table_id ≡ self.old.table_id)
            × (other.new.table_id ≡ other.old.table_id) }
        ensures learns { Learns self.old.me result self.new.me
            × Learns other.old.me result other.new.me }
        ensures same { known_in other.new.me.0 ≡ known_in self.new.me.0 }
        ensures agree { Agree (receiver_view_in self.old.me.0) (receiver_view_in other.old.me.0) }
    {
        let mut mine = self.seat.take().unwrap();
        let theirs = other.seat.take().unwrap();
        let (length, theirs) = bus.words.meet(&mut mine, theirs);
        self.seat = Some(mine);
        self.listener.learn(length);
        other.seat = Some(theirs);
        other.listener.learn(length);
        length
    }

    /// A sender tells the receiver how long the log is, by a load of the length, which is given:
    /// the receiver knows the log up to it. Of this sender that has exactly the messages that it
    /// has put, but for those in its batch: these are there once the sender has taken the step that
    /// stores the length, and not before.
    pub fn told(&mut self, sender: &mut Sender<Q>, bus: &Bus<Q>) -> u64
        requires table { (self.old.table_id ≡ bus.now.table)
            × (table_of sender.old ≡ bus.now.table) }
        ensures table { (self.new.table_id ≡ self.old.table_id)
            × (table_of sender.new ≡ table_of sender.old) }
        ensures sender { (sender.new.core ≡ sender.old.core)
            × (sender.new.seat.me ≡ sender.old.seat.me) }
        ensures learns { Learns self.old.me result self.new.me }
        ensures sent { let P = process_by Q.Ratifier in
            KnowsSent P sender.old.core (actions_of P sender.old) (stored_of sender.old) (known_in
            self.new.me.0) }
    {
        let mine = self.seat.take().unwrap();
        let (length, mine) = sender.tell(bus, mine);
        self.seat = Some(mine);
        self.listener.learn(length);
        length
    }
}

/// The seat of a receiver with this passed place, which is forked off this seat: of one that has
/// passed so much. Where there are no passed places it is a copy.
fn fork_seat<Q: Ratifier + Drop>(
    bus: &Bus<Q>,
    seat: &mut BusSeat<Q>,
    passed_at: Option<u64>,
    passed: u64,
) -> Option<BusSeat<Q>>
    requires table { (seat.old.table_id ≡ bus.now.table) × (0 < bus.now.table.words) }
    requires tap { (x : TableLayout) × (e : ReceiverView) × (number : ℕ)
        × (seat.old.me ≡ (View.Tap x e, [])) × (e.gone ≡ false) × (0 < x.passers → e.me < number)
        × (passed ≡ e.passed) × IsPassedAt x number passed_at × (x.words ≡ bus.now.table.words) }
    ensures table { (seat.new.table_id ≡ seat.old.table_id)
        × IfSome result (λ made. made.table_id ≡ seat.old.table_id) }
    ensures tries { (number : ℕ)
        → IsPassedAt (table_layout_in seat.old.me.0) number passed_at
        → HasTriedBy seat.old.me number (is_some result) seat.new.me }
    ensures made { (number : ℕ)
        → IsPassedAt (table_layout_in seat.old.me.0) number passed_at
        → IfSome result (λ made. IsForkOf seat.old.me number made.me) }
    ensures free { (number : ℕ)
        → IsPassedAt (table_layout_in seat.old.me.0) number passed_at
        → 0 < (table_layout_in seat.old.me.0).passers
        → IfSome result (λ _. IsFoundOn (process_by Q.Ratifier)
        (automaton_by Q.Ratifier bus.now.plan) seat.old.me.0
        (passed_word (table_layout_in seat.old.me.0) number) PASSED_ALL) }
    ensures taken { (number : ℕ)
        → IsPassedAt (table_layout_in seat.old.me.0) number passed_at
        → IfNone result (IsTakenOn (process_by Q.Ratifier)
        (automaton_by Q.Ratifier bus.now.plan) seat.old.me
        (passed_word (table_layout_in seat.old.me.0) number) seat.new.me) }
    ensures never { (table_layout_in seat.old.me.0).passers ≡ 0 → IsSome result }
{
    match passed_at {
        Some(at) => bus.words.fork::<Brand>(seat, at as usize, passed),
        None => Some(bus.words.copy(seat)),
    }
}
