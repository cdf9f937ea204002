//! A sender with its seat.

ghost use Rattle.std.specs.Prelude.{◌≡◌, ℕ, ◌+◌, ◌<◌, List, [], ◌∷◌, ◌++◌, None};
ghost use Rattle.std.specs.Prelude.{Some, IfSome, IfNone, IfOk, IfErr, IsSome, is_some, Err};
ghost use Rattle.std.specs.Prelude.{OnOk, OnErr, length, ◌-◌, ◌≤◌, IsTrue, true, false, ◌↔◌};
ghost use Rattle.bus_batch.specs.Batches.{next_of, CanPut, IsPutFault, CanClose, IsCloseFault};
ghost use Rattle.bus_core.specs.Causes.{HasCause};
ghost use Rattle.bus_core.specs.Doings.{step_of};
ghost use Rattle.bus_core.specs.Plain.{IsPlain, StoresPlain};
ghost use Rattle.bus_core.specs.Seen.{tenure_begun};
ghost use Rattle.bus_core.specs.Senders.{situation};
ghost use Rattle.bus_core.specs.Telling.{FeedTells, RestTells};
ghost use Rattle.bus_batch.specs.declared.messages.Mark.TheVariants as mark;
ghost use Rattle.bus_tenure.specs.Core.{is_closed, is_leaving};
ghost use Rattle.bus_tenure.specs.declared.turns.Turn.TheVariants as turn;
ghost use Rattle.bus_tenure.specs.Elections.{election_of};
ghost use Rattle.bus_tenure.specs.Seen.{HasElection};
ghost use Rattle.bus_register.specs.declared.kinds.Kind.TheVariants as kind;
ghost use Rattle.bus_register.specs.declared.registers.Op.{Op};
ghost use Rattle.bus_world.specs.Headline.{HasPut, HasMarked, puts};
ghost use Rattle.bus_pageslot.specs.declared.rule.View.TheVariants.{Tap};
ghost use Rattle.bus_pageslot.specs.ReceiverViews.{ReceiverView};
ghost use Rattle.bus_pageslot.specs.Rule.{known_in, stored_in};
ghost use Rattle.bus_pageslot.specs.Steps.{Learns, KnowsSent};
ghost use Rattle.bus_pageslot.specs.Seats.{Shows, TookAndTold, table_of};
ghost use Rattle.bus_pageslot.specs.Seats.{first_number_of, actions_of, stored_of};
ghost use Rattle.bus_pageslot.specs.Turns.{tells_by, Sends, SendsAsking, StopsWaiting};
ghost use Rattle.bus_pageslot.specs.Turns.{DrawsOn, word_drawn};
ghost use Rattle.bus_automaton.specs.Buses.{process_by};
ghost use Rattle.bus_tenure.specs.Classes.{is_last, is_refusal, is_waiting};
ghost use Rattle.bus_pageslot.specs.Sendings.{waiting_of, SendsOff, KeepsFor, FillsBatches};
ghost use Rattle.bus_pageslot.specs.Sendings.{KeptAfter, limit_of};
ghost use Rattle.bus_pageslot.specs.Sendings.{HasSent, StopsAt, HasSentPart};
ghost use Rattle.bus_pageslot.specs.Sendings.{Carries, CarryRefused};
ghost use Rattle.bus_pageslot.specs.SendFaults.{send_fault_text};

mod finishing;
mod looking;
mod room;
mod rows;

use crate::buses::Bus;
use crate::rule::BusSeat;
use crate::steps::{length_after, store_plain, walk};
use arrayvec::ArrayVec;
use bus_adoptcommit::{Ratifier, ThreeWord};
use bus_automaton::laws::threads_may_go_by;
use bus_batch::{CloseFault, Message, PutFault};
use bus_core::{SenderCore, Step};
use bus_register::limits::MOST_MESSAGES;
use bus_register::{Kind, SenderNo};
use bus_tenure::Turn;
use bus_waiting::Waiter;
use rand_core::Rng;
pub use room::NeverFits;
use std::error::Error;
use std::fmt;
use std::marker::{Brand, Model};
use std::sync::Wait;

/// Why a sender does not go on.
#[derive(Clone, Copy, Debug, PartialEq, Eq)]
pub enum SendFault {
    /// The next message was not taken.
    Put(PutFault),
    /// Messages wait, and this is what sending them was answered.
    Turn(Turn),
}

impl Error for SendFault {}

impl fmt::Display for SendFault {
    ghost output = { λ fault. Some (send_fault_text fault) };

    fn fmt<W: fmt::Write>(&self, f: &mut fmt::Formatter<W>) -> fmt::Result {
        match self {
            SendFault::Put(why) => write!(f, "a message is not taken: {why}"),
            SendFault::Turn(answer) => write!(f, "messages wait that are not sent: {answer}"),
        }
    }
}

/// Not all messages were sent. None is lost: those that are not in the order wait in the batch of
/// the sender, or were not put.
#[derive(Clone, Copy, Debug, PartialEq, Eq)]
pub struct Unsent {
    /// How many were put, from the first on.
    pub put: usize,
    /// How many of these do not wait in the batch any more.
    pub sent: usize,
    pub fault: SendFault,
}

impl Error for Unsent {}

impl fmt::Display for Unsent {
    ghost output = { λ unsent. Some (send_fault_text unsent.fault) };

    fn fmt<W: fmt::Write>(&self, f: &mut fmt::Formatter<W>) -> fmt::Result {
        write!(f, "{}", self.fault)
    }
}

/// How many plain stores `send_while` takes in a row at most: a frame has at most 513 words, and
/// most rows have fewer than these.
const MOST_PLAIN_TURNS: u64 = 256;

/// A sender of a bus: what it holds, and the seat that it steps with. One thread at a time has it.
///
/// `put`, `close` and `leave` take no step on the bus. `turn` takes at most one, and waits for
/// nothing.
#[derive(Drop)]
pub struct Sender<Q: Ratifier = ThreeWord> {
    core: SenderCore<Q>,
    seat: BusSeat<Q>,
    stored: u64,
}

impl<Q: Ratifier> Model for Sender<Q> {
    ghost use Rattle.std.specs.Prelude.{◌≡◌};
    ghost use Rattle.bus_automaton.specs.Buses.{process_with};
    ghost use Rattle.bus_core.specs.Senders.{Sender};
    ghost use Rattle.bus_pageslot.specs.Rule.{stored_in};
    ghost use Rattle.bus_pageslot.specs.Seats.{SenderSeat, Shows};
    ghost use Rattle.bus_tenure.specs.Elections.{Elector};

    ghost Value = { SenderSeat (Sender (Elector Q)) };

    ghost view = { λ s. record { core = s.core; seat = s.seat } };

    ghost invariant = { λ s. Shows (process_with Q.kind_of Q.op Q.fed Q.protocol) s.core s.seat
        × (s.stored ≡ stored_in s.seat.me.0) };
}

impl<Q: Ratifier + Drop> Sender<Q> {
    pub(crate) fn seated(core: SenderCore<Q>, seat: BusSeat<Q>) -> Sender<Q>
        requires shows { Shows (process_by Q.Ratifier) core seat }
        requires stored { stored_in seat.me.0 ≡ 0 }
        ensures { result ≡ record { core = core; seat = seat } }
    {
        Sender {
            core,
            seat,
            stored: 0,
        }
    }

    /// The sender's number, from 0 on.
    pub fn number(&self) -> SenderNo
        ensures { result.0 ≡ (process_by Q.Ratifier).me self.now.core }
    {
        self.core.number()
    }

    /// How many senders its bus has.
    pub fn senders(&self) -> u64
        ensures { result ≡ ((process_by Q.Ratifier).table_layout self.now.core).senders }
    {
        self.core.senders()
    }

    /// How many messages wait in its batch.
    pub fn pending(&self) -> u64
        ensures { result ≡ length (waiting_of (process_by Q.Ratifier) self.now) }
    {
        self.core.pending()
    }

    /// How many messages its batch has at most: as many as its bus says, 1 to 64.
    pub fn batch_limit(&self) -> u64
        ensures limit { result ≡ limit_of (process_by Q.Ratifier) self.now }
        ensures bus { result ≡ ((process_by Q.Ratifier).table_layout self.now.core).batch }
        ensures some { 1 ≤ result }
        ensures few { result ≤ MOST_MESSAGES }
    {
        self.core.batch_limit()
    }

    /// The messages that wait in its batch, in their order, spelled back from their words.
    pub fn waiting(&self) -> ArrayVec<Message, MOST_MESSAGES>
        ensures { result.items ≡ waiting_of (process_by Q.Ratifier) self.now }
    {
        self.core.waiting()
    }

    /// The number that the next message gets.
    pub fn next_number(&self) -> u64
        ensures { result ≡ next_of ((process_by Q.Ratifier).queue self.now.core) }
    {
        self.core.next_number()
    }

    /// It sends nothing more: it has closed the order, has left it, or has learned that the order
    /// has ended. False as long as its mark waits to be sent.
    pub fn is_closed(&self) -> bool
        ensures { result ≡ is_closed ((process_by Q.Ratifier).queue self.now.core).phase }
    {
        self.core.is_closed()
    }

    /// It is to leave: its leave mark waits to be sent.
    pub fn is_leaving(&self) -> bool
        ensures { result ≡ is_leaving ((process_by Q.Ratifier).queue self.now.core).phase }
    {
        self.core.is_leaving()
    }

    /// The last length of the log, in words, that it has stored; 0 before the first.
    pub fn words(&self) -> u64
        ensures { result ≡ stored_of self.now }
    {
        self.stored
    }

    /// What its next step is for; none where none is due.
    pub fn kind(&self) -> Option<Kind>
        ensures kind { result ≡ (process_by Q.Ratifier).kind self.now.core }
        ensures cause { IfSome result (HasCause Q.protocol self.now.core) }
    {
        self.core.kind()
    }

    /// Its next step asks for a random word: it is a vote.
    pub fn wants_word(&self) -> bool
        ensures word { result ≡ (process_by Q.Ratifier).wants_word self.now.core }
        ensures vote { let P = process_by Q.Ratifier in
            IsTrue result ↔ (P.kind self.now.core ≡ Some kind.Vote) }
    {
        self.core.wants_word()
    }

    /// How many turns its election takes at most, with the one that takes the page; 0 where none
    /// is begun.
    pub fn turns_left(&self) -> u64
        ensures turns { result ≡ (process_by Q.Ratifier).turns_left self.now.core }
        ensures running { HasElection self.now.core.core.phase → 1 ≤ result }
    {
        self.core.turns_left()
    }

    /// The tenure that it has begun, or whose page it has: from the turn on that looked at the
    /// stage and found a tenure that it may enter. Others may wait for it as long as there is one.
    pub fn tenure(&self) -> Option<u64>
        ensures { result ≡ tenure_begun self.now.core }
    {
        self.core.tenure()
    }

    /// Appends a message of at most 56 bytes to its batch, and gives its number, which counts the
    /// messages of this sender from its first number on: that is 0, but where the bus went on with
    /// the numbers of another. Takes no step. A fault changes nothing.
    pub fn put(&mut self, bytes: &[u8]) -> Result<u64, PutFault>
        ensures number { let P = process_by Q.Ratifier in
            IfOk result (λ number. number ≡ next_of (P.queue self.old.core)) }
        ensures counts { let P = process_by Q.Ratifier in
            let before = puts (actions_of P self.old) in
            IfOk result (λ number. number ≡ first_number_of P self.old + length before) }
        ensures taken { OnOk result
            (self.new.core ≡ (process_by Q.Ratifier).with_message self.old.core bytes.now) }
        ensures action { let P = process_by Q.Ratifier in
            IfOk result (λ number. actions_of P self.new ≡ actions_of P self.old ++ HasPut number
            bytes.now ∷ []) }
        ensures could { let P = process_by Q.Ratifier in
            OnOk result (CanPut (P.queue self.old.core) (length bytes.now)) }
        ensures fault { IfErr result
            (IsPutFault ((process_by Q.Ratifier).queue self.old.core) (length bytes.now)) }
        ensures refused { OnErr result (self.new.core ≡ self.old.core) }
        ensures seat { self.new.seat ≡ self.old.seat }
    {
        threads_may_go_by::<Q>();
        self.core.put(bytes)
    }

    /// Lets an end mark wait, which ends the order once it is sent. Refused where messages wait,
    /// in its batch or on their way, and where it is closing, leaving or closed. Takes no step. A
    /// fault changes nothing.
    pub fn close(&mut self) -> Result<(), CloseFault>
        ensures taken { let P = process_by Q.Ratifier in
            OnOk result (self.new.core ≡ P.with_mark self.old.core mark.End) }
        ensures action { let P = process_by Q.Ratifier in
            OnOk result (actions_of P self.new ≡ actions_of P self.old ++ HasMarked mark.End ∷ []) }
        ensures could { OnOk result (CanClose ((process_by Q.Ratifier).queue self.old.core)) }
        ensures fault { IfErr result (IsCloseFault ((process_by Q.Ratifier).queue self.old.core)) }
        ensures refused { OnErr result (self.new.core ≡ self.old.core) }
        ensures seat { self.new.seat ≡ self.old.seat }
    {
        threads_may_go_by::<Q>();
        self.core.close()
    }

    /// Lets a leave mark wait, which says in the order that this sender has left, once it is sent.
    /// Nothing of this sender follows it. Refused where `close` is. Takes no step. A fault changes
    /// nothing.
    pub fn leave(&mut self) -> Result<(), CloseFault>
        ensures taken { let P = process_by Q.Ratifier in
            OnOk result (self.new.core ≡ P.with_mark self.old.core mark.Leave) }
        ensures action { let P = process_by Q.Ratifier in OnOk result
            (actions_of P self.new ≡ actions_of P self.old ++ HasMarked mark.Leave ∷ []) }
        ensures could { OnOk result (CanClose ((process_by Q.Ratifier).queue self.old.core)) }
        ensures fault { IfErr result (IsCloseFault ((process_by Q.Ratifier).queue self.old.core)) }
        ensures refused { OnErr result (self.new.core ≡ self.old.core) }
        ensures seat { self.new.seat ≡ self.old.seat }
    {
        threads_may_go_by::<Q>();
        self.core.leave()
    }

    /// It has begun a tenure.
    fn has_begun(&self) -> bool
        ensures { result ≡ is_some (tenure_begun self.now.core) }
    {
        self.tenure().is_some()
    }

    /// Puts the messages that wait in its batch into that of `next`, in their order and behind what
    /// waits there; they wait here too. So what was not sent in one sitting goes on in the next:
    /// put first into the next sender of this number, messages get the numbers that they were
    /// answered before.
    ///
    /// While it has begun a tenure the answer is Busy: its messages may stand in the order already,
    /// or come into it by the turns of `finish`. Else it is BatchFull where they do not fit beside
    /// what waits there, and otherwise what a put gives, or Ok where none waits. Takes no step. A
    /// fault changes nothing.
    pub fn carry_to(&self, next: &mut Sender<Q>) -> Result<(), PutFault>
        ensures carried { OnOk result
            (Carries (process_by Q.Ratifier) self.now next.old next.new) }
        ensures begun { IsSome (tenure_begun self.now.core) → result ≡ Err PutFault.Busy }
        ensures fault { IfErr result (CarryRefused (process_by Q.Ratifier) self.now next.old) }
        ensures refused { OnErr result (next.new.core ≡ next.old.core) }
        ensures seat { next.new.seat ≡ next.old.seat }
    {
        threads_may_go_by::<Q>();
        if self.has_begun() {
            return Err(PutFault::Busy);
        }
        let room = next.batch_limit().saturating_sub(next.pending());
        if self.pending() > room {
            return Err(PutFault::BatchFull);
        }
        let messages = self.waiting();
        let waiting = messages.as_slice();
        for message in waiting {
            if let Err(fault) = next.put(message.as_slice()) {
                return Err(fault);
            }
        }
        Ok(())
    }

    /// One turn: at most one step on one word of the bus that it is a sender of. `word` is the
    /// random word of a vote; other steps do not look at it. Where no step is due it answers why:
    /// Idle, Closed or Spent.
    #[inline(always)]
    pub fn turn(&mut self, bus: &Bus<Q>, word: u32) -> Turn
        requires { table_of self.old ≡ bus.now.table }
        ensures table { table_of self.new ≡ table_of self.old }
        ensures rests { let P = process_by Q.Ratifier in
            P.op self.old.core word ≡ None → (self.new ≡ self.old) × (result ≡ P.rest
            self.old.core) × RestTells self.old.core result }
        ensures steps { let P = process_by Q.Ratifier in
            (op : Op) → P.op self.old.core word ≡ Some op → TookAndTold P (FeedTells (election_of
            Q.Ratifier)) self.old word result self.new }
    {
        if self.plain_turn(bus, word) {
            return Turn::Going;
        }
        self.full_turn(bus, word)
    }

    /// A turn, if its step is a plain store; the answer is Going then. Else nothing changes.
    #[inline(always)]
    fn plain_turn(&mut self, bus: &Bus<Q>, word: u32) -> bool
        requires { table_of self.old ≡ bus.now.table }
        ensures table { table_of self.new ≡ table_of self.old }
        ensures stays { result ≡ false → self.new ≡ self.old }
        ensures plain { IsTrue result → IsPlain (election_of Q.Ratifier) self.old.core }
        ensures exact { IsPlain (election_of Q.Ratifier) self.old.core → IsTrue result }
        ensures due { let P = process_by Q.Ratifier in
            IsTrue result → IsSome (P.op self.old.core word) }
        ensures wordless { let P = process_by Q.Ratifier in
            IsTrue result → P.wants_word self.old.core ≡ false }
        ensures steps { let P = process_by Q.Ratifier in IsTrue result → TookAndTold P (FeedTells
            (election_of Q.Ratifier)) self.old word turn.Going self.new }
    {
        let (mut at, mut value) = (0, 0);
        if !self.core.plain(&mut at, &mut value) {
            return false;
        }
        self.store_on(bus, &mut at, &mut value, word);
        true
    }

    /// The turn whose step is this plain store; the answer is Going. Says whether the next step is
    /// one too, and then of what and where.
    #[inline(always)]
    fn store_on(&mut self, bus: &Bus<Q>, at: &mut u64, value: &mut u64, word: u32) -> bool
        requires table { table_of self.old ≡ bus.now.table }
        requires stores { StoresPlain (election_of Q.Ratifier) self.old.core at.old value.old }
        ensures table { table_of self.new ≡ table_of self.old }
        ensures took { TookAndTold (process_by Q.Ratifier) (FeedTells (election_of Q.Ratifier))
            self.old word turn.Going self.new }
        ensures stores { IsTrue result
            → StoresPlain (election_of Q.Ratifier) self.new.core at.new value.new }
        ensures exact { IsPlain (election_of Q.Ratifier) self.new.core → IsTrue result }
    {
        store_plain::<Q, Brand>(&bus.words, &mut self.seat, &mut self.core, at, value, word)
    }

    /// What it does next, as `SenderCore::step` tells it.
    #[inline(always)]
    fn next_step(&self) -> Step
        ensures { let X = election_of Q.Ratifier in result ≡ step_of (situation X self.now.core) }
    {
        self.core.step()
    }

    /// A turn by the table of situations.
    #[inline(never)]
    fn full_turn(&mut self, bus: &Bus<Q>, word: u32) -> Turn
        requires { table_of self.old ≡ bus.now.table }
        ensures table { table_of self.new ≡ table_of self.old }
        ensures rests { let P = process_by Q.Ratifier in
            P.op self.old.core word ≡ None → (self.new ≡ self.old) × (result ≡ P.rest
            self.old.core) × RestTells self.old.core result }
        ensures steps { let P = process_by Q.Ratifier in
            (op : Op) → P.op self.old.core word ≡ Some op → TookAndTold P (FeedTells (election_of
            Q.Ratifier)) self.old word result self.new }
    {
        let next = self.next_step();
        self.turn_by(bus, next, word)
    }

    /// The turn of which `next_step` told `next`.
    #[inline(always)]
    fn turn_by(&mut self, bus: &Bus<Q>, next: Step, word: u32) -> Turn
        requires table { table_of self.old ≡ bus.now.table }
        requires next { let X = election_of Q.Ratifier in
            step_of (situation X self.old.core) ≡ next }
        ensures table { table_of self.new ≡ table_of self.old }
        ensures rests { let P = process_by Q.Ratifier in
            P.op self.old.core word ≡ None → (self.new ≡ self.old) × (result ≡ P.rest
            self.old.core) × RestTells self.old.core result }
        ensures steps { let P = process_by Q.Ratifier in
            (op : Op) → P.op self.old.core word ≡ Some op → TookAndTold P (FeedTells (election_of
            Q.Ratifier)) self.old word result self.new }
    {
        threads_may_go_by::<Q>();
        let Some(op) = self.core.next_of(next, word) else {
            return self.core.rest_of(next);
        };
        self.stored = length_after(op, self.stored);
        walk::<Q, Brand>(&bus.words, &mut self.seat, &mut self.core, next, op, word)
    }

    /// The word of its next turn: of a vote the next one of `rng`, and else none is drawn.
    fn next_word<R: Rng>(&self, rng: &mut R) -> u32
        ensures { (result, R.stream rng.new) ≡ word_drawn ((process_by Q.Ratifier).wants_word
            self.now.core) (R.stream rng.old) }
    {
        if self.wants_word() { rng.next_u32() } else { 0 }
    }

    /// Whether the turn asks for a random word of which `next_step` told `next`.
    #[inline(always)]
    fn wants_word_for(&self, next: Step) -> bool
        requires { let X = election_of Q.Ratifier in step_of (situation X self.now.core) ≡ next }
        ensures { result ≡ (process_by Q.Ratifier).wants_word self.now.core }
    {
        self.core.wants_word_of(next)
    }

    /// Turns, until there is nothing more to do, or nothing more that can be done: Idle, Delivered,
    /// Left, Full, Closed or Spent. What it tells of the last answer is what a turn tells of it: of
    /// Left, that the leave mark was published in that tenure. After Full, Closed or Spent the
    /// batch is kept. Each vote takes one word of `rng`, and nothing else takes one. It waits for
    /// nothing but its own next turn, and that it ends is not promised.
    pub fn send<W: Wait, R: Rng>(
        &mut self,
        waiter: &Waiter<'_, W>,
        bus: &Bus<Q>,
        rng: &mut R,
    ) -> Turn
        requires { table_of self.old ≡ bus.now.table }
        ensures table { table_of self.new ≡ table_of self.old }
        ensures sends { Sends (process_by Q.Ratifier) (tells_by Q.Ratifier) self.old result
            self.new }
        ensures keeps { is_refusal result ≡ true
            → KeptAfter (process_by Q.Ratifier) self.old result self.new }
        ensures puts { let P = process_by Q.Ratifier in
            puts (actions_of P self.new) ≡ puts (actions_of P self.old) }
        ensures draws { DrawsOn (process_by Q.Ratifier) (tells_by Q.Ratifier) self.old
            (R.stream rng.old) self.new (R.stream rng.new) }
    {
        self.send_while(waiter, bus, rng, || true).unwrap()
    }

    /// As `send`, but that it can be told to stop: each time a turn answers Waiting or Behind it
    /// asks `go_on` once, goes on where that says yes, and gives None where it says no. It asks
    /// nowhere else. The batch is kept then, and any later turn goes on with it. After Behind the
    /// sender holds the page, which nobody else has until then.
    pub fn send_while<W: Wait, R: Rng, F: FnMut() -> bool>(
        &mut self,
        waiter: &Waiter<'_, W>,
        bus: &Bus<Q>,
        rng: &mut R,
        mut go_on: F,
    ) -> Option<Turn>
        requires table { table_of self.old ≡ bus.now.table }
        requires callable { F.IsAlwaysCallable go_on }
        ensures table { table_of self.new ≡ table_of self.old }
        ensures sends { IfSome result
            (λ turn. SendsAsking (process_by Q.Ratifier) (tells_by Q.Ratifier) F.step self.old go_on
            turn self.new) }
        ensures stops { IfNone result (StopsWaiting (process_by Q.Ratifier) (tells_by Q.Ratifier)
            F.step self.old go_on self.new) }
        ensures keeps { let P = process_by Q.Ratifier in
            IfSome result (λ turn. is_refusal turn ≡ true → KeptAfter P self.old turn self.new) }
        ensures waits { let P = process_by Q.Ratifier in
            IfNone result (waiting_of P self.new ≡ waiting_of P self.old) }
        ensures puts { let P = process_by Q.Ratifier in
            puts (actions_of P self.new) ≡ puts (actions_of P self.old) }
        ensures draws { DrawsOn (process_by Q.Ratifier) (tells_by Q.Ratifier) self.old
            (R.stream rng.old) self.new (R.stream rng.new) }
    {
        threads_may_go_by::<Q>();
        waiter.reset();
        for _ in waiter.forever() {
            if self.plain_turns(bus, MOST_PLAIN_TURNS) > 0 {
                waiter.carry_on();
                continue;
            }
            let turn = self.next_turns(bus, rng);
            if ends_sending(turn) {
                waiter.ring();
                return Some(turn);
            }
            if !is_waiting(turn) {
                waiter.carry_on();
                continue;
            }
            if !go_on() {
                waiter.ring();
                return None;
            }
            rest_after(turn, waiter);
        }
        unreachable!()
    }

    /// Sends messages in their order: first what waits in its batch, and then these, in batches of
    /// as many as one may have, of which the last may be smaller. Ok where no message waits any
    /// more. It stops at the first batch that is not sent off, which is kept, and at the first
    /// message that is refused. It waits as `send` does, and that it ends is not promised.
    pub fn send_all<W: Wait, R: Rng>(
        &mut self,
        waiter: &Waiter<'_, W>,
        bus: &Bus<Q>,
        rng: &mut R,
        messages: &[Message],
    ) -> Result<(), Unsent>
        requires { table_of self.old ≡ bus.now.table }
        ensures table { table_of self.new ≡ table_of self.old }
        ensures all { OnOk result (HasSent (process_by Q.Ratifier) (tells_by Q.Ratifier) self.old
            messages.now self.new) }
        ensures part { IfErr result (λ unsent. HasSentPart (process_by Q.Ratifier)
            (tells_by Q.Ratifier) self.old messages.now unsent self.new) }
    {
        threads_may_go_by::<Q>();
        let before = self.send_off(waiter, bus, rng);
        if let Err(fault) = before {
            return Err(self.unsent(0, fault));
        }
        for (put, message) in messages.iter().enumerate() {
            if let Err(fault) = self.put_or_send(waiter, bus, rng, message) {
                return Err(self.unsent(put, fault));
            }
        }
        let rest = self.send_off(waiter, bus, rng);
        if let Err(fault) = rest {
            return Err(self.unsent(messages.len(), fault));
        }
        Ok(())
    }

    /// So many messages were put, and then this came up.
    fn unsent(&self, put: usize, fault: SendFault) -> Unsent
        ensures put { (result.put ≡ put) × (result.fault ≡ fault) }
        ensures sent { result.sent ≡ put - length (waiting_of (process_by Q.Ratifier) self.now) }
    {
        Unsent {
            put,
            sent: put.saturating_sub(self.pending() as usize),
            fault,
        }
    }

    /// Puts a message, once a full batch before it is sent.
    fn put_or_send<W: Wait, R: Rng>(
        &mut self,
        waiter: &Waiter<'_, W>,
        bus: &Bus<Q>,
        rng: &mut R,
        message: &Message,
    ) -> Result<(), SendFault>
        requires { table_of self.old ≡ bus.now.table }
        ensures table { table_of self.new ≡ table_of self.old }
        ensures taken { let P = process_by Q.Ratifier in let T = tells_by Q.Ratifier in
            OnOk result ((first : _) (messages : List (List ℕ)) → FillsBatches P T first messages
            self.old → FillsBatches P T first (messages ++ message.now ∷ []) self.new) }
        ensures stops { let P = process_by Q.Ratifier in let T = tells_by Q.Ratifier in
            IfErr result (λ fault. (first : _) (messages : List (List ℕ)) → FillsBatches P T first
            messages self.old → StopsAt P T first messages (Some message.now) fault self.new) }
    {
        threads_may_go_by::<Q>();
        if let Err(fault) = self.make_room(waiter, bus, rng) {
            return Err(fault);
        }
        match self.put(message.as_slice()) {
            Ok(_) => Ok(()),
            Err(fault) => Err(SendFault::Put(fault)),
        }
    }

    /// Sends a full batch.
    fn make_room<W: Wait, R: Rng>(
        &mut self,
        waiter: &Waiter<'_, W>,
        bus: &Bus<Q>,
        rng: &mut R,
    ) -> Result<(), SendFault>
        requires { table_of self.old ≡ bus.now.table }
        ensures table { table_of self.new ≡ table_of self.old }
        ensures room { let P = process_by Q.Ratifier in
            OnOk result (length (waiting_of P self.new) < limit_of P self.new) }
        ensures sends { let P = process_by Q.Ratifier in let T = tells_by Q.Ratifier in
            OnOk result ((first : _) (messages : List (List ℕ)) → FillsBatches P T first messages
            self.old → FillsBatches P T first messages self.new) }
        ensures keeps { let P = process_by Q.Ratifier in let T = tells_by Q.Ratifier in
            IfErr result (λ fault. (limit_of P self.old ≤ length (waiting_of P self.old))
            × KeepsFor P T self.old fault self.new) }
    {
        threads_may_go_by::<Q>();
        if self.pending() < self.batch_limit() {
            return Ok(());
        }
        let sent = self.send_off(waiter, bus, rng);
        let _some = self.batch_limit();
        sent
    }

    /// Sends what waits in the batch. Ok where nothing waits then.
    fn send_off<W: Wait, R: Rng>(
        &mut self,
        waiter: &Waiter<'_, W>,
        bus: &Bus<Q>,
        rng: &mut R,
    ) -> Result<(), SendFault>
        requires { table_of self.old ≡ bus.now.table }
        ensures table { table_of self.new ≡ table_of self.old }
        ensures sends { let P = process_by Q.Ratifier in let T = tells_by Q.Ratifier in
            OnOk result (SendsOff P T self.old self.new) }
        ensures keeps { let P = process_by Q.Ratifier in let T = tells_by Q.Ratifier in
            IfErr result (λ fault. KeepsFor P T self.old fault self.new) }
    {
        threads_may_go_by::<Q>();
        let turn = self.send(waiter, bus, rng);
        if self.pending() > 0 {
            return Err(SendFault::Turn(turn));
        }
        Ok(())
    }

    /// A receiver's seat is joined to its own, which then loads the length; and the two are cut
    /// apart again.
    pub(crate) fn tell(&mut self, bus: &Bus<Q>, tap: BusSeat<Q>) -> (u64, BusSeat<Q>)
        requires table { (table_of self.old ≡ bus.now.table) × (tap.table_id ≡ bus.now.table) }
        requires tap { (d : _) × (e : ReceiverView) × (tap.me ≡ (Tap d e, [])) }
        ensures table { (table_of self.new ≡ table_of self.old)
            × (result.1.table_id ≡ tap.table_id) }
        ensures same { (self.new.core ≡ self.old.core)
            × (self.new.seat.me ≡ self.old.seat.me) }
        ensures learns { Learns tap.me result.0 result.1.me }
        ensures sent { let P = process_by Q.Ratifier in
            KnowsSent P self.old.core (actions_of P self.old) (stored_of self.old) (known_in
            result.1.me.0) }
    {
        threads_may_go_by::<Q>();
        bus.words.meet(&mut self.seat, tap)
    }
}

/// After this answer there is nothing more to do, or nothing more that can be done.
fn ends_sending(turn: Turn) -> bool
    ensures { result ≡ is_last turn }
{
    match turn {
        Turn::Idle | Turn::Delivered { .. } | Turn::Left { .. } => true,
        Turn::Full | Turn::Closed | Turn::Spent => true,
        Turn::Waiting | Turn::Going | Turn::Lost { .. } | Turn::Own { .. } => false,
        Turn::Behind { .. } => false,
    }
}

/// After this answer another sender has to go on first.
fn is_waiting(turn: Turn) -> bool
    ensures { result ≡ is_waiting turn }
{
    matches!(turn, Turn::Waiting | Turn::Behind { .. })
}

/// A turn was answered so, and found nothing. Whoever has the page gives it back and rings. Who
/// waits behind a sender waits for that one to leave a tenure, which it may do without a ring.
fn rest_after<W: Wait>(turn: Turn, waiter: &Waiter<'_, W>) {
    match turn {
        Turn::Behind { .. } => waiter.pause(),
        _ => waiter.rest(),
    }
}
