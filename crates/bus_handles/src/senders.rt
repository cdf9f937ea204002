//! A sender with its bus, and with the random words that it votes by.

ghost use Rattle.std.specs.Prelude.{◌≡◌, ◌≤◌, ℕ, ◌+◌, List, [], ◌∷◌, ◌++◌, length};
ghost use Rattle.std.specs.Prelude.{Some, None, IfSome, IfNone, IfOk, IfErr, OnOk, OnErr, true};
ghost use Rattle.std.specs.Prelude.{IsTrue, ◌↔◌, Err, IsSome, ◌≢◌};
ghost use Rattle.std.specs.Arc.{arc_value};
ghost use Rattle.bus_batch.specs.Batches.{next_of, CanPut, IsPutFault, CanClose, IsCloseFault};
ghost use Rattle.bus_batch.specs.declared.messages.Mark.TheVariants as mark;
ghost use Rattle.bus_tenure.specs.Core.{is_closed, is_leaving};
ghost use Rattle.bus_register.specs.declared.kinds.Kind.TheVariants as kind;
ghost use Rattle.bus_register.specs.declared.registers.Op.{Op};
ghost use Rattle.bus_world.specs.Headline.{HasPut, HasMarked, puts};
ghost use Rattle.bus_core.specs.Causes.{HasCause};
ghost use Rattle.bus_core.specs.Seen.{tenure_begun};
ghost use Rattle.bus_core.specs.Telling.{FeedTells};
ghost use Rattle.bus_core.specs.Telling.{RestTells};
ghost use Rattle.bus_tenure.specs.Elections.{election_of};
ghost use Rattle.bus_automaton.specs.Buses.{automaton_by, process_by};
ghost use Rattle.bus_automaton.specs.declared.plans.Plan.{Plan};
ghost use Rattle.bus_tenure.specs.Classes.{is_refusal};
ghost use Rattle.bus_tenure.specs.Seen.{HasElection};
ghost use Rattle.bus_pageslot.specs.Seats.{TookAndTold, table_of};
ghost use Rattle.bus_pageslot.specs.Seats.{first_number_of, actions_of, stored_of};
ghost use Rattle.bus_pageslot.specs.Turns.{tells_by, TakesUpTo, Sends, SendsAsking, StopsWaiting};
ghost use Rattle.bus_pageslot.specs.Sendings.{waiting_of, HasSent, HasSentPart, KeptAfter};
ghost use Rattle.bus_pageslot.specs.Sendings.{Carries, CarryRefused, limit_of};
ghost use Rattle.bus_handles.specs.Answers.{delivered_turn, DeliversNone};
ghost use Rattle.bus_handles.specs.Asking.{SaysNo, SaysYes, SaysEither};
ghost use Rattle.bus_pageslot.specs.Looks.{LooksForRoom};
ghost use Rattle.bus_pageslot.specs.Room.{Fits, SendsForRoom, StopsForRoom};
ghost use Rattle.bus_pageslot.specs.Sendings.{ClosesAndSends};
ghost use Rattle.bus_handles.specs.Closings.{NotEndedFor};

mod finishing;

use crate::answers::{Delivered, NotDelivered, OrderNotEnded, answered, order_ended};
use arrayvec::ArrayVec;
use bus_adoptcommit::{Ratifier, ThreeWord};
use bus_batch::{CloseFault, Message, PutFault};
use bus_pageslot::{Bus, NeverFits, Sender, Unsent};
use bus_register::limits::{MOST_MESSAGES, MOST_SENDERS};
use bus_register::{Kind, SenderNo};
use bus_tenure::Turn;
use bus_waiting::{Deadline, SharedBell, Waiting};
use rand_core::Rng;
use rand_pcg::Pcg32;
use std::marker::Model;
use std::sync::{Arc, Wait};
use std::time::{Clock, Duration};

/// A sender with its bus, and with a generator of the random words that it votes by. One thread at
/// a time has it. Its calls are those of `Sender`, and none of them takes memory.
#[derive(Drop)]
pub struct SenderHandle<Q: Ratifier = ThreeWord, R = Pcg32> {
    bus: Arc<Bus<Q>>,
    bell: SharedBell,
    pub(crate) sender: Sender<Q>,
    rng: R,
    /// A close of it was taken.
    closes: bool,
}

impl<Q: Ratifier, R> Model for SenderHandle<Q, R> {
    ghost use Rattle.std.specs.Prelude.{◌≡◌};
    ghost use Rattle.std.specs.Arc.{arc_value};
    ghost use Rattle.bus_tenure.specs.Elections.{Elector};
    ghost use Rattle.bus_core.specs.Senders.{Sender as Held};
    ghost use Rattle.bus_pageslot.specs.Seats.{SenderSeat, table_of};

    ghost Value = { SenderSeat (Held (Elector Q)) };

    ghost view = { λ h. h.sender };

    ghost invariant = { λ h. table_of h.sender ≡ (arc_value h.bus).table };
}

impl<Q: Ratifier + Drop, R: Rng + Drop> SenderHandle<Q, R> {
    /// This sender of this bus.
    pub(crate) fn new(
        bus: Arc<Bus<Q>>,
        bell: SharedBell,
        sender: Sender<Q>,
        rng: R,
    ) -> SenderHandle<Q, R>
        requires { table_of sender ≡ (arc_value bus).table }
        ensures { result ≡ sender }
    {
        SenderHandle {
            bus,
            bell,
            sender,
            rng,
            closes: false,
        }
    }

    /// The same sender, which votes by the words of this generator from now on.
    pub fn with_rng<T: Rng + Drop>(self, rng: T) -> SenderHandle<Q, T>
        ensures { result ≡ self }
    {
        let SenderHandle {
            bus,
            bell,
            sender,
            closes,
            ..
        } = self;
        SenderHandle {
            bus,
            bell,
            sender,
            rng,
            closes,
        }
    }

    /// The same sender, whose calls wait so from now on. At first they sleep.
    pub fn with_waiting(self, waiting: Waiting) -> SenderHandle<Q, R>
        ensures { result ≡ self }
    {
        let SenderHandle {
            bus,
            bell,
            sender,
            rng,
            closes,
        } = self;
        SenderHandle {
            bus,
            bell: bell.with(waiting),
            sender,
            rng,
            closes,
        }
    }

    /// The sender's number, from 0 on.
    pub fn number(&self) -> SenderNo
        ensures { result.0 ≡ (process_by Q.Ratifier).me self.now.core }
    {
        self.sender.number()
    }

    /// Where its bus lies. Handles that are there at once have one place if they are of one bus,
    /// and else two. The allocator keeps that, and no contract says it.
    pub fn bus_place(&self) -> *const Bus<Q> {
        Arc::as_ptr(&self.bus)
    }

    /// How many messages wait in its batch.
    pub fn pending(&self) -> u64
        ensures { result ≡ length (waiting_of (process_by Q.Ratifier) self.now) }
    {
        self.sender.pending()
    }

    /// How many messages its batch has at most: as many as its bus says, 1 to 64.
    pub fn batch_limit(&self) -> u64
        ensures limit { result ≡ limit_of (process_by Q.Ratifier) self.now }
        ensures bus { result ≡ ((process_by Q.Ratifier).table_layout self.now.core).batch }
        ensures some { 1 ≤ result }
        ensures few { result ≤ MOST_MESSAGES }
    {
        self.sender.batch_limit()
    }

    /// The messages that wait in its batch, in their order, spelled back from their words.
    pub fn waiting(&self) -> ArrayVec<Message, MOST_MESSAGES>
        ensures { result.items ≡ waiting_of (process_by Q.Ratifier) self.now }
    {
        self.sender.waiting()
    }

    /// The number that the next message gets.
    pub fn next_number(&self) -> u64
        ensures { result ≡ next_of ((process_by Q.Ratifier).queue self.now.core) }
    {
        self.sender.next_number()
    }

    /// The number of the first message that waits in its batch, or else that of the next one: once
    /// its order has ended, the number with which it goes on in the next sitting.
    pub fn goes_on_from(&self) -> u64
        ensures { result ≡ ((process_by Q.Ratifier).queue self.now.core).first }
    {
        self.next_number() - self.pending()
    }

    /// A close of it was taken, be it sent or not.
    pub fn has_closed(&self) -> bool {
        self.closes
    }

    /// The number of each sender's first message on its bus.
    pub fn bases(&self) -> [u64; MOST_SENDERS] {
        let bus: &Bus<Q> = &self.bus;
        bus.bases()
    }

    /// How many senders its bus has, by the sender's own count.
    pub fn senders(&self) -> u64
        ensures { result ≡ ((process_by Q.Ratifier).table_layout self.now.core).senders }
    {
        self.sender.senders()
    }

    /// It sends nothing more: it has closed the order, has left it, or has learned that the order
    /// has ended. False as long as its mark waits to be sent.
    pub fn is_closed(&self) -> bool
        ensures { result ≡ is_closed ((process_by Q.Ratifier).queue self.now.core).phase }
    {
        self.sender.is_closed()
    }

    /// It is to leave: its leave mark waits to be sent.
    pub fn is_leaving(&self) -> bool
        ensures { result ≡ is_leaving ((process_by Q.Ratifier).queue self.now.core).phase }
    {
        self.sender.is_leaving()
    }

    /// The last length of the log, in words, that it has stored; 0 before the first.
    pub fn words(&self) -> u64
        ensures { result ≡ stored_of self.now }
    {
        self.sender.words()
    }

    /// What its next step is for; none where none is due.
    pub fn kind(&self) -> Option<Kind>
        ensures kind { result ≡ (process_by Q.Ratifier).kind self.now.core }
        ensures cause { IfSome result (HasCause Q.protocol self.now.core) }
    {
        self.sender.kind()
    }

    /// Its next step asks for a random word: it is a vote.
    pub fn wants_word(&self) -> bool
        ensures word { result ≡ (process_by Q.Ratifier).wants_word self.now.core }
        ensures vote { let P = process_by Q.Ratifier in
            IsTrue result ↔ (P.kind self.now.core ≡ Some kind.Vote) }
    {
        self.sender.wants_word()
    }

    /// How many turns its election takes at most, with the one that takes the page; 0 where none
    /// is begun.
    pub fn turns_left(&self) -> u64
        ensures turns { result ≡ (process_by Q.Ratifier).turns_left self.now.core }
        ensures running { HasElection self.now.core.core.phase → 1 ≤ result }
    {
        self.sender.turns_left()
    }

    /// Appends a message of at most 56 bytes to its batch, which has at most as many as
    /// `batch_limit` says, and gives its number. That counts the messages of this sender from its
    /// first number on: it is 0, but where the bus went on with the numbers of another. Takes no
    /// step. A fault changes nothing.
    pub fn put(&mut self, bytes: &[u8]) -> Result<u64, PutFault>
        ensures number { let P = process_by Q.Ratifier in
            IfOk result (λ number. number ≡ next_of (P.queue self.old.core)) }
        ensures counts { let P = process_by Q.Ratifier in
            IfOk result
            (λ number.
            number ≡ first_number_of P self.old + length (puts (actions_of P self.old))) }
        ensures taken { OnOk result
            (self.new.core ≡ (process_by Q.Ratifier).with_message self.old.core bytes.now) }
        ensures action { let P = process_by Q.Ratifier in IfOk result
            (λ number. actions_of P self.new
            ≡ actions_of P self.old ++ HasPut number bytes.now ∷ []) }
        ensures could { let P = process_by Q.Ratifier in
            OnOk result (CanPut (P.queue self.old.core) (length bytes.now)) }
        ensures fault { IfErr result
            (IsPutFault ((process_by Q.Ratifier).queue self.old.core) (length bytes.now)) }
        ensures refused { OnErr result (self.new.core ≡ self.old.core) }
        ensures seat { self.new.seat ≡ self.old.seat }
    {
        self.sender.put(bytes)
    }

    /// Lets an end mark wait, which ends the order once it is sent. Refused where messages wait,
    /// in its batch or on their way, and where it is closing, leaving or closed. Takes no step. A
    /// fault changes nothing.
    pub fn close(&mut self) -> Result<(), CloseFault>
        ensures taken { let P = process_by Q.Ratifier in
            OnOk result (self.new.core ≡ P.with_mark self.old.core mark.End) }
        ensures action { let P = process_by Q.Ratifier in
            OnOk result (actions_of P self.new ≡ actions_of P self.old ++ HasMarked mark.End ∷ []) }
        ensures could { OnOk result (CanClose ((process_by Q.Ratifier).queue self.old.core)) }
        ensures fault { IfErr result (IsCloseFault ((process_by Q.Ratifier).queue self.old.core)) }
        ensures refused { OnErr result (self.new.core ≡ self.old.core) }
        ensures seat { self.new.seat ≡ self.old.seat }
    {
        let closed = self.sender.close();
        self.closes = self.closes || closed.is_ok();
        closed
    }

    /// Lets a leave mark wait, which says in the order that this sender has left, once it is sent.
    /// Nothing of this sender follows it, and it stays away until the next sitting. Refused where
    /// `close` is. Takes no step. A fault changes nothing.
    pub fn leave(&mut self) -> Result<(), CloseFault>
        ensures taken { let P = process_by Q.Ratifier in
            OnOk result (self.new.core ≡ P.with_mark self.old.core mark.Leave) }
        ensures action { let P = process_by Q.Ratifier in OnOk result
            (actions_of P self.new ≡ actions_of P self.old ++ HasMarked mark.Leave ∷ []) }
        ensures could { OnOk result (CanClose ((process_by Q.Ratifier).queue self.old.core)) }
        ensures fault { IfErr result (IsCloseFault ((process_by Q.Ratifier).queue self.old.core)) }
        ensures refused { OnErr result (self.new.core ≡ self.old.core) }
        ensures seat { self.new.seat ≡ self.old.seat }
    {
        self.sender.leave()
    }

    /// Puts the messages that wait in its batch into that of `next`, in their order and behind what
    /// waits there; they wait here too. So what was not sent in one sitting goes on in the next:
    /// put first into the next sender of this number, messages get the numbers that they were
    /// answered before.
    ///
    /// While it has begun a tenure the answer is Busy: its messages may stand in the order already,
    /// or come into it by the turns of `finish`. After Full, which gives the page back, it has
    /// begun none, and none of them stands in the order. Else it is BatchFull where they do not fit
    /// beside what waits there, and otherwise what a put gives, or Ok where none waits. Takes no
    /// step. A fault changes nothing.
    pub fn carry_to<S>(&self, next: &mut SenderHandle<Q, S>) -> Result<(), PutFault>
        ensures carried { OnOk result
            (Carries (process_by Q.Ratifier) self.now next.old next.new) }
        ensures begun { IsSome (tenure_begun self.now.core) → result ≡ Err PutFault.Busy }
        ensures fault { IfErr result (CarryRefused (process_by Q.Ratifier) self.now next.old) }
        ensures refused { OnErr result (next.new.core ≡ next.old.core) }
        ensures seat { next.new.seat ≡ next.old.seat }
    {
        self.sender.carry_to(&mut next.sender)
    }

    /// One turn: at most one step on one word of the bus. `word` is the random word of a vote;
    /// other steps do not look at it.
    pub fn turn(&mut self, word: u32) -> Turn
        ensures table { table_of self.new ≡ table_of self.old }
        ensures rests { let P = process_by Q.Ratifier in P.op self.old.core word ≡ None
            → (self.new ≡ self.old) × (result ≡ P.rest self.old.core)
            × RestTells self.old.core result }
        ensures steps { let P = process_by Q.Ratifier in (op : Op)
            → P.op self.old.core word ≡ Some op
            → TookAndTold P (FeedTells (election_of Q.Ratifier)) self.old word result self.new }
    {
        let bus: &Bus<Q> = &self.bus;
        self.sender.turn(bus, word)
    }

    /// A turn with this random word, and as long as the last one was answered Going up to so many
    /// more that ask for no word. The answer is the last one's.
    ///
    /// So Going says that the next turn is a vote, for which it is to be called again with another
    /// word, or that all of them were taken. It waits for nothing.
    pub fn turns(&mut self, word: u32, more: u64) -> Turn
        ensures table { table_of self.new ≡ table_of self.old }
        ensures turns { TakesUpTo (process_by Q.Ratifier) (tells_by Q.Ratifier) self.old word more
            result self.new }
    {
        let bus: &Bus<Q> = &self.bus;
        self.sender.turns(bus, word, more)
    }

    /// Wakes those that sleep at handles of this bus. The calls that wait ring by themselves. After
    /// `turn`, `turns` or `finish` was answered Delivered, Left, Closed, Full or Behind it wakes
    /// others at once, which else look again within 0.1 s.
    pub fn ring(&self) {
        self.bell.ring();
    }

    /// Turns, until there is nothing more to do, or nothing more that can be done: Idle, Delivered,
    /// Left, Full, Closed or Spent. It waits for nothing but its own next turn, and that it ends is
    /// not promised.
    #[must_use]
    pub fn send<W: Wait>(&mut self, wait: &W) -> Turn
        ensures table { table_of self.new ≡ table_of self.old }
        ensures sends { Sends (process_by Q.Ratifier) (tells_by Q.Ratifier) self.old result
            self.new }
        ensures keeps { is_refusal result ≡ true
            → KeptAfter (process_by Q.Ratifier) self.old result self.new }
        ensures puts { let P = process_by Q.Ratifier in
            puts (actions_of P self.new) ≡ puts (actions_of P self.old) }
    {
        let bus: &Bus<Q> = &self.bus;
        let waiter = self.bell.waiter(wait);
        self.sender.send(&waiter, bus, &mut self.rng)
    }

    /// As `send`, but that it can be told to stop: each time a turn answers Waiting or Behind it
    /// asks `go_on` once, goes on where that says yes, and gives None where it says no. It asks
    /// nowhere else. The batch is kept then, and any later turn goes on with it. After Behind the
    /// sender holds the page, which nobody else has until then.
    #[must_use]
    pub fn send_while<W: Wait, F: FnMut() -> bool>(&mut self, wait: &W, go_on: F) -> Option<Turn>
        requires { F.IsAlwaysCallable go_on }
        ensures table { table_of self.new ≡ table_of self.old }
        ensures sends { IfSome result
            (λ turn. SendsAsking (process_by Q.Ratifier) (tells_by Q.Ratifier) F.step self.old go_on
            turn self.new) }
        ensures stops { IfNone result (StopsWaiting (process_by Q.Ratifier) (tells_by Q.Ratifier)
            F.step self.old go_on self.new) }
        ensures keeps { let P = process_by Q.Ratifier in
            IfSome result (λ turn. is_refusal turn ≡ true → KeptAfter P self.old turn self.new) }
        ensures waits { let P = process_by Q.Ratifier in
            IfNone result (waiting_of P self.new ≡ waiting_of P self.old) }
        ensures puts { let P = process_by Q.Ratifier in
            puts (actions_of P self.new) ≡ puts (actions_of P self.old) }
    {
        let bus: &Bus<Q> = &self.bus;
        let waiter = self.bell.asked(wait);
        self.sender.send_while(&waiter, bus, &mut self.rng, go_on)
    }

    /// As `send`, but that it waits for nobody: None where a turn answers Waiting or Behind, since
    /// another sender is at work. The batch is kept then, and any later turn goes on with it.
    #[must_use]
    pub fn try_send<W: Wait>(&mut self, wait: &W) -> Option<Turn>
        ensures table { table_of self.new ≡ table_of self.old }
        ensures sends { IfSome result (λ turn. SendsAsking (process_by Q.Ratifier)
            (tells_by Q.Ratifier) SaysNo self.old tt turn self.new) }
        ensures stops { IfNone result (StopsWaiting (process_by Q.Ratifier) (tells_by Q.Ratifier)
            SaysNo self.old tt self.new) }
        ensures keeps { let P = process_by Q.Ratifier in
            IfSome result (λ turn. is_refusal turn ≡ true → KeptAfter P self.old turn self.new) }
        ensures waits { let P = process_by Q.Ratifier in
            IfNone result (waiting_of P self.new ≡ waiting_of P self.old) }
        ensures puts { let P = process_by Q.Ratifier in
            puts (actions_of P self.new) ≡ puts (actions_of P self.old) }
    {
        self.send_while(wait, || false)
    }

    /// As `send_while`, for so long at most: None where it has waited so long, by a clock of the
    /// system that never goes back. It is right to about a millisecond where the thread has a core.
    /// A clock that cannot be read ends it at once, but after a turn.
    #[must_use]
    pub fn send_timeout<T: Wait + Clock>(&mut self, clock: &T, time: Duration) -> Option<Turn>
        ensures table { table_of self.new ≡ table_of self.old }
        ensures sends { IfSome result (λ turn. SendsAsking (process_by Q.Ratifier)
            (tells_by Q.Ratifier) SaysEither self.old tt turn self.new) }
        ensures stops { IfNone result (StopsWaiting (process_by Q.Ratifier) (tells_by Q.Ratifier)
            SaysEither self.old tt self.new) }
        ensures keeps { let P = process_by Q.Ratifier in
            IfSome result (λ turn. is_refusal turn ≡ true → KeptAfter P self.old turn self.new) }
        ensures waits { let P = process_by Q.Ratifier in
            IfNone result (waiting_of P self.new ≡ waiting_of P self.old) }
        ensures puts { let P = process_by Q.Ratifier in
            puts (actions_of P self.new) ≡ puts (actions_of P self.old) }
    {
        let deadline = Deadline::after(clock, time);
        let bus: &Bus<Q> = &self.bus;
        let waiter = self.bell.asked(clock);
        self.sender
            .send_while(&waiter, bus, &mut self.rng, || waiter.has_time(&deadline))
    }

    /// The frame of its batch is no longer than the log of its bus. Where it is longer, it is Full
    /// for good. Takes no step.
    pub fn fits(&self) -> bool
        ensures { IsTrue result ↔ Fits (process_by Q.Ratifier) self.now.core }
    {
        self.sender.fits()
    }

    /// There is room for its batch: a look at the length, and at the places that the receivers of a
    /// ring have passed. It is no turn, and changes nothing of the sender but the looks that its
    /// seat shows. Yes is no promise, since another sender may take the room first; no may be yes
    /// by now.
    #[must_use]
    pub fn has_room(&mut self) -> bool
        ensures table { table_of self.new ≡ table_of self.old }
        ensures looked { (plan : Plan) × LooksForRoom (process_by Q.Ratifier)
            (automaton_by Q.Ratifier plan) self.old result self.new }
        ensures fits { IsTrue result → Fits (process_by Q.Ratifier) self.old.core }
    {
        let bus: &Bus<Q> = &self.bus;
        self.sender.has_room(bus)
    }

    /// As `send_while`, but that it goes on after Full: it looks until there is room, asks `go_on`
    /// once before each look too, and takes turns again. So Full is never its answer. A batch that
    /// is longer than the log is told before the first turn, and nothing changes then.
    ///
    /// Of a ring there is room once each receiver has passed enough, or has left. A frame that was
    /// heard is passed by the next turn of its receiver. Who hears in the same thread calls `send`
    /// and hears where it is answered Full: nobody hears while this call waits.
    pub fn send_when_room<W: Wait, F: FnMut() -> bool>(
        &mut self,
        wait: &W,
        go_on: F,
    ) -> Result<Option<Turn>, NeverFits>
        requires { F.IsAlwaysCallable go_on }
        ensures table { table_of self.new ≡ table_of self.old }
        ensures fits { OnOk result (Fits (process_by Q.Ratifier) self.old.core) }
        ensures never { OnErr result (¬ Fits (process_by Q.Ratifier) self.old.core) }
        ensures same { OnErr result (self.new ≡ self.old) }
        ensures sends { IfOk result (λ answered. IfSome answered (λ turn. (plan : Plan)
            × SendsForRoom (process_by Q.Ratifier) (automaton_by Q.Ratifier plan)
            (tells_by Q.Ratifier) F.step self.old go_on turn self.new)) }
        ensures stops { IfOk result (λ answered. IfNone answered ((plan : Plan)
            × StopsForRoom (process_by Q.Ratifier) (automaton_by Q.Ratifier plan)
            (tells_by Q.Ratifier) F.step self.old go_on self.new)) }
        ensures keeps { let P = process_by Q.Ratifier in IfOk result (λ answered. IfSome answered
            (λ turn. is_refusal turn ≡ true → KeptAfter P self.old turn self.new)) }
        ensures waits { let P = process_by Q.Ratifier in IfOk result (λ answered. IfNone answered
            (waiting_of P self.new ≡ waiting_of P self.old)) }
        ensures puts { let P = process_by Q.Ratifier in
            puts (actions_of P self.new) ≡ puts (actions_of P self.old) }
    {
        let bus: &Bus<Q> = &self.bus;
        let waiter = self.bell.asked(wait);
        self.sender
            .send_when_room(&waiter, bus, &mut self.rng, go_on)
    }

    /// Sends messages in their order: first what waits in its batch, and then these, in batches of
    /// as many as one may have, of which the last may be smaller. Ok where no message waits any
    /// more. It stops at the first batch that is not sent off, which is kept, and at the first
    /// message that is refused. It waits as `send` does, and that it ends is not promised.
    pub fn send_all<W: Wait>(&mut self, wait: &W, messages: &[Message]) -> Result<(), Unsent>
        ensures table { table_of self.new ≡ table_of self.old }
        ensures all { OnOk result (HasSent (process_by Q.Ratifier) (tells_by Q.Ratifier) self.old
            messages.now self.new) }
        ensures part { IfErr result (λ unsent. HasSentPart (process_by Q.Ratifier)
            (tells_by Q.Ratifier) self.old messages.now unsent self.new) }
    {
        let bus: &Bus<Q> = &self.bus;
        let waiter = self.bell.waiter(wait);
        self.sender.send_all(&waiter, bus, &mut self.rng, messages)
    }

    /// Sends what waits, as `send` does: Ok where messages were delivered, with their numbers, and
    /// else why none was.
    pub fn deliver<W: Wait>(&mut self, wait: &W) -> Result<Delivered, NotDelivered>
        ensures table { table_of self.new ≡ table_of self.old }
        ensures delivered { IfOk result (λ done. Sends (process_by Q.Ratifier)
            (tells_by Q.Ratifier) self.old (delivered_turn done) self.new) }
        ensures not_delivered { let P = process_by Q.Ratifier in let T = tells_by Q.Ratifier in
            IfErr result (λ why. DeliversNone P (λ turn. Sends P T self.old turn self.new) self.old
            why self.new) }
        ensures puts { let P = process_by Q.Ratifier in
            puts (actions_of P self.new) ≡ puts (actions_of P self.old) }
    {
        let bus: &Bus<Q> = &self.bus;
        let waiter = self.bell.waiter(wait);
        let turn = self.sender.send(&waiter, bus, &mut self.rng);
        answered(turn)
    }

    /// As `deliver`, but that it waits for room where it is answered Full, as `send_when_room`
    /// does. So Full is never why none was delivered. NeverFits is, where its batch is longer than
    /// the log and nowhere else, and nothing changes then.
    pub fn deliver_when_room<W: Wait>(&mut self, wait: &W) -> Result<Delivered, NotDelivered>
        ensures table { table_of self.new ≡ table_of self.old }
        ensures delivered { IfOk result (λ done. (plan : Plan)
            × SendsForRoom (process_by Q.Ratifier) (automaton_by Q.Ratifier plan)
            (tells_by Q.Ratifier) SaysYes self.old tt (delivered_turn done) self.new) }
        ensures not_delivered { let P = process_by Q.Ratifier in
            let A = automaton_by Q.Ratifier in let T = tells_by Q.Ratifier in
            IfErr result (λ why. why ≢ NotDelivered.NeverFits
            → DeliversNone P (λ turn. (plan : Plan)
            × SendsForRoom P (A plan) T SaysYes self.old tt turn self.new) self.old why self.new) }
        ensures full { IfErr result (λ why. why ≢ NotDelivered.Full) }
        ensures never { result ≡ Err NotDelivered.NeverFits
            ↔ ¬ Fits (process_by Q.Ratifier) self.old.core }
        ensures same { result ≡ Err NotDelivered.NeverFits → self.new ≡ self.old }
        ensures puts { let P = process_by Q.Ratifier in
            puts (actions_of P self.new) ≡ puts (actions_of P self.old) }
    {
        let bus: &Bus<Q> = &self.bus;
        let waiter = self.bell.waiter(wait);
        match self
            .sender
            .send_when_room(&waiter, bus, &mut self.rng, || true)
        {
            Ok(Some(turn)) => answered(turn),
            Ok(None) => unreachable!(),
            Err(_) => Err(NotDelivered::NeverFits),
        }
    }

    /// Closes, and sends that as `send` does: Ok where the order has ended then, and else why the
    /// close was not taken, or what sending it was answered. Of a ring that may be Full: its mark
    /// waits then, and once the receivers have passed enough `send` goes on with it.
    pub fn end_order<W: Wait>(&mut self, wait: &W) -> Result<(), OrderNotEnded>
        ensures table { table_of self.new ≡ table_of self.old }
        ensures ended { OnOk result (ClosesAndSends (process_by Q.Ratifier)
            (tells_by Q.Ratifier) self.old Turn.Closed self.new) }
        ensures not_ended { IfErr result (λ why. NotEndedFor (process_by Q.Ratifier)
            (tells_by Q.Ratifier) self.old why self.new) }
        ensures puts { let P = process_by Q.Ratifier in
            puts (actions_of P self.new) ≡ puts (actions_of P self.old) }
    {
        if let Err(why) = self.sender.close() {
            return Err(OrderNotEnded::Close(why));
        }
        self.closes = true;
        let bus: &Bus<Q> = &self.bus;
        let waiter = self.bell.waiter(wait);
        let turn = self.sender.send(&waiter, bus, &mut self.rng);
        order_ended(turn)
    }
}
