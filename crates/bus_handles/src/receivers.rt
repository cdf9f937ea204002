//! A receiver with its bus.

ghost use Rattle.std.specs.Prelude.{◌≡◌, ◌≢◌, ℕ, ◌≤◌, List, length, Some, None, IfOk, false};
ghost use Rattle.std.specs.Ordering.{nat_cmp};
ghost use Rattle.std.specs.Arc.{arc_value};
ghost use Rattle.bus_automaton.specs.Buses.{process_by, automaton_by, plan_passers};
ghost use Rattle.bus_pageslot.specs.Endings.{IsLeft};
ghost use Rattle.bus_pageslot.specs.Rule.{receiver_view_in, known_in, table_layout_in};
ghost use Rattle.bus_pageslot.specs.Listening.{Hears, HearsAfter, HearsSigned};
ghost use Rattle.bus_pageslot.specs.Steps.{HasLeftBy, Learns};
ghost use Rattle.bus_pageslot.specs.Seats.{table_of, actions_of, stored_of};
ghost use Rattle.bus_receiver.specs.Forking.{HasForked, FindsNoSeat};
ghost use Rattle.bus_receiver.specs.Listening.{bus_of, Takes, HaveMet, IsTold};
ghost use Rattle.bus_receiver.specs.Listening.{PassesTo, PassesWhile, item_or_end, written_or_end};
ghost use Rattle.bus_receiver.specs.Listening.{next_of, LeavesPlace};
ghost use Rattle.bus_handles.specs.Asking.{SaysEither};

use crate::answers::{BusNotEnded, ForkFault};
use crate::senders::SenderHandle;
use bus_adoptcommit::{Ratifier, ThreeWord};
use bus_batch::Item;
use bus_deliverylog::RecvTurn;
use bus_pageslot::{Bus, Ended};
use bus_receiver::{Found, ItemTurn, Left, Next, Receiver};
use bus_waiting::{Deadline, SharedBell, Waiting};
use std::alloc::AllocError;
use std::cmp::Ordering;
use std::marker::Model;
use std::sync::{Arc, Wait};
use std::time::{Clock, Duration};

/// A receiver with its bus. One thread at a time has it. Its calls are those of `Receiver`, and
/// none of them takes memory. A handle that is let go leaves, so that no ring waits for it, and a
/// fork of another receiver may take its number.
pub struct ReceiverHandle<Q: Ratifier = ThreeWord> {
    bus: Arc<Bus<Q>>,
    bell: SharedBell,
    receiver: Receiver<Q>,
}

impl<Q: Ratifier> Model for ReceiverHandle<Q> {
    ghost use Rattle.std.specs.Prelude.{◌≡◌};
    ghost use Rattle.std.specs.Arc.{arc_value};
    ghost use Rattle.bus_tenure.specs.Elections.{Elector};
    ghost use Rattle.bus_core.specs.Senders.{Sender as Held};
    ghost use Rattle.bus_receiver.specs.Listening.{bus_of};
    ghost use Rattle.bus_handles.specs.Handles.{SeatOfBus};

    ghost Value = { SeatOfBus (Held (Elector Q)) };

    ghost view = { λ h. record { bus = arc_value h.bus; me = h.receiver.me } };

    ghost invariant = { λ h. bus_of h.receiver ≡ (arc_value h.bus).table };
}

impl<Q: Ratifier + Drop> ReceiverHandle<Q> {
    ghost use Rattle.bus_handles.specs.Handles.{seat_of};

    /// This receiver of this bus.
    pub(crate) fn new(
        bus: Arc<Bus<Q>>,
        bell: SharedBell,
        receiver: Receiver<Q>,
    ) -> ReceiverHandle<Q>
        requires { bus_of receiver ≡ (arc_value bus).table }
        ensures bus { result.bus ≡ arc_value bus }
        ensures seat { seat_of result ≡ receiver }
    {
        ReceiverHandle {
            bus,
            bell,
            receiver,
        }
    }

    /// The same receiver, whose calls wait so from now on. At first they sleep.
    pub fn with_waiting(self, waiting: Waiting) -> ReceiverHandle<Q>
        ensures { result ≡ self }
    {
        let ReceiverHandle {
            bus,
            bell,
            receiver,
        } = self;
        ReceiverHandle {
            bus,
            bell: bell.with(waiting),
            receiver,
        }
    }

    /// Where its bus lies, as `SenderHandle::bus_place`.
    pub fn bus_place(&self) -> *const Bus<Q> {
        Arc::as_ptr(&self.bus)
    }

    /// How many words it has read.
    pub fn place(&self) -> u64
        ensures place { result ≡ (receiver_view_in self.now.me.0).place }
        ensures within { result ≤ length (known_in self.now.me.0) }
    {
        self.receiver.place()
    }

    /// How many words of the log it knows; 0 before its first load.
    pub fn known(&self) -> u64
        ensures { result ≡ length (known_in self.now.me.0) }
    {
        self.receiver.known()
    }

    /// The end was among what it was answered.
    pub fn has_ended(&self) -> bool
        ensures { result ≡ (receiver_view_in self.now.me.0).ended }
    {
        self.receiver.has_ended()
    }

    /// Of a ring: the place that it has stored last, before which the cells may be used again; 0
    /// before the first such store. Of another bus 0.
    #[inline(always)]
    pub fn passed(&self) -> u64
        ensures passed { result ≡ (receiver_view_in self.now.me.0).passed }
        ensures within { result ≤ (receiver_view_in self.now.me.0).place }
        ensures never { (table_layout_in self.now.me.0).passers ≡ 0 → result ≡ 0 }
    {
        self.receiver.passed()
    }

    /// One turn. Of a ring, a store of its place where it has heard a whole frame since the last
    /// such store. Else a load of the length where it has read all that it knows, and a load of the
    /// word at its place where it has not. After the end it takes no step.
    #[inline(always)]
    pub fn turn(&mut self) -> RecvTurn
        ensures bus { self.new.bus ≡ self.old.bus }
        ensures hears { Hears self.old.me result self.new.me }
    {
        let bus: &Bus<Q> = &self.bus;
        self.receiver.turn(bus)
    }

    /// One turn or more. All but the last take words that say nothing by themselves, and answer
    /// Going. Of the last one it tells the answer, with an item written in its place; any other
    /// answer leaves that as it was. A head or a leave mark is told as Going: `turn` tells which.
    #[inline(always)]
    pub fn item_turns(&mut self, item: &mut Item) -> ItemTurn
        ensures bus { self.new.bus ≡ self.old.bus }
        ensures hears { HearsAfter self.old.me item.old result item.new self.new.me }
    {
        let bus: &Bus<Q> = &self.bus;
        self.receiver.item_turns(bus, item)
    }

    /// As `item_turns`, and a head or a leave mark of the last turn is written as the sign. Any
    /// other answer leaves that as it was.
    #[inline(always)]
    pub fn signed_turns(&mut self, item: &mut Item, sign: &mut RecvTurn) -> ItemTurn
        ensures bus { self.new.bus ≡ self.old.bus }
        ensures hears { HearsSigned self.old.me item.old sign.old result item.new sign.new
            self.new.me }
    {
        let bus: &Bus<Q> = &self.bus;
        self.receiver.signed_turns(bus, item, sign)
    }

    /// Wakes those that sleep at handles of this bus. The calls that wait ring by themselves, and
    /// so does `leave`. After `turn` or `item_turns` of a ring has stored its place (`passed`) it
    /// wakes those that wait for room, which else look again within 0.1 s.
    pub fn ring(&self) {
        self.bell.ring();
    }

    /// A share of the bell of its bus, for who waits for two things: a waiter of it rests until a
    /// call at another handle of the bus has got somewhere. It waits as this handle does. It takes
    /// no memory; an error says that the bell has too many shares.
    pub fn bell(&self) -> Result<SharedBell, AllocError> {
        self.bell.again()
    }

    /// Turns, until one finds a head, an item, a leave mark or the end. That it ends is not
    /// promised.
    pub fn take<W: Wait>(&mut self, wait: &W) -> RecvTurn
        ensures bus { self.new.bus ≡ self.old.bus }
        ensures takes { Takes self.old.me result self.new.me }
    {
        let bus: &Bus<Q> = &self.bus;
        let waiter = self.bell.waiter(wait);
        self.receiver.take(&waiter, bus)
    }

    /// Turns, until one finds an item or the end: the item, and none at the end and ever after. It
    /// passes over leave marks. It waits as `take` does, and that it ends is not promised.
    pub fn next_item<W: Wait>(&mut self, wait: &W) -> Option<Item>
        ensures bus { self.new.bus ≡ self.old.bus }
        ensures passes { PassesTo self.old.me (item_or_end result) self.new.me }
    {
        let bus: &Bus<Q> = &self.bus;
        let waiter = self.bell.waiter(wait);
        let mut item = Item::blank();
        if self.receiver.next_item_in_place(&waiter, bus, &mut item) {
            Some(item)
        } else {
            None
        }
    }

    /// As `next_item`, with the item written in place, so that it is moved less: it says whether it
    /// has written one. At the end and ever after it has not, and the place is as it was.
    #[must_use]
    pub fn next_item_in_place<W: Wait>(&mut self, wait: &W, item: &mut Item) -> bool
        ensures bus { self.new.bus ≡ self.old.bus }
        ensures passes { PassesTo self.old.me (written_or_end result item.new) self.new.me }
        ensures kept { result ≡ false → item.new ≡ item.old }
    {
        let bus: &Bus<Q> = &self.bus;
        let waiter = self.bell.waiter(wait);
        self.receiver.next_item_in_place(&waiter, bus, item)
    }

    /// As `next_item`, but that it can be told to stop: each time a turn finds nothing more it asks
    /// `go_on` once, goes on where that says yes, and answers Stopped where it says no. It asks
    /// nowhere else. So what it knows of the log comes first.
    pub fn next_item_while<W: Wait, F: FnMut() -> bool>(&mut self, wait: &W, go_on: F) -> Next
        requires { F.IsAlwaysCallable go_on }
        ensures bus { self.new.bus ≡ self.old.bus }
        ensures passes { PassesWhile F.step self.old.me go_on result self.new.me }
    {
        let bus: &Bus<Q> = &self.bus;
        let waiter = self.bell.asked(wait);
        self.receiver.next_item_while(&waiter, bus, go_on)
    }

    /// As `next_item_while`, for so long at most: Stopped where it has waited so long, by a clock
    /// of the system that never goes back. What it knows of the log comes first. It is right to
    /// about a millisecond where the thread has a core. A clock that cannot be read stops it at
    /// once.
    pub fn next_item_timeout<T: Wait + Clock>(&mut self, clock: &T, time: Duration) -> Next
        ensures bus { self.new.bus ≡ self.old.bus }
        ensures passes { PassesWhile SaysEither self.old.me tt result self.new.me }
    {
        let deadline = Deadline::after(clock, time);
        let bus: &Bus<Q> = &self.bus;
        let waiter = self.bell.asked(clock);
        self.receiver
            .next_item_while(&waiter, bus, || waiter.has_time(&deadline))
    }

    /// As `next_item_while`, with the item written in place, so that it is moved less. Where it
    /// finds none the place is as it was.
    #[must_use]
    pub fn next_item_in_place_while<W: Wait, F: FnMut() -> bool>(
        &mut self,
        wait: &W,
        go_on: F,
        item: &mut Item,
    ) -> Found
        requires { F.IsAlwaysCallable go_on }
        ensures bus { self.new.bus ≡ self.old.bus }
        ensures passes { PassesWhile F.step self.old.me go_on (next_of result item.new)
            self.new.me }
        ensures kept { LeavesPlace result item.old item.new }
    {
        let bus: &Bus<Q> = &self.bus;
        let waiter = self.bell.asked(wait);
        self.receiver
            .next_item_in_place_while(&waiter, bus, go_on, item)
    }

    /// Looks how long the log is, beside its turns: how many words were published by then. It knows
    /// all of them from then on. One load of the length.
    pub fn look(&mut self) -> u64
        ensures bus { self.new.bus ≡ self.old.bus }
        ensures learns { Learns self.old.me result self.new.me }
    {
        let bus: &Bus<Q> = &self.bus;
        self.receiver.look(bus)
    }

    /// A sender of the same bus tells it of the log: it knows from then on all that the sender has
    /// published.
    pub fn told<R>(&mut self, sender: &mut SenderHandle<Q, R>)
        requires { table_of sender.old ≡ self.old.bus.table }
        ensures bus { (self.new.bus ≡ self.old.bus)
            × (table_of sender.new ≡ table_of sender.old) }
        ensures told { let P = process_by Q.Ratifier in
            IsTold P sender.old.core (actions_of P sender.old) (stored_of sender.old)
            self.old.me self.new.me }
        ensures sender { (sender.new.core ≡ sender.old.core)
            × (sender.new.seat.me ≡ sender.old.seat.me) }
    {
        let bus: &Bus<Q> = &self.bus;
        self.receiver.told(&mut sender.sender, bus);
    }

    /// Two receivers of one bus meet: from then on both know the log up to the length that is
    /// loaded. Answers how its place compares with the other's: Less where it has read fewer words.
    pub fn meet(&mut self, other: &mut ReceiverHandle<Q>) -> Ordering
        requires { other.old.bus.table ≡ self.old.bus.table }
        ensures bus { (self.new.bus ≡ self.old.bus) × (other.new.bus ≡ other.old.bus) }
        ensures order { result
            ≡ nat_cmp (receiver_view_in self.old.me.0).place
            (receiver_view_in other.old.me.0).place }
        ensures met { HaveMet self.old.me other.old.me self.new.me other.new.me }
    {
        let bus: &Bus<Q> = &self.bus;
        self.receiver.meet(&mut other.receiver, bus)
    }

    /// Another receiver with this bus, which is given from now on just what this one will be given:
    /// it goes on from the same place, and waits as this one does. Both are of one thread during
    /// the call, and then each goes where it likes. A `Heard` of this one is no part of the handle:
    /// who counts by one copies it too (`Heard::copied`).
    ///
    /// Of a ring the new one takes the lowest number above this one's that is free. Each try is one
    /// step. Dropping it leaves, and frees its number. NoSeat says that each was taken when it was
    /// tried; as only higher numbers are tried, they run out at the top. To keep seats for later,
    /// open a ring with more receivers than are needed, and let the spare ones leave at the start,
    /// by `leave` or by a drop.
    ///
    /// Of another bus it is a copy, never answered NoSeat, and its seat shows no step. It takes no
    /// memory: by the code NoMemory says that the bus has too many handles.
    pub fn fork(&mut self) -> Result<ReceiverHandle<Q>, ForkFault>
        ensures bus { (self.new.bus ≡ self.old.bus)
            × IfOk result (λ made. made.bus ≡ self.old.bus) }
        ensures made { IfOk result (λ made. HasForked self.old.me made.me self.new.me) }
        ensures none { result ≡ Err ForkFault.NoSeat → FindsNoSeat self.old.me self.new.me }
        ensures never { (table_layout_in self.old.me.0).passers ≡ 0
            → result ≢ Err ForkFault.NoSeat }
        ensures memory { result ≡ Err ForkFault.NoMemory → self.new ≡ self.old }
    {
        let Ok((bus, bell)) = self.shares() else {
            return Err(ForkFault::NoMemory);
        };
        let shared: &Bus<Q> = &bus;
        let Some(receiver) = self.receiver.fork(shared) else {
            return Err(ForkFault::NoSeat);
        };
        Ok(ReceiverHandle::new(bus, bell, receiver))
    }

    /// Its bus and its bell, for another handle.
    fn shares(&self) -> Result<(Arc<Bus<Q>>, SharedBell), AllocError>
        ensures { IfOk result (λ shares. arc_value shares.0 ≡ self.now.bus) }
    {
        let bus = Arc::try_clone(&self.bus)?;
        let bell = self.bell.again()?;
        Ok((bus, bell))
    }

    /// Leaves for good: no cell of a ring waits for this receiver any more, and those that wait for
    /// room wake. What it gives is the seat that has left; nobody has to keep it. Each handle that
    /// is let go leaves too, and so does `end` where it is answered InUse; but these wake nobody.
    /// Of another bus it is no step.
    pub fn leave(self) -> Left<Q>
        ensures table { result.table_id ≡ self.bus.table }
        ensures left { HasLeftBy self.me result.me }
    {
        let ReceiverHandle {
            bus,
            bell,
            receiver,
        } = self;
        let left = leave(&bus, receiver);
        bell.ring();
        left
    }

    /// Ends the bus by this handle, where it is the last one: what stands of its log and its page,
    /// where the page is at home. The handle is gone in either case, and with the last one the bus.
    /// Where it is answered InUse the receiver has left.
    pub fn end(self) -> Result<Ended, BusNotEnded>
        ensures ended { IfOk result
            (λ left. IsLeft (process_by Q.Ratifier) (automaton_by Q.Ratifier self.bus.plan)
            self.me.0 left.log left.floor (Some left.page)) }
        ensures flat { IfOk result (λ left. plan_passers self.bus.plan ≡ 0 → left.floor ≡ 0) }
        ensures senders { IfOk result (λ left. left.senders ≡ self.bus.plan.shape.senders) }
        ensures bases { IfOk result (λ left. left.bases ≡ self.bus.plan.bases) }
        ensures out { result ≡ Err BusNotEnded.PageOut → (log : List ℕ) × (floor : ℕ)
            × IsLeft (process_by Q.Ratifier) (automaton_by Q.Ratifier self.bus.plan)
            self.me.0 log floor None }
    {
        let ReceiverHandle {
            bus,
            bell: _bell,
            receiver,
        } = self;
        match Arc::try_unwrap(bus) {
            Ok(bus) => match Receiver::end(bus, receiver) {
                Ok(ended) => Ok(ended),
                Err(_) => Err(BusNotEnded::PageOut),
            },
            Err(shared) => {
                let _ = leave(&shared, receiver);
                Err(BusNotEnded::InUse)
            }
        }
    }
}

/// Whoever lets a handle go leaves by it. Those that wait for room see it within 0.1 s: what C
/// links drops handles too, and may wake nobody.
impl<Q: Ratifier + Drop> Drop for ReceiverHandle<Q> {
    fn drop(self) {
        let ReceiverHandle {
            bus,
            bell: _bell,
            receiver,
        } = self;
        let _ = leave(&bus, receiver);
    }
}

/// The receiver leaves for good.
fn leave<Q: Ratifier + Drop>(bus: &Bus<Q>, receiver: Receiver<Q>) -> Left<Q>
    requires { bus_of receiver ≡ bus.now.table }
    ensures table { result.table_id ≡ bus.now.table }
    ensures left { HasLeftBy receiver.me result.me }
{
    receiver.leave(bus)
}
