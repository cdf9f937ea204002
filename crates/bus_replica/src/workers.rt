//! What a worker's sender and receiver do for the calls of its replica.

ghost use Rattle.std.specs.Prelude.{◌≡◌, ℕ, ◌+◌, ◌<◌, ◌≤◌, ◌⊎◌, IfOk, IfErr, IfSome, IfNone};
ghost use Rattle.std.specs.Prelude.{OnOk, OnErr, IsTrue, None, [], ◌∷◌, ◌++◌, length, true, false};
ghost use Rattle.bus_batch.specs.Batches.{CanPut, IsPutFault, IsCloseFault};
ghost use Rattle.bus_register.specs.declared.limits.TheConstants.{MOST_BYTES, MOST_MESSAGES};
ghost use Rattle.bus_automaton.specs.ThreeWordBuses.{process};
ghost use Rattle.bus_core.specs.Seen.{tenure_begun};
ghost use Rattle.bus_pageslot.specs.Rule.{known_in, receiver_view_in};
ghost use Rattle.bus_pageslot.specs.Seats.{table_of};
ghost use Rattle.bus_pageslot.specs.Sendings.{limit_of, waiting_of};
ghost use Rattle.bus_replica.specs.Causes.{tells, HearsEnd, IsCause, IsEndCause, RefusesPut};
ghost use Rattle.bus_replica.specs.Causes.{SaysOn, SaysStop, WasAnswered};
ghost use Rattle.bus_replica.specs.Replicas.{IsFold, StandsLast, PutsAll, PutsNow, PutsStay};
ghost use Rattle.bus_replica.specs.Replicas.{PutsAllOrNone, IsOpenWith};
ghost use Rattle.bus_replica.specs.Replicas.{LeadTo, replayed_by, sitting_of};
ghost use Rattle.bus_replica.specs.Replicas.{GoesOn, HasCaughtUp, HaveAllLeft, HearsOut};
ghost use Rattle.bus_replica.specs.Replicas.{HasNobodyLeft, has_heard_leave};
ghost use Rattle.bus_replica.specs.Replicas.{PutsStayLeaving, Replicated};
ghost use Rattle.bus_automaton.specs.ThreeWordBuses.{Held};

use crate::faults::Fault;
use crate::hearers::Hearer;
use crate::pasts::Past;
use crate::states::State;
use bus_automaton::laws::threads_may_go_by;
use bus_batch::Message;
use bus_deliverylog::Order;
use bus_handles::{CloseFault, PutFault, ReceiverHandle, SenderHandle, SenderNo, ThreeWord, Turn};
use bus_pageslot::sending_laws::senders_stay_who_they_are;
use bus_register::limits::MOST_BYTES;
use bus_waiting::Waiter;
use std::marker::Model;
use std::sync::Wait;
use std::thread;

/// A worker's sender and receiver, and the state of all that it was given.
#[derive(Drop)]
pub struct Worker<S: State> {
    sender: SenderHandle<ThreeWord>,
    hearer: Hearer<S>,
    workers: u8,
    /// Its last turn found no room.
    is_full: bool,
    /// Its leave mark was taken.
    is_leaving: bool,
}

impl<S: State> Model for Worker<S> {
    ghost use Rattle.std.specs.Prelude.{◌≡◌};
    ghost use Rattle.bus_pageslot.specs.Seats.{table_of};
    ghost use Rattle.bus_automaton.specs.ThreeWordBuses.{Held};
    ghost use Rattle.bus_replica.specs.Replicas.{Replicated};

    ghost Value = { Replicated Held S };

    ghost view = { λ r. record {
      sender = r.sender;
      bus = r.hearer.bus;
      me = r.hearer.me;
      state = r.hearer.state;
    } };

    ghost invariant = { λ r. (table_of r.sender ≡ r.hearer.bus.table)
        × (r.workers ≡ r.hearer.bus.plan.shape.senders) };
}

impl<S: State> Worker<S> {
    /// A worker by this sender and this receiver of one bus of so many workers.
    pub(crate) fn new(
        sender: SenderHandle<ThreeWord>,
        receiver: ReceiverHandle<ThreeWord>,
        state: S,
        replayed: Past<Order>,
        workers: u8,
    ) -> Worker<S>
        requires table { table_of sender ≡ receiver.bus.table }
        requires workers { workers ≡ receiver.bus.plan.shape.senders }
        requires fold { IsFold (LeadTo S.is_first S.applies (replayed_by replayed.value)) S.applies
            receiver.me.0 state }
        requires nobody { HasNobodyLeft receiver.me.0 }
        ensures sender { result.sender ≡ sender }
        ensures bus { result.bus ≡ sitting_of receiver.bus (replayed_by replayed.value) }
        ensures me { result.me ≡ receiver.me }
        ensures state { result.state ≡ state }
    {
        Worker {
            sender,
            hearer: Hearer::new(receiver, state, replayed),
            workers,
            is_full: false,
            is_leaving: false,
        }
    }

    /// The worker's number, from 0 on.
    pub(crate) fn number(&self) -> SenderNo
        ensures { result.0 ≡ process.me self.now.sender.core }
    {
        self.sender.number()
    }

    /// How many words its receiver has read.
    pub(crate) fn place(&self) -> u64
        ensures place { result ≡ (receiver_view_in self.now.me.0).place }
        ensures within { result ≤ length (known_in self.now.me.0) }
    {
        self.hearer.place()
    }

    /// The state by what it has applied so far.
    pub(crate) fn state(&self) -> &S
        ensures state { result.now ≡ self.now.state }
        ensures fold { IsFold (LeadTo S.is_first S.applies self.now.bus.replayed) S.applies
            self.now.me.0 self.now.state }
    {
        self.hearer.state()
    }

    /// The state, without the sender and the receiver, which leaves.
    pub(crate) fn into_state(self) -> S
        ensures state { result ≡ self.state }
        ensures fold { IsFold (LeadTo S.is_first S.applies self.bus.replayed) S.applies self.me.0
            self.state }
    {
        let Worker { hearer, .. } = self;
        hearer.into_state()
    }

    /// Applies what has come. Says whether the order has ended.
    pub(crate) fn hear<W: Wait>(&mut self, wait: &W) -> bool
        ensures bus { self.new.bus ≡ self.old.bus }
        ensures sender { self.new.sender ≡ self.old.sender }
        ensures out { HearsOut self.old.me result self.new.me }
    {
        self.hearer.hear(wait)
    }

    /// Applies all that was in the order when this call began, and maybe more.
    pub(crate) fn catch_up<W: Wait>(&mut self, wait: &W)
        ensures bus { self.new.bus ≡ self.old.bus }
        ensures core { self.new.sender.core ≡ self.old.sender.core }
        ensures puts { PutsStay process tells self.old.sender self.new.sender }
        ensures caught { HasCaughtUp self.old.me self.new.me }
    {
        self.hearer.catch_up(wait, &mut self.sender);
    }

    /// Puts operations side by side, sends them and applies what comes up to the last one. A tenure
    /// may be begun then.
    pub(crate) fn execute<W: Wait, F: FnMut() -> bool>(
        &mut self,
        wait: &W,
        waiter: &Waiter<'_, W>,
        go_on: &mut F,
        before: &[Message],
        op: &[u8],
    ) -> Result<S::Answer, Fault>
        requires callable { F.IsAlwaysCallable go_on.old }
        requires short { length op.now ≤ MOST_BYTES }
        requires few { length before.now < MOST_MESSAGES }
        ensures bus { self.new.bus ≡ self.old.bus }
        ensures on { GoesOn self.old.me self.new.me }
        ensures executed { IfOk result (λ answer. (number : ℕ)
            × PutsAll process tells self.old.sender self.new.sender number
            (before.now ++ op.now ∷ [])
            × StandsLast (LeadTo S.is_first S.applies self.new.bus.replayed) S.applies
            self.new.me.0 self.new.state (process.me self.old.sender.core) number answer) }
        ensures refused { OnErr result (PutsAllOrNone process tells self.old.sender
            self.new.sender (before.now ++ op.now ∷ [])) }
        ensures cause { IfErr result
            (IsCause process tells ⊥ (SaysStop F.step go_on.old) self.old self.new) }
    {
        let worker = self.number();
        let number = self.put(wait, waiter, go_on, before, op)?;
        for _ in waiter.forever() {
            let place = self.place();
            self.send(wait)?;
            let found = self.hear_own(wait, worker, number)?;
            if let Some(answer) = found {
                return Ok(answer);
            }
            if !go_on() {
                return Err(Fault::Stopped);
            }
            self.rest(waiter, place);
        }
        unreachable!()
    }

    /// Puts operations side by side, once there is room for all of them in the batch, and gives the
    /// number of the last one. A tenure may be begun then.
    pub(crate) fn put<W: Wait, F: FnMut() -> bool>(
        &mut self,
        wait: &W,
        waiter: &Waiter<'_, W>,
        go_on: &mut F,
        before: &[Message],
        op: &[u8],
    ) -> Result<u64, Fault>
        requires callable { F.IsAlwaysCallable go_on.old }
        requires short { length op.now ≤ MOST_BYTES }
        requires few { length before.now < MOST_MESSAGES }
        ensures callable { F.IsAlwaysCallable go_on.new }
        ensures says { OnOk result (SaysOn F.step go_on.old go_on.new) }
        ensures bus { self.new.bus ≡ self.old.bus }
        ensures on { GoesOn self.old.me self.new.me }
        ensures put { IfOk result (λ number. PutsAll process tells self.old.sender
            self.new.sender number (before.now ++ op.now ∷ [])) }
        ensures refused { OnErr result (PutsStay process tells self.old.sender self.new.sender) }
        ensures cause { IfErr result
            (IsCause process tells ⊥ (SaysStop F.step go_on.old) self.old self.new) }
    {
        for _ in waiter.forever() {
            let place = self.place();
            match self.try_put(before, op) {
                Ok(number) => return Ok(number),
                Err(PutFault::TooLong) => unreachable!(),
                Err(PutFault::Closed) => return Err(Fault::Ended),
                Err(PutFault::Busy | PutFault::BatchFull) => self.round(wait)?,
            }
            if !self.may_go_on(waiter, place, go_on) {
                return Err(Fault::Stopped);
            }
        }
        unreachable!()
    }

    /// Puts operations side by side into the batch, if there is room for all of them now. A fault
    /// changes nothing.
    fn try_put(&mut self, before: &[Message], op: &[u8]) -> Result<u64, PutFault>
        requires short { length op.now ≤ MOST_BYTES }
        requires few { length before.now < MOST_MESSAGES }
        ensures bus { self.new.bus ≡ self.old.bus }
        ensures me { (self.new.me ≡ self.old.me) × (self.new.state ≡ self.old.state) }
        ensures put { IfOk result (λ number. PutsNow process self.old.sender self.new.sender
            number (before.now ++ op.now ∷ [])) }
        ensures refused { OnErr result (PutsStay process tells self.old.sender self.new.sender) }
        ensures fault { IfErr result (RefusesPut (process.queue self.old.sender.core)) }
    {
        match before.split_first() {
            None => self.put_one(op),
            Some((first, rest)) => self.put_several(first, rest, op),
        }
    }

    /// The same of two operations or more.
    fn put_several(&mut self, first: &Message, rest: &[Message], op: &[u8]) -> Result<u64, PutFault>
        requires short { length op.now ≤ MOST_BYTES }
        requires few { length rest.now + 1 < MOST_MESSAGES }
        ensures bus { self.new.bus ≡ self.old.bus }
        ensures me { (self.new.me ≡ self.old.me) × (self.new.state ≡ self.old.state) }
        ensures put { IfOk result (λ number. PutsNow process self.old.sender self.new.sender
            number (first.now ∷ (rest.now ++ op.now ∷ []))) }
        ensures refused { OnErr result (PutsStay process tells self.old.sender self.new.sender) }
        ensures fault { IfErr result (RefusesPut (process.queue self.old.sender.core)) }
    {
        let most = self.sender.batch_limit() as usize;
        let count = rest.len() + 2;
        if count > most || self.sender.pending() as usize > most - count {
            return Err(self.why_full());
        }
        self.put_one(first.as_slice())?;
        for message in rest {
            self.put_next(message.as_slice());
        }
        Ok(self.put_next(op))
    }

    /// Why a batch takes no messages for which it has no room.
    fn why_full(&self) -> PutFault
        ensures { RefusesPut (process.queue self.now.sender.core) result }
    {
        if self.sender.is_closed() {
            PutFault::Closed
        } else {
            PutFault::BatchFull
        }
    }

    /// Puts an operation into the batch, if there is room for it now. A fault changes nothing.
    fn put_one(&mut self, op: &[u8]) -> Result<u64, PutFault>
        requires short { length op.now ≤ MOST_BYTES }
        ensures bus { self.new.bus ≡ self.old.bus }
        ensures me { (self.new.me ≡ self.old.me) × (self.new.state ≡ self.old.state) }
        ensures put { IfOk result (λ number. PutsNow process self.old.sender self.new.sender
            number (op.now ∷ [])) }
        ensures open { OnOk result (IsOpenWith (process.queue self.new.sender.core)
            (limit_of process self.old.sender)
            (length (waiting_of process self.old.sender) + 1)) }
        ensures refused { OnErr result (PutsStay process tells self.old.sender self.new.sender) }
        ensures fault { IfErr result
            (IsPutFault (process.queue self.old.sender.core) (length op.now)) }
        ensures refuses { IfErr result (RefusesPut (process.queue self.old.sender.core)) }
    {
        senders_stay_who_they_are::<ThreeWord, fn() -> bool>();
        threads_may_go_by::<ThreeWord>();
        self.sender.put(op)
    }

    /// Puts an operation for which there is room.
    fn put_next(&mut self, op: &[u8]) -> u64
        requires can { CanPut (process.queue self.old.sender.core) (length op.now) }
        ensures bus { self.new.bus ≡ self.old.bus }
        ensures me { (self.new.me ≡ self.old.me) × (self.new.state ≡ self.old.state) }
        ensures put { PutsNow process self.old.sender self.new.sender result (op.now ∷ []) }
        ensures open { IsOpenWith (process.queue self.new.sender.core)
            (limit_of process self.old.sender)
            (length (waiting_of process self.old.sender) + 1) }
    {
        match self.put_one(op) {
            Ok(number) => number,
            Err(_) => unreachable!(),
        }
    }

    /// Sends what waits. A tenure may be begun where it is answered a fault.
    pub(crate) fn send_all<W: Wait, F: FnMut() -> bool>(
        &mut self,
        wait: &W,
        waiter: &Waiter<'_, W>,
        go_on: &mut F,
    ) -> Result<(), Fault>
        requires callable { F.IsAlwaysCallable go_on.old }
        ensures callable { F.IsAlwaysCallable go_on.new }
        ensures bus { self.new.bus ≡ self.old.bus }
        ensures on { GoesOn self.old.me self.new.me }
        ensures puts { PutsStay process tells self.old.sender self.new.sender }
        ensures sent { OnOk result ((waiting_of process self.new.sender ≡ [])
            × (tenure_begun self.new.sender.core ≡ None)) }
        ensures says { OnOk result (SaysOn F.step go_on.old go_on.new) }
        ensures cause { IfErr result
            (IsCause process tells ⊥ (SaysStop F.step go_on.old) self.old self.new) }
    {
        for _ in waiter.forever() {
            if self.has_sent() {
                return Ok(());
            }
            let place = self.place();
            self.round(wait)?;
            if !self.may_go_on(waiter, place, go_on) {
                return Err(Fault::Stopped);
            }
        }
        unreachable!()
    }

    /// Nothing waits to be sent; or the closure says to go on, and it has rested. Before its last
    /// round it had read so far.
    fn may_go_on<W: Wait, F: FnMut() -> bool>(
        &self,
        waiter: &Waiter<'_, W>,
        place: u64,
        go_on: &mut F,
    ) -> bool
        requires callable { F.IsAlwaysCallable go_on.old }
        ensures callable { F.IsAlwaysCallable go_on.new }
        ensures yes { result ≡ true → SaysOn F.step go_on.old go_on.new }
        ensures no { result ≡ false → F.step go_on.old false go_on.new }
    {
        if self.has_sent() {
            return true;
        }
        if !go_on() {
            return false;
        }
        self.rest(waiter, place);
        true
    }

    /// After a round before which it had read so far: where it has heard more, it wakes those that
    /// wait for room. Else it sleeps until another handle of the bus rings, 10 ms at most; but only
    /// where nobody waits for its tenure.
    fn rest<W: Wait>(&self, waiter: &Waiter<'_, W>, place: u64) {
        if self.place() != place {
            waiter.ring();
            waiter.reset();
        } else if self.sender.tenure().is_some() {
            thread::yield_now();
        } else {
            waiter.rest();
        }
    }

    /// Takes turns towards sending what waits, as many as wait for nobody, and applies what is
    /// there.
    fn round<W: Wait>(&mut self, wait: &W) -> Result<(), Fault>
        ensures bus { self.new.bus ≡ self.old.bus }
        ensures on { GoesOn self.old.me self.new.me }
        ensures puts { PutsStay process tells self.old.sender self.new.sender }
        ensures cause { IfErr result (IsCause process tells ⊥ ⊥ self.old self.new) }
    {
        self.send(wait)?;
        if self.hear(wait) {
            return Err(Fault::Ended);
        }
        Ok(())
    }

    /// Nothing waits to be sent, and no tenure is begun.
    fn has_sent(&self) -> bool
        ensures { IsTrue result → (waiting_of process self.now.sender ≡ [])
            × (tenure_begun self.now.sender.core ≡ None) }
    {
        self.sender.pending() == 0 && !self.sender.is_leaving() && self.sender.tenure().is_none()
    }

    /// Takes turns towards sending what waits, as many as wait for nobody. Each Full takes a
    /// tenure, so after it no turn is taken before a look has found room.
    fn send<W: Wait>(&mut self, wait: &W) -> Result<(), Fault>
        ensures bus { self.new.bus ≡ self.old.bus }
        ensures me { (self.new.me ≡ self.old.me) × (self.new.state ≡ self.old.state) }
        ensures puts { PutsStay process tells self.old.sender self.new.sender }
        ensures cause { IfErr result (IsCause process tells ⊥ ⊥ self.old self.new) }
    {
        if self.has_sent() {
            return Ok(());
        }
        if !self.finds_room() {
            return Ok(());
        }
        self.take_turns(wait)
    }

    /// It was not answered Full, or a look finds room since.
    fn finds_room(&mut self) -> bool
        ensures bus { self.new.bus ≡ self.old.bus }
        ensures me { (self.new.me ≡ self.old.me) × (self.new.state ≡ self.old.state) }
        ensures puts { PutsStay process tells self.old.sender self.new.sender }
    {
        if !self.is_full {
            return true;
        }
        self.is_full = !self.look();
        !self.is_full
    }

    /// A look finds room for what waits.
    fn look(&mut self) -> bool
        ensures bus { self.new.bus ≡ self.old.bus }
        ensures me { (self.new.me ≡ self.old.me) × (self.new.state ≡ self.old.state) }
        ensures puts { PutsStay process tells self.old.sender self.new.sender }
    {
        self.sender.has_room()
    }

    /// The turns of the sender that wait for nobody, and what their last answer comes to.
    fn take_turns<W: Wait>(&mut self, wait: &W) -> Result<(), Fault>
        ensures bus { self.new.bus ≡ self.old.bus }
        ensures me { (self.new.me ≡ self.old.me) × (self.new.state ≡ self.old.state) }
        ensures puts { PutsStay process tells self.old.sender self.new.sender }
        ensures cause { IfErr result (IsCause process tells ⊥ ⊥ self.old self.new) }
    {
        match self.attempt(wait) {
            Some(Turn::Full) => {
                self.is_full = true;
                Ok(())
            }
            Some(Turn::Closed) => Err(Fault::Ended),
            Some(Turn::Left { .. }) => Err(Fault::Ended),
            Some(Turn::Spent) => Err(Fault::Spent),
            Some(_) | None => Ok(()),
        }
    }

    /// The turns of the sender that wait for nobody.
    fn attempt<W: Wait>(&mut self, wait: &W) -> Option<Turn>
        ensures bus { self.new.bus ≡ self.old.bus }
        ensures me { (self.new.me ≡ self.old.me) × (self.new.state ≡ self.old.state) }
        ensures puts { PutsStay process tells self.old.sender self.new.sender }
        ensures answered { IfSome result (λ turn.
            WasAnswered process tells false self.old.sender turn self.new.sender) }
    {
        senders_stay_who_they_are::<ThreeWord, fn() -> bool>();
        self.sender.try_send(wait)
    }

    /// Applies what is there, up to the operation of this number of this worker.
    fn hear_own<W: Wait>(
        &mut self,
        wait: &W,
        worker: SenderNo,
        number: u64,
    ) -> Result<Option<S::Answer>, Fault>
        ensures bus { self.new.bus ≡ self.old.bus }
        ensures sender { self.new.sender ≡ self.old.sender }
        ensures on { GoesOn self.old.me self.new.me }
        ensures stands { IfOk result (λ found. IfSome found (λ answer.
            StandsLast (LeadTo S.is_first S.applies self.new.bus.replayed) S.applies self.new.me.0
            self.new.state worker.0 number answer)) }
        ensures ended { IfErr result
            (λ why. (why ≡ Fault.Ended) × HearsEnd self.old.me self.new.me) }
    {
        self.hearer.hear_own(wait, worker, number)
    }

    /// Takes the turns that are left of the tenure that it has begun, and hears nothing. Where it
    /// has begun none it takes no turn.
    pub(crate) fn settle<W: Wait>(&mut self, wait: &W)
        ensures bus { self.new.bus ≡ self.old.bus }
        ensures me { (self.new.me ≡ self.old.me) × (self.new.state ≡ self.old.state) }
        ensures puts { PutsStay process tells self.old.sender self.new.sender }
        ensures still { tenure_begun self.old.sender.core ≡ None
            → self.new.sender ≡ self.old.sender }
        ensures free { tenure_begun self.new.sender.core ≡ None }
    {
        for _ in wait.forever() {
            if self.sender.tenure().is_none() {
                return;
            }
            self.end_tenure();
            thread::yield_now();
        }
        unreachable!()
    }

    /// The turns that are left of the tenure that it has begun, as many as wait for nobody.
    fn end_tenure(&mut self)
        ensures bus { self.new.bus ≡ self.old.bus }
        ensures me { (self.new.me ≡ self.old.me) × (self.new.state ≡ self.old.state) }
        ensures puts { PutsStay process tells self.old.sender self.new.sender }
    {
        senders_stay_who_they_are::<ThreeWord, fn() -> bool>();
        let _ = self.sender.finish();
        self.sender.ring();
    }

    /// Sends what waits, leaves, and hears up to where all workers have left.
    pub(crate) fn leave<W: Wait, F: FnMut() -> bool>(
        &mut self,
        wait: &W,
        waiter: &Waiter<'_, W>,
        go_on: &mut F,
    ) -> Result<(), Fault>
        requires callable { F.IsAlwaysCallable go_on.old }
        ensures bus { self.new.bus ≡ self.old.bus }
        ensures on { GoesOn self.old.me self.new.me }
        ensures puts { PutsStayLeaving process tells self.old.sender self.new.sender }
        ensures left { OnOk result
            (HaveAllLeft self.new.me.0 self.new.bus.plan.shape.senders) }
        ensures cause { IfErr result (IsEndCause process tells (SaysStop F.step go_on.old)
            self.old.bus.plan.shape.senders self.old self.new) }
    {
        self.begin_leave(wait, waiter, go_on)?;
        for _ in waiter.forever() {
            let place = self.place();
            if let Err(Fault::Spent) = self.send(wait) {
                return Err(Fault::Spent);
            }
            if self.hear(wait) {
                return Err(Fault::Ended);
            }
            let Some(worker) = self.missing() else {
                return Ok(());
            };
            if !go_on() {
                return Err(Fault::MissingWorker(worker));
            }
            self.rest(waiter, place);
        }
        unreachable!()
    }

    /// Sends what waits, and then lets a leave mark wait, unless it was taken before.
    fn begin_leave<W: Wait, F: FnMut() -> bool>(
        &mut self,
        wait: &W,
        waiter: &Waiter<'_, W>,
        go_on: &mut F,
    ) -> Result<(), Fault>
        requires callable { F.IsAlwaysCallable go_on.old }
        ensures callable { F.IsAlwaysCallable go_on.new }
        ensures says { OnOk result (SaysOn F.step go_on.old go_on.new) }
        ensures bus { self.new.bus ≡ self.old.bus }
        ensures on { GoesOn self.old.me self.new.me }
        ensures puts { PutsStayLeaving process tells self.old.sender self.new.sender }
        ensures cause { IfErr result (IsEndCause process tells (SaysStop F.step go_on.old)
            self.old.bus.plan.shape.senders self.old self.new) }
    {
        if self.is_leaving {
            return Ok(());
        }
        for _ in waiter.forever() {
            self.send_all(wait, waiter, go_on)?;
            match self.take_leave() {
                Ok(()) => return Ok(()),
                Err(CloseFault::Closed) => return Err(Fault::Ended),
                Err(CloseFault::Busy | CloseFault::Pending) => {}
            }
        }
        unreachable!()
    }

    /// Lets a leave mark wait, which tells all replicas that this worker has left. A fault changes
    /// nothing.
    fn take_leave(&mut self) -> Result<(), CloseFault>
        ensures bus { self.new.bus ≡ self.old.bus }
        ensures me { (self.new.me ≡ self.old.me) × (self.new.state ≡ self.old.state) }
        ensures taken { OnOk result
            (PutsStayLeaving process tells self.old.sender self.new.sender) }
        ensures refused { OnErr result (self.new.sender ≡ self.old.sender) }
        ensures fault { IfErr result (IsCloseFault (process.queue self.old.sender.core)) }
    {
        senders_stay_who_they_are::<ThreeWord, fn() -> bool>();
        let taken = self.sender.leave();
        self.is_leaving = taken.is_ok();
        taken
    }

    /// The first worker of which this replica has not heard that it has left.
    fn missing(&self) -> Option<SenderNo>
        ensures none { IfNone result
            (HaveAllLeft self.now.me.0 self.now.bus.plan.shape.senders) }
        ensures first { IfSome result (λ worker.
            (worker.0 < self.now.bus.plan.shape.senders)
            × (has_heard_leave self.now.me.0 worker.0 ≡ false)
            × HaveAllLeft self.now.me.0 worker.0) }
    {
        self.hearer.missing(self.workers)
    }
}
