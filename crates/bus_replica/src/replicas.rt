//! A worker's replica.

ghost use Rattle.std.specs.Prelude.{◌≡◌, ℕ, ◌<◌, ◌≤◌, IfOk, IfErr, OnOk, OnErr, None, [], ◌∷◌};
ghost use Rattle.std.specs.Prelude.{◌++◌, length};
ghost use Rattle.bus_register.specs.declared.limits.TheConstants.{MOST_BYTES, MOST_MESSAGES};
ghost use Rattle.bus_automaton.specs.ThreeWordBuses.{process, Held};
ghost use Rattle.bus_core.specs.Seen.{tenure_begun};
ghost use Rattle.bus_pageslot.specs.Rule.{known_in, receiver_view_in};
ghost use Rattle.bus_pageslot.specs.Seats.{table_of};
ghost use Rattle.bus_pageslot.specs.Sendings.{waiting_of};
ghost use Rattle.bus_replica.specs.Causes.{tells, IsCause, IsEndCause, RefusesLong, SaysStop};
ghost use Rattle.bus_replica.specs.Replicas.{IsFold, StandsLast, PutsMore, PutsStay};
ghost use Rattle.bus_replica.specs.Replicas.{PutsAll, PutsAllOrNone, PutsAtMostOnce};
ghost use Rattle.bus_replica.specs.Replicas.{HasNobodyLeft, LeadTo, replayed_by, sitting_of};
ghost use Rattle.bus_replica.specs.Replicas.{GoesOn, HasCaughtUp, HaveAllLeft, HasHeardAll};
ghost use Rattle.bus_replica.specs.Replicas.{HearsOut, PutsStayLeaving, Replicated};

use crate::faults::Fault;
use crate::pasts::Past;
use crate::states::State;
use crate::workers::Worker;
use bus_batch::Message;
use bus_deliverylog::Order;
use bus_handles::{ReceiverHandle, SenderHandle, SenderNo, ThreeWord};
use bus_register::limits::MOST_BYTES;
use bus_waiting::SharedBell;
use std::marker::Model;
use std::sync::Wait;

/// A worker's replica of a state, with the sender and the receiver by which it takes part. One
/// thread at a time has it. Its operations go to all replicas of its bus in one order. Between two
/// calls it keeps nobody waiting: no call that sends returns while a tenure is begun, also with a
/// fault. But a replica that is kept and not asked holds the others up once the ring is full: call
/// `hear` now and then. One that is dropped has begun no tenure, and its receiver leaves; the
/// others see no leave of its in the order.
#[derive(Drop)]
pub struct Replica<S: State> {
    worker: Worker<S>,
    bell: SharedBell,
}

impl<S: State> Model for Replica<S> {
    ghost use Rattle.bus_automaton.specs.ThreeWordBuses.{Held};
    ghost use Rattle.bus_replica.specs.Replicas.{Replicated};

    ghost Value = { Replicated Held S };

    ghost view = { λ r. r.worker };
}

impl<S: State> Replica<S> {
    /// A replica by this sender and this receiver of one bus of so many workers, with its bell.
    pub(crate) fn new(
        sender: SenderHandle<ThreeWord>,
        receiver: ReceiverHandle<ThreeWord>,
        state: S,
        replayed: Past<Order>,
        workers: u8,
        bell: SharedBell,
    ) -> Replica<S>
        requires table { table_of sender ≡ receiver.bus.table }
        requires workers { workers ≡ receiver.bus.plan.shape.senders }
        requires fold { IsFold (LeadTo S.is_first S.applies (replayed_by replayed.value)) S.applies
            receiver.me.0 state }
        requires nobody { HasNobodyLeft receiver.me.0 }
        ensures sender { result.sender ≡ sender }
        ensures bus { result.bus ≡ sitting_of receiver.bus (replayed_by replayed.value) }
        ensures me { result.me ≡ receiver.me }
        ensures state { result.state ≡ state }
    {
        Replica {
            worker: Worker::new(sender, receiver, state, replayed, workers),
            bell,
        }
    }

    /// The worker's number, from 0 on.
    pub fn number(&self) -> SenderNo
        ensures { result.0 ≡ process.me self.now.sender.core }
    {
        self.worker.number()
    }

    /// The state by what this worker has applied so far: the fold of the operations that its
    /// receiver was given, which begin the one order, behind those that were replayed.
    pub fn state(&self) -> &S
        ensures state { result.now ≡ self.now.state }
        ensures fold { IsFold (LeadTo S.is_first S.applies self.now.bus.replayed) S.applies
            self.now.me.0 self.now.state }
    {
        self.worker.state()
    }

    /// How many words of the log its receiver has read: all that it has applied of this sitting
    /// stands in these (`words_hold_what_was_applied`). They may hold more, which it applies next;
    /// behind `execute`, by the code, they end with that operation.
    ///
    /// What `execute` answers, and what `state` shows, may be lost in a crash all the same, until a
    /// journal has so many words on disk. So who tells somebody of it waits for that before. A
    /// journal has whole frames, and so it may have to have some more.
    pub fn words(&self) -> u64
        ensures place { result ≡ (receiver_view_in self.now.me.0).place }
        ensures within { result ≤ length (known_in self.now.me.0) }
    {
        self.worker.place()
    }

    /// Applies what has come. Says whether the order has ended. It waits for nobody.
    pub fn hear<W: Wait>(&mut self, wait: &W) -> bool
        ensures bus { self.new.bus ≡ self.old.bus }
        ensures sender { self.new.sender ≡ self.old.sender }
        ensures out { HearsOut self.old.me result self.new.me }
    {
        let place = self.worker.place();
        let ended = self.worker.hear(wait);
        if self.worker.place() != place {
            self.bell.ring();
        }
        ended
    }

    /// Applies all that was in the order when this call began, and maybe more. So what `state`
    /// shows next is the latest. It waits for nobody.
    pub fn catch_up<W: Wait>(&mut self, wait: &W)
        ensures bus { self.new.bus ≡ self.old.bus }
        ensures core { self.new.sender.core ≡ self.old.sender.core }
        ensures puts { PutsStay process tells self.old.sender self.new.sender }
        ensures caught { HasCaughtUp self.old.me self.new.me }
    {
        self.worker.catch_up(wait);
        self.bell.ring();
    }

    /// Puts an operation of at most 56 bytes into the batch, and gives its number. It is sent with
    /// the batch: by `flush`, `execute`, `finish`, or where 64 operations wait. What it answers is
    /// lost.
    pub fn submit<W: Wait>(&mut self, wait: &W, op: &[u8]) -> Result<u64, Fault>
        ensures bus { self.new.bus ≡ self.old.bus }
        ensures on { GoesOn self.old.me self.new.me }
        ensures put { IfOk result
            (λ number. PutsMore process tells self.old.sender self.new.sender number op.now) }
        ensures refused { OnErr result (PutsStay process tells self.old.sender self.new.sender) }
        ensures long { MOST_BYTES < length op.now
            → RefusesLong process tells self.old result self.new }
        ensures cause { IfErr result (IsCause process tells (MOST_BYTES < length op.now) ⊥
            self.old self.new) }
        ensures free { tenure_begun self.new.sender.core ≡ None }
    {
        self.submit_while(wait, || true, op)
    }

    /// As `submit`, but that it can be told to stop: each time it has sent and applied what it can
    /// and there is no room for the operation it asks `go_on`, and where that says no it is
    /// Stopped. The operation is not put then.
    pub fn submit_while<W: Wait, F: FnMut() -> bool>(
        &mut self,
        wait: &W,
        go_on: F,
        op: &[u8],
    ) -> Result<u64, Fault>
        requires callable { F.IsAlwaysCallable go_on }
        ensures bus { self.new.bus ≡ self.old.bus }
        ensures on { GoesOn self.old.me self.new.me }
        ensures put { IfOk result
            (λ number. PutsMore process tells self.old.sender self.new.sender number op.now) }
        ensures refused { OnErr result (PutsStay process tells self.old.sender self.new.sender) }
        ensures long { MOST_BYTES < length op.now
            → RefusesLong process tells self.old result self.new }
        ensures cause { IfErr result (IsCause process tells (MOST_BYTES < length op.now)
            (SaysStop F.step go_on) self.old self.new) }
        ensures free { tenure_begun self.new.sender.core ≡ None }
    {
        if op.len() > MOST_BYTES {
            return Err(self.refuse(wait));
        }
        self.submit_all(wait, go_on, &[], op)
    }

    /// Sends what waits, and applies what comes until then.
    pub fn flush<W: Wait>(&mut self, wait: &W) -> Result<(), Fault>
        ensures bus { self.new.bus ≡ self.old.bus }
        ensures on { GoesOn self.old.me self.new.me }
        ensures puts { PutsStay process tells self.old.sender self.new.sender }
        ensures sent { OnOk result (waiting_of process self.new.sender ≡ []) }
        ensures cause { IfErr result (IsCause process tells ⊥ ⊥ self.old self.new) }
        ensures free { tenure_begun self.new.sender.core ≡ None }
    {
        self.flush_while(wait, || true)
    }

    /// As `flush`, but that it can be told to stop: each time it has sent and applied what it can
    /// and something waits still it asks `go_on`, and where that says no it is Stopped.
    pub fn flush_while<W: Wait, F: FnMut() -> bool>(
        &mut self,
        wait: &W,
        mut go_on: F,
    ) -> Result<(), Fault>
        requires callable { F.IsAlwaysCallable go_on }
        ensures bus { self.new.bus ≡ self.old.bus }
        ensures on { GoesOn self.old.me self.new.me }
        ensures puts { PutsStay process tells self.old.sender self.new.sender }
        ensures sent { OnOk result (waiting_of process self.new.sender ≡ []) }
        ensures cause { IfErr result
            (IsCause process tells ⊥ (SaysStop F.step go_on) self.old self.new) }
        ensures free { tenure_begun self.new.sender.core ≡ None }
    {
        let waiter = self.bell.asked(wait);
        let sent = self.worker.send_all(wait, &waiter, &mut go_on);
        self.worker.settle(wait);
        sent
    }

    /// Executes an operation of at most 56 bytes: it returns once this replica has applied it, with
    /// the answer that it had at its place in the order. It is the last one applied then.
    pub fn execute<W: Wait>(&mut self, wait: &W, op: &[u8]) -> Result<S::Answer, Fault>
        ensures bus { self.new.bus ≡ self.old.bus }
        ensures on { GoesOn self.old.me self.new.me }
        ensures executed { IfOk result (λ answer. (number : ℕ)
            × PutsMore process tells self.old.sender self.new.sender number op.now
            × StandsLast (LeadTo S.is_first S.applies self.new.bus.replayed) S.applies
            self.new.me.0 self.new.state (process.me self.old.sender.core) number answer) }
        ensures refused { OnErr result
            (PutsAtMostOnce process tells self.old.sender self.new.sender op.now) }
        ensures long { MOST_BYTES < length op.now
            → RefusesLong process tells self.old result self.new }
        ensures cause { IfErr result (IsCause process tells (MOST_BYTES < length op.now) ⊥
            self.old self.new) }
        ensures free { tenure_begun self.new.sender.core ≡ None }
    {
        self.execute_while(wait, || true, op)
    }

    /// As `execute`, but that it can be told to stop: each time it has sent and applied what it can
    /// and its operation was not among that it asks `go_on`, and where that says no it is Stopped.
    /// The operation may be put then, and may stand in the order already: it is sent with whatever
    /// is sent next, and what it answers is lost.
    pub fn execute_while<W: Wait, F: FnMut() -> bool>(
        &mut self,
        wait: &W,
        go_on: F,
        op: &[u8],
    ) -> Result<S::Answer, Fault>
        requires callable { F.IsAlwaysCallable go_on }
        ensures bus { self.new.bus ≡ self.old.bus }
        ensures on { GoesOn self.old.me self.new.me }
        ensures executed { IfOk result (λ answer. (number : ℕ)
            × PutsMore process tells self.old.sender self.new.sender number op.now
            × StandsLast (LeadTo S.is_first S.applies self.new.bus.replayed) S.applies
            self.new.me.0 self.new.state (process.me self.old.sender.core) number answer) }
        ensures refused { OnErr result
            (PutsAtMostOnce process tells self.old.sender self.new.sender op.now) }
        ensures long { MOST_BYTES < length op.now
            → RefusesLong process tells self.old result self.new }
        ensures cause { IfErr result (IsCause process tells (MOST_BYTES < length op.now)
            (SaysStop F.step go_on) self.old self.new) }
        ensures free { tenure_begun self.new.sender.core ≡ None }
    {
        if op.len() > MOST_BYTES {
            return Err(self.refuse(wait));
        }
        self.execute_all(wait, go_on, &[], op)
    }

    /// Ends the tenure that it has begun, and does nothing else: an operation is too long.
    pub(crate) fn refuse<W: Wait>(&mut self, wait: &W) -> Fault
        ensures bus { self.new.bus ≡ self.old.bus }
        ensures why { result ≡ Fault.TooLong }
        ensures me { (self.new.me ≡ self.old.me) × (self.new.state ≡ self.old.state) }
        ensures puts { PutsStay process tells self.old.sender self.new.sender }
        ensures still { tenure_begun self.old.sender.core ≡ None
            → self.new.sender ≡ self.old.sender }
        ensures free { tenure_begun self.new.sender.core ≡ None }
    {
        self.worker.settle(wait);
        Fault::TooLong
    }

    /// Puts operations side by side into one batch, all of them or none, and gives the number of
    /// the last one.
    pub(crate) fn submit_all<W: Wait, F: FnMut() -> bool>(
        &mut self,
        wait: &W,
        mut go_on: F,
        before: &[Message],
        op: &[u8],
    ) -> Result<u64, Fault>
        requires callable { F.IsAlwaysCallable go_on }
        requires short { length op.now ≤ MOST_BYTES }
        requires few { length before.now < MOST_MESSAGES }
        ensures bus { self.new.bus ≡ self.old.bus }
        ensures on { GoesOn self.old.me self.new.me }
        ensures put { IfOk result (λ number. PutsAll process tells self.old.sender
            self.new.sender number (before.now ++ op.now ∷ [])) }
        ensures refused { OnErr result (PutsStay process tells self.old.sender self.new.sender) }
        ensures cause { IfErr result
            (IsCause process tells ⊥ (SaysStop F.step go_on) self.old self.new) }
        ensures free { tenure_begun self.new.sender.core ≡ None }
    {
        let waiter = self.bell.asked(wait);
        let given = self.worker.put(wait, &waiter, &mut go_on, before, op);
        self.worker.settle(wait);
        given
    }

    /// The same, and then sends them and applies what comes up to the last one, whose answer it
    /// gives.
    pub(crate) fn execute_all<W: Wait, F: FnMut() -> bool>(
        &mut self,
        wait: &W,
        mut go_on: F,
        before: &[Message],
        op: &[u8],
    ) -> Result<S::Answer, Fault>
        requires callable { F.IsAlwaysCallable go_on }
        requires short { length op.now ≤ MOST_BYTES }
        requires few { length before.now < MOST_MESSAGES }
        ensures bus { self.new.bus ≡ self.old.bus }
        ensures on { GoesOn self.old.me self.new.me }
        ensures executed { IfOk result (λ answer. (number : ℕ)
            × PutsAll process tells self.old.sender self.new.sender number
            (before.now ++ op.now ∷ [])
            × StandsLast (LeadTo S.is_first S.applies self.new.bus.replayed) S.applies
            self.new.me.0 self.new.state (process.me self.old.sender.core) number answer) }
        ensures refused { OnErr result (PutsAllOrNone process tells self.old.sender
            self.new.sender (before.now ++ op.now ∷ [])) }
        ensures cause { IfErr result
            (IsCause process tells ⊥ (SaysStop F.step go_on) self.old self.new) }
        ensures free { tenure_begun self.new.sender.core ≡ None }
    {
        let waiter = self.bell.asked(wait);
        let answered = self.worker.execute(wait, &waiter, &mut go_on, before, op);
        self.worker.settle(wait);
        answered
    }

    /// Sends what waits, leaves, and applies all operations of all workers, up to where all have
    /// left. So the states of those that it was Ok of are equal, where `apply` gives the same on
    /// equal states. No operation can be put after it, but `hear` and `state` are there still.
    pub fn leave<W: Wait>(&mut self, wait: &W) -> Result<(), Fault>
        ensures bus { self.new.bus ≡ self.old.bus }
        ensures on { GoesOn self.old.me self.new.me }
        ensures puts { PutsStayLeaving process tells self.old.sender self.new.sender }
        ensures left { OnOk result
            (HaveAllLeft self.new.me.0 self.new.bus.plan.shape.senders) }
        ensures cause { IfErr result (IsEndCause process tells ⊥
            self.old.bus.plan.shape.senders self.old self.new) }
        ensures free { tenure_begun self.new.sender.core ≡ None }
    {
        self.leave_while(wait, || true)
    }

    /// As `leave`, but that it can be told to stop: each time it has sent and applied what it can
    /// and a worker has not left yet it asks `go_on`, and where that says no the first such worker
    /// is a MissingWorker; or it is Stopped, if something of its own waits still. A further call
    /// goes on.
    pub fn leave_while<W: Wait, F: FnMut() -> bool>(
        &mut self,
        wait: &W,
        mut go_on: F,
    ) -> Result<(), Fault>
        requires callable { F.IsAlwaysCallable go_on }
        ensures bus { self.new.bus ≡ self.old.bus }
        ensures on { GoesOn self.old.me self.new.me }
        ensures puts { PutsStayLeaving process tells self.old.sender self.new.sender }
        ensures left { OnOk result
            (HaveAllLeft self.new.me.0 self.new.bus.plan.shape.senders) }
        ensures cause { IfErr result (IsEndCause process tells (SaysStop F.step go_on)
            self.old.bus.plan.shape.senders self.old self.new) }
        ensures free { tenure_begun self.new.sender.core ≡ None }
    {
        let waiter = self.bell.asked(wait);
        let left = self.worker.leave(wait, &waiter, &mut go_on);
        self.worker.settle(wait);
        left
    }

    /// As `leave`, and gives the state.
    pub fn finish<W: Wait>(self, wait: &W) -> Result<S, Fault>
        ensures heard { IfOk result (λ state.
            HasHeardAll (LeadTo S.is_first S.applies self.bus.replayed) S.applies
            self.bus.plan.shape.senders self.me state) }
        ensures cause { IfErr result (λ why. (last : Replicated Held S) × GoesOn self.me last.me
            × PutsStayLeaving process tells self.sender last.sender
            × IsEndCause process tells ⊥ self.bus.plan.shape.senders self last why) }
    {
        self.finish_while(wait, || true)
    }

    /// As `leave_while`, and gives the state. After a fault the replica is gone, and keeps nobody
    /// waiting.
    pub fn finish_while<W: Wait, F: FnMut() -> bool>(self, wait: &W, go_on: F) -> Result<S, Fault>
        requires callable { F.IsAlwaysCallable go_on }
        ensures heard { IfOk result (λ state.
            HasHeardAll (LeadTo S.is_first S.applies self.bus.replayed) S.applies
            self.bus.plan.shape.senders self.me state) }
        ensures cause { IfErr result (λ why. (last : Replicated Held S) × GoesOn self.me last.me
            × PutsStayLeaving process tells self.sender last.sender × IsEndCause process tells
            (SaysStop F.step go_on) self.bus.plan.shape.senders self last why) }
    {
        let mut replica = self;
        replica.leave_while(wait, go_on)?;
        Ok(replica.into_state())
    }

    /// The state by what this worker has applied, without the replica: so `leave` and this are
    /// `finish`. Its receiver leaves.
    pub fn into_state(self) -> S
        ensures state { result ≡ self.state }
        ensures fold { IsFold (LeadTo S.is_first S.applies self.bus.replayed) S.applies self.me.0
            self.state }
    {
        let Replica { worker, .. } = self;
        worker.into_state()
    }
}
