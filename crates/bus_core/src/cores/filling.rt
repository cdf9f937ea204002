//! The batch of a sender: what it takes while no tenure is pinned, and what waits in it.

ghost use Rattle.std.specs.Prelude.{◌≡◌, ◌+◌, ◌<◌, ◌≤◌, [], ◌∷◌, ◌++◌, length, IfOk, IfErr};
ghost use Rattle.std.specs.Prelude.{IsTrue, ◌↔◌, OnOk, OnErr};
ghost use Rattle.bus_batch.specs.Batches.{next_of, CanPut, IsPutFault, CanClose, IsCloseFault};
ghost use Rattle.bus_batch.specs.Batches.{HasSomething, IsShut};
ghost use Rattle.bus_batch.specs.declared.batches.Phase.TheVariants as queue_phase;
ghost use Rattle.bus_batch.specs.declared.messages.Mark.TheVariants as mark;
ghost use Rattle.bus_tenure.specs.Core.{frame_len, is_closing, is_leaving, is_closed};
ghost use Rattle.bus_core.specs.Keeping.{IsAway, queue_of};

use crate::cores::SenderCore;
use arrayvec::ArrayVec;
use bus_adoptcommit::Ratifier;
use bus_batch::{CloseFault, Message, PutFault};
use bus_register::limits::{MOST_BODY_WORDS, MOST_MESSAGES, NUMBERS};

impl<Q: Ratifier + Drop> SenderCore<Q> {
    /// How many messages wait.
    pub fn pending(&self) -> u64
        ensures { result ≡ length self.now.core.queue.messages }
    {
        self.turns.pending()
    }

    /// How many messages a batch has at most.
    pub fn batch_limit(&self) -> u64
        ensures limit { result ≡ self.now.core.layout.batch }
        ensures queue { result ≡ self.now.core.queue.limit }
        ensures some { 1 ≤ result }
        ensures few { result ≤ MOST_MESSAGES }
    {
        self.turns.batch_limit()
    }

    /// The messages that wait, in their order, spelled back from their words.
    pub fn waiting(&self) -> ArrayVec<Message, MOST_MESSAGES>
        ensures { result.items ≡ self.now.core.queue.messages }
    {
        self.turns.waiting()
    }

    /// How many words the frame of what waits has, the head included: 2 to 513.
    pub fn frame_len(&self) -> u64
        requires { HasSomething self.now.core.queue }
        ensures len { result ≡ frame_len self.now.core }
        ensures most { result ≤ 1 + MOST_BODY_WORDS }
    {
        self.turns.frame_len()
    }

    /// The number that the next message gets.
    pub fn next_number(&self) -> u64
        ensures { result ≡ next_of self.now.core.queue }
    {
        self.turns.next_number()
    }

    /// An end mark waits.
    pub fn is_closing(&self) -> bool
        ensures { result ≡ is_closing self.now.core.queue.phase }
    {
        self.turns.is_closing()
    }

    /// Its leave mark waits.
    pub fn is_leaving(&self) -> bool
        ensures { result ≡ is_leaving self.now.core.queue.phase }
    {
        self.turns.is_leaving()
    }

    /// Nothing more is sent: it has closed or left, or has found the order ended.
    pub fn is_closed(&self) -> bool
        ensures { result ≡ is_closed self.now.core.queue.phase }
    {
        self.turns.is_closed()
    }

    /// It has closed or left, or is about to.
    fn is_shut(&self) -> bool
        ensures { IsTrue result ↔ IsShut self.now.core.queue }
    {
        self.turns.is_closing() || self.turns.is_leaving() || self.turns.is_closed()
    }

    /// Appends a message to the batch and gives its number. While it pins a tenure the batch is
    /// on its way.
    pub fn put(&mut self, bytes: &[u8]) -> Result<u64, PutFault>
        requires { next_of self.old.core.queue < NUMBERS }
        ensures number { IfOk result (λ number. number ≡ next_of self.old.core.queue) }
        ensures taken { OnOk result
            (self.new ≡ record self.old {
              core = record self.old.core {
                queue = record self.old.core.queue {
                  messages = self.old.core.queue.messages ++ bytes.now ∷ [];
                };
              };
            }) }
        ensures could { OnOk result
            (CanPut (queue_of self.old.core.queue self.old.reuse) (length bytes.now)) }
        ensures fault { IfErr result
            (IsPutFault (queue_of self.old.core.queue self.old.reuse) (length bytes.now)) }
        ensures refused { OnErr result (self.new ≡ self.old) }
    {
        if self.is_away() {
            return self.turns.put(bytes);
        }
        if self.is_shut() {
            return Err(PutFault::Closed);
        }
        Err(PutFault::Busy)
    }

    /// Lets an end mark wait in place of messages. While it pins a tenure the batch is on its
    /// way.
    pub fn close(&mut self) -> Result<(), CloseFault>
        ensures taken { OnOk result
            (self.new ≡ record self.old {
              core = record self.old.core {
                queue = record self.old.core.queue { phase = queue_phase.Marking mark.End };
              };
            }) }
        ensures could { OnOk result
            (CanClose (queue_of self.old.core.queue self.old.reuse)) }
        ensures fault { IfErr result
            (IsCloseFault (queue_of self.old.core.queue self.old.reuse)) }
        ensures refused { OnErr result (self.new ≡ self.old) }
    {
        if self.is_away() {
            return self.turns.close();
        }
        Err(self.mark_fault())
    }

    /// Lets its leave mark wait in place of messages. While it pins a tenure the batch is on its
    /// way.
    ///
    /// Once the mark stands in the log the answer is Left, and nothing more is sent. A holder that
    /// finds the order ended answers Closed, and nothing more is sent either; where the mark does
    /// not fit the log it answers Full, and the mark waits on.
    pub fn leave(&mut self) -> Result<(), CloseFault>
        ensures taken { OnOk result
            (self.new ≡ record self.old {
              core = record self.old.core {
                queue = record self.old.core.queue { phase = queue_phase.Marking mark.Leave };
              };
            }) }
        ensures could { OnOk result
            (CanClose (queue_of self.old.core.queue self.old.reuse)) }
        ensures fault { IfErr result
            (IsCloseFault (queue_of self.old.core.queue self.old.reuse)) }
        ensures refused { OnErr result (self.new ≡ self.old) }
    {
        if self.is_away() {
            return self.turns.leave();
        }
        Err(self.mark_fault())
    }

    /// Why no mark is taken while it pins a tenure.
    fn mark_fault(&self) -> CloseFault
        requires { ¬ IsAway self.now.reuse }
        ensures { IsCloseFault (queue_of self.now.core.queue self.now.reuse) result }
    {
        if self.is_shut() {
            return CloseFault::Closed;
        }
        CloseFault::Busy
    }
}
