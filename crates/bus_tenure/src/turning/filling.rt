//! The batch of a sender: what it takes, and what waits in it.

ghost use Rattle.std.specs.Prelude.{◌≡◌, ◌<◌, ◌≤◌, [], ◌∷◌, ◌++◌, length, IfOk, IfErr, OnOk, OnErr};
ghost use Rattle.bus_batch.specs.Batches.{next_of, CanPut, IsPutFault, CanClose, IsCloseFault};
ghost use Rattle.bus_batch.specs.declared.batches.Phase.TheVariants as queue_phase;
ghost use Rattle.bus_batch.specs.declared.messages.Mark.TheVariants as mark;
ghost use Rattle.bus_tenure.specs.Core.{is_closing, is_leaving, is_closed};

use crate::turning::Turns;
use arrayvec::ArrayVec;
use bus_adoptcommit::Ratifier;
use bus_batch::{CloseFault, Message, PutFault};
use bus_register::limits::{MOST_MESSAGES, NUMBERS};

impl<Q: Ratifier + Drop> Turns<Q> {
    /// Appends a message to the batch and gives its number.
    pub fn put(&mut self, bytes: &[u8]) -> Result<u64, PutFault>
        requires { next_of self.old.queue < NUMBERS }
        ensures number { IfOk result (λ number. number ≡ next_of self.old.queue) }
        ensures taken { OnOk result
            (self.new ≡ record self.old {
              queue = record self.old.queue {
                messages = self.old.queue.messages
                    ++ bytes.now ∷ [];
              };
            }) }
        ensures could { OnOk result (CanPut self.old.queue (length bytes.now)) }
        ensures fault { IfErr result (IsPutFault self.old.queue (length bytes.now)) }
        ensures refused { OnErr result (self.new ≡ self.old) }
    {
        self.batch.put(bytes)
    }

    /// Lets an end mark wait in place of messages.
    pub fn close(&mut self) -> Result<(), CloseFault>
        ensures taken { OnOk result
            (self.new ≡ record self.old {
              queue = record self.old.queue { phase = queue_phase.Marking mark.End };
            }) }
        ensures could { OnOk result (CanClose self.old.queue) }
        ensures fault { IfErr result (IsCloseFault self.old.queue) }
        ensures refused { OnErr result (self.new ≡ self.old) }
    {
        self.batch.close()
    }

    /// Lets its leave mark wait in place of messages. Once that stands in the log the answer is
    /// Left, and nothing more is sent. A holder that finds the order ended answers Closed, and
    /// nothing more is sent either; where the mark does not fit the log it answers Full, and the
    /// mark waits on.
    pub fn leave(&mut self) -> Result<(), CloseFault>
        ensures taken { OnOk result
            (self.new ≡ record self.old {
              queue = record self.old.queue { phase = queue_phase.Marking mark.Leave };
            }) }
        ensures could { OnOk result (CanClose self.old.queue) }
        ensures fault { IfErr result (IsCloseFault self.old.queue) }
        ensures refused { OnErr result (self.new ≡ self.old) }
    {
        self.batch.leave()
    }

    /// How many messages wait.
    pub fn pending(&self) -> u64
        ensures { result ≡ length self.now.queue.messages }
    {
        self.batch.len()
    }

    /// How many messages a batch has at most.
    pub fn batch_limit(&self) -> u64
        ensures limit { result ≡ self.now.layout.batch }
        ensures queue { result ≡ self.now.queue.limit }
        ensures some { 1 ≤ result }
        ensures few { result ≤ MOST_MESSAGES }
    {
        self.batch.limit()
    }

    /// The messages that wait, in their order, spelled back from their words.
    pub fn waiting(&self) -> ArrayVec<Message, MOST_MESSAGES>
        ensures { result.items ≡ self.now.queue.messages }
    {
        self.batch.waiting()
    }

    /// The number that the next message gets.
    pub fn next_number(&self) -> u64
        ensures { result ≡ next_of self.now.queue }
    {
        self.batch.next_number()
    }

    /// An end mark waits.
    pub fn is_closing(&self) -> bool
        ensures { result ≡ is_closing self.now.queue.phase }
    {
        self.batch.is_closing()
    }

    /// Its leave mark waits.
    pub fn is_leaving(&self) -> bool
        ensures { result ≡ is_leaving self.now.queue.phase }
    {
        self.batch.is_leaving()
    }

    /// Nothing more is sent: it has closed or left, or has found the order ended.
    pub fn is_closed(&self) -> bool
        ensures { result ≡ is_closed self.now.queue.phase }
    {
        self.batch.is_closed()
    }
}
