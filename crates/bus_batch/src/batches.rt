//! The batch that a sender fills, and the words of the frame that it makes.

ghost use Rattle.std.specs.Prelude.{◌≡◌, ◌≢◌, ℕ, ◌+◌, ◌*◌, ◌-◌, ◌<◌};
ghost use Rattle.std.specs.Prelude.{◌≤◌, ◌^◌, List, [], ◌∷◌, ◌++◌, length};
ghost use Rattle.std.specs.Prelude.{drop, IfOk, IfErr, OnOk, OnErr, IsTrue, ◌↔◌, false, true};
ghost use Rattle.std.specs.Prelude.{Some, slice_get};
ghost use Rattle.bus_batch.specs.Messages.{Numbered, IsMessage};
ghost use Rattle.bus_batch.specs.Frames.{data_word, message_words, frame_words, IsFrame, IsFrameOf};
ghost use Rattle.bus_batch.specs.Frames.{body_words};
ghost use Rattle.std.specs.Prelude.{flat_map, take};
ghost use Rattle.std.specs.Int.{w64, to_be_bytes};
ghost use Rattle.bus_batch.specs.Messages.{numbered_messages};

use crate::messages::{Mark, Message};
use crate::words::{COUNT, END, HIGH, LEAVE, TAG};
use arrayvec::ArrayVec;
use bus_register::SenderNo;
use bus_register::limits::{
    MOST_BODY_WORDS, MOST_BYTES, MOST_MESSAGE_WORDS, MOST_MESSAGES, NUMBERS, TENURES,
};
use std::marker::Model;

/// The most words of a frame after its head.
const BODY_WORDS: usize = MOST_BODY_WORDS as usize;

/// Why a message is not taken; of several causes the first counts.
#[derive(Clone, Copy, Debug, PartialEq, Eq)]
pub enum PutFault {
    /// A close or a leave was accepted, or the order is known to have ended.
    Closed,
    /// The batch is on its way.
    Busy,
    /// More than 56 bytes.
    TooLong,
    /// As many messages wait as this batch may have.
    BatchFull,
}

/// Why a close or a leave is not taken; of several causes the first counts.
#[derive(Clone, Copy, Debug, PartialEq, Eq)]
pub enum CloseFault {
    /// A close or a leave was accepted, or the order is known to have ended.
    Closed,
    /// The batch is on its way.
    Busy,
    /// Messages wait.
    Pending,
}

/// Whether a batch takes messages.
#[derive(Clone, Copy, Debug, PartialEq, Eq)]
pub enum Phase {
    Open,
    /// A close or a leave was accepted, and its mark waits.
    Marking(Mark),
    Closed,
}

/// Some messages of one sender, numbered one after another, that go into the log together; or a
/// mark alone: of the end, or that the sender leaves.
#[derive(Debug, Drop)]
pub struct Batch {
    sender: SenderNo,
    /// So many messages at most, 1 to 64.
    limit: u64,
    first: u64,
    /// How many messages wait.
    count: u64,
    phase: Phase,
    busy: bool,
    /// The words of the messages, spelled once when each is put: a turn of their sender only
    /// copies one. The messages are kept in no other form.
    body: ArrayVec<u64, BODY_WORDS>,
}

impl Model for Batch {
    ghost use Rattle.std.specs.Prelude.{◌≡◌, ◌≤◌, ◌*◌, length, flat_map};
    ghost use Rattle.bus_batch.specs.Messages.{numbered_messages};
    ghost use Rattle.bus_batch.specs.Frames.{message_words};
    ghost use Rattle.bus_register.specs.declared.limits.TheConstants.{MOST_MESSAGE_WORDS};
    ghost use Rattle.bus_batch.specs.Batches.{Pending, IsKept, spelled};

    ghost Value = { Pending };

    ghost view = { λ b. record {
      sender = b.sender;
      limit = b.limit;
      first = b.first;
      messages = spelled b.count b.body.items;
      phase = b.phase;
      busy = b.busy;
    } };

    ghost invariant = { λ b. IsKept (record {
      sender = b.sender;
      limit = b.limit;
      first = b.first;
      messages = spelled b.count b.body.items;
      phase = b.phase;
      busy = b.busy;
    })
        × (b.body.items
        ≡ flat_map message_words (numbered_messages b.first (spelled b.count b.body.items)))
        × (length (spelled b.count b.body.items) ≡ b.count)
        × (length b.body.items ≤ MOST_MESSAGE_WORDS * b.count) };
}

impl Batch {
    ghost use Rattle.bus_batch.specs.declared.batches.Phase.TheVariants as phase;
    ghost use Rattle.bus_batch.specs.declared.messages.Mark.{Mark};
    ghost use Rattle.bus_batch.specs.declared.messages.Mark.TheVariants as mark;
    ghost use Rattle.bus_batch.specs.Batches.{Pending, next_of, HasSomething, frame_of, body_of};
    ghost use Rattle.bus_batch.specs.Batches.{CanPut, IsPutFault, CanClose, IsCloseFault};
    ghost use Rattle.bus_batch.specs.Batches.{phase_sent};

    /// An empty batch of a sender whose next message has the number `next`; it takes so many
    /// messages, 1 to 64, before it is full.
    pub fn new(sender: SenderNo, next: u64, limit: u64) -> Batch
        requires number { next ≤ NUMBERS }
        requires limit { (1 ≤ limit) × (limit ≤ MOST_MESSAGES) }
        ensures { result ≡ record {
          sender = sender;
          limit = limit;
          first = next;
          messages = [];
          phase = phase.Open;
          busy = false;
        } }
    {
        Batch {
            sender,
            limit,
            first: next,
            count: 0,
            phase: Phase::Open,
            busy: false,
            body: ArrayVec::new(),
        }
    }

    /// How many messages wait.
    pub fn len(&self) -> u64
        ensures len { result ≡ length self.now.messages }
        ensures few { result ≤ self.now.limit }
        ensures most { result ≤ MOST_MESSAGES }
    {
        self.count
    }

    /// How many messages may wait: 1 to 64.
    pub fn limit(&self) -> u64
        ensures limit { result ≡ self.now.limit }
        ensures some { 1 ≤ result }
        ensures few { result ≤ MOST_MESSAGES }
    {
        self.limit
    }

    /// No message waits.
    pub fn is_empty(&self) -> bool
        ensures { IsTrue result ↔ (self.now.messages ≡ []) }
    {
        self.count == 0
    }

    /// The messages that wait, in their order, spelled back from their words.
    pub fn waiting(&self) -> ArrayVec<Message, MOST_MESSAGES>
        ensures { result.items ≡ self.now.messages }
    {
        let mut messages = ArrayVec::new();
        let mut words = self.body.as_slice();
        for i in 0..self.count {
            let len = ((words[0] - 2 * TAG) / HIGH) as usize;
            messages.push(message_of(&words[1..], len));
            words = &words[1 + (len + 7) / 8..];
        }
        messages
    }

    /// An end mark waits.
    pub fn is_closing(&self) -> bool
        ensures { IsTrue result ↔ (self.now.phase ≡ phase.Marking mark.End) }
    {
        self.phase == Phase::Marking(Mark::End)
    }

    /// A leave mark waits.
    pub fn is_leaving(&self) -> bool
        ensures { IsTrue result ↔ (self.now.phase ≡ phase.Marking mark.Leave) }
    {
        self.phase == Phase::Marking(Mark::Leave)
    }

    /// Nothing more is sent.
    pub fn is_closed(&self) -> bool
        ensures { IsTrue result ↔ (self.now.phase ≡ phase.Closed) }
    {
        self.phase == Phase::Closed
    }

    /// The contents are on their way.
    pub fn is_busy(&self) -> bool
        ensures { result ≡ self.now.busy }
    {
        self.busy
    }

    /// The sender.
    pub fn sender(&self) -> SenderNo
        ensures { result ≡ self.now.sender }
    {
        self.sender
    }

    /// The number that the next message gets. The messages that wait have those before it.
    pub fn next_number(&self) -> u64
        ensures { result ≡ next_of self.now }
    {
        self.first + self.count
    }

    /// Appends a message and gives its number.
    pub fn put(&mut self, bytes: &[u8]) -> Result<u64, PutFault>
        requires { next_of self.old < NUMBERS }
        ensures number { IfOk result (λ number. number ≡ next_of self.old) }
        ensures taken { OnOk result
            (self.new ≡ record self.old { messages = self.old.messages ++ bytes.now ∷ [] }) }
        ensures could { OnOk result (CanPut self.old (length bytes.now)) }
        ensures fault { IfErr result (IsPutFault self.old (length bytes.now)) }
        ensures refused { OnErr result (self.new ≡ self.old) }
    {
        if self.phase != Phase::Open {
            return Err(PutFault::Closed);
        }
        if self.busy {
            return Err(PutFault::Busy);
        }
        if bytes.len() > MOST_BYTES {
            return Err(PutFault::TooLong);
        }
        if self.count == self.limit {
            return Err(PutFault::BatchFull);
        }
        let number = self.first + self.count;
        spell(&mut self.body, bytes, number);
        self.count += 1;
        Ok(number)
    }

    /// Lets an end mark wait in place of messages.
    pub fn close(&mut self) -> Result<(), CloseFault>
        ensures taken { OnOk result
            (self.new ≡ record self.old { phase = phase.Marking mark.End }) }
        ensures could { OnOk result (CanClose self.old) }
        ensures fault { IfErr result (IsCloseFault self.old) }
        ensures refused { OnErr result (self.new ≡ self.old) }
    {
        self.mark(Mark::End)
    }

    /// Lets a leave mark wait in place of messages.
    pub fn leave(&mut self) -> Result<(), CloseFault>
        ensures taken { OnOk result
            (self.new ≡ record self.old { phase = phase.Marking mark.Leave }) }
        ensures could { OnOk result (CanClose self.old) }
        ensures fault { IfErr result (IsCloseFault self.old) }
        ensures refused { OnErr result (self.new ≡ self.old) }
    {
        self.mark(Mark::Leave)
    }

    /// Lets a mark wait in place of messages.
    fn mark(&mut self, mark: Mark) -> Result<(), CloseFault>
        ensures taken { OnOk result
            (self.new ≡ record self.old { phase = phase.Marking mark }) }
        ensures could { OnOk result (CanClose self.old) }
        ensures fault { IfErr result (IsCloseFault self.old) }
        ensures refused { OnErr result (self.new ≡ self.old) }
    {
        if self.phase != Phase::Open {
            return Err(CloseFault::Closed);
        }
        if self.busy {
            return Err(CloseFault::Busy);
        }
        if self.count > 0 {
            return Err(CloseFault::Pending);
        }
        self.phase = Phase::Marking(mark);
        Ok(())
    }

    /// The contents go on their way.
    pub fn begin(&mut self)
        requires not_closed { self.old.phase ≢ phase.Closed }
        requires idle { self.old.busy ≡ false }
        requires something { HasSomething self.old }
        ensures { self.new ≡ record self.old { busy = true } }
    {
        self.busy = true;
    }

    /// The contents come back, not sent.
    pub fn back(&mut self)
        requires { self.old.busy ≡ true }
        ensures { self.new ≡ record self.old { busy = false } }
    {
        self.busy = false;
    }

    /// The contents were sent.
    pub fn done(&mut self)
        requires { self.old.busy ≡ true }
        ensures { self.new ≡ record self.old {
          first = next_of self.old;
          messages = [];
          phase = phase_sent self.old.phase;
          busy = false;
        } }
    {
        self.first += self.count;
        self.count = 0;
        self.body.clear();
        if let Phase::Marking(_) = self.phase {
            self.phase = Phase::Closed;
        }
        self.busy = false;
    }

    /// The order had ended: the contents come back and are never sent.
    pub fn ended(&mut self)
        requires { self.old.busy ≡ true }
        ensures { self.new ≡ record self.old { phase = phase.Closed; busy = false } }
    {
        self.phase = Phase::Closed;
        self.busy = false;
    }

    /// How many words the frame has, its head included: 2 to 513.
    pub fn frame_len(&self) -> u64
        requires { HasSomething self.now }
        ensures len { (tenure : ℕ)
            → result ≡ length (frame_words (frame_of self.now tenure)) }
        ensures least { 2 ≤ result }
        ensures most { result ≤ 1 + MOST_BODY_WORDS }

        // In each tenure the frame is one that a log may have, of no more messages than this batch
        // may have.
        ensures lawful { (senders : ℕ) (tenure : ℕ) → self.now.sender.0 < senders
            → tenure < TENURES → IsFrame senders (frame_of self.now tenure) }
        ensures limited { (senders : ℕ) (tenure : ℕ) → self.now.sender.0 < senders
            → tenure < TENURES → IsFrameOf self.now.limit senders (frame_of self.now tenure) }
    {
        let _kept = &self.first;
        1 + self.body_len()
    }

    /// The frame's word at `i`; its head at 0.
    pub fn word(&self, i: u64, tenure: u64) -> u64
        requires something { HasSomething self.now }
        requires below { i < length (frame_words (frame_of self.now tenure)) }
        requires tenure { tenure < TENURES }
        ensures { slice_get (frame_words (frame_of self.now tenure)) i ≡ Some result }
    {
        if i == 0 {
            return TAG + self.sender.0 as u64 * HIGH + self.body_len() * COUNT + tenure;
        }
        match self.phase {
            Phase::Marking(Mark::End) => END,
            Phase::Marking(Mark::Leave) => LEAVE,
            _ => self.body_word(i - 1),
        }
    }

    /// The words of its messages, one behind another; none where a mark waits.
    #[inline(always)]
    pub fn body(&self) -> &[u64]
        ensures words { result.now ≡ flat_map message_words
            (numbered_messages self.now.first self.now.messages) }
        ensures mark { (mark : Mark) → self.now.phase ≡ phase.Marking mark → result.now ≡ [] }
    {
        self.body.as_slice()
    }

    /// How many words the frame has after its head.
    fn body_len(&self) -> u64
        ensures len { result ≡ length
            (body_words (body_of self.now.phase self.now.first self.now.messages)) }
        ensures most { result ≤ MOST_BODY_WORDS }
    {
        match self.phase {
            Phase::Marking(_) => 1,
            _ => self.body.len() as u64,
        }
    }

    /// The word at `i` of those of the messages.
    fn body_word(&self, i: u64) -> u64
        requires { i < length (flat_map message_words
            (numbered_messages self.now.first self.now.messages)) }
        ensures { slice_get (flat_map message_words
            (numbered_messages self.now.first self.now.messages)) i ≡ Some result }
    {
        self.body.as_slice()[i as usize]
    }
}

/// Appends the words of a message with this number: its own, and those of its bytes.
#[inline(always)]
fn spell(body: &mut ArrayVec<u64, BODY_WORDS>, bytes: &[u8], number: u64)
    requires number { number < NUMBERS }
    requires short { length bytes.now ≤ MOST_BYTES }
    requires room { length body.old.items + MOST_MESSAGE_WORDS ≤ MOST_BODY_WORDS }
    ensures { body.new.items ≡ body.old.items ++ message_words (record {
      number = number;
      message = bytes.now;
    }) }
{
    body.push(2 * TAG + bytes.len() as u64 * HIGH + number);
    let whole = bytes.len() / 8;
    for i in 0..whole {
        body.push(data_word_of(&bytes[8 * i..8 * i + 8]));
    }
    if 8 * whole < bytes.len() {
        body.push(data_word_of(&bytes[8 * whole..]));
    }
}

/// The word of at most eight bytes, with zero bytes where there are fewer.
#[inline(always)]
fn data_word_of(bytes: &[u8]) -> u64
    requires { length bytes.now ≤ 8 }
    ensures { result ≡ data_word bytes.now }
{
    let mut word = [0u8; 8];
    word[..bytes.len()].copy_from_slice(bytes);
    u64::from_be_bytes(word)
}

/// The message of so many bytes that these words begin with.
fn message_of(words: &[u64], len: usize) -> Message
    requires short { len ≤ MOST_BYTES }
    requires within { len ≤ 8 * length words.now }
    ensures { result ≡ take len (flat_map (to_be_bytes w64) words.now) }
{
    let mut message = Message::new();
    for i in 0..(len + 7) / 8 {
        let bytes = words[i].to_be_bytes();
        message.append(&bytes[..(len - 8 * i).min(8)]);
    }
    message
}
