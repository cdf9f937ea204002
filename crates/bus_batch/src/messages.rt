//! Messages, items of the order, and what words of the log say.

ghost use Rattle.std.specs.Prelude.{◌≡◌, ℕ, ◌+◌, ◌<◌, ◌≤◌, List, []};
ghost use Rattle.std.specs.Prelude.{◌-◌, ◌++◌, length, All, IsSome, IfSome, ◌↔◌, take, drop};
ghost use Rattle.std.specs.Prelude.{IsTrue, Bool, min};
ghost use Rattle.std.specs.Int.{w64, to_be_bytes};

use bus_register::SenderNo;
use bus_register::limits::MOST_BYTES;
use std::alloc::AllocError;
use std::fmt;
use std::marker::Model;

/// At most 56 bytes.
#[derive(Drop, PartialEq, Eq)]
pub struct Message {
    len: usize,
    /// Those behind its length are zero.
    bytes: [u8; MOST_BYTES],
}

impl Model for Message {
    ghost use Rattle.std.specs.Prelude.{◌≡◌, ℕ, ◌-◌, ◌≤◌, List, ◌++◌, length, take, drop};
    ghost use Rattle.std.specs.Prelude.{replicate};
    ghost use Rattle.bus_batch.specs.Private.Padded.{padded_again};

    ghost Value = { List ℕ };

    ghost view = { λ m. take m.len m.bytes };

    ghost invariant = { λ m. (m.len ≤ 56) × (length m.bytes ≡ 56)
        × (drop m.len m.bytes ≡ replicate (56 - m.len) 0) };

    ghost inverse = { λ bytes. record {
      len = length bytes;
      bytes = bytes ++ replicate (56 - length bytes) 0;
    } };

    ghost inverse_ok = { λ m h i. record {
      len = (padded_again m.len m.bytes h).0 i;
      bytes = (padded_again m.len m.bytes h).1 i;
    } };
}

impl Message {
    /// A message of no byte.
    pub fn new() -> Message
        ensures { result ≡ [] }
    {
        Message {
            len: 0,
            bytes: [0; MOST_BYTES],
        }
    }

    /// The bytes as a message; none where they are more than 56.
    pub fn of_bytes(bytes: &[u8]) -> Option<Message>
        ensures fits { IsSome result ↔ (length bytes.now ≤ MOST_BYTES) }
        ensures same { IfSome result (λ m. m ≡ bytes.now) }
    {
        if bytes.len() > MOST_BYTES {
            return None;
        }
        let mut padded = [0; MOST_BYTES];
        padded[..bytes.len()].copy_from_slice(bytes);
        Some(Message {
            len: bytes.len(),
            bytes: padded,
        })
    }

    /// The bytes.
    pub fn as_slice(&self) -> &[u8]
        ensures same { result.now ≡ self.now }
        ensures short { length result.now ≤ MOST_BYTES }
    {
        &self.bytes[..self.len]
    }

    /// How many bytes.
    pub fn len(&self) -> usize
        ensures len { result ≡ length self.now }
        ensures short { result ≤ MOST_BYTES }
    {
        self.len
    }

    /// There is no byte.
    pub fn is_empty(&self) -> bool
        ensures { IsTrue result ↔ (self.now ≡ []) }
    {
        self.len == 0
    }

    /// No byte.
    #[inline(always)]
    pub fn clear(&mut self)
        ensures { self.new ≡ [] }
    {
        self.bytes = [0; MOST_BYTES];
        self.len = 0;
    }

    /// The bytes with the eight of a word at the end.
    #[inline(always)]
    pub fn append_word(&mut self, word: u64)
        requires { length self.old + 8 ≤ MOST_BYTES }
        ensures { self.new ≡ self.old ++ to_be_bytes w64 word }
    {
        let len = self.len;
        self.bytes[len..len + 8].copy_from_slice(&word.to_be_bytes());
        self.len = len + 8;
    }

    /// The bytes with more at the end.
    pub(crate) fn append(&mut self, more: &[u8])
        requires { length self.old + length more.now ≤ MOST_BYTES }
        ensures { self.new ≡ self.old ++ more.now }
    {
        let all = self.len + more.len();
        self.bytes[self.len..all].copy_from_slice(more);
        self.len = all;
    }

    /// So many of its bytes, the first; the others are zero.
    #[inline(always)]
    pub(crate) fn truncate(&mut self, len: usize)
        requires within { len ≤ length self.old }
        requires padding { All (λ b. b ≡ 0) (drop len self.old) }
        ensures { self.new ≡ take len self.old }
    {
        self.len = len;
    }

    /// The bytes that were begun, and the first ones of a word, of which the others are zero: so
    /// many in all. Nothing is begun any more.
    #[inline(always)]
    pub(crate) fn finish(&mut self, begun: &mut Message, word: u64, len: usize)
        requires whole { (length begun.old < len) × (len ≤ length begun.old + 8) }
        requires begun { (length begun.old + 8 ≤ MOST_BYTES) }
        requires padding { All (λ b. b ≡ 0)
            (drop (len - length begun.old) (to_be_bytes w64 word)) }
        ensures same { self.new
            ≡ begun.old ++ take (len - length begun.old) (to_be_bytes w64 word) }
        ensures begun { begun.new ≡ [] }
    {
        let place = begun.len;
        self.bytes = begun.bytes;
        if place > 0 {
            begun.bytes = [0; MOST_BYTES];
            begun.len = 0;
        }
        self.bytes[place..place + 8].copy_from_slice(&word.to_be_bytes());
        self.len = len;
    }

    /// The same bytes once more. Takes no memory, so that it has no want of it to report.
    pub fn copied(&self) -> Message
        ensures { result ≡ self.now }
    {
        Message {
            len: self.len,
            bytes: self.bytes,
        }
    }
}

/// The list of its bytes.
impl fmt::Debug for Message {
    fn fmt<W: fmt::Write>(&self, f: &mut fmt::Formatter<W>) -> fmt::Result {
        f.debug_list().entries(self.as_slice()).finish()
    }
}

impl Default for Message {
    ghost is_default = { λ m. m ≡ [] };

    fn default() -> Message {
        Message::new()
    }
}

/// A message in the order, with its sender and the number that the sender's batch gave it.
#[derive(Debug, Drop, PartialEq, Eq)]
pub struct Item {
    pub sender: SenderNo,
    /// Counted for each sender, from 0 or from where the sitting before left off; below 2^48.
    pub number: u64,
    pub message: Message,
}

impl Item {
    /// An item of no byte, with the number 0 of sender 0, to be written over.
    pub fn blank() -> Item
        ensures { result ≡ record { sender = record { 0 = 0 }; number = 0; message = [] } }
    {
        Item {
            sender: SenderNo(0),
            number: 0,
            message: Message::new(),
        }
    }

    /// The same item once more. Takes no memory.
    pub fn copied(&self) -> Item
        ensures { result ≡ self.now }
    {
        Item {
            sender: self.sender,
            number: self.number,
            message: self.message.copied(),
        }
    }
}

/// What a frame says in place of messages: that the order has ended, or that its sender has left.
#[derive(Clone, Copy, Debug, PartialEq, Eq)]
pub enum Mark {
    End,
    Leave,
}

/// What a word of the log says, where it says something by itself.
#[derive(Debug, Drop, PartialEq, Eq)]
pub enum Piece {
    /// A frame begins: the tenure, below 2^40, and the sender that owned it.
    Head { tenure: u64, owner: SenderNo },
    /// A message is whole.
    Item(Item),
    /// The order has ended.
    End,
    /// This sender has left for good.
    Leave(SenderNo),
}
