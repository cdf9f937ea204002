//! The pieces of one sender, joined.

ghost use Rattle.std.specs.Prelude.{◌≡◌, ℕ, ◌+◌, ◌*◌, ◌≤◌, List, [], ◌∷◌, ◌++◌, length, drop};
ghost use Rattle.std.specs.Prelude.{◌<◌, Some, None, false, IsTrue, slice_index};
ghost use Rattle.bus_long.specs.Pieces.{nothing, begun_by, whole_by, is_piece};

use crate::pieces::{MOST_LONG_BYTES, MOST_PIECES, PIECE_BYTES};
use arrayvec::ArrayVec;
use std::marker::Model;

/// What a message of a sender came to.
#[derive(Clone, Copy, Debug, PartialEq, Eq)]
pub enum Taken {
    /// It is a piece that others are to follow.
    Waits,
    /// A long message is whole: `Joiner::bytes` are its bytes, until the next is taken.
    Joined,
    /// A long message is whole: those behind its first byte.
    Rest,
    /// It is no piece, and so a long message as it is.
    AsItIs,
}

/// What the messages of one sender have come to, taken in their order.
#[derive(Drop)]
pub struct Joiner {
    /// How many pieces are to come.
    left: u8,
    bytes: ArrayVec<u8, MOST_LONG_BYTES>,
}

impl Model for Joiner {
    ghost use Rattle.std.specs.Prelude.{◌≤◌, ◌+◌, ◌*◌, length};
    ghost use Rattle.bus_long.specs.Pieces.{Begun};
    ghost use Rattle.bus_long.specs.declared.pieces.TheConstants.{MOST_LONG_BYTES, PIECE_BYTES};

    ghost Value = { Begun };

    ghost view = { λ j. record { left = j.left; bytes = j.bytes.items } };

    ghost invariant = { λ j. length j.bytes.items + PIECE_BYTES * j.left ≤ MOST_LONG_BYTES };
}

impl Joiner {
    /// A joiner that has taken nothing.
    pub fn new() -> Joiner
        ensures { result ≡ nothing }
    {
        Joiner {
            left: 0,
            bytes: ArrayVec::new(),
        }
    }

    /// The bytes that it has: those of the message that was `Joined`.
    pub fn bytes(&self) -> &[u8]
        ensures { result.now ≡ self.now.bytes }
    {
        self.bytes.as_slice()
    }

    /// Forgets what it has.
    pub fn clear(&mut self)
        ensures { self.new ≡ nothing }
    {
        self.left = 0;
        self.bytes.clear();
    }

    /// Takes the next message of its sender.
    pub fn take(&mut self, message: &[u8]) -> Taken
        ensures waits { result ≡ Taken.Waits → (whole_by self.old message.now ≡ None)
            × (self.new ≡ begun_by self.old message.now) }
        ensures joined { result ≡ Taken.Joined
            → (whole_by self.old message.now ≡ Some self.new.bytes)
            × (begun_by self.old message.now ≡ nothing) × (self.new.left ≡ 0) }
        ensures rest { result ≡ Taken.Rest → (1 ≤ length message.now)
            × (whole_by self.old message.now ≡ Some (drop 1 message.now))
            × (begun_by self.old message.now ≡ nothing) × (self.new ≡ nothing) }
        ensures as_it_is { result ≡ Taken.AsItIs
            → (whole_by self.old message.now ≡ Some message.now)
            × (begun_by self.old message.now ≡ nothing) × (self.new ≡ nothing) }
    {
        if !may_be_piece(message) {
            self.clear();
            return Taken::AsItIs;
        }
        let follow = message[0];
        if self.left != follow + 1 {
            self.clear();
            if follow == 0 {
                return Taken::Rest;
            }
        }
        self.append(follow, &message[1..]);
        if follow == 0 {
            Taken::Joined
        } else {
            Taken::Waits
        }
    }

    /// So many pieces are to come, and these bytes stand behind those that it has.
    fn append(&mut self, follow: u8, bytes: &[u8])
        requires { length self.old.bytes + length bytes.now + PIECE_BYTES * follow
            ≤ MOST_LONG_BYTES }
        ensures { self.new ≡ record { left = follow; bytes = self.old.bytes ++ bytes.now } }
    {
        self.left = follow;
        match self.bytes.try_extend_from_slice(bytes) {
            Ok(()) => {}
            Err(_) => unreachable!(),
        }
    }
}

/// It has the form of a piece.
fn may_be_piece(message: &[u8]) -> bool
    ensures some { (follow : ℕ) (bytes : List ℕ) → message.now ≡ follow ∷ bytes
        → result ≡ is_piece follow bytes }
    ensures none { message.now ≡ [] → result ≡ false }
    ensures short { IsTrue result → (slice_index message.now 0 < MOST_PIECES)
        × (length message.now ≤ PIECE_BYTES + 1) }
{
    if message.is_empty() {
        return false;
    }
    if message[0] as usize >= MOST_PIECES {
        return false;
    }
    if message[0] == 0 {
        message.len() <= PIECE_BYTES + 1
    } else {
        message.len() == PIECE_BYTES + 1
    }
}
