//! Names of words and of senders, and one step on one word.

ghost use Rattle.std.specs.Prelude.{◌≡◌, ◌<◌, ◌%◌};

/// The place of a word, counted from 0.
#[derive(Clone, Copy, Debug, PartialEq, Eq)]
pub struct Reg(pub u64);

/// The number of a sender, counted from 0.
#[derive(Clone, Copy, Debug, Default, PartialEq, Eq)]
pub struct SenderNo(pub u8);

/// One atomic step on one word. Each gives back what the word was before it.
#[derive(Clone, Copy, Debug, PartialEq, Eq)]
pub enum Op {
    /// Reads the word.
    Load(Reg),
    /// Writes the number.
    Store(Reg, u64),
    /// Adds the number.
    Add(Reg, u64),
    /// Writes the second number where the word equals the first: compare_exchange.
    Cas(Reg, u64, u64),
}

/// The cell of a place in a log of so many words: the place, less the whole logs below it. Most
/// places have none below.
#[inline(always)]
pub fn cell(place: u64, capacity: u64) -> u64
    requires { 0 < capacity }
    ensures { result ≡ place % capacity }
{
    if place < capacity {
        return place;
    }
    place % capacity
}
