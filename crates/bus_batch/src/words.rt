//! Where the parts of a word stand.

/// One in the lowest of the two bits of the tag: 01 is a head, 10 a message word, 11 a mark.
pub(crate) const TAG: u64 = 0x4000_0000_0000_0000;

/// One in the lowest bit of a head's owner, and of a message's length.
pub(crate) const HIGH: u64 = 0x0040_0000_0000_0000;

/// One in the lowest bit of a head's count.
pub(crate) const COUNT: u64 = 0x0000_0100_0000_0000;

/// The end word.
pub(crate) const END: u64 = 0xC000_0000_0000_0000;

/// The leave word.
pub(crate) const LEAVE: u64 = 0xC000_0000_0000_0001;
