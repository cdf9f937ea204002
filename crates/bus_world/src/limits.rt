//! How far the numbers of a sitting may have come before it begins. Contracts and definitions take
//! it from here.

/// A sitting that goes on with the numbers of another begins each below this, so that a whole log
/// of messages has its numbers below 2^48.
pub const FIRST_NUMBERS: u64 = 0xffff_ffff_0000;
