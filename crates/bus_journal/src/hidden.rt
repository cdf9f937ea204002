//! Whole records behind bytes that look like a tail that was cut off.

ghost use Rattle.std.specs.Prelude.{◌≡◌, ◌+◌, ◌/◌, ◌<◌, ◌≤◌, ◌^◌, ◌↔◌, ℕ, IsTrue, length};
ghost use Rattle.bus_register.specs.declared.limits.TheConstants.{MOST_MESSAGES};
ghost use Rattle.bus_journal.specs.Records.{BeginsRecord, HidesRecord};

use crate::ends::JournalEnd;
use crate::records::{head_count, record_at};

/// Bytes begin with a whole record, behind some and fewer than so many words of frames.
fn begins_later(bytes: &[u8], senders: u64, most: u64, place: u64, words: u64) -> bool
    requires most { most ≤ MOST_MESSAGES }
    requires fits { place + words < 2 ^ 64 }
    ensures { IsTrue result ↔ ((later : ℕ) × (1 ≤ later) × (later < words)
        × BeginsRecord senders most (place + later) bytes.now) }
{
    if head_count(bytes, senders, most).is_none() {
        return false;
    }
    for later in 1..words {
        if record_at(bytes, senders, most, place + later, bytes.len()).is_some() {
            return true;
        }
    }
    false
}

/// A journal ends torn, and a whole record of a later place stands in its tail.
pub(crate) fn is_hiding(end: JournalEnd, rest: &[u8], senders: u64, most: u64, place: u64) -> bool
    requires most { most ≤ MOST_MESSAGES }
    requires fits { place + length rest.now / 8 < 2 ^ 64 }
    ensures { IsTrue result ↔ ((end ≡ JournalEnd.Torn) × HidesRecord senders most place rest.now) }
{
    match end {
        JournalEnd::Torn => hides_record(rest, senders, most, place),
        JournalEnd::Whole | JournalEnd::Damaged => false,
    }
}

/// A whole record of a later place stands in bytes.
fn hides_record(bytes: &[u8], senders: u64, most: u64, place: u64) -> bool
    requires most { most ≤ MOST_MESSAGES }
    requires fits { place + length bytes.now / 8 < 2 ^ 64 }
    ensures { IsTrue result ↔ HidesRecord senders most place bytes.now }
{
    let mut before = 2;
    while before < bytes.len() / 8 {
        let (_, behind) = bytes.split_at(8 * before);
        if begins_later(behind, senders, most, place, before as u64) {
            return true;
        }
        before += 1;
    }
    false
}
