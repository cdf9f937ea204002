//! What a sitting takes of a bus whose log is no ring, as sums.

ghost use Rattle.std.specs.Prelude.{◌≡◌, ◌-◌, ◌^◌, min};
ghost use Rattle.bus_receiver.specs.Sizes.{batches_of, tenures_of, words_of, room_before_close};

use bus_register::limits::{LOG_FRAME_WORDS, LOG_MESSAGES};

/// How many batches of at most 16, which are the most without a ring, a sender makes of so many
/// messages.
fn batches(messages: u64) -> u128
    ensures { result ≡ batches_of messages }
{
    (u128::from(messages) + (LOG_MESSAGES as u128 - 1)) / LOG_MESSAGES as u128
}

/// How many tenures a sitting takes in which each of so many senders sends so many messages, in
/// batches of 16 of which the last may be smaller, and one closes: the `rows` of its shape. A bus
/// has at most 256 of them. If there are more than 64 bits can count, it is `u64::MAX`.
pub fn tenures_needed(senders: u64, messages: u64) -> u64
    ensures { result ≡ min (tenures_of senders messages) (2 ^ 64 - 1) }
{
    let tenures = u128::from(senders) * batches(messages) + 1;
    u64::try_from(tenures).unwrap_or(u64::MAX)
}

/// How many log words such a sitting takes where each message has so many bytes: the `log_words` of
/// its shape, at least 16. A bus has at most 65,536 of them, and a message at most 56 bytes. If
/// there are more than 64 bits can count, it is `u64::MAX`.
pub fn words_needed(senders: u64, messages: u64, bytes: u64) -> u64
    ensures { result ≡ min (words_of senders messages bytes) (2 ^ 64 - 1) }
{
    let each = 1 + (u128::from(bytes) + 7) / 8;
    let of_each = batches(messages) + u128::from(messages) * each;
    let words = u128::from(senders)
        .saturating_mul(of_each)
        .saturating_add(2);
    u64::try_from(words).unwrap_or(u64::MAX)
}

/// How many words of a log of so many, which is no ring, may be in use when one of so many senders
/// begins a batch or a leave, so that the end mark still fits, whatever the others do; 0 where
/// there is no such number.
/// Right before it puts or leaves each sender looks at its own `words`, and begins nothing above
/// this number: so it has at most one frame behind that place, and no other length is loaded.
pub fn room_to_close(log_words: u64, senders: u64) -> u64
    ensures { result ≡ room_before_close log_words senders }
{
    let frames = senders.saturating_mul(LOG_FRAME_WORDS as u64);
    log_words.saturating_sub(2).saturating_sub(frames)
}
