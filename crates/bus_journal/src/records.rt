//! The records of a journal.

ghost use Rattle.std.specs.Prelude.{◌≡◌, ◌+◌, ◌*◌, ◌≤◌, ◌↔◌, ℕ, List, ◌++◌, length, take, OnOk};
ghost use Rattle.std.specs.Prelude.{◌<◌, ◌^◌, map, min};
ghost use Rattle.bus_batch.specs.Frames.{Frame, AreFrames, frame_words, log_words};
ghost use Rattle.std.specs.Prelude.{OnErr, OnSome, IfSome, IfNone, IsTrue};
ghost use Rattle.bus_register.specs.declared.limits.TheConstants.{MOST_MESSAGES};
ghost use Rattle.bus_journal.specs.Format.{word_bytes, record_bytes, records_bytes};
ghost use Rattle.bus_journal.specs.Records.{IsRecordHead, BeginsHead, BeginsWith, BeginsNone};
ghost use Rattle.bus_journal.specs.Records.{count_of};

use crate::bytes::{are_same, checksum_at, first_word, push_words};
use std::alloc::AllocError;

/// One in the lowest of the two bits of a head's tag.
const TAG: u64 = 0x4000_0000_0000_0000;

/// One in the lowest bit of a head's owner.
const OWNER: u64 = 0x0040_0000_0000_0000;

/// One in the lowest bit of a head's count.
const COUNT: u64 = 0x0000_0100_0000_0000;

/// Appends the record of a frame whose first word has this place in the log. Where memory is
/// refused, nothing is appended.
pub fn push_record(out: &mut Vec<u8>, place: u64, frame: &[u64]) -> Result<(), AllocError>
    ensures ok { OnOk result (out.new.items ≡ out.old.items ++ record_bytes place frame.now) }
    ensures err { OnErr result (out.new.items ≡ out.old.items) }
{
    let start = out.len();
    let pushed = append_record(out, place, frame);
    if pushed.is_err() {
        out.truncate(start);
    }
    pushed
}

/// Appends a record. Where memory is refused, some of its bytes may have been appended.
fn append_record(out: &mut Vec<u8>, place: u64, frame: &[u64]) -> Result<(), AllocError>
    ensures ok { OnOk result (out.new.items ≡ out.old.items ++ record_bytes place frame.now) }
    ensures kept { take (length out.old.items) out.new.items ≡ out.old.items }
{
    let start = out.len();
    push_words(out, frame)?;
    let sum = checksum_at(place, &out[start..]);
    out.extend_from_slice(&sum)?;
    Ok(())
}

/// Appends the records of the frames that the words of a log are, of which the first has this
/// place. Where memory is refused, nothing is appended. Of words that are no log nothing is said,
/// but that what was there stays.
pub fn push_frames(out: &mut Vec<u8>, place: u64, words: &[u64]) -> Result<(), AllocError>
    requires { place + length words.now < 2 ^ 64 }
    ensures ok { OnOk result ((senders : ℕ) (frames : List Frame) → AreFrames senders frames
        → log_words frames ≡ words.now
        → out.new.items ≡ out.old.items ++ records_bytes place (map frame_words frames)) }
    ensures kept { take (length out.old.items) out.new.items ≡ out.old.items }
    ensures err { OnErr result (out.new.items ≡ out.old.items) }
{
    let start = out.len();
    let pushed = append_frames(out, place, words);
    if pushed.is_err() {
        out.truncate(start);
    }
    pushed
}

/// Appends the records of frames. Where memory is refused, some may have been appended.
fn append_frames(out: &mut Vec<u8>, place: u64, words: &[u64]) -> Result<(), AllocError>
    requires { place + length words.now < 2 ^ 64 }
    ensures ok { OnOk result ((senders : ℕ) (frames : List Frame) → AreFrames senders frames
        → log_words frames ≡ words.now
        → out.new.items ≡ out.old.items ++ records_bytes place (map frame_words frames)) }
    ensures kept { take (length out.old.items) out.new.items ≡ out.old.items }
{
    let mut rest = words;
    let mut at = place;
    while !rest.is_empty() {
        let count = frame_len(rest[0]).min(rest.len());
        let (frame, behind) = rest.split_at(count);
        push_record(out, at, frame)?;
        at += count as u64;
        rest = behind;
    }
    Ok(())
}

/// How many words a frame has with this head, which is one of them.
fn frame_len(head: u64) -> usize
    ensures { result ≡ count_of head + 1 }
{
    (head % OWNER / COUNT) as usize + 1
}

/// A head that may begin a record, by itself.
fn is_record_head(head: u64, senders: u64, most: u64) -> bool
    requires { most ≤ MOST_MESSAGES }
    ensures { IsTrue result ↔ IsRecordHead senders most head }
{
    let owner = head % TAG / OWNER;
    let count = head % OWNER / COUNT;
    head / TAG == 1 && owner < senders && count >= 1 && count <= 8 * most
}

/// How many words the frame has, its head's included, with whose head bytes begin.
pub(crate) fn head_count(bytes: &[u8], senders: u64, most: u64) -> Option<usize>
    requires { most ≤ MOST_MESSAGES }
    ensures some { IfSome result (BeginsHead senders most bytes.now) }
    ensures long { OnSome result (8 ≤ length bytes.now) }
    ensures none { IfNone result
        ((head : ℕ) (rest : List ℕ) → bytes.now ≡ word_bytes head ++ rest
        → ¬ IsRecordHead senders most head) }
{
    let head = first_word(bytes)?;
    if !is_record_head(head, senders, most) {
        return None;
    }
    Some(frame_len(head))
}

/// How many words the whole record has, at most so many, with which bytes begin.
pub(crate) fn record_at(
    bytes: &[u8],
    senders: u64,
    most: u64,
    place: u64,
    room: usize,
) -> Option<usize>
    requires { most ≤ MOST_MESSAGES }
    ensures some { IfSome result (BeginsWith senders most place room bytes.now) }
    ensures long { IfSome result (λ count. 8 * count + 8 ≤ length bytes.now) }
    ensures none { IfNone result (BeginsNone senders most place room bytes.now) }
{
    let count = head_count(bytes, senders, most)?;
    if count > room || bytes.len() < 8 * count + 8 {
        return None;
    }
    let (frame, rest) = bytes.split_at(8 * count);
    if are_same(&rest[..8], &checksum_at(place, frame)) {
        Some(count)
    } else {
        None
    }
}
