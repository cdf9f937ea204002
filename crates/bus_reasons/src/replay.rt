//! Why a script of `replay` or `trace` is refused.

use crate::forms::{are_digits, number_at, numbers_of, other_input, outside, spacing_of, word_at};
use crate::reasons::{Reason, Word};
use crate::refusals::{Refusal, Spot, line_at};
use bus_register::limits::{
    LEAST_LOG_WORDS, MOST_BYTES, MOST_LOG_WORDS, MOST_MESSAGES, MOST_RECEIVERS, MOST_ROUNDS,
    MOST_ROWS, MOST_SENDERS,
};
use bus_script::{Lines, Words};

/// The first line of a script.
const FIRST: Reason<'static> = Reason::Note(
    "the first line is 'shape N M R T L', 'cycle' or 'ring' in its place; 'ring' may end with S, \
    or S B",
);

/// Turns that one line asks for, at most.
const MOST_TURNS_A_LINE: u64 = 10_000;

/// Any other.
const LINES: &str = "begins no line here: others are 'put', 'close', 'turn', 'recv', 'stop', \
    'leave', 'gone' and 'fork'";

/// Why this script was refused so.
pub fn replay_reason<'a>(script: &'a [u8], refusal: Refusal<'_>) -> Option<Reason<'a>> {
    let Spot::Line(number) = refusal.spot else {
        return Some(FIRST);
    };
    let mut lines = Lines::new(script);
    let first = lines.next_line()?;
    if first.number == number {
        return first_reason(first.bytes);
    }
    let line = line_at(lines, number)?;
    named_reason(line.bytes, refusal.name, first.bytes)
}

/// Why a first line is refused.
fn first_reason(line: &[u8]) -> Option<Reason<'_>> {
    if let Some(reason) = spacing_of(line) {
        return Some(reason);
    }
    let mut words = Words::new(line);
    let first = words.next_word()?;
    match str::from_utf8(first) {
        Ok("shape") => {
            numbers_of(words, 5, "shape N M R T L").or(sizes_reason(line, 1, MOST_ROWS as u64))
        }
        Ok("cycle") => numbers_of(words, 5, "cycle N M R T L").or(sizes_reason(line, 2, 8)),
        Ok("ring") => ring_numbers(line, words)
            .or(sizes_reason(line, 2, 8))
            .or(seats_reason(line))
            .or(batch_reason(line)),
        Ok("put" | "close" | "turn" | "recv" | "stop" | "leave" | "gone" | "fork") => Some(FIRST),
        _ => Some(other_input(first).unwrap_or(FIRST)),
    }
}

/// What is wrong with the numbers of a ring, of which a sixth says how many seats there are, and a
/// seventh how many messages a batch may have.
fn ring_numbers<'a>(line: &[u8], words: Words<'a>) -> Option<Reason<'a>> {
    if word_at(line, 7).is_some() {
        return numbers_of(words, 7, "ring N M R T L S B");
    }
    match word_at(line, 6) {
        None => numbers_of(words, 5, "ring N M R T L"),
        Some(_) => numbers_of(words, 6, "ring N M R T L S"),
    }
}

/// That so many seats are not served, if they are not.
fn seats_reason(line: &[u8]) -> Option<Reason<'static>> {
    outside(
        "the number S of seats",
        number_at(line, 6)?,
        number_at(line, 2)?,
        MOST_RECEIVERS,
    )
}

/// That batches of so many messages are not served, if they are not.
fn batch_reason(line: &[u8]) -> Option<Reason<'static>> {
    outside(
        "the number B of messages in a batch",
        number_at(line, 7)?,
        1,
        MOST_MESSAGES as u64,
    )
}

/// The first size of a line that is not served, where so many rows are at least and at most.
fn sizes_reason(line: &[u8], least_rows: u64, most_rows: u64) -> Option<Reason<'static>> {
    size_reason(line, 1, "the number N of senders", 1, MOST_SENDERS as u64)
        .or(size_reason(line, 2, "the number M of receivers", 1, MOST_RECEIVERS))
        .or(size_reason(line, 3, "the number R of rounds", 1, MOST_ROUNDS))
        .or(size_reason(line, 4, "the number T of rows", least_rows, most_rows))
        .or(size_reason(
            line,
            5,
            "the number L of log words",
            LEAST_LOG_WORDS,
            MOST_LOG_WORDS,
        ))
}

/// That a size of a line is not served, if it is not.
fn size_reason(
    line: &[u8],
    place: u64,
    what: &'static str,
    low: u64,
    high: u64,
) -> Option<Reason<'static>> {
    outside(what, number_at(line, place)?, low, high)
}

/// Why a line behind the first one is refused with this name.
fn named_reason<'a>(line: &'a [u8], name: &[u8], first: &[u8]) -> Option<Reason<'a>> {
    match str::from_utf8(name).ok()? {
        "BadLine" => line_reason(line),
        "NoSuchSender" => none_such("sender", line, number_at(first, 1)?),
        "NoSuchReceiver" => match number_at(first, 6) {
            None => none_such("receiver", line, number_at(first, 2)?),
            Some(seats) => none_such("seat", line, seats),
        },
        "TooLong" => outside(
            "the length of the message in bytes",
            length_of(line)?,
            0,
            MOST_BYTES as u64,
        ),
        name => Some(Reason::Note(state_note(name)?)),
    }
}

/// That the process of this line is not there; of a fork it may be the second that is not.
fn none_such(what: &'static str, line: &[u8], count: u64) -> Option<Reason<'static>> {
    let first = number_at(line, 1)?;
    let found = if first < count {
        number_at(line, 2)?
    } else {
        first
    };
    Some(Reason::NoneSuch { what, found, count })
}

/// How many bytes the message of a put has.
fn length_of(line: &[u8]) -> Option<u64> {
    let mut words = Words::new(line);
    words.next_word()?;
    words.next_word()?;
    Some(words.next_word()?.len() as u64 / 2)
}

/// Why a sender takes no put, close or leave as it stands, or a receiver no turn.
fn state_note(name: &str) -> Option<&'static str> {
    match name {
        "Stopped" => Some("the sender has stopped: from then on each line of it is refused"),
        "Gone" => Some("nobody has this number: its receiver has left, or none has taken it yet"),
        "NotAbove" => Some("a receiver forks to a number above its own, and to no other"),
        "Closed" => Some("the sender has closed or left, or its order has ended: it takes no more"),
        "Busy" => Some("the sender's batch is on its way: take turns until 'delivered'"),
        "BatchFull" => Some(
            "as many messages wait at the sender as a batch may have: take turns first",
        ),
        "Pending" => Some(
            "messages wait at the sender: take turns until 'delivered', then close or leave",
        ),
        _ => None,
    }
}

/// What is wrong with the form of a line behind the first one.
fn line_reason(line: &[u8]) -> Option<Reason<'_>> {
    if let Some(reason) = spacing_of(line) {
        return Some(reason);
    }
    let mut words = Words::new(line);
    let first = words.next_word()?;
    match str::from_utf8(first) {
        Ok("put") => put_reason(words),
        Ok("close") => numbers_of(words, 1, "close S"),
        Ok("stop") => numbers_of(words, 1, "stop S"),
        Ok("leave") => numbers_of(words, 1, "leave S"),
        Ok("gone") => numbers_of(words, 1, "gone M"),
        Ok("fork") => numbers_of(words, 2, "fork I J"),
        Ok("turn") => numbers_of(words, 3, "turn S W K").or(turn_reason(line)),
        Ok("recv") => numbers_of(words, 2, "recv M K").or(times_reason(line, 2)),
        Ok("shape" | "cycle" | "ring") => Some(Reason::Note(
            "'shape', 'cycle' and 'ring' stand in the first line alone",
        )),
        _ => Some(other_input(first).unwrap_or(Reason::Wrong(Word(first), LINES))),
    }
}

/// Which number of a turn is not served.
fn turn_reason(line: &[u8]) -> Option<Reason<'static>> {
    let word = number_at(line, 2)?;
    outside("the random word W", word, 0, u64::from(u32::MAX)).or(times_reason(line, 3))
}

/// That so many turns are not served, if they are not.
fn times_reason(line: &[u8], place: u64) -> Option<Reason<'static>> {
    outside(
        "the number K of turns",
        number_at(line, place)?,
        1,
        MOST_TURNS_A_LINE,
    )
}

/// What is wrong with the words behind `put`.
fn put_reason(mut words: Words<'_>) -> Option<Reason<'_>> {
    let mut found = 0u64;
    let mut message = b"".as_slice();
    let mut sender = message;
    while let Some(word) = words.next_word() {
        found = found.saturating_add(1);
        sender = if found == 1 { word } else { sender };
        message = word;
    }
    if found != 2 {
        return Some(Reason::Count {
            form: "put S HEX",
            found,
        });
    }
    if bus_script::number_of(sender).is_none() {
        return Some(crate::forms::no_number(sender));
    }
    Some(Reason::Wrong(Word(message), hex_note(message)))
}

/// What is wrong with the digits of a message.
fn hex_note(message: &[u8]) -> &'static str {
    if message.starts_with(b"0x") {
        "has 0x before its digits: the digits stand alone"
    } else if !are_digits(message) {
        "is no message in hexadecimal digits: write each byte as two, as 6869 for the text hi"
    } else if message.len() % 2 == 1 {
        "has an odd number of hexadecimal digits: each byte has two"
    } else {
        "has digits in upper case: they are 0 to 9 and a to f"
    }
}
