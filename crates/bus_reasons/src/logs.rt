//! Why lines are refused that are to be the words of a log.

use crate::forms::{are_digits, other_input, spacing_of};
use crate::reasons::{Reason, Word};
use crate::refusals::{Refusal, Spot, line_at};
use bus_register::limits::MOST_MESSAGE_WORDS;
use bus_script::{Lines, Words};

/// Why these lines, told as a log of so many senders, with so many messages in a frame at most,
/// were refused so.
pub fn log_reason<'a>(
    senders: u64,
    batch: u64,
    input: &'a [u8],
    refusal: Refusal<'_>,
) -> Option<Reason<'a>> {
    match refusal.spot {
        Spot::End => Some(Reason::Note(
            "the words end within a frame: the last words of the log are missing",
        )),
        Spot::Line(number) => Some(line_reason(line_at(Lines::new(input), number)?.bytes)),
        Spot::Word(place) => Some(word_reason(senders, batch, head_at(input, place))),
    }
}

/// Why a line is refused.
fn line_reason(line: &[u8]) -> Reason<'_> {
    if let Some(reason) = spacing_of(line) {
        return reason;
    }
    if line.len() == 16 && are_digits(line) {
        return Reason::Note("a log has at most 65536 words");
    }
    let mut words = Words::new(line);
    let first = words.next_word().unwrap_or(b"");
    if let Some(reason) = other_input(first) {
        return reason;
    }
    let note = if line.starts_with(b"0x") {
        "has 0x before its digits: the digits stand alone"
    } else if are_digits(line) {
        "is no word of a log: that has 16 hexadecimal digits, no fewer and no more"
    } else {
        "is no word of a log: that has 16 hexadecimal digits, and nothing else in its line"
    };
    Reason::Wrong(Word(line), note)
}

/// The word of this place, the first being word 0, if a frame begins there.
fn head_at(input: &[u8], place: u64) -> Option<u64> {
    let mut lines = Lines::new(input);
    let mut head = 0u64;
    let mut at = 0u64;
    while let Some(line) = lines.next_line() {
        let word = word_of(line.bytes);
        if at == place {
            return if head == at { Some(word) } else { None };
        }
        at = at.saturating_add(1);
        if head < at {
            // A head says how many words come behind it in its frame.
            head = at.saturating_add((word >> 40) & 0x3fff);
        }
    }
    None
}

/// The word that a line of hexadecimal digits is.
fn word_of(line: &[u8]) -> u64 {
    let mut word = 0u64;
    for byte in line {
        let digit = match byte {
            b'0'..=b'9' => *byte - b'0',
            b'a'..=b'f' => *byte - b'a' + 10,
            b'A'..=b'F' => *byte - b'A' + 10,
            _ => 0,
        };
        word = (word << 4) | u64::from(digit);
    }
    word
}

/// Why no log goes on with a word, which is this one if a frame begins there.
fn word_reason(senders: u64, batch: u64, head: Option<u64>) -> Reason<'static> {
    let unknown = Reason::Note(
        "no log goes on with this word: docs/FORMATS.md says which words are bad, under 'Frames'",
    );
    let Some(word) = head else {
        return unknown;
    };
    let owner = (word >> 54) & 0xff;
    if word >> 62 == 1 && owner >= senders {
        return Reason::Owner { owner, senders };
    }
    let count = (word >> 40) & 0x3fff;
    if word >> 62 == 1 && count > MOST_MESSAGE_WORDS.saturating_mul(batch) {
        return Reason::Note(
            "its frame has more words than a batch may have: --batch says how many messages that \
            has, and 16 where it is left out",
        );
    }
    unknown
}
