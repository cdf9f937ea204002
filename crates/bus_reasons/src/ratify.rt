//! Why a script of `ratify` is refused.

use crate::forms::{no_number, other_input, spacing_of};
use crate::reasons::{Reason, Word};
use crate::refusals::{Refusal, Spot, line_at};
use bus_script::{Lines, Words, number_of};

/// The first line of a script.
const FIRST: Reason<'static> = Reason::Note(
    "the first line is 'inputs' and the input of each of 1 to 8 processes, 0 or 1",
);

/// Processes that have an input, at most.
const MOST_INPUTS: u64 = 8;

/// Any other.
const STEPS: Reason<'static> = Reason::Note(
    "a line behind the first is 'steps' and one or more numbers of processes",
);

/// Why this script was refused so.
pub fn ratify_reason<'a>(script: &'a [u8], refusal: Refusal<'_>) -> Option<Reason<'a>> {
    let Spot::Line(number) = refusal.spot else {
        return Some(FIRST);
    };
    let mut lines = Lines::new(script);
    let first = lines.next_line()?;
    if first.number == number {
        return Some(inputs_reason(first.bytes));
    }
    let line = line_at(lines, number)?;
    Some(steps_reason(line.bytes, count_behind(first.bytes)))
}

/// How many words stand behind the first one.
fn count_behind(line: &[u8]) -> u64 {
    let mut words = Words::new(line);
    let _ = words.next_word();
    let mut count = 0u64;
    while words.next_word().is_some() {
        count = count.saturating_add(1);
    }
    count
}

/// Why a first line is refused.
fn inputs_reason(line: &[u8]) -> Reason<'_> {
    if let Some(reason) = spacing_of(line) {
        return reason;
    }
    let mut words = Words::new(line);
    let first = words.next_word().unwrap_or(b"");
    if first != b"inputs".as_slice() {
        return other_input(first).unwrap_or(FIRST);
    }
    while let Some(word) = words.next_word() {
        if word != b"0".as_slice() && word != b"1".as_slice() {
            return Reason::Wrong(Word(word), "is no input: each is 0 or 1");
        }
    }
    Reason::Outside {
        what: "the number of inputs",
        found: count_behind(line),
        low: 1,
        high: MOST_INPUTS,
    }
}

/// Why a line behind the first one is refused, among so many processes.
fn steps_reason(line: &[u8], processes: u64) -> Reason<'_> {
    if let Some(reason) = spacing_of(line) {
        return reason;
    }
    let mut words = Words::new(line);
    let first = words.next_word().unwrap_or(b"");
    if first != b"steps".as_slice() {
        return other_command(first);
    }
    let mut strange = None;
    while let Some(word) = words.next_word() {
        let Some(found) = number_of(word) else {
            return no_number(word);
        };
        if strange.is_none() && found >= processes {
            strange = Some(found);
        }
    }
    match strange {
        Some(found) => Reason::NoneSuch {
            what: "process",
            found,
            count: processes,
        },
        None => STEPS,
    }
}

/// Why a line is refused that is none of steps.
fn other_command(first: &[u8]) -> Reason<'static> {
    if first == b"inputs".as_slice() {
        return Reason::Note("'inputs' stands in the first line alone");
    }
    other_input(first).unwrap_or(STEPS)
}
