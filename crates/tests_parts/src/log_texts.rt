//! What no clause says of logs as text: how many words are read, and how they are printed. Worked
//! lines with the texts that answer them stand in `examples/rows/`.

use crate::steps::same;
use bus_logtext::{print_words, read_log_text, words_of};
use bus_script::Outcome;
use std::process::Abort;

/// Lines are refused with this text, as a log of two senders.
fn refuses<R: Abort + AllocGlobal>(rt: &R, input: &[u8], text: &str) {
    let answer = read_log_text(rt.alloc(), input, 2, 16).expect(rt, "memory");
    same(rt, &answer.outcome, &Outcome::Refused);
    same(rt, &answer.text.as_str(), &text);
}

/// How many words lines are.
fn count<R: Abort + AllocGlobal>(rt: &R, input: &[u8]) -> usize {
    words_of(rt.alloc(), input).expect(rt, "words").len()
}

/// Appends a line.
fn append(rt: &impl Abort, input: &mut Vec<u8>, line: &[u8]) {
    input.extend_from_slice(line).expect(rt, "memory");
}

#[test]
fn as_many_words_as_a_log_may_have(rt: HostRuntime) {
    let mut input = Vec::new(rt.alloc());
    for _ in 0..65_536u64 {
        append(&rt, &mut input, b"0000000000000000\n");
    }
    same(&rt, &count(&rt, &input), &65_536);
    append(&rt, &mut input, b"0000000000000000");
    refuses(&rt, &input, "line 65537: TooManyWords\n");
}

#[test]
fn words_are_printed(rt: HostRuntime) {
    let words = [0x4000_0200_0000_0000, 0, u64::MAX, 0x0123_4567_89ab_cdef];
    let text = print_words(rt.alloc(), &words).expect(&rt, "memory");
    same(
        &rt,
        &text.as_str(),
        &"4000020000000000\n0000000000000000\nffffffffffffffff\n0123456789abcdef\n",
    );
}
