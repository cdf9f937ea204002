//! Each public call once.

use crate::steps::same;
use bus_script::{LineNumber, Lines, Words, number_of, refusal_line, words_behind};
use std::process::Abort;

/// The next word is this number.
fn is_next(rt: &impl Abort, words: &mut Words<'_>, number: u64) {
    let word = words.next_word().expect(rt, "a word");
    same(rt, &number_of(word), &Some(number));
}

#[test]
fn script_is_read(rt: HostRuntime) {
    let mut lines = Lines::new(b"# a comment\n\nsteps 0 17");
    let line = lines.next_line().expect(&rt, "a line");
    same(&rt, &line.number, &3);
    let mut words = words_behind(line.bytes, b"steps").expect(&rt, "the keyword");
    is_next(&rt, &mut words, 0);
    is_next(&rt, &mut words, 17);
    assert!(rt; words.next_word().is_none());
    assert!(rt; lines.next_line().is_none());
}

#[test]
fn refusals_are_named(rt: HostRuntime) {
    for (line_number, text) in [
        (LineNumber::AtLine(3), "line 3: BadLine\n"),
        (LineNumber::AtEnd, "end: BadLine\n"),
    ] {
        let line = refusal_line(rt.alloc(), line_number, "BadLine").expect(&rt, "memory");
        same(&rt, &line.as_str(), &text);
    }
}
