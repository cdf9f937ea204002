//! Worked measurements, what is refused, and one small round.

use crate::same::same;
use bench_rounds::faults::Fault;
use bench_rounds::gates::Gate;
use bench_rounds::needs::{Load, Shortage};
use bench_rounds::report::{least_of, middle};
use bench_rounds::request::{Field, Refusal, Request, Size, parse, parse_line};
use bench_rounds::rounds::round;
use bus_tenure::Turn;
use std::process::Abort;
use std::test::Fail;

/// A request of these numbers, which is not refused.
fn request<R: Abort>(rt: &R, senders: u64, messages: u64, bytes: u64) -> Request {
    Request::new(senders, 1, messages, bytes, 0, 4).expect(rt, "in range")
}

/// Why a request of these numbers is refused its bus, where it is.
fn shortage<R: Abort>(rt: &R, senders: u64, messages: u64, bytes: u64) -> Option<Shortage> {
    request(rt, senders, messages, bytes).load().err()
}

#[test]
fn enough(rt: HostRuntime) {
    for (senders, messages, bytes) in [(3, 100, 8), (8, 400, 56), (1, 1, 8), (1, 4_080, 56)] {
        assert!(rt; shortage(&rt, senders, messages, bytes).is_none());
    }
}

#[test]
fn too_few(rt: HostRuntime) {
    for (senders, messages, bytes, tenures, words) in [
        (8, 1_000, 8, 505, 16_506),
        (1, 4_081, 8, 257, 8_420),
        (8, 1_024, 56, 513, 66_050),
        (
            1,
            u64::MAX,
            56,
            1_152_921_504_606_846_977,
            148_726_874_094_283_259_898,
        ),
    ] {
        let given = shortage(&rt, senders, messages, bytes);
        let want = Shortage { tenures, words };
        assert!(rt; given == Some(want), "{senders} {messages}");
    }
}

#[test]
fn shortage_texts(rt: HostRuntime) -> Result<(), Fail> {
    for (tenures, words, want) in [
        (505, 16_506, "505 tenures are needed, and a round has 256"),
        (
            513,
            66_050,
            "513 tenures are needed, and a round has 256; \
             66050 log words are needed, and a bus has 65536",
        ),
    ] {
        let text = Shortage { tenures, words }.to_string(rt.alloc())?;
        same(&rt, &text.as_str(), &want);
    }
    Ok(())
}

/// What the command line of these words is answered.
fn parsed<R: Abort + AllocGlobal>(rt: &R, given: &[&str]) -> Result<Request, Refusal> {
    let mut words = Vec::new(rt.alloc());
    for word in given {
        let word = String::from_str(rt.alloc(), word).expect(rt, "memory");
        words.push(word).expect(rt, "memory");
    }
    parse(words.as_slice())
}

#[test]
fn command_lines(rt: HostRuntime) {
    let line = ["bus_bench", "3", "2", "100", "56", "10000"];
    let given = parsed(&rt, &line).expect(&rt, "in range");
    same(&rt, &(given.senders, given.receivers), &(3, 2));
    same(&rt, &(given.messages, given.repetitions), &(100, 10_000));
    same(&rt, &(given.size, given.rounds), &(Size::FiftySix, 4));
    same(&rt, &parsed(&rt, &[]), &Err(Refusal::Count(0)));
    same(&rt, &parsed(&rt, &line[..5]), &Err(Refusal::Count(4)));
}

/// A command line that is not refused, but for this word of it.
fn line_with<'a>(field: Field, word: &'a str) -> [&'a str; 7] {
    let mut line = ["bus_bench", "3", "2", "100", "8", "1", "4"];
    match field {
        Field::Senders => line[1] = word,
        Field::Receivers => line[2] = word,
        Field::Messages => line[3] = word,
        Field::Bytes => line[4] = word,
        Field::Repetitions => line[5] = word,
        Field::Rounds => line[6] = word,
    }
    line
}

#[test]
fn words_refused(rt: HostRuntime) {
    for (field, word) in [
        (Field::Senders, "0"),
        (Field::Senders, "9"),
        (Field::Receivers, "9"),
        (Field::Messages, "0"),
        (Field::Bytes, "9"),
        (Field::Repetitions, "10001"),
        (Field::Rounds, "0"),
        (Field::Rounds, "9"),
    ] {
        let given = parsed(&rt, &line_with(field, word));
        assert!(rt; given == Err(Refusal::OutOfRange(field)), "{word}");
    }
    for (field, word) in [
        (Field::Senders, ""),
        (Field::Receivers, "+2"),
        (Field::Messages, "18446744073709551616"),
        (Field::Bytes, "8x"),
        (Field::Repetitions, "-1"),
        (Field::Rounds, "four"),
    ] {
        let given = parsed(&rt, &line_with(field, word));
        assert!(rt; given == Err(Refusal::NotNumber(field)), "{word}");
    }
}

/// What a line of these words is answered.
fn line_of(line: &str) -> Result<Request, Refusal> {
    parse_line(line)
}

#[test]
fn lines(rt: HostRuntime) {
    for (line, rounds) in [("3 2 100 56", 4), (" 3  2\t100 56 1 ", 1)] {
        let given = line_of(line).expect(&rt, "in range");
        same(&rt, &(given.senders, given.receivers), &(3, 2));
        same(&rt, &(given.messages, given.rounds), &(100, rounds));
        same(&rt, &(given.size, given.repetitions), &(Size::FiftySix, 0));
    }
    for (line, refusal) in [
        ("", Refusal::Count(0)),
        ("3 2 100", Refusal::Count(3)),
        ("3 2 100 56 4 4", Refusal::Count(6)),
        ("3 2 100 56 9", Refusal::OutOfRange(Field::Rounds)),
    ] {
        assert!(rt; line_of(line) == Err(refusal), "{line}");
    }
}

#[test]
fn least_and_middle(rt: HostRuntime) {
    same(&rt, &least_of(&[]), &None);
    same(&rt, &least_of(&[9, 4, 100, 4]), &Some(4));
    same(&rt, &middle(&[]), &None);
    same(&rt, &middle(&[7]), &Some(7));
    same(&rt, &middle(&[1, 4]), &Some(2));
    same(&rt, &middle(&[1, 4, 100]), &Some(4));
    same(
        &rt,
        &middle(&[1, u64::MAX, u64::MAX, u64::MAX]),
        &Some(u64::MAX),
    );
}

#[test]
fn small_round(rt: HostRuntime) {
    let load = parsed(&rt, &["bus_bench", "2", "2", "20", "56", "1"])
        .expect(&rt, "in range")
        .load()
        .expect(&rt, "it fits");
    let times = round(&rt, rt.alloc(), load, 7).expect(&rt, "a round");
    assert!(rt; times.from_gate > 0);
    assert!(rt; times.with_start >= times.from_gate);
}

#[test]
fn gate_given_up(rt: HostRuntime) {
    let gate = Gate::new();
    gate.give_up();
    assert!(rt; !gate.pass(&rt));
    assert!(rt; gate.open(&rt, 2).is_none());
}
