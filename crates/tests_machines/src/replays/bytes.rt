//! A script that is cut after each byte, or of which one byte is replaced by another.

use crate::games::same;
use bus_adoptcommit::ThreeWord;
use bus_replay::answer_to;
use bus_script::{Lines, Outcome, Words};
use std::process::Abort;

/// Two senders who both adopt, so that the fallback word decides.
const SCRIPT: &[u8] = b"shape 2 1 1 1 64\nput 0 61\nput 1 62\nturn 0 0 4\nturn 1 0 4\n\
    turn 0 0 2\nturn 1 0 99\nturn 0 0 99\nturn 1 0 99\nrecv 0 99\n";

/// Bytes that part lines or words, that begin comments, or that belong in no number.
const TELLING: &[u8] = b"\0\t\r\n #-019afgA\x80\xff";

/// What has been answered so far, and a sum over its bytes.
#[derive(Drop)]
struct Answered {
    done: u64,
    refused: u64,
    sum: u64,
}

impl Answered {
    /// Takes a byte into the sum (the hash of Fowler, Noll and Vo, in 64 bits).
    fn add(&mut self, byte: u8) {
        self.sum = (self.sum ^ u64::from(byte)).wrapping_mul(0x0100_0000_01b3);
    }
}

/// Whether a refusal has this name.
fn is_name(word: &[u8]) -> bool {
    for name in [
        b"Senders".as_slice(),
        b"Receivers".as_slice(),
        b"Rounds".as_slice(),
        b"Rows".as_slice(),
        b"LogWords".as_slice(),
        b"Batch".as_slice(),
        b"NoSuchSender".as_slice(),
        b"NoSuchReceiver".as_slice(),
        b"Closed".as_slice(),
        b"Busy".as_slice(),
        b"TooLong".as_slice(),
        b"BatchFull".as_slice(),
        b"Pending".as_slice(),
        b"BadLine".as_slice(),
    ] {
        if word == name {
            return true;
        }
    }
    false
}

/// The last word of the last line, and whether a line says who the owners are.
fn last_word(text: &[u8]) -> (&[u8], bool) {
    let mut last = b"".as_slice();
    let mut has_owners = false;
    let mut lines = Lines::new(text);
    for _ in 0..100 {
        let Some(line) = lines.next_line() else {
            break;
        };
        has_owners = has_owners || line.bytes.starts_with(b"owners".as_slice());
        let mut words = Words::new(line.bytes);
        for _ in 0..100 {
            let Some(word) = words.next_word() else {
                break;
            };
            last = word;
        }
    }
    (last, has_owners)
}

/// Replays a script: it is played to its end, or refused by a name, and then without closing lines.
fn replays<R: Abort + AllocGlobal>(rt: &R, script: &[u8], answered: &mut Answered) {
    let answer = answer_to::<ThreeWord>(rt.alloc(), script).expect(rt, "memory");
    let text = answer.text.as_bytes();
    let (word, has_owners) = last_word(text);
    match answer.outcome {
        Outcome::Done => {
            assert!(rt; has_owners, "of {script:?}");
            answered.done = answered.done.wrapping_add(1);
            answered.add(b'0');
        }
        Outcome::Refused => {
            assert!(rt; is_name(word) && !has_owners, "of {script:?}");
            answered.refused = answered.refused.wrapping_add(1);
            answered.add(b'1');
        }
    }
    for &byte in text {
        answered.add(byte);
    }
}

/// The numbers are those of the plain interpreter in C, as `bench/bytes` prints them.
#[test]
fn cut_and_replaced_bytes(rt: HostRuntime) {
    let mut answered = Answered {
        done: 0,
        refused: 0,
        sum: 0xcbf2_9ce4_8422_2325,
    };
    for length in 0..115 {
        replays(&rt, &SCRIPT[..length], &mut answered);
    }
    for at in 0..114 {
        for &byte in TELLING {
            let mut script = Vec::from_slice(rt.alloc(), SCRIPT).expect(&rt, "memory");
            script[at] = byte;
            replays(&rt, script.as_slice(), &mut answered);
        }
    }
    same(&rt, &answered.done, &171);
    same(&rt, &answered.refused, &1768);
    same(&rt, &answered.sum, &0x5d2b_70fb_aaa6_fc22);
}
