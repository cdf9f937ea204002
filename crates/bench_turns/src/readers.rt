//! A full log summed, read and received: nanoseconds of each word.

use anyhow::ensure;
use bus_deliverylog::{Reader, RecvTurn, read_log};
use bus_register::{Op, Reg};
use std::alloc::{AllocError, Global};
use std::hint::black_box;
use std::io;
use std::time::{Clock, Instant};

/// Rounds of which the best is printed.
const MOST_ROUNDS: u64 = 50;

/// 16 messages of 8 bytes in each frame, which makes 33 words.
const FRAMES: u64 = 1985;

/// How many messages the log has.
const MESSAGES: u64 = 16 * FRAMES;

/// The head of a frame of sender 0 and 32 words, before its tenure is added.
const HEAD: u64 = 0x4000_2000_0000_0000;

/// The word of a message of 8 bytes, before its number is added.
const MESSAGE: u64 = 0x8200_0000_0000_0000;

/// The words of a log.
fn log_words(alloc: Global) -> Result<Vec<u64>, AllocError> {
    let mut words = Vec::new(alloc);
    let mut number: u64 = 0;
    for tenure in 0..FRAMES {
        words.push(HEAD.wrapping_add(tenure))?;
        for _ in 0..16 {
            words.push(MESSAGE.wrapping_add(number))?;
            words.push(number.wrapping_mul(0x9e37_79b9_7f4a_7c15))?;
            number = number.wrapping_add(1);
        }
    }
    Ok(words)
}

/// Loads each word once. The sum goes into the first word, so that no round is that before it.
fn scan(words: &mut [u64]) {
    let mut sum: u64 = 0;
    for word in &*words {
        sum = sum.wrapping_add(*word);
    }
    if let Some(first) = words.first_mut() {
        *first = sum;
    }
}

/// How many messages `read_log` finds.
fn read_whole(alloc: Global, words: &[u64]) -> usize {
    match read_log(alloc, words, 1) {
        Ok(read) => read.order.items.len(),
        Err(_) => 0,
    }
}

/// The word that a step of the receiver finds, where the log begins at word 1 behind its length.
fn found(op: Op, words: &[u64]) -> u64 {
    match op {
        Op::Load(Reg(0)) => words.len() as u64,
        Op::Load(Reg(at)) => match words.get(at.wrapping_sub(1) as usize) {
            Some(word) => *word,
            None => 0,
        },
        _ => 0,
    }
}

/// How many messages a receiver is given.
fn receive(words: &[u64]) -> u64 {
    let mut reader = Reader::new(1, Reg(1), Reg(0), 1_000_000, None);
    let mut items: u64 = 0;
    for _ in 0..1_000_000 {
        let Some(op) = reader.next() else {
            return items;
        };
        match reader.feed(found(op, words)) {
            RecvTurn::Item(_) => items = items.wrapping_add(1),
            RecvTurn::Empty => return items,
            _ => {}
        }
    }
    items
}

/// The least nanoseconds that each way took.
#[derive(Clone, Copy)]
struct Best {
    scan: u128,
    read: u128,
    receive: u128,
}

/// One round of each way; the plain sum runs over words of its own.
fn round<R: Clock>(
    rt: &R,
    alloc: Global,
    words: &[u64],
    summed: &mut [u64],
    best: Best,
) -> io::Result<Best> {
    let start = Instant::now(rt)?;
    scan(summed);
    let scanned = start.elapsed(rt)?.as_nanos();
    let start = Instant::now(rt)?;
    black_box(read_whole(alloc, words));
    let read = start.elapsed(rt)?.as_nanos();
    let start = Instant::now(rt)?;
    black_box(receive(words));
    let received = start.elapsed(rt)?.as_nanos();
    Ok(Best {
        scan: best.scan.min(scanned),
        read: best.read.min(read),
        receive: best.receive.min(received),
    })
}

/// The best of so many rounds, where both readers find all messages of the log.
fn best_of<R: Clock>(rt: &R, alloc: Global, words: &[u64], rounds: u64) -> anyhow::Result<Best> {
    let read = read_whole(alloc, words) as u64;
    let received = receive(words);
    let has_all = read == MESSAGES && received == MESSAGES;
    ensure!(
        has_all,
        "of {MESSAGES} messages read_log found {read}, a receiver {received}"
    );
    let mut summed = log_words(alloc)?;
    let mut best = Best {
        scan: u128::MAX,
        read: u128::MAX,
        receive: u128::MAX,
    };
    for _ in 0..rounds {
        best = round(rt, alloc, words, &mut summed, best)?;
    }
    ensure!(summed.first().is_some(), "the log has no word");
    Ok(best)
}

/// One round, of which nothing is printed.
pub fn read_once<R: Clock>(rt: &R, alloc: Global) -> anyhow::Result<()> {
    let words = log_words(alloc)?;
    best_of(rt, alloc, &words, 1)?;
    Ok(())
}

/// Prints how long a plain sum, `read_log` and a receiver take for each word.
pub fn print_readers<R: Clock + Print>(rt: &R, alloc: Global) -> anyhow::Result<()> {
    let words = log_words(alloc)?;
    let best = best_of(rt, alloc, &words, MOST_ROUNDS)?;
    let many = words.len() as u128;
    for (name, nanoseconds) in [
        ("plain sum", best.scan),
        ("read_log", best.read),
        ("receiver", best.receive),
    ] {
        let hundredths = nanoseconds.saturating_mul(100) / many.max(1);
        println!(rt;
            "{name}: {}.{:02} ns a word",
            hundredths / 100,
            hundredths % 100
        )?;
    }
    Ok(())
}
