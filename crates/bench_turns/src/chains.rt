//! Runs under a seed: a sitting, or a chain of sittings, of which each goes on with the numbers of
//! the one before.

use crate::storms::{Load, SHAPES, Sitting, Tale, receivers_of, senders_of, sit_on};
use crate::turn_receivers::MOST_ITEMS;
use bus_receiver::{LEAST_ROWS_AGAIN, MOST_ROWS, Page, Shape};
use bus_register::limits::{LOG_MESSAGES, MOST_MESSAGES, MOST_RECEIVERS};
use bus_run::buses::Bus;
use rand_core::Rng;
use rand_pcg::Pcg32;
use std::alloc::Global;
use std::marker::Brand;
use std::thread::Threads;
use std::time::Clock;

/// Sittings of a chain.
const SITTINGS: u64 = 4;

/// Of 32 shapes that of the long runs.
const LONG_SHAPE: u64 = 9;

/// A sender puts no more messages at once, where the log is no ring.
const LOG_BATCH: u32 = LOG_MESSAGES as u32;

/// Words of the log of a sitting that has words for all.
const LOG_WORDS: u64 = 16_384;

/// Words of a ring: at least so many.
const LEAST_RING_WORDS: u64 = 64;

/// Words of a ring: at most so many.
const MOST_RING_WORDS: u64 = 4_096;

/// Items of a ring: no more than so many full batches have.
const MOST_BATCHES: u64 = 256;

/// A run under this seed, in at most so many threads, over 2 to 8 rows that are used again: its
/// senders have at most 31 messages each. `SHAPES` seeds in a row have all shapes. In two of these
/// runs two senders have 1,500 messages each, for a tenure each. Of two runs in which nobody is to
/// stop one is the first sitting of a chain.
pub fn run<R: Threads + Clock + Sync>(
    rt: &R,
    alloc: Global,
    seed: u64,
    hands: u64,
) -> anyhow::Result<Tale> {
    let mut dice = Pcg32::new(seed, 0);
    let is_long = seed % SHAPES % 32 == LONG_SHAPE;
    let load = with_leavers(first_load(seed, hands, is_long, &mut dice), &mut dice);
    let load = if is_long {
        load
    } else {
        some_with_ring(load, &mut dice)
    };
    let is_scarce = !load.is_calm && !is_long && dice.next_u32() % 4 == 0;
    let shape = Shape {
        senders: load.senders,
        receivers: load.receivers.saturating_add(load.spares),
        rounds: 1 + u64::from(dice.next_u32() % 4),
        rows: some_rows(&mut dice),
        log_words: match load.ring {
            Some(words) => words,
            None if is_scarce => 128,
            None => LOG_WORDS,
        },
        batch: batch_of(load),
    };
    let is_chain = load.is_calm && dice.next_u32() % 2 == 0;
    let made = if load.ring.is_some() {
        Bus::ring(alloc, shape, None)?
    } else {
        Bus::cyclic(alloc, shape, None)?
    };
    let first = sit_on::<Brand, R>(rt, alloc, made, load, &mut dice)?;
    if is_chain {
        go_on(rt, alloc, first, load, &mut dice)
    } else {
        Ok(first.tale)
    }
}

/// What is asked of the first sitting under this seed.
fn first_load(seed: u64, hands: u64, is_long: bool, dice: &mut Pcg32) -> Load {
    let few = u64::from(dice.next_u32() % 32);
    Load {
        senders: senders_of(seed),
        receivers: receivers_of(seed),
        messages: if is_long { 1_500 } else { few },
        hands: hands.max(1),
        is_calm: dice.next_u32() % 4 == 0,
        leavers: 0,
        batch: if is_long { 1 } else { LOG_BATCH },
        ring: None,
        spares: 0,
        after: None,
    }
}

/// The same with some senders that leave, in one sitting of two. In one in which nobody stops
/// sender 0 stays, so that somebody closes.
fn with_leavers(load: Load, dice: &mut Pcg32) -> Load {
    let most = if load.is_calm {
        load.senders
    } else {
        load.senders.saturating_add(1)
    };
    let leavers = u64::from(dice.next_u32()) % most.max(1);
    Load {
        leavers: if dice.next_u32() % 2 == 0 { leavers } else { 0 },
        ..load
    }
}

/// The same, in one sitting of three over a ring, whose words are used up to eight times over.
fn some_with_ring(load: Load, dice: &mut Pcg32) -> Load {
    if dice.next_u32() % 3 != 0 {
        return load;
    }
    let more = 1u32 << (dice.next_u32() % 13);
    let words = LEAST_RING_WORDS + u64::from(dice.next_u32() % more);
    let words = words.min(MOST_RING_WORDS);
    let times = 1 + u64::from(dice.next_u32() % 8);
    let batch = some_batch(words, dice);
    let items = (times * words / 2).min(MOST_ITEMS as u64);
    let items = items.min(MOST_BATCHES * u64::from(batch));
    Load {
        messages: items / load.senders.max(1),
        batch,
        ring: Some(words),
        spares: some_spares(load.receivers, dice),
        ..load
    }
}

/// How many messages a batch of a ring of so many words has at most: in one ring of two as many as
/// fit, and else 1 to that. Each has two words, as messages have 8 bytes, and its frame one more.
fn some_batch(words: u64, dice: &mut Pcg32) -> u32 {
    let most = (MOST_MESSAGES as u64).min(words.saturating_sub(1) / 2) as u32;
    if dice.next_u32() % 2 == 0 {
        most
    } else {
        1 + dice.next_u32() % most.max(1)
    }
}

/// How many messages a batch of the bus of this load has at most.
fn batch_of(load: Load) -> u64 {
    match load.ring {
        Some(_) => u64::from(load.batch),
        None => LOG_MESSAGES as u64,
    }
}

/// How many numbers are free at the start, beside those of so many receivers: in one ring of two 1
/// to 8, in one of eight all that a bus may have, and else none.
fn some_spares(receivers: u64, dice: &mut Pcg32) -> u64 {
    let most = MOST_RECEIVERS.saturating_sub(receivers);
    match dice.next_u32() % 8 {
        0 => most,
        1..5 => most.min(1 + u64::from(dice.next_u32() % 8)),
        _ => 0,
    }
}

/// How many rows that are used again.
fn some_rows(dice: &mut Pcg32) -> u64 {
    LEAST_ROWS_AGAIN + u64::from(dice.next_u32() % 7)
}

/// The sittings of a chain behind the first, each after the page that the one before it left; the
/// last is one whose order has not ended, or the fourth.
fn go_on<R: Threads + Clock + Sync>(
    rt: &R,
    alloc: Global,
    first: Sitting,
    load: Load,
    dice: &mut Pcg32,
) -> anyhow::Result<Tale> {
    let Sitting {
        mut tale,
        page: mut left,
    } = first;
    for _ in 1..SITTINGS {
        let Some(page) = left else {
            return Ok(tale);
        };
        let next = sit_after(rt, alloc, page, load, dice)?;
        tale = tale.and(next.tale);
        left = next.page;
    }
    Ok(tale)
}

/// A sitting after this page, over either kind of rows or over a ring, and with as many senders as
/// this load or with others.
fn sit_after<R: Threads + Clock + Sync>(
    rt: &R,
    alloc: Global,
    page: Page,
    load: Load,
    dice: &mut Pcg32,
) -> anyhow::Result<Sitting> {
    let is_again = dice.next_u32() % 2 == 0;
    let load = next_load(load, page, is_again, dice);
    let load = if is_again {
        some_with_ring(load, dice)
    } else {
        load
    };
    let rows = if is_again {
        some_rows(dice)
    } else {
        let frames = load.senders.saturating_mul(load.messages);
        frames.saturating_add(load.leavers).saturating_add(1)
    };
    let shape = Shape {
        senders: load.senders,
        receivers: load.receivers.saturating_add(load.spares),
        rounds: 1 + u64::from(dice.next_u32() % 4),
        rows,
        log_words: load.ring.unwrap_or(LOG_WORDS),
        batch: batch_of(load),
    };
    let made = if load.ring.is_some() {
        Bus::ring(alloc, shape, Some(&page))?
    } else if is_again {
        Bus::cyclic(alloc, shape, Some(&page))?
    } else {
        Bus::after(alloc, shape, &page)?
    };
    sit_on::<Brand, R>(rt, alloc, made, load, dice)
}

/// What is asked of the sitting after this page. If each tenure has a row of its own there is one
/// for each message and each sender that leaves, and one for the end. In half of these sittings all
/// are used.
fn next_load(load: Load, page: Page, is_again: bool, dice: &mut Pcg32) -> Load {
    let is_same = dice.next_u32() % 2 == 0;
    let other = senders_of(u64::from(dice.next_u32()));
    let senders = if is_same { load.senders } else { other };
    let receivers = receivers_of(u64::from(dice.next_u32()));
    let few = u64::from(dice.next_u32() % 32);
    let is_single = !is_again && dice.next_u32() % 2 == 0;
    let load = Load {
        senders,
        receivers,
        ..load
    };
    let next = with_leavers(load, dice);
    let most = (MOST_ROWS as u64 - 1).saturating_sub(next.leavers) / senders.max(1);
    Load {
        messages: if is_again { few } else { few.min(most) },
        batch: if is_single { 1 } else { LOG_BATCH },
        ring: None,
        spares: 0,
        after: Some(page),
        ..next
    }
}
