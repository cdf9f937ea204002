//! Turns of all seats of a bus in one thread, each between readings of the clock.

ghost use Rattle.std.specs.Prelude.{◌≡◌, All};
ghost use Rattle.bus_pageslot.specs.Seats.{table_of};

use crate::send_workers::{TurnSender, turn_senders_of};
use bus_pageslot::OfBus;
use bus_receiver::{MOST_ROWS_AGAIN, Shape};
use bus_register::Kind;
use bus_register::limits::LOG_MESSAGES;
use bus_run::buses::{Bus, Sender, Tap, TheBus};
use bus_run::workers::{ReceiveWorker, receive_workers_of};
use rand_core::Rng;
use rand_pcg::Pcg32;
use std::alloc::{AllocError, Global};
use std::io;
use std::marker::Brand;
use std::time::{Clock, Instant};

/// How many turns of a bus are taken at most.
const MOST_TURNS: u64 = 1_000_000;

/// The same where their instructions are counted one by one.
pub const FEW_TURNS: u64 = 4_000;

/// A turn of more nanoseconds is left out: another thread ran meanwhile.
const MOST_NANOSECONDS: u64 = 1_000;

/// Turns whose step is of one kind: how many, how long they took, and how long as many pairs of
/// readings with nothing between.
#[derive(Clone, Copy)]
pub struct Sum {
    kind: Kind,
    turns: u64,
    turn: u64,
    nothing: u64,
}

/// Turns, at most so many of a bus: sums for each kind of step, and the kinds in their order.
#[derive(Drop)]
pub struct Turns {
    most: u64,
    sums: Vec<Sum>,
    kinds: Vec<Kind>,
}

/// Adds a turn, which was taken between the second reading and the third.
fn add(turns: &mut Turns, kind: Kind, readings: [Instant; 3]) -> Result<(), AllocError> {
    turns.kinds.push(kind)?;
    add_to(&mut turns.sums, kind, readings)
}

/// Adds it to the sums.
fn add_to(sums: &mut Vec<Sum>, kind: Kind, readings: [Instant; 3]) -> Result<(), AllocError> {
    let [before, between, after] = readings;
    let nothing = turn_nanoseconds(between, before);
    let turn = turn_nanoseconds(after, between);
    if nothing > MOST_NANOSECONDS || turn > MOST_NANOSECONDS {
        return Ok(());
    }
    for sum in sums.iter_mut() {
        if sum.kind == kind {
            sum.turns = sum.turns.saturating_add(1);
            sum.turn = sum.turn.saturating_add(turn);
            sum.nothing = sum.nothing.saturating_add(nothing);
            return Ok(());
        }
    }
    sums.push(Sum {
        kind,
        turns: 1,
        turn,
        nothing,
    })?;
    Ok(())
}

/// The nanoseconds from `earlier` to `later`; at most `u64::MAX`.
fn turn_nanoseconds(later: Instant, earlier: Instant) -> u64 {
    u64::try_from(later.duration_since(earlier).as_nanos()).unwrap_or(u64::MAX)
}

/// Prints a line for each kind of step, with so many senders, over so many buses.
pub fn print_turns<R: Print + Clock>(
    rt: &R,
    alloc: Global,
    senders: u64,
    buses: u64,
) -> anyhow::Result<()> {
    for sum in turns_of(rt, alloc, senders, buses, MOST_TURNS)?.sums {
        let (kind, turns) = (sum.kind, sum.turns);
        let took = u128::from(sum.turn.saturating_sub(sum.nothing));
        let tenths = took * 10 / u128::from(turns.max(1));
        println!(rt;
            "{senders} {kind:?} {}.{} {turns}",
            tenths / 10,
            tenths % 10
        )?;
    }
    Ok(())
}

/// Prints the kind of each turn that is timed, in their order, over two buses.
pub fn print_kinds<R: Print + Clock>(rt: &R, alloc: Global, senders: u64) -> anyhow::Result<()> {
    for kind in turns_of(rt, alloc, senders, 2, FEW_TURNS)?.kinds {
        println!(rt; "{senders} {kind:?}")?;
    }
    Ok(())
}

/// The turns of so many buses of 8 rows that are used again, with 1 to 4 rounds a bit; of each at
/// most so many.
pub fn turns_of<R: Clock>(
    rt: &R,
    alloc: Global,
    senders: u64,
    buses: u64,
    most: u64,
) -> anyhow::Result<Turns> {
    let mut turns = Turns {
        most,
        sums: Vec::new(alloc),
        kinds: Vec::new(alloc),
    };
    for bus in 0..buses {
        let shape = Shape {
            senders,
            receivers: 1,
            rounds: 1 + bus % 4,
            rows: MOST_ROWS_AGAIN as u64,
            log_words: 16_384,
            batch: LOG_MESSAGES as u64,
        };
        let made = Bus::cyclic(alloc, shape, None)?;
        take_turns::<Brand, R>(rt, alloc, made, Pcg32::new(bus, senders), &mut turns)?;
    }
    Ok(turns)
}

/// The seats of the bus B take turns as the dice fall, until a sender has no more to do.
fn take_turns<B: OfBus, R: Clock>(
    rt: &R,
    alloc: Global,
    made: (Bus, Vec<Sender>, Vec<Tap>),
    mut dice: Pcg32,
    turns: &mut Turns,
) -> anyhow::Result<()>
    requires bus { made.0.table ≡ B.table }
    requires senders { All (λ sender. table_of sender ≡ B.table) made.1.items }
    requires taps { All (λ tap. tap.table_id ≡ B.table) made.2.items }
{
    let (bus, senders, taps) = made;
    let the = TheBus::<B>::new(bus);
    let mut send_workers = turn_senders_of::<B>(alloc, senders)?;
    let mut receive_workers = receive_workers_of::<B>(alloc, taps)?;
    for _ in 0..turns.most {
        let seat = dice.next_u32() as usize % (send_workers.len() + 1);
        let (kind, readings) = match (send_workers.get_mut(seat), receive_workers.first_mut()) {
            (Some(send_worker), _) => match send_worker.sender.kind() {
                Some(kind) => (
                    kind,
                    time_send_worker(rt, &the, send_worker, dice.next_u32())?,
                ),
                None if fill(send_worker) => continue,
                None => return Ok(()),
            },
            (None, Some(receive_worker)) => time_receive_worker(rt, &the, receive_worker)?,
            (None, None) => return Ok(()),
        };
        add(turns, kind, readings)?;
    }
    Ok(())
}

/// Puts as many messages as its batch takes. Says whether one was taken.
fn fill<B: OfBus>(send_worker: &mut TurnSender<B>) -> bool {
    let mut is_taken = false;
    for _ in 0..LOG_MESSAGES {
        is_taken |= send_worker.put();
    }
    is_taken
}

/// A turn of a sender.
fn time_send_worker<B: OfBus, R: Clock>(
    rt: &R,
    the: &TheBus<B>,
    send_worker: &mut TurnSender<B>,
    word: u32,
) -> io::Result<[Instant; 3]> {
    let before = Instant::now(rt)?;
    let between = Instant::now(rt)?;
    send_worker.sender.turn(&the.bus, word);
    Ok([before, between, Instant::now(rt)?])
}

/// A turn of a receiver, which loads the length where its place stays.
fn time_receive_worker<B: OfBus, R: Clock>(
    rt: &R,
    the: &TheBus<B>,
    receive_worker: &mut ReceiveWorker<B>,
) -> io::Result<(Kind, [Instant; 3])> {
    let place = receive_worker.receiver.place();
    let before = Instant::now(rt)?;
    let between = Instant::now(rt)?;
    receive_worker.receiver.turn(&the.bus);
    let after = Instant::now(rt)?;
    let kind = if receive_worker.receiver.place() == place {
        Kind::LoadLength
    } else {
        Kind::LoadLogWord
    };
    Ok((kind, [before, between, after]))
}
