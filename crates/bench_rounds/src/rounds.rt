//! One round: a new bus, all messages, and how long they took.

ghost use Rattle.std.specs.Prelude.{◌≡◌, All};
ghost use Rattle.bus_pageslot.specs.Seats.{table_of};

use crate::checks::{check, close_and_end};
use crate::faults::Fault;
use crate::needs::Load;
use crate::spawning::{Worked, fault_of, spawn_round, workers_of};
use crate::workers::RoundReceiver;
use bus_pageslot::OfBus;
use bus_register::limits::{LOG_MESSAGES, MOST_LOG_WORDS};
use bus_run::buses::{Bus, Sender, Tap, TheBus};
use bus_run::limits::ROWS;
use bus_world::Shape;
use std::alloc::Global;
use std::marker::Brand;
use std::sync::Wait;
use std::thread::Threads;
use std::time::{Clock, Instant};

/// How many nanoseconds a round took until the last receiver had all items.
#[derive(Clone, Copy, Debug, PartialEq, Eq)]
pub struct Times {
    /// From the opening of the gate.
    pub from_gate: u64,
    /// From before the first thread was started.
    pub with_start: u64,
}

/// The bus of a round.
fn shape_of(load: Load) -> Shape {
    let (log_words, batch) = match load.ring {
        Some(ring) => (ring.words, ring.batch),
        None => (MOST_LOG_WORDS, LOG_MESSAGES as u64),
    };
    Shape {
        senders: load.senders,
        receivers: load.receivers,
        rounds: load.rounds,
        rows: ROWS,
        log_words,
        batch,
    }
}

/// Runs a round to its end and checks it.
pub fn round<R: Threads + Wait + Clock + Sync>(
    rt: &R,
    alloc: Global,
    load: Load,
    seed: u64,
) -> Result<Times, Fault> {
    let made = match load.ring {
        Some(_) => Bus::ring(alloc, shape_of(load), None)?,
        None => Bus::cyclic(alloc, shape_of(load), None)?,
    };
    round_on::<Brand, R>(rt, alloc, made, load, seed)
}

/// The same on this bus, which is B, with its senders and its receivers' passes.
fn round_on<B: OfBus + Send + Sync, R: Threads + Wait + Clock + Sync>(
    rt: &R,
    alloc: Global,
    made: (Bus, Vec<Sender>, Vec<Tap>),
    load: Load,
    seed: u64,
) -> Result<Times, Fault>
    requires bus { made.0.table ≡ B.table }
    requires senders { All (λ sender. table_of sender ≡ B.table) made.1.items }
    requires taps { All (λ tap. tap.table_id ≡ B.table) made.2.items }
{
    let (bus, senders, taps) = made;
    let the = TheBus::<B>::new(bus);
    let workers = workers_of::<B>(alloc, senders, taps, load, seed)?;
    let Worked {
        workers,
        started,
        opened,
    } = spawn_round(rt, &the, load, workers);
    if let Some(fault) = fault_of(&workers, load) {
        return Err(fault);
    }
    let times = times_of(&workers.receive_workers, started, opened)?;
    check(&workers.receive_workers, load)?;
    close_and_end(rt, the, workers, load)?;
    Ok(times)
}

/// How long the last receiver took.
fn times_of<B: OfBus>(
    receive_workers: &[RoundReceiver<B>],
    started: Option<Instant>,
    opened: Option<Instant>,
) -> Result<Times, Fault> {
    let (Some(started), Some(opened)) = (started, opened) else {
        return Err(Fault::Clock);
    };
    let mut times = Times {
        from_gate: 0,
        with_start: 0,
    };
    for receive_worker in receive_workers {
        let Some(done) = receive_worker.done else {
            return Err(Fault::Clock);
        };
        times.from_gate = times.from_gate.max(round_nanoseconds(done, opened));
        times.with_start = times.with_start.max(round_nanoseconds(done, started));
    }
    Ok(times)
}

/// The nanoseconds from `earlier` to `later`; at most `u64::MAX`.
fn round_nanoseconds(later: Instant, earlier: Instant) -> u64 {
    match u64::try_from(later.duration_since(earlier).as_nanos()) {
        Ok(nanoseconds) => nanoseconds,
        Err(_) => u64::MAX,
    }
}
