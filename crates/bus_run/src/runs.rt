//! A run: a bus that a worker of each sender and of each receiver takes its steps on.

ghost use Rattle.std.specs.Prelude.{◌≡◌, ◌≤◌, [], All, IfOk, OnOk, IfErr};
ghost use Rattle.bus_run.specs.Audit.{shape_of_run};
ghost use Rattle.bus_automaton.specs.ThreeWordBuses.{process};
ghost use Rattle.bus_run.specs.Left.{run_plan, RunServes};
ghost use Rattle.bus_run.specs.Reports.{IsRunReport};
ghost use Rattle.bus_run.specs.Stops.{IsStop, IsRunFault};
ghost use Rattle.bus_pageslot.specs.Seats.{table_of, actions_of};
ghost use Rattle.bus_world.specs.Headline.{puts};

use crate::buses::{Bus, Sender, Tap, TheBus};
use crate::closing::end_and_audit;
use crate::faults::RunFault;
use crate::gates::Gate;
use crate::limits::{MOST_MESSAGES_EACH, ROUNDS, ROWS};
use crate::reports::Report;
use crate::spawning::Workers;
use crate::workers::{
    HearAll, Load, ReceiveWorker, SendAll, SendWorker, receive_workers_of, send_workers_of,
};
use bus_pageslot::OfBus;
use bus_register::limits::{LOG_MESSAGES, MOST_LOG_WORDS};
use bus_world::Shape;
use std::alloc::Global;
use std::marker::Brand;
use std::sync::Wait;
use std::sync::atomic::{AtomicBool, Ordering};
use std::thread;
use std::thread::Threads;

/// Runs a bus of its own to its end: each sender puts the numbers below `messages`, and each
/// receiver takes until the end.
pub fn run<R: Threads + Wait + Sync, G: Gate + Sync>(
    rt: &R,
    alloc: Global,
    senders: u64,
    receivers: u64,
    messages: u64,
    seed: u64,
    gate: &G,
) -> Result<Report, RunFault>
    requires { messages ≤ MOST_MESSAGES_EACH }
    ensures served { OnOk result (RunServes (shape_of_run senders receivers)) }
    ensures report { IfOk result (λ report. IsRunReport (shape_of_run senders receivers)
        messages report.ended report.heards.items) }
    ensures fault { IfErr result (IsRunFault senders receivers) }
{
    let shape = Shape {
        senders,
        receivers,
        rounds: ROUNDS,
        rows: ROWS,
        log_words: MOST_LOG_WORDS,
        batch: LOG_MESSAGES as u64,
    };
    let made = Bus::cyclic(alloc, shape, None)?;
    run_on::<Brand, R, G>(rt, alloc, made, shape, Load { messages, seed }, gate)
}

/// Runs the bus B, of this shape, to its end.
fn run_on<B: OfBus + Send + Sync, R: Threads + Wait + Sync, G: Gate + Sync>(
    rt: &R,
    alloc: Global,
    made: (Bus, Vec<Sender>, Vec<Tap>),
    shape: Shape,
    load: Load,
    gate: &G,
) -> Result<Report, RunFault>
    requires bus { (made.0.table ≡ B.table) × (made.0.plan ≡ run_plan shape) }
    requires senders { All (λ sender. table_of sender ≡ B.table) made.1.items }
    requires put { All (λ sender. puts (actions_of process sender) ≡ []) made.1.items }
    requires taps { All (λ tap. tap.table_id ≡ B.table) made.2.items }
    requires served { RunServes shape }
    ensures report { IfOk result
        (λ report. IsRunReport shape load.messages report.ended report.heards.items) }
    ensures fault { IfErr result (IsStop shape.senders shape.receivers) }
{
    let (bus, senders, taps) = made;
    let room = Vec::with_capacity(alloc, taps.len())?;
    let workers = Workers::new(
        alloc,
        send_workers_of::<B>(alloc, senders, load.seed)?,
        receive_workers_of::<B>(alloc, taps)?,
    )?;
    let the = TheBus::<B>::new(bus);
    let workers = spawn_workers(rt, &the, gate, load, workers);
    end_and_audit(the, workers, room, shape, load.messages)
}

/// Lets each sender and each receiver work in a thread of its own, until all have ended. Who could
/// not be started is no longer among the workers.
fn spawn_workers<B: OfBus + Send + Sync, R: Threads + Wait + Sync, G: Gate + Sync>(
    rt: &R,
    the: &TheBus<B>,
    gate: &G,
    load: Load,
    workers: Workers<SendWorker<B>, ReceiveWorker<B>>,
) -> Workers<SendWorker<B>, ReceiveWorker<B>> {
    let given_up = AtomicBool::new(false);
    let given_up = &given_up;
    let wait = rt;
    let sending = SendAll {
        wait,
        the,
        gate,
        load,
    };
    let hearing = HearAll {
        wait,
        the,
        given_up,
    };
    let (sending, hearing) = (&sending, &hearing);
    thread::scope(thread::scope_env(), rt, move |scope| {
        let mut workers = workers;
        if workers.start_senders(scope, sending) {
            workers.start_receivers(scope, hearing);
        }
        workers.join_senders(rt);
        let is_closed = close(rt, the, &mut workers.send_workers);
        given_up.store(!is_closed, Ordering::SeqCst);
        workers.join_receivers(rt);
        workers
    })
}

/// The first sender closes the bus. Says whether it is closed.
fn close<B: OfBus, W: Wait>(wait: &W, the: &TheBus<B>, send_workers: &mut [SendWorker<B>]) -> bool {
    let Some(send_worker) = send_workers.first_mut() else {
        return false;
    };
    let closed = send_worker.close(wait, the);
    if !closed {
        send_worker.stop();
    }
    closed
}
