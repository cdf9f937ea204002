//! The workers of a round, from their start until all have ended.

ghost use Rattle.std.specs.Prelude.{◌≡◌, All};
ghost use Rattle.bus_pageslot.specs.Seats.{table_of};

use crate::faults::Fault;
use crate::gates::Gate;
use crate::needs::Load;
use crate::workers::{
    HearRound, RoundReceiver, RoundSender, SendRound, round_receivers_of, round_senders_of,
};
use bus_pageslot::OfBus;
use bus_run::buses::{Sender, Tap, TheBus};
use bus_run::spawning::Workers;
use std::alloc::{AllocError, Global};
use std::sync::Wait;
use std::thread;
use std::thread::Threads;
use std::time::{Clock, Instant};

/// Workers that have done their work, and when they began.
#[derive(Drop)]
pub struct Worked<B: OfBus> {
    pub workers: Workers<RoundSender<B>, RoundReceiver<B>>,
    /// The instant before the first thread was started.
    pub started: Option<Instant>,
    /// The instant before the gate was opened.
    pub opened: Option<Instant>,
}

/// Workers that have not begun. All their memory is taken here.
pub fn workers_of<B: OfBus + Send>(
    alloc: Global,
    senders: Vec<Sender>,
    taps: Vec<Tap>,
    load: Load,
    seed: u64,
) -> Result<Workers<RoundSender<B>, RoundReceiver<B>>, AllocError>
    requires senders { All (λ sender. table_of sender ≡ B.table) senders.items }
    requires taps { All (λ tap. tap.table_id ≡ B.table) taps.items }
{
    let send_workers = round_senders_of::<B>(alloc, senders, seed)?;
    let receive_workers = round_receivers_of::<B>(alloc, taps, load.items())?;
    Workers::new(alloc, send_workers, receive_workers)
}

/// What stopped a worker: that not all are there, or what stopped the lowest sender, or the lowest
/// receiver.
pub fn fault_of<B: OfBus>(
    workers: &Workers<RoundSender<B>, RoundReceiver<B>>,
    load: Load,
) -> Option<Fault> {
    if workers.send_workers.len() as u64 != load.senders
        || workers.receive_workers.len() as u64 != load.receivers
    {
        return Some(Fault::Spawn);
    }
    for send_worker in &workers.send_workers {
        if send_worker.fault.is_some() {
            return send_worker.fault;
        }
    }
    for receive_worker in &workers.receive_workers {
        if receive_worker.fault.is_some() {
            return receive_worker.fault;
        }
    }
    None
}

/// Lets each sender and each receiver work in a thread of its own, until all have ended. Who could
/// not be started is no longer among the workers, and then none sends.
pub fn spawn_round<B: OfBus + Send + Sync, R: Threads + Wait + Clock + Sync>(
    rt: &R,
    the: &TheBus<B>,
    load: Load,
    workers: Workers<RoundSender<B>, RoundReceiver<B>>,
) -> Worked<B> {
    let gate = Gate::new();
    let gate = &gate;
    let sending = SendRound {
        wait: rt,
        the,
        gate,
        load,
    };
    let hearing = HearRound {
        rt,
        the,
        gate,
        load,
    };
    let (sending, hearing) = (&sending, &hearing);
    let many = load.senders + load.receivers;
    thread::scope(thread::scope_env(), rt, move |scope| {
        let mut workers = workers;
        let started = Instant::now(rt).ok();
        let all_send = workers.start_senders(scope, sending);
        let all_hear = workers.start_receivers(scope, hearing);
        if started.is_none() || !all_send || !all_hear {
            gate.give_up();
        }
        let opened = gate.open(rt, many);
        workers.join_senders(rt);
        workers.join_receivers(rt);
        Worked {
            workers,
            started,
            opened,
        }
    })
}
