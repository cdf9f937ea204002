//! What the receivers of a round were given, held against what the senders sent.

ghost use Rattle.std.specs.Prelude.{◌≡◌, ◌↔◌, ℕ, IsTrue, List, None, OnOk, All};
ghost use Rattle.bench_rounds.specs.declared.workers.Got.{Got as Item};
ghost use Rattle.bench_rounds.specs.Checks.{HasEach};

use crate::faults::Fault;
use crate::needs::Load;
use crate::workers::{Got, RoundReceiver, RoundSender};
use bus_pageslot::OfBus;
use bus_receiver::Heard;
use bus_register::SenderNo;
use bus_run::buses::{Receiver, TheBus};
use bus_run::spawning::Workers;
use std::sync::Wait;

/// Sees that each receiver has all items of each sender, that their words sum up to what was sent,
/// and that all have the same order.
pub fn check<B: OfBus>(receive_workers: &[RoundReceiver<B>], load: Load) -> Result<(), Fault>
    ensures counts { OnOk result
        (All (λ receive_worker. HasEach load.senders load.messages receive_worker.heard)
        receive_workers.now) }
    ensures sums { OnOk result ((sum : ℕ)
        × All (λ receive_worker. receive_worker.sum ≡ sum) receive_workers.now) }
    ensures order { OnOk result ((order : List Item)
        × All (λ receive_worker. receive_worker.order.items ≡ order) receive_workers.now) }
{
    check_counts(receive_workers, load)?;
    check_sums(receive_workers, load.sum())?;
    match receive_workers.first() {
        Some(first) => check_orders(receive_workers, first.order.as_slice()),
        None => Err(Fault::Spawn),
    }
}

/// Sees that each receiver has all items of each sender.
fn check_counts<B: OfBus>(receive_workers: &[RoundReceiver<B>], load: Load) -> Result<(), Fault>
    ensures { OnOk result
        (All (λ receive_worker. HasEach load.senders load.messages receive_worker.heard)
        receive_workers.now) }
{
    for receive_worker in receive_workers {
        let receiver = receive_worker.number;
        if let Some(sender) = first_miscount(&receive_worker.heard, load) {
            return Err(Fault::Count { receiver, sender });
        }
    }
    Ok(())
}

/// The lowest sender of which the receiver has not just `load.messages` items.
fn first_miscount(heard: &Heard, load: Load) -> Option<u64>
    ensures { result ≡ None → HasEach load.senders load.messages heard.now }
{
    for number in 0..load.senders {
        if heard.count(SenderNo(number as u8)) != load.messages {
            return Some(number);
        }
    }
    None
}

/// Sees that the words of each receiver's items have this sum.
fn check_sums<B: OfBus>(receive_workers: &[RoundReceiver<B>], sum: u64) -> Result<(), Fault>
    ensures { OnOk result (All (λ receive_worker. receive_worker.sum ≡ sum) receive_workers.now) }
{
    for receive_worker in receive_workers {
        if receive_worker.sum != sum {
            return Err(Fault::Sum {
                receiver: receive_worker.number,
            });
        }
    }
    Ok(())
}

/// Sees that each receiver has this order.
fn check_orders<B: OfBus>(receive_workers: &[RoundReceiver<B>], order: &[Got]) -> Result<(), Fault>
    ensures { OnOk result (All (λ receive_worker. receive_worker.order.items ≡ order.now)
        receive_workers.now) }
{
    for receive_worker in receive_workers {
        if !is_same(receive_worker.order.as_slice(), order) {
            return Err(Fault::Order {
                receiver: receive_worker.number,
            });
        }
    }
    Ok(())
}

/// Both orders are the same.
fn is_same(order: &[Got], other: &[Got]) -> bool
    ensures { IsTrue result ↔ (order.now ≡ other.now) }
{
    order == other
}

/// The first sender closes the bus, and the bus is ended. Sees that it has all items of each
/// sender.
pub fn close_and_end<B: OfBus, W: Wait>(
    wait: &W,
    the: TheBus<B>,
    workers: Workers<RoundSender<B>, RoundReceiver<B>>,
    load: Load,
) -> Result<(), Fault> {
    let Workers {
        mut send_workers,
        receive_workers,
        ..
    } = workers;
    let Some(closer) = send_workers.first_mut() else {
        return Err(Fault::End);
    };
    if !closer.close(wait, &the) {
        return Err(Fault::End);
    }
    let Some(first) = receive_workers.into_iter().next() else {
        return Err(Fault::Spawn);
    };
    let Ok(ended) = Receiver::end(the.into_bus(), first.into_receiver()) else {
        return Err(Fault::End);
    };
    for number in 0..load.senders {
        if ended.count(SenderNo(number as u8)) != load.messages {
            return Err(Fault::End);
        }
    }
    Ok(())
}
