//! Three workers go on from a journal, whose bytes come by standard input. What it told is
//! replayed, each worker executes ten operations more, and the states of all are compared.
#![tactic(auto)]

use anyhow::{Context, ensure};
use bus_journal::read_journal;
use bus_replica::{LOG_WORDS, Replica, SenderNo, State, open_recorded, page_after, replay};
use std::alloc::{AllocError, Global};
use std::io::Read;
use std::sync::Wait;
use std::thread;

/// How many operations each worker has had, and the sum of all their bytes.
#[derive(Clone, Copy, Drop, PartialEq, Eq)]
struct Tally {
    of: [u64; 3],
    sum: u64,
}

impl State for Tally {
    /// The sum by now.
    type Answer = u64;

    fn first(_alloc: Global) -> Result<Tally, AllocError> {
        Ok(Tally { of: [0; 3], sum: 0 })
    }

    fn apply(&mut self, from: SenderNo, op: &[u8]) -> u64 {
        if let Some(own) = self.of.get_mut(usize::from(from.0)) {
            *own = own.wrapping_add(1);
        }
        for byte in op {
            self.sum = self.sum.wrapping_add(u64::from(*byte));
        }
        self.sum
    }
}

fn work<W: Wait>(wait: &W, mut replica: Replica<Tally>) -> anyhow::Result<Tally> {
    let mut last = replica.state().sum;
    for add in 1..=10_u8 {
        let sum = replica.execute(wait, &[add])?;
        ensure!(sum > last, "an operation was lost");
        last = sum;
    }
    Ok(replica.finish(wait)?)
}

fn main(rt: HostRuntime) -> anyhow::Result<()> {
    let mut bytes = Vec::new(rt.alloc());
    rt.reader().read_to_end(&mut bytes)?;
    let read = read_journal(rt.alloc(), &bytes)?;
    let page = page_after(None, &read)?;
    let order = &read.log.order;
    let mut told = Tally::first(rt.alloc())?;
    replay(&mut told, order);
    let [first, second, third] = told.of;
    println!(&rt; "replayed {first} {second} {third}, sum {}", told.sum)?;
    let replicas = open_recorded::<Tally>(rt.alloc(), 3, LOG_WORDS, &page, order)?;
    let mut states = Vec::new(rt.alloc());
    for state in thread::map_vec(&rt, replicas, &|replica| work(&rt, replica))? {
        states.push(state?)?;
    }
    let last = states.pop().context("no worker")?;
    ensure!(states.iter().all(|it| *it == last), "two replicas differ");
    let [first, second, third] = last.of;
    println!(&rt; "then {first} {second} {third}, sum {}", last.sum)?;
    Ok(())
}
