//! Three workers replicate a thousand counters: each adds to them, and all see one order.
#![tactic(auto)]

use anyhow::{Context, ensure};
use bus_replica::{Replica, SenderNo, State, open_replicas};
use std::alloc::{AllocError, Global};
use std::sync::Wait;
use std::thread;

/// A thousand counters.
#[derive(Drop, PartialEq, Eq)]
struct Counters {
    counts: Vec<u64>,
}

impl State for Counters {
    /// The counter after the change, if there is one.
    type Answer = Option<u64>;

    fn first(alloc: Global) -> Result<Counters, AllocError> {
        let counts = vec![in alloc; 0u64; 1_000]?;
        Ok(Counters { counts })
    }

    fn apply(&mut self, _from: SenderNo, op: &[u8]) -> Option<u64> {
        let [high, low, add] = *op else { return None };
        let count = self
            .counts
            .get_mut(usize::from(high) * 256 + usize::from(low))?;
        *count = count.wrapping_mul(3).wrapping_add(u64::from(add));
        Some(*count)
    }
}

fn work<W: Wait>(wait: &W, mut replica: Replica<Counters>) -> anyhow::Result<Counters> {
    let me = replica.number().0;
    for k in 0..200_u8 {
        replica.submit(wait, &[0, k, me])?;
        let answer = replica.execute(wait, &[1, k, k])?;
        replica.catch_up(wait);
        ensure!(
            replica.state().counts.get(256 + usize::from(k)) >= answer.as_ref(),
            "lost"
        );
    }
    Ok(replica.finish(wait)?)
}

fn main(rt: HostRuntime) -> anyhow::Result<()> {
    let replicas = open_replicas::<Counters>(rt.alloc(), 3)?;
    let mut states = Vec::new(rt.alloc());
    for state in thread::map_vec(&rt, replicas, &|replica| work(&rt, replica))? {
        states.push(state?)?;
    }
    let last = states.pop().context("no worker")?;
    ensure!(
        states.iter().all(|state| *state == last),
        "two replicas differ"
    );
    println!(&rt; "3 replicas: all equal").context("no output")
}
