//! Three workers replicate 1,000 counters for as long as one likes: each draws changes of its own
//! and submits them. All replicas go through the same states.
#![tactic(auto)]

use anyhow::{Context, ensure};
use bus_replica::{Replica, SenderNo, State, open_replicas};
use std::alloc::{AllocError, AllocGlobal, Global};
use std::sync::Wait;
use std::sync::atomic::{AtomicBool, Ordering};
use std::time::{Clock, Duration, Instant};
use std::{env, thread};

/// How many changes each worker submits where no time is given: 200,010 in all.
const CHANGES: u64 = 66_670;

/// A thousand counters, and how many changes were made of them. Changes in another order leave
/// other counters.
#[derive(Drop, PartialEq, Eq)]
struct Counters {
    counts: Vec<u64>,
    made: u64,
}

impl State for Counters {
    /// The counter after the change, if there is one.
    type Answer = Option<u64>;

    fn first(alloc: Global) -> Result<Counters, AllocError> {
        let counts = vec![in alloc; 0u64; 1_000]?;
        Ok(Counters { counts, made: 0 })
    }

    /// Adds to three times a counter: four bytes say which, and four how much.
    fn apply(&mut self, _from: SenderNo, op: &[u8]) -> Option<u64> {
        let (words, _) = op.as_chunks::<4>();
        let [at, add] = words else { return None };
        let count = self.counts.get_mut(u32::from_be_bytes(*at) as usize)?;
        let add = u64::from(u32::from_be_bytes(*add));
        *count = count.wrapping_mul(3).wrapping_add(add);
        self.made = self.made.wrapping_add(1);
        Some(*count)
    }
}

/// The next change, by Marsaglia's xorshift of 64 bits.
fn draw(state: &mut u64) -> [u8; 8] {
    *state ^= *state << 13;
    *state ^= *state >> 7;
    *state ^= *state << 17;
    let (at, add) = ((*state >> 32) % 1_000, *state & 0xffff_ffff);
    ((at << 32) | add).to_be_bytes()
}

/// Until when changes are submitted, and whether a worker has failed.
#[derive(Drop)]
struct Shared {
    until: Option<Instant>,
    failed: AtomicBool,
}

/// Submits changes, and gives the counters once all have. Who is told to stop since another has
/// failed gives none: the cause is told by that one.
fn work<R: Wait + Clock>(
    rt: &R,
    replica: Replica<Counters>,
    shared: &Shared,
) -> anyhow::Result<Option<Counters>> {
    match change(rt, replica, shared) {
        Ok(state) => Ok(Some(state)),
        Err(_) if shared.failed.swap(true, Ordering::SeqCst) => Ok(None),
        Err(cause) => Err(cause),
    }
}

fn change<R: Wait + Clock>(
    rt: &R,
    mut replica: Replica<Counters>,
    shared: &Shared,
) -> anyhow::Result<Counters> {
    let mut dice = u64::from(replica.number().0).wrapping_add(0x9e37_79b9_7f4a_7c15);
    for made in 0..u64::MAX {
        let goes_on = match shared.until {
            Some(until) => Instant::now(rt)? < until,
            None => made < CHANGES,
        };
        if !goes_on {
            break;
        }
        let go_on = || !shared.failed.load(Ordering::SeqCst);
        replica.submit_while(rt, go_on, &draw(&mut dice))?;
    }
    Ok(replica.finish_while(rt, || !shared.failed.load(Ordering::SeqCst))?)
}

fn main(rt: HostRuntime) -> anyhow::Result<()> {
    let shared = Shared {
        until: until(&rt)?,
        failed: AtomicBool::new(false),
    };
    let replicas = open_replicas::<Counters>(rt.alloc(), 3)?;
    let mut states = Vec::new(rt.alloc());
    for state in thread::map_vec(&rt, replicas, &|replica| work(&rt, replica, &shared))? {
        if let Some(state) = state? {
            states.push(state)?;
        }
    }
    let last = states.pop().context("no worker")?;
    ensure!(states.iter().all(|state| *state == last), "two differ");
    println!(&rt; "3 replicas: all equal, after {} changes", last.made).context("no output")
}

/// Until when changes are submitted, where the command line says for how many seconds.
fn until<R: AllocGlobal + env::Env + Clock>(rt: &R) -> anyhow::Result<Option<Instant>> {
    let mut words = env::args(rt)?.skip(1);
    let Some(word) = words.next() else {
        return Ok(None);
    };
    let seconds: u64 = word
        .as_str()
        .parse()
        .context("usage: example_replica [SECONDS]")?;
    let until = Instant::now(rt)?.checked_add(Duration::from_secs(seconds));
    Ok(Some(until.context("so many seconds are too many")?))
}
