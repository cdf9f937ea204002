//! Four workers replicate a map of long values by key. All write the same keys, so equal maps show
//! one order.
#![tactic(auto)]

use anyhow::{Context, ensure};
use bus_replica::{Long, Replica, SenderNo, State, open_replicas};
use std::alloc::{AllocError, Global};
use std::collections::BTreeMap;
use std::sync::Wait;
use std::thread;

/// Values by key, and how many entries were written.
#[derive(Drop, PartialEq, Eq)]
struct Map {
    values: BTreeMap<u64, [u8; 100]>,
    entries: u64,
}

impl State for Map {
    /// How many entries were written by then, if this one was.
    type Answer = Option<u64>;

    fn first(alloc: Global) -> Result<Map, AllocError> {
        let values = BTreeMap::new(alloc);
        Ok(Map { values, entries: 0 })
    }

    /// Writes an entry: eight bytes of a key, and a value.
    fn apply(&mut self, _from: SenderNo, op: &[u8]) -> Option<u64> {
        let key = u64::from_be_bytes(*op.first_chunk::<8>()?);
        let value = *op.get(8..)?.first_chunk::<100>()?;
        self.values.insert(key, value).ok()?;
        self.entries = self.entries.checked_add(1)?;
        Some(self.entries)
    }
}

fn work<W: Wait>(wait: &W, mut replica: Replica<Long<Map>>) -> anyhow::Result<Map> {
    let mut entry = [replica.number().0; 108];
    for _ in 0..10 {
        for key in 0..16_u64 {
            entry[..8].copy_from_slice(&key.to_be_bytes());
            replica.submit_long(wait, &entry)?;
        }
        replica.flush(wait)?;
    }
    Ok(replica.finish(wait)?.into_state())
}

fn main(rt: HostRuntime) -> anyhow::Result<()> {
    let replicas = open_replicas::<Long<Map>>(rt.alloc(), 4)?;
    let mut maps = Vec::new(rt.alloc());
    for map in thread::map_vec(&rt, replicas, &|replica| work(&rt, replica))? {
        maps.push(map?)?;
    }
    let last = maps.pop().context("no worker")?;
    ensure!(maps.iter().all(|map| *map == last), "two maps differ");
    println!(&rt; "4 maps: all equal, after {} entries", last.entries).context("no output")
}
