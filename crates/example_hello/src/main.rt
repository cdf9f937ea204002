//! Two senders say hello over a bus, and a receiver prints in which order it was given that.
#![tactic(auto)]

use anyhow::Context;
use bus_handles::{Shape, ThreeWord, open_ring};

fn main(rt: HostRuntime) -> anyhow::Result<()> {
    let shape = Shape {
        senders: 2,
        receivers: 1,
        rounds: 2,
        rows: 2,
        log_words: 4096,
        batch: 64,
    };
    let (senders, receivers) = open_ring::<ThreeWord>(rt.alloc(), shape, None)?;
    for mut sender in senders {
        sender.put(b"hello")?;
        sender.deliver(&rt)?;
    }
    for mut receiver in receivers {
        let first = receiver.next_item(&rt).context("the end")?;
        let second = receiver.next_item(&rt).context("the end")?;
        let order = [first.sender.0, second.sender.0];
        println!(&rt; "the order of senders: {order:?}")?;
    }
    Ok(())
}
