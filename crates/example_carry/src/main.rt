//! A message that was not sent when an order was closed goes on in the next sitting, and keeps its
//! number there. It prints what a receiver of that sitting is given.
#![tactic(auto)]

use anyhow::{Context, ensure};
use bus_handles::{Shape, ThreeWord, Turn, open_after, open_cyclic, senders_page};

const SHAPE: Shape = Shape {
    senders: 2,
    receivers: 1,
    rounds: 2,
    rows: 4,
    log_words: 64,
    batch: 16,
};

fn main(rt: HostRuntime) -> anyhow::Result<()> {
    let (mut senders, _receivers) = open_cyclic::<ThreeWord>(rt.alloc(), SHAPE, None)?;
    for sender in &mut senders {
        sender.put(b"sent")?;
        sender.deliver(&rt)?;
    }
    for sender in &mut senders {
        if sender.number().0 == 0 {
            sender.put(b"late")?;
        } else {
            sender.end_order(&rt)?;
        }
    }
    for sender in &mut senders {
        ensure!(sender.send(&rt) == Turn::Closed, "the order has not ended");
    }
    let page = senders_page(senders.as_slice())?;
    let (next, mut receivers) = open_after::<ThreeWord>(rt.alloc(), SHAPE, &page)?;
    for (from, mut to) in senders.into_iter().zip(next) {
        from.carry_to(&mut to)?;
        if to.pending() > 0 {
            to.deliver(&rt)?;
        }
    }
    let mut receiver = receivers.pop().context("no receiver")?;
    let item = receiver.next_item(&rt).context("the end")?;
    println!(&rt; "sender {} sends number {}", item.sender.0, item.number)?;
    Ok(())
}
