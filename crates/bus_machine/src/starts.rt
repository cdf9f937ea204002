//! The senders of a new bus.

ghost use Rattle.std.specs.Prelude.{◌≡◌, ℕ, ◌+◌, ◌<◌, ◌≤◌, ◌^◌, IfOk, None};
ghost use Rattle.bus_core.specs.Keeping.{new_sender as spec_new_sender};
ghost use Rattle.bus_tenure.specs.Core.{words_of};
ghost use Rattle.bus_machine.specs.Playing.{layout_of, layout_passed, IsServed, RoomFor, ShapeOf};
ghost use Rattle.bus_machine.specs.Playing.{IsBatch};
ghost use Rattle.bus_machine.specs.Turning.{AreNewSenders};
ghost use Rattle.bus_register.specs.declared.limits.TheConstants.{MOST_RECEIVERS, NUMBERS};
ghost use Rattle.bus_world.specs.World.{AreBases};

use bus_adoptcommit::Ratifier;
use bus_core::SenderCore;
use bus_register::{NoMemory, SenderNo};
use bus_world::Shape;
use std::alloc::Global;

/// A sender with nothing pending, whose first message gets the number `first`.
fn new_sender<Q: Ratifier + Drop>(
    shape: Shape,
    reuse: Option<u64>,
    passers: u64,
    me: SenderNo,
    first: u64,
) -> SenderCore<Q>
    requires served { IsServed shape reuse }
    requires shape { ShapeOf shape reuse }
    requires room { RoomFor Q.protocol shape reuse }
    requires apart { reuse ≡ None → passers ≡ 0 }
    requires few { passers ≤ MOST_RECEIVERS }
    requires batch { IsBatch passers shape.batch }
    requires below { me.0 < shape.senders }
    requires numbers { first ≤ NUMBERS }
    ensures { result
        ≡ spec_new_sender (layout_passed Q.protocol shape reuse passers) me.0 reuse first }
{
    let (senders, rounds, words) = (shape.senders, shape.rounds, shape.log_words);
    let batch = shape.batch;
    match reuse {
        None => SenderCore::new(senders, me, rounds, shape.rows, words, first, batch),
        Some(rows) => SenderCore::cyclic(senders, me, rounds, rows, words, first, passers, batch),
    }
}

/// A sender for each number, with nothing pending, whose messages count from its base.
pub fn new_senders<Q: Ratifier + Drop>(
    alloc: Global,
    shape: Shape,
    reuse: Option<u64>,
    passers: u64,
    bases: &[u64],
) -> Result<Vec<SenderCore<Q>>, NoMemory>
    requires served { IsServed shape reuse }
    requires shape { ShapeOf shape reuse }
    requires room { RoomFor Q.protocol shape reuse }
    requires apart { reuse ≡ None → passers ≡ 0 }
    requires few { passers ≤ MOST_RECEIVERS }
    requires batch { IsBatch passers shape.batch }
    requires bases { AreBases bases.now }
    ensures { IfOk result (λ senders. AreNewSenders (layout_passed Q.protocol shape reuse passers)
        reuse bases.now shape.senders senders.items) }
{
    let mut senders = Vec::new(alloc);
    for me in 0..shape.senders {
        let first = bases[me as usize];
        senders.push(new_sender(shape, reuse, passers, SenderNo(me as u8), first))?;
    }
    Ok(senders)
}
