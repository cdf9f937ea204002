//! Games on a bus: what happens from when it is made until it ends. Whoever plays has no fact of
//! the bus to carry, since each seat stands beside its bus.

ghost use Rattle.std.specs.Prelude.{◌≡◌, All};
ghost use Rattle.bus_pageslot.specs.Seats.{table_of};
ghost use Rattle.bus_receiver.specs.Listening.{bus_of};

use crate::both::{BusReceiver, BusSender};
use bus_adoptcommit::ThreeWord;
use bus_pageslot::{Bus, EndFault, Ended, Sender, Tap};
use bus_receiver::Receiver;
use bus_replay::lines::FirstLine;
use bus_tenure::Page;
use bus_world::Shape;
use std::alloc::Global;
use std::process::Abort;
use std::sync::Wait;
use std::thread::Threads;

/// The senders and the receivers of a bus, each beside it.
#[derive(Drop)]
pub struct Seats<'b> {
    pub senders: Vec<BusSender<'b>>,
    pub receivers: Vec<BusReceiver<'b>>,
}

impl<'b> Seats<'b> {
    /// Takes the last sender off.
    pub fn last_sender(&mut self, rt: &impl Abort) -> BusSender<'b> {
        self.senders.pop().expect(rt, "a sender")
    }

    /// Takes the last receiver off.
    pub fn last_receiver(&mut self, rt: &impl Abort) -> BusReceiver<'b> {
        self.receivers.pop().expect(rt, "a receiver")
    }
}

/// What happens on a bus, whose seats these are.
pub trait Game {
    fn play<R: Threads + Wait + Abort + AllocGlobal + Sync>(&mut self, rt: &R, seats: Seats<'_>);
}

/// Plays on a bus that a first line of a script asks for, with one receiver more, which ends it.
/// Gives what it leaves behind.
pub fn play_on<R: Threads + Wait + Abort + AllocGlobal + Sync, G: Game>(
    rt: &R,
    first: FirstLine,
    game: &mut G,
) -> Result<Ended, EndFault> {
    play_on_made(rt, made(rt, rt.alloc(), first), game)
}

/// The same on the next sitting after this page.
pub fn play_after<R: Threads + Wait + Abort + AllocGlobal + Sync, G: Game>(
    rt: &R,
    shape: Shape,
    page: &Page,
    game: &mut G,
) -> Result<Ended, EndFault> {
    play_on_made(rt, made_after(rt, rt.alloc(), shape, page), game)
}

/// Plays on a ring of this shape, all of whose receivers play. So none is left that could end it.
pub fn play_ring<R: Threads + Wait + Abort + AllocGlobal + Sync, G: Game>(
    rt: &R,
    shape: Shape,
    game: &mut G,
) {
    let (bus, senders, taps) = made_ring(rt, rt.alloc(), shape);
    let seats = seated(rt, &bus, senders, taps);
    game.play(rt, seats);
}

/// Plays on this bus, which its last receiver ends.
fn play_on_made<R: Threads + Wait + Abort + AllocGlobal + Sync, G: Game>(
    rt: &R,
    made: (Bus<ThreeWord>, Vec<Sender<ThreeWord>>, Vec<Tap<ThreeWord>>),
    game: &mut G,
) -> Result<Ended, EndFault>
    requires senders { All (λ s. table_of s ≡ made.0.table) made.1.items }
    requires taps { All (λ t. t.table_id ≡ made.0.table) made.2.items }
{
    let (bus, senders, mut taps) = made;
    let last = Receiver::new(last_tap(rt, &bus, &mut taps));
    let seats = seated(rt, &bus, senders, taps);
    game.play(rt, seats);
    Receiver::end(bus, last)
}

/// Each of these beside their bus.
fn seated<'b, R: Abort + AllocGlobal>(
    rt: &R,
    bus: &'b Bus<ThreeWord>,
    senders: Vec<Sender<ThreeWord>>,
    taps: Vec<Tap<ThreeWord>>,
) -> Seats<'b>
    requires senders { All (λ s. table_of s ≡ bus.now.table) senders.items }
    requires taps { All (λ t. t.table_id ≡ bus.now.table) taps.items }
{
    let mut seats = Seats {
        senders: Vec::new(rt.alloc()),
        receivers: Vec::new(rt.alloc()),
    };
    for sender in senders {
        let sender = BusSender::new(bus, sender);
        seats.senders.push(sender).expect(rt, "memory");
    }
    for tap in taps {
        let receiver = BusReceiver::new(bus, tap);
        seats.receivers.push(receiver).expect(rt, "memory");
    }
    seats
}

/// The bus that a first line asks for, with one receiver more.
pub fn made(
    rt: &impl Abort,
    alloc: Global,
    first: FirstLine,
) -> (Bus<ThreeWord>, Vec<Sender<ThreeWord>>, Vec<Tap<ThreeWord>>)
    ensures senders { All (λ s. table_of s ≡ result.0.table) result.1.items }
    ensures taps { All (λ t. t.table_id ≡ result.0.table) result.2.items }
{
    match first {
        FirstLine::Shape(shape) => Bus::new(alloc, with_one_more(shape)).expect(rt, "memory"),
        FirstLine::Cycle(shape) => {
            Bus::cyclic(alloc, with_one_more(shape), None).expect(rt, "memory")
        }
        FirstLine::Ring { .. } => panic!(rt; "no row of these is of a ring"),
    }
}

/// A ring of this shape.
fn made_ring(
    rt: &impl Abort,
    alloc: Global,
    shape: Shape,
) -> (Bus<ThreeWord>, Vec<Sender<ThreeWord>>, Vec<Tap<ThreeWord>>)
    ensures senders { All (λ s. table_of s ≡ result.0.table) result.1.items }
    ensures taps { All (λ t. t.table_id ≡ result.0.table) result.2.items }
{
    Bus::ring(alloc, shape, None).expect(rt, "memory")
}

/// The bus of the sitting after this page, with one receiver more.
fn made_after(
    rt: &impl Abort,
    alloc: Global,
    shape: Shape,
    page: &Page,
) -> (Bus<ThreeWord>, Vec<Sender<ThreeWord>>, Vec<Tap<ThreeWord>>)
    ensures senders { All (λ s. table_of s ≡ result.0.table) result.1.items }
    ensures taps { All (λ t. t.table_id ≡ result.0.table) result.2.items }
{
    Bus::after(alloc, with_one_more(shape), page).expect(rt, "memory")
}

/// The same shape with one receiver more.
fn with_one_more(shape: Shape) -> Shape {
    Shape {
        receivers: shape.receivers.saturating_add(1),
        ..shape
    }
}

/// Takes the last sender off.
pub fn last_sender(
    rt: &impl Abort,
    bus: &Bus<ThreeWord>,
    senders: &mut Vec<Sender<ThreeWord>>,
) -> Sender<ThreeWord>
    requires { All (λ s. table_of s ≡ bus.now.table) senders.old.items }
    ensures sender { table_of result ≡ bus.now.table }
    ensures rest { All (λ s. table_of s ≡ bus.now.table) senders.new.items }
{
    let _ = bus;
    senders.pop().expect(rt, "a sender")
}

/// Takes the last receiver off.
pub fn last_tap(
    rt: &impl Abort,
    bus: &Bus<ThreeWord>,
    taps: &mut Vec<Tap<ThreeWord>>,
) -> Tap<ThreeWord>
    requires { All (λ t. t.table_id ≡ bus.now.table) taps.old.items }
    ensures tap { result.table_id ≡ bus.now.table }
    ensures rest { All (λ t. t.table_id ≡ bus.now.table) taps.new.items }
{
    let _ = bus;
    taps.pop().expect(rt, "a receiver")
}
