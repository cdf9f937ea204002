//! Receivers of a ring fork, to numbers that are free and to some that are taken; and others give
//! copies.

ghost use Rattle.std.specs.Prelude.{◌≡◌, IfSome};
ghost use Rattle.bus_pageslot.specs.Seats.{table_of};

use crate::games::{last_sender, last_tap};
use bus_adoptcommit::ThreeWord;
use bus_batch::{Item, Message};
use bus_deliverylog::RecvTurn;
use bus_pageslot::{Bus, Sender, Tap};
use bus_register::SenderNo;
use bus_tenure::Turn;
use bus_world::Shape;
use std::alloc::Global;
use std::process::Abort;

/// One sender and three receivers.
const SMALL: Shape = Shape {
    senders: 1,
    receivers: 3,
    rounds: 1,
    rows: 2,
    log_words: 200,
    batch: 16,
};

type Few = Bus<ThreeWord>;

type One = Sender<ThreeWord>;

type TestTap = Tap<ThreeWord>;

/// The ring with its sender, and with its receivers 0, 1 and 2.
fn ring(rt: &impl Abort, alloc: Global) -> (Few, One, TestTap, TestTap, TestTap)
    ensures sender { table_of result.1 ≡ result.0.table }
    ensures first { result.2.table_id ≡ result.0.table }
    ensures second { result.3.table_id ≡ result.0.table }
    ensures third { result.4.table_id ≡ result.0.table }
{
    let (bus, mut senders, mut taps) = Bus::ring(alloc, SMALL, None).expect(rt, "memory");
    let third = last_tap(rt, &bus, &mut taps);
    let second = last_tap(rt, &bus, &mut taps);
    let first = last_tap(rt, &bus, &mut taps);
    let sender = last_sender(rt, &bus, &mut senders);
    (bus, sender, first, second, third)
}

/// A message of one byte is delivered, with this number and by this tenure.
fn sends(rt: &impl Abort, bus: &Few, sender: &mut One, bytes: &[u8], number: u64)
    requires { table_of sender.old ≡ bus.now.table }
    ensures { table_of sender.new ≡ bus.now.table }
{
    assert!(rt; sender.put(bytes) == Ok(number));
    let want = Turn::Delivered {
        tenure: number,
        first: number,
        last: number,
    };
    for _ in 0..40 {
        if sender.turn(bus, 0) == want {
            return;
        }
    }
    panic!(rt; "{want:?} is not answered");
}

/// Sees what the receiver's next turns answer.
fn hears(rt: &impl Abort, bus: &Few, tap: &mut TestTap, want: &[RecvTurn])
    requires { tap.old.table_id ≡ bus.now.table }
    ensures { tap.new.table_id ≡ bus.now.table }
{
    for (i, turn) in want.iter().enumerate() {
        let got = tap.turn(bus);
        assert_eq!(rt; got, *turn, "turn {i}");
    }
}

/// Forks to this number, which is one above its own.
fn forks(rt: &impl Abort, bus: &Few, tap: &mut TestTap, number: u64) -> Option<TestTap>
    requires { tap.old.table_id ≡ bus.now.table }
    ensures here { tap.new.table_id ≡ bus.now.table }
    ensures made { IfSome result (λ made. made.table_id ≡ bus.now.table) }
{
    assert!(rt; tap.number() < number);
    assert!(rt; number < tap.passers());
    tap.fork(bus, number)
}

/// A receiver is told that somebody has this number.
fn is_taken(rt: &impl Abort, bus: &Few, tap: &mut TestTap, number: u64)
    requires { tap.old.table_id ≡ bus.now.table }
    ensures { tap.new.table_id ≡ bus.now.table }
{
    assert!(rt; forks(rt, bus, tap, number).is_none());
}

/// Number, known words, place and passed place of a receiver.
fn stands_at(rt: &impl Abort, tap: &TestTap, want: (u64, u64, u64, u64)) {
    assert!(rt; (tap.number(), tap.known(), tap.place(), tap.passed()) == want);
}

/// A head of sender 0.
fn head(tenure: u64) -> RecvTurn {
    RecvTurn::Head {
        tenure,
        owner: SenderNo(0),
    }
}

/// An item of sender 0.
fn item(rt: &impl Abort, number: u64, bytes: &[u8]) -> RecvTurn {
    RecvTurn::Item(Item {
        sender: SenderNo(0),
        number,
        message: Message::of_bytes(bytes).expect(rt, "short"),
    })
}

/// The second of two messages, behind the first one, which the receiver has passed.
fn hears_a_b(rt: &impl Abort, bus: &Few, tap: &mut TestTap)
    requires { tap.old.table_id ≡ bus.now.table }
    ensures { tap.new.table_id ≡ bus.now.table }
{
    let answers = [item(rt, 1, b"b"), RecvTurn::Going, RecvTurn::Empty];
    hears(rt, bus, tap, &answers);
}

/// A receiver within the second frame forks, to a number that another has left: both hear the rest
/// of that frame, and each passes it.
#[test]
fn one_forks_within_a_frame(rt: HostRuntime) {
    let (bus, mut sender, mut first, mut second, third) = ring(&rt, rt.alloc());
    sends(&rt, &bus, &mut sender, b"a", 0);
    sends(&rt, &bus, &mut sender, b"b", 1);
    let answers = [
        RecvTurn::Going,
        head(0),
        RecvTurn::Going,
        item(&rt, 0, b"a"),
        RecvTurn::Going,
        head(1),
        RecvTurn::Going,
    ];
    hears(&rt, &bus, &mut first, &answers);
    stands_at(&rt, &first, (0, 6, 5, 3));
    is_taken(&rt, &bus, &mut first, 2);
    third.leave(&bus);
    let mut made = forks(&rt, &bus, &mut first, 2).expect(&rt, "a free number");
    stands_at(&rt, &made, (2, 6, 5, 3));
    is_taken(&rt, &bus, &mut second, 2);
    hears_a_b(&rt, &bus, &mut made);
    stands_at(&rt, &first, (0, 6, 5, 3));
    hears_a_b(&rt, &bus, &mut first);
    stands_at(&rt, &made, (2, 6, 6, 6));
}

/// A bus whose log is no ring, with its sender and a receiver.
fn flat(rt: &impl Abort, alloc: Global) -> (Few, One, TestTap)
    ensures sender { table_of result.1 ≡ result.0.table }
    ensures tap { result.2.table_id ≡ result.0.table }
{
    let (bus, mut senders, mut taps) = Bus::cyclic(alloc, SMALL, None).expect(rt, "memory");
    let tap = last_tap(rt, &bus, &mut taps);
    let sender = last_sender(rt, &bus, &mut senders);
    (bus, sender, tap)
}

/// A copy of a receiver, whatever the number.
fn copies(rt: &impl Abort, bus: &Few, tap: &mut TestTap, number: u64) -> TestTap
    requires { tap.old.table_id ≡ bus.now.table }
    ensures here { tap.new.table_id ≡ bus.now.table }
    ensures made { result.table_id ≡ bus.now.table }
{
    assert!(rt; tap.number() < number);
    assert!(rt; tap.passers() == 0);
    tap.fork(bus, number).expect(rt, "a copy")
}

#[test]
fn one_is_copied_within_a_frame(rt: HostRuntime) {
    let (bus, mut sender, mut tap) = flat(&rt, rt.alloc());
    sends(&rt, &bus, &mut sender, b"a", 0);
    hears(
        &rt,
        &bus,
        &mut tap,
        &[RecvTurn::Going, head(0), RecvTurn::Going],
    );
    let mut made = copies(&rt, &bus, &mut tap, 9);
    stands_at(&rt, &made, (2, 3, 2, 0));
    let rest = [item(&rt, 0, b"a"), RecvTurn::Empty];
    hears(&rt, &bus, &mut made, &rest);
    hears(&rt, &bus, &mut tap, &rest);
}
