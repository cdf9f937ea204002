//! Handles of receivers that fork: of a ring to seats that others have left, and of other buses to
//! as many as are asked for.

use bus_handles::{
    ForkFault, Item, Message, ReceiverHandle, SenderHandle, SenderNo, Shape, ThreeWord, open,
    open_ring,
};
use std::alloc::Global;
use std::process::Abort;
use std::sync::Wait;

/// One sender and three receivers; a log of 64 words.
const SMALL: Shape = Shape {
    senders: 1,
    receivers: 3,
    rounds: 1,
    rows: 2,
    log_words: 64,
    batch: 16,
};

/// The same as a ring: the longest batch fits its log.
const RING: Shape = Shape { batch: 7, ..SMALL };

type Few = ReceiverHandle<ThreeWord>;

type One = SenderHandle<ThreeWord>;

/// A fork of this receiver.
fn forks(rt: &impl Abort, receiver: &mut Few) -> Few {
    receiver.fork().expect(rt, "a free number")
}

/// No number above this receiver's is free.
fn has_no_seat(rt: &impl Abort, receiver: &mut Few) {
    assert!(rt; matches!(receiver.fork(), Err(ForkFault::NoSeat)));
}

/// A message with this number is delivered.
fn sends<R: Abort + Wait>(rt: &R, sender: &mut One, number: u64) {
    assert!(rt; sender.put(b"a") == Ok(number));
    assert!(rt; sender.deliver(rt).is_ok());
}

/// The next item of this receiver is the message with this number.
fn hears<R: Abort + Wait>(rt: &R, receiver: &mut Few, number: u64) {
    let want = Item {
        sender: SenderNo(0),
        number,
        message: Message::of_bytes(b"a").expect(rt, "short"),
    };
    assert!(rt; receiver.next_item(rt) == Some(want));
}

/// A ring with its sender and its first receiver. The two others were spare: one has left, and one
/// is dropped.
fn ring_with_room(rt: &impl Abort, alloc: Global) -> (One, Few) {
    let (mut senders, mut receivers) = open_ring(alloc, RING, None).expect(rt, "a ring");
    let _ = receivers.pop().expect(rt, "a receiver").leave();
    drop(receivers.pop());
    let first = receivers.pop().expect(rt, "a receiver");
    (senders.pop().expect(rt, "a sender"), first)
}

/// The forked ones go on from where their maker stood, and hear what it hears, while more is sent
/// than the ring is long. A number that was left again is forked to again.
#[test]
fn spare_seats_are_forked_to(rt: HostRuntime) {
    let (mut sender, mut first) = ring_with_room(&rt, rt.alloc());
    sends(&rt, &mut sender, 0);
    hears(&rt, &mut first, 0);
    let mut second = forks(&rt, &mut first);
    let mut third = forks(&rt, &mut first);
    has_no_seat(&rt, &mut first);
    for number in 1..40 {
        sends(&rt, &mut sender, number);
        hears(&rt, &mut first, number);
        hears(&rt, &mut second, number);
        hears(&rt, &mut third, number);
    }
    drop(second);
    sends(&rt, &mut sender, 40);
    let mut again = forks(&rt, &mut first);
    has_no_seat(&rt, &mut first);
    has_no_seat(&rt, &mut again);
    hears(&rt, &mut again, 40);
    hears(&rt, &mut first, 40);
}

/// Of a bus that is no ring.
#[test]
fn copies_are_never_refused(rt: HostRuntime) {
    let (mut senders, mut receivers) = open(rt.alloc(), SMALL).expect(&rt, "a bus");
    let mut sender = senders.pop().expect(&rt, "a sender");
    let mut receiver = receivers.pop().expect(&rt, "a receiver");
    sends(&rt, &mut sender, 0);
    for _ in 0..20 {
        let mut copy = forks(&rt, &mut receiver);
        hears(&rt, &mut copy, 0);
    }
    hears(&rt, &mut receiver, 0);
}
