//! Handles of rings whose batches have as many messages as their shapes say, 1 to 64; and shapes
//! that are refused for their batches, or for a log that is shorter than the longest of them.

use bus_handles::{
    Delivered, Item, MakeFault, Message, PutFault, ReceiverHandle, RingFault, SenderHandle,
    SenderNo, Shape, ThreeWord, open, open_cyclic, open_ring,
};
use std::alloc::Global;
use std::process::Abort;
use std::sync::Wait;

/// A sender and a receiver of the shortest ring that has the longest batches.
const LONGEST: Shape = Shape {
    senders: 1,
    receivers: 1,
    rounds: 1,
    rows: 2,
    log_words: 513,
    batch: 64,
};

type One = SenderHandle<ThreeWord>;

type Few = ReceiverHandle<ThreeWord>;

/// The sender and the receiver of a ring of this shape.
fn ring(rt: &impl Abort, alloc: Global, shape: Shape) -> (One, Few) {
    let (mut senders, mut receivers) = open_ring(alloc, shape, None).expect(rt, "a ring");
    let receiver = receivers.pop().expect(rt, "a receiver");
    (senders.pop().expect(rt, "a sender"), receiver)
}

/// The longest message, by its number.
fn bytes_of(number: u64) -> [u8; 56] {
    [(number % 251) as u8; 56]
}

/// Fills a batch of so many of the longest messages, of which the first has this number. One more
/// is refused.
fn fills(rt: &impl Abort, sender: &mut One, first: u64, many: u64) {
    assert!(rt; sender.batch_limit() == many && sender.pending() == 0);
    for number in first..first.saturating_add(many) {
        assert!(rt; sender.put(&bytes_of(number)) == Ok(number));
    }
    assert!(rt; sender.put(b"") == Err(PutFault::BatchFull));
    assert!(rt; sender.pending() == many);
}

/// The batch is delivered by this tenure, with the numbers from the first to the last one.
fn delivers<R: Abort + Wait>(rt: &R, sender: &mut One, tenure: u64, first: u64, last: u64) {
    let want = Delivered {
        tenure,
        first,
        last,
    };
    assert!(rt; sender.deliver(rt) == Ok(want));
}

/// The next items are these messages, in their order. By a turn more the frame is passed.
fn hears<R: Abort + Wait>(rt: &R, receiver: &mut Few, first: u64, last: u64) {
    for number in first..=last {
        let want = Item {
            sender: SenderNo(0),
            number,
            message: Message::of_bytes(&bytes_of(number)).expect(rt, "short"),
        };
        assert!(rt; receiver.next_item(rt) == Some(want));
    }
    let _ = receiver.turn();
    assert!(rt; receiver.passed() == receiver.place());
}

#[test]
fn a_batch_of_64_takes_64(rt: HostRuntime) {
    let (mut sender, _receiver) = ring(&rt, rt.alloc(), LONGEST);
    fills(&rt, &mut sender, 0, 64);
}

/// Each frame has all words of the ring.
#[test]
fn batches_of_64_are_heard_in_order(rt: HostRuntime) {
    let (mut sender, mut receiver) = ring(&rt, rt.alloc(), LONGEST);
    for tenure in 0..3 {
        let first = 64 * tenure;
        fills(&rt, &mut sender, first, 64);
        delivers(&rt, &mut sender, tenure, first, first + 63);
        hears(&rt, &mut receiver, first, first + 63);
        assert!(&rt; receiver.place() == 513 * (tenure + 1));
    }
}

/// The same of the shortest ring of each number of messages that a batch may have.
#[test]
fn each_batch_fits_its_shortest_ring(rt: HostRuntime) {
    for batch in 2..65 {
        let shape = Shape {
            log_words: 1 + 8 * batch,
            batch,
            ..LONGEST
        };
        let (mut sender, mut receiver) = ring(&rt, rt.alloc(), shape);
        fills(&rt, &mut sender, 0, batch);
        delivers(&rt, &mut sender, 0, 0, batch - 1);
        hears(&rt, &mut receiver, 0, batch - 1);
    }
}

/// A log has 16 words at least, so the shortest has room for more than one message.
#[test]
fn a_batch_of_one(rt: HostRuntime) {
    let shape = Shape {
        log_words: 16,
        batch: 1,
        ..LONGEST
    };
    let (mut sender, mut receiver) = ring(&rt, rt.alloc(), shape);
    for tenure in 0..3 {
        fills(&rt, &mut sender, tenure, 1);
        delivers(&rt, &mut sender, tenure, tenure, tenure);
        hears(&rt, &mut receiver, tenure, tenure);
    }
}

/// A ring of so many words with so many messages in a batch is refused so.
fn refused(rt: &impl Abort, alloc: Global, log_words: u64, batch: u64, why: RingFault) {
    let shape = Shape {
        log_words,
        batch,
        ..LONGEST
    };
    match open_ring::<ThreeWord>(alloc, shape, None) {
        Ok(_) => assert!(rt; false),
        Err(fault) => assert!(rt; fault == why),
    }
}

#[test]
fn rings_that_are_refused(rt: HostRuntime) {
    for (log_words, batch) in [(512, 64), (16, 2), (128, 16), (65, 64)] {
        refused(&rt, rt.alloc(), log_words, batch, RingFault::ShortLog);
    }
    for (log_words, batch, why) in [
        (513, 65, MakeFault::Batch),
        (65_536, 0, MakeFault::Batch),
        (16, u64::MAX, MakeFault::Batch),
        (15, 64, MakeFault::LogWords),
        (65_537, 65, MakeFault::LogWords),
    ] {
        refused(&rt, rt.alloc(), log_words, batch, RingFault::Make(why));
    }
}

/// A batch of a log that is no ring has 16 messages, and no other number.
#[test]
fn logs_that_are_refused(rt: HostRuntime) {
    for batch in [0, 1, 15, 17, 64] {
        let shape = Shape { batch, ..LONGEST };
        match open::<ThreeWord>(rt.alloc(), shape) {
            Ok(_) => assert!(&rt; false),
            Err(fault) => assert!(&rt; fault == MakeFault::Batch),
        }
        match open_cyclic::<ThreeWord>(rt.alloc(), shape, None) {
            Ok(_) => assert!(&rt; false),
            Err(fault) => assert!(&rt; fault == MakeFault::Batch),
        }
    }
    let shape = Shape {
        batch: 16,
        ..LONGEST
    };
    assert!(&rt; open::<ThreeWord>(rt.alloc(), shape).is_ok());
}
