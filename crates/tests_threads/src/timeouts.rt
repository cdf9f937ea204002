//! Calls of handles that wait for so long at most.

use bus_handles::{Next, Shape, ThreeWord, Turn, open};
use std::process::Abort;
use std::sync::Wait;
use std::time::{Clock, Duration, Instant};

/// Two senders and a receiver of a small bus.
const SMALL: Shape = Shape {
    senders: 2,
    receivers: 1,
    rounds: 1,
    rows: 4,
    log_words: 64,
    batch: 16,
};

/// So long, in milliseconds.
const SHORT: u64 = 20;

/// It took as long as that at least.
fn has_taken<R: Abort + Clock>(rt: &R, begin: Instant, least: u64) {
    let now = Instant::now(rt).expect(rt, "a clock");
    assert!(rt;
        now.duration_since(begin) >= Duration::from_millis(least),
        "it was too soon"
    );
}

/// A receiver waits for so long for an item, and has one at once that is there.
#[test]
fn a_receiver_waits_so_long(rt: HostRuntime) {
    let (mut senders, mut receivers) = open::<ThreeWord>(rt.alloc(), SMALL).expect(&rt, "a bus");
    let mut receiver = receivers.pop().expect(&rt, "a receiver");
    let mut sender = senders.pop().expect(&rt, "a sender");
    let begin = Instant::now(&rt).expect(&rt, "a clock");
    assert!(&rt; receiver.next_item_timeout(&rt, Duration::from_millis(SHORT)) == Next::Stopped);
    has_taken(&rt, begin, SHORT);
    sender.put(b"a").expect(&rt, "a put");
    let sent = sender.send_timeout(&rt, Duration::from_millis(SHORT));
    assert!(&rt; matches!(sent, Some(Turn::Delivered { .. })));
    let Next::Item(item) = receiver.next_item_timeout(&rt, Duration::ZERO) else {
        panic!(&rt; "no item");
    };
    assert!(&rt; item.message.as_slice() == b"a".as_slice());
}

/// A sender waits for so long for another that holds the log, and keeps its batch.
#[test]
fn a_sender_waits_so_long(rt: HostRuntime) {
    let (mut senders, _receivers) = open::<ThreeWord>(rt.alloc(), SMALL).expect(&rt, "a bus");
    let mut holder = senders.pop().expect(&rt, "a sender");
    let mut other = senders.pop().expect(&rt, "another");
    holder.put(b"a").expect(&rt, "a put");
    for _ in 0..40 {
        if (holder.turn(0) == Turn::Own { tenure: 0 }) {
            break;
        }
    }
    other.put(b"b").expect(&rt, "a put");
    let begin = Instant::now(&rt).expect(&rt, "a clock");
    assert!(&rt; other.send_timeout(&rt, Duration::from_millis(SHORT)) == None);
    has_taken(&rt, begin, SHORT);
    assert!(&rt; other.pending() == 1);
}
