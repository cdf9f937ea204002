//! Two senders, each in a thread of its own, of which one leaves at last: with a row for each
//! tenure, and with rows that are used again.

use super::*;
use crate::both::BusReceiver;
use bus_deliverylog::RecvTurn;
use bus_receiver::Heard;
use std::thread;
use std::thread::join;

/// Both send twenty messages, and the first leaves then. What the receiver is given is noted.
#[derive(Drop)]
struct TwoThreads {
    heard: Heard,
}

impl Game for TwoThreads {
    fn play<R: Threads + Wait + Abort + AllocGlobal + Sync>(
        &mut self,
        rt: &R,
        mut seats: Seats<'_>,
    ) {
        let second = seats.last_sender(rt);
        let first = seats.last_sender(rt);
        assert!(rt; both_send(rt, first, second) == (true, 20));
        hears_all(rt, &mut seats.last_receiver(rt), &mut self.heard);
    }
}

/// Each of these two sends in a thread of its own.
fn both_send<R: Threads>(rt: &R, first: BusSender<'_>, second: BusSender<'_>) -> (bool, u32) {
    join(
        rt,
        move || sends_and_leaves(first),
        move || sends_and_stays(second),
    )
}

/// Turns until what waits is sent, with the answer that says so. Who waits lets others go first.
fn sent(sender: &mut BusSender<'_>) -> Turn {
    for turn in 0..10_000_000u32 {
        let answer = sender.turn(turn % 5);
        if matches!(answer, Turn::Delivered { .. } | Turn::Left { .. }) {
            return answer;
        }
        if matches!(answer, Turn::Waiting | Turn::Behind { .. }) {
            thread::yield_now();
        }
    }
    Turn::Going
}

/// Whether one message was delivered.
fn sends_one(sender: &mut BusSender<'_>) -> bool {
    let put = sender.put(b"abc");
    put.is_ok() && matches!(sent(sender), Turn::Delivered { .. })
}

/// Sends 20 messages, each in a tenure of its own, and says how many were delivered.
fn sends_twenty(sender: &mut BusSender<'_>) -> u32 {
    let mut delivered = 0u32;
    for _ in 0..20 {
        if sends_one(sender) {
            delivered = delivered.saturating_add(1);
        }
    }
    delivered
}

/// The same of a sender of its own.
fn sends_and_stays(mut sender: BusSender<'_>) -> u32 {
    sends_twenty(&mut sender)
}

/// Whether twenty messages were delivered, and then the leave mark sent.
fn sends_and_leaves(mut sender: BusSender<'_>) -> bool {
    let delivered = sends_twenty(&mut sender);
    let asked = sender.leave();
    delivered == 20 && asked.is_ok() && matches!(sent(&mut sender), Turn::Left { .. })
}

/// What there is in the log is noted.
fn hears_all(rt: &impl Abort, receiver: &mut BusReceiver<'_>, heard: &mut Heard) {
    for _ in 0..1_000 {
        let turn = receiver.turn();
        assert!(rt; heard.note(&turn), "{turn:?} is taken");
    }
    assert!(rt; receiver.turn() == RecvTurn::Empty);
}

/// How many items of a sender were noted, and whether it has left.
fn has_noted(rt: &impl Abort, heard: &Heard, sender: u8, want: (u64, bool)) {
    assert!(rt; sender < 64);
    let sender = SenderNo(sender);
    assert!(rt; (heard.count(sender), heard.has_left(sender)) == want);
}

/// Two threads send, and one leaves.
fn one_thread_leaves<R: Threads + Wait + Abort + AllocGlobal + Sync>(rt: &R, first: FirstLine) {
    let mut game = TwoThreads {
        heard: Heard::new(),
    };
    let ended = play_on(rt, first, &mut game).expect(rt, "the page is home");
    has_ended(rt, &ended, (20, 20, false));
    has_noted(rt, &game.heard, 0, (20, true));
    has_noted(rt, &game.heard, 1, (20, false));
}

#[test]
fn one_of_two_threads_leaves(rt: HostRuntime) {
    one_thread_leaves(&rt, FirstLine::Shape(TWO));
    one_thread_leaves(&rt, FirstLine::Cycle(TWO_AGAIN));
}
