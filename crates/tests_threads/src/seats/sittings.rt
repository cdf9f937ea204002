//! A next sitting, which goes on with the numbers of the one before, and with what that did not
//! send.

use super::*;
use crate::both::BusReceiver;
use crate::games::play_after;
use bus_deliverylog::RecvTurn;
use bus_tenure::Page;

/// Sender 0 delivers an a, and has not sent its b when sender 1 closes.
#[derive(Drop)]
struct FirstSitting {
    /// Sender 0, as it is kept for the next sitting.
    kept: Option<Sender<ThreeWord>>,
}

impl Game for FirstSitting {
    fn play<R: Threads + Wait + Abort + AllocGlobal + Sync>(
        &mut self,
        rt: &R,
        mut seats: Seats<'_>,
    ) {
        let mut one = seats.last_sender(rt);
        let mut zero = seats.last_sender(rt);
        puts(rt, &mut zero, b"a", 0);
        delivers(rt, &mut zero, 0, 0);
        puts(rt, &mut zero, b"b", 1);
        closes(rt, &mut one);
        ends_in(rt, &mut one, Turn::Own { tenure: 1 });
        ends_in(rt, &mut one, Turn::Closed);
        self.kept = Some(zero.into_alone());
    }
}

/// The b goes on in the next sitting, with the number that it had.
#[derive(Drop)]
struct NextSitting {
    kept: Sender<ThreeWord>,
}

impl Game for NextSitting {
    fn play<R: Threads + Wait + Abort + AllocGlobal + Sync>(
        &mut self,
        rt: &R,
        mut seats: Seats<'_>,
    ) {
        let _one = seats.last_sender(rt);
        let mut zero = seats.last_sender(rt);
        waits(rt, &self.kept, b'b');
        assert!(rt; zero.carry(&self.kept) == Ok(()));
        waits(rt, zero.alone(), b'b');
        delivers(rt, &mut zero, 0, 1);
        hears_the_b(rt, &mut seats.last_receiver(rt));
    }
}

/// One message waits, and it is this byte.
fn waits(rt: &impl Abort, sender: &Sender<ThreeWord>, byte: u8) {
    let waiting = sender.waiting();
    assert!(rt; waiting.len() == 1);
    assert!(rt; waiting.as_slice()[0].as_slice() == [byte].as_slice());
}

/// The first item is the b of sender 0, with the number 1.
fn hears_the_b(rt: &impl Abort, receiver: &mut BusReceiver<'_>) {
    for _ in 0..9 {
        if let RecvTurn::Item(item) = receiver.turn() {
            assert!(rt; (item.sender, item.number) == (SenderNo(0), 1));
            assert!(rt; item.message.as_slice() == b"b".as_slice());
            return;
        }
    }
    panic!(rt; "no item is heard");
}

/// The page that a sitting left, and how its numbers go on.
fn page_of(rt: &impl Abort, ended: &Ended) -> Page {
    let page = *ended.page();
    assert!(rt; (page.next[0], page.next[1], page.ended) == (1, 0, true));
    page
}

/// How sender 0 began and how many items of it there are.
fn has_gone_on(rt: &impl Abort, ended: &Ended) {
    let counts = (ended.base(SenderNo(0)), ended.count(SenderNo(0)));
    assert!(rt; counts == (1, 1));
}

#[test]
fn what_was_not_sent_goes_on(rt: HostRuntime) {
    let mut first = FirstSitting { kept: None };
    let left = play_on(&rt, FirstLine::Shape(TWO), &mut first);
    let page = page_of(&rt, &left.expect(&rt, "the page is home"));
    let mut next = NextSitting {
        kept: first.kept.expect(&rt, "a sender"),
    };
    let left = play_after(&rt, TWO, &page, &mut next);
    has_gone_on(&rt, &left.expect(&rt, "the page is home"));
}
