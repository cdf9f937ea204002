//! Replicas that go on from a journal, whose frames were written by hand.

use bus_deliverylog::Order;
use bus_handles::Page;
use bus_journal::{Header, JournalRead, push_header, push_record, read_journal};
use bus_replica::{
    GoOnFault, OpenFault, Replica, SenderNo, State, append, open_recorded, page_after, replay,
};
use std::alloc::{AllocError, Global};
use std::process::Abort;
use std::sync::Wait;
use std::thread;

/// The shortest ring.
const SHORTEST: u64 = 513;

/// A number that tells which operations were applied, and in which order.
#[derive(Clone, Copy, Drop, PartialEq, Eq)]
struct Chain {
    told: u64,
}

impl State for Chain {
    type Answer = u64;

    fn first(_alloc: Global) -> Result<Chain, AllocError> {
        Ok(Chain { told: 0 })
    }

    fn apply(&mut self, from: SenderNo, op: &[u8]) -> u64 {
        let said = u64::from(from.0) * 256 + u64::from(op.first().copied().unwrap_or(0));
        self.told = self.told.wrapping_mul(1_000).wrapping_add(said);
        self.told
    }
}

/// The bytes of a journal of two senders, with the first numbers 5 and 7: each has said one byte.
fn written<R: Abort + AllocGlobal>(rt: &R) -> Vec<u8> {
    let mut bytes = Vec::new(rt.alloc());
    let first = vec![in rt.alloc(); 5_u64, 7].expect(rt, "memory");
    let header = Header {
        senders: 2,
        most: 16,
        place: 0,
        first,
    };
    push_header(&mut bytes, &header).expect(rt, "memory");
    let zero = [
        0x4000_0200_0000_0000,
        0x8040_0000_0000_0005,
        0x6100_0000_0000_0000,
    ];
    push_record(&mut bytes, 0, &zero).expect(rt, "memory");
    let one = [
        0x4040_0200_0000_0001,
        0x8040_0000_0000_0007,
        0x6200_0000_0000_0000,
    ];
    push_record(&mut bytes, 3, &one).expect(rt, "memory");
    bytes
}

/// What these bytes tell.
fn told<R: Abort + AllocGlobal>(rt: &R, bytes: &[u8]) -> JournalRead {
    read_journal(rt.alloc(), bytes).expect(rt, "a journal")
}

/// The replicas of two workers that go on from this page and this order.
fn opened<R: Abort + AllocGlobal>(rt: &R, page: &Page, order: &Order) -> Vec<Replica<Chain>> {
    open_recorded::<Chain>(rt.alloc(), 2, SHORTEST, page, order).expect(rt, "replicas")
}

/// They are refused so.
fn refused<R: Abort + AllocGlobal>(rt: &R, page: &Page, order: &Order, why: OpenFault) {
    match open_recorded::<Chain>(rt.alloc(), 2, SHORTEST, page, order) {
        Ok(_) => assert!(rt; false),
        Err(fault) => assert!(rt; fault == why),
    }
}

/// It begins with what was replayed, and its numbers go on with this one. Then it executes another.
fn goes_on<R: Wait + Abort>(rt: &R, mut replica: Replica<Chain>, next: u64) -> Chain {
    assert!(rt; replica.state().told == 97_354 && replica.words() == 0);
    assert!(rt; replica.submit(rt, b"c").expect(rt, "a number") == next);
    let before = replica.words();
    let _ = replica.execute(rt, b"d").expect(rt, "an answer");
    assert!(rt; replica.words() > before);
    replica.finish(rt).expect(rt, "the state")
}

#[test]
fn replicas_go_on_from_a_journal(rt: HostRuntime) {
    let read = told(&rt, &written(&rt));
    let page = page_after(None, &read).expect(&rt, "a page");
    assert!(&rt; page.next[0] == 6 && page.next[1] == 8 && page.next[2] == 0);
    let states = thread::map_vec(
        &rt,
        opened(&rt, &page, &read.log.order),
        &|replica: Replica<Chain>| {
            let next = if replica.number().0 == 0 { 6 } else { 8 };
            goes_on(&rt, replica, next)
        },
    )
    .expect(&rt, "threads");
    for state in &states {
        assert!(&rt; *state == states[0] && state.told != 97_354);
    }
}

#[test]
fn pages_that_are_refused(rt: HostRuntime) {
    let read = told(&rt, &written(&rt));
    let page = page_after(None, &read).expect(&rt, "a page");
    let mut other = page;
    other.ended = false;
    refused(&rt, &other, &read.log.order, OpenFault::NotEnded);
    other = page;
    if let Some(last) = other.next.get_mut(63) {
        *last = 0xbfff_ffff_ffc0;
    }
    refused(&rt, &other, &read.log.order, OpenFault::Numbers);
}

#[test]
fn a_journal_behind_a_gap_is_refused(rt: HostRuntime) {
    let read = told(&rt, &written(&rt));
    let page = page_after(None, &read).expect(&rt, "a page");
    match page_after(Some(&page), &read) {
        Ok(_) => assert!(&rt; false),
        Err(fault) => assert!(&rt; fault == GoOnFault::Gap),
    }
    let mut before = page;
    for (sender, number) in [5, 7, 9].iter().enumerate() {
        if let Some(next) = before.next.get_mut(sender) {
            *next = *number;
        }
    }
    let next = page_after(Some(&before), &read).expect(&rt, "a page");
    assert!(&rt; next.next[0] == 6 && next.next[1] == 8 && next.next[2] == 9);
}

#[test]
fn two_journals_are_one_order(rt: HostRuntime) {
    let read = told(&rt, &written(&rt));
    let mut both = Order::new(rt.alloc());
    append(&mut both, &read.log.order).expect(&rt, "memory");
    append(&mut both, &read.log.order).expect(&rt, "memory");
    let (mut one, mut other) = (Chain { told: 0 }, Chain { told: 0 });
    replay(&mut one, &both);
    replay(&mut other, &read.log.order);
    assert!(&rt; other.told == 97_354);
    replay(&mut other, &read.log.order);
    assert!(&rt; one == other);
}
