//! Turns of one sender over words of its own.

use crate::steps::{apply, same, words};
use bus_adoptcommit::ThreeWord;
use bus_batch::{CloseFault, PutFault};
use bus_core::SenderCore;
use bus_presence::Pin;
use bus_register::limits::MOST_SENDERS;
use bus_register::{Cells, Kind, Op, Reg, SenderNo};
use bus_tenure::{OwnedPage, Page, Turn};
use std::process::Abort;

/// A sender of a bus of one round, whose log has 16 words.
type Core = SenderCore<ThreeWord>;

/// The first of two senders, where there is one row.
fn first_of_two() -> Core {
    SenderCore::new(2, SenderNo(0), 1, 1, 16, 0, 16)
}

/// The second of two senders, where there are four rows.
fn second_of_two() -> Core {
    SenderCore::new(2, SenderNo(1), 1, 4, 16, 0, 16)
}

/// The only sender, where there is one row.
fn only_one() -> Core {
    SenderCore::new(1, SenderNo(0), 1, 1, 16, 0, 16)
}

/// The second of two senders, where two rows are used again.
fn cyclic() -> Core {
    SenderCore::cyclic(2, SenderNo(1), 1, 2, 16, 0, 0, 16)
}

/// The same of a bus with two passed places.
fn of_a_ring() -> Core {
    SenderCore::cyclic(2, SenderNo(1), 1, 2, 16, 0, 2, 16)
}

/// The page of a bus that has had no tenure.
fn first_page() -> Page {
    Page {
        next: [0; MOST_SENDERS],
        left: [false; MOST_SENDERS],
        ended: false,
        tenures: 0,
        words: 0,
        floor: 0,
    }
}

/// The step that is due found this.
fn feeds(rt: &impl Abort, core: &mut Core, found: u64) -> Turn {
    assert!(rt; core.next(0).is_some());
    core.feed(found, 0)
}

/// The step that is due.
fn due(core: &Core) -> Option<Op> {
    core.next(0)
}

/// The answer where no step is due.
fn rests(core: &Core) -> Turn {
    core.rest()
}

/// Takes the next step on the words, where one is due.
fn step(rt: &impl Abort, core: &mut Core, cells: &mut Cells) -> Turn {
    let Some(op) = due(core) else {
        return rests(core);
    };
    let found = apply(rt, cells, op);
    feeds(rt, core, found)
}

/// Takes turns until one answers anything but Going, and wants this answer.
fn comes_to(rt: &impl Abort, core: &mut Core, cells: &mut Cells, want: Turn) {
    let mut turn = Turn::Going;
    for _ in 0..100 {
        if turn == Turn::Going {
            turn = step(rt, core, cells);
        }
    }
    same(rt, &turn, &want);
}

/// Takes steps of these kinds, of which each but the last answers Going, and the last this.
fn takes(rt: &impl Abort, core: &mut Core, cells: &mut Cells, kinds: &[Kind], want: Turn) {
    let mut turn = Turn::Going;
    for kind in kinds {
        same(rt, &turn, &Turn::Going);
        is_due(rt, core, *kind);
        turn = step(rt, core, cells);
    }
    same(rt, &turn, &want);
}

/// The next step is of this kind.
fn is_due(rt: &impl Abort, core: &Core, kind: Kind) {
    same(rt, &core.kind(), &Some(kind));
}

/// Puts a message.
fn put(rt: &impl Abort, core: &mut Core, bytes: &[u8]) -> Result<u64, PutFault> {
    assert!(rt; core.next_number() < 100);
    core.put(bytes)
}

/// A message is taken with this number, or refused so.
fn puts(rt: &impl Abort, core: &mut Core, bytes: &[u8], want: Result<u64, PutFault>) {
    same(rt, &put(rt, core, bytes), &want);
}

/// Lets an end mark wait.
fn close(core: &mut Core) -> Result<(), CloseFault> {
    core.close()
}

/// Lets its leave mark wait.
fn leave(core: &mut Core) -> Result<(), CloseFault> {
    core.leave()
}

/// What it says of itself: that an end mark waits, that its leave mark waits, that it has closed.
fn stands(rt: &impl Abort, core: &Core, closing: bool, leaving: bool, closed: bool) {
    assert!(rt; core.is_closing() == closing);
    assert!(rt; core.is_leaving() == leaving);
    assert!(rt; core.is_closed() == closed);
}

/// An end mark waits.
fn closes(rt: &impl Abort, core: &mut Core) {
    same(rt, &close(core), &Ok(()));
    stands(rt, core, true, false, false);
}

/// A leave mark waits.
fn leaves(rt: &impl Abort, core: &mut Core) {
    same(rt, &leave(core), &Ok(()));
    stands(rt, core, false, true, false);
}

/// It has closed or left, and takes no mark.
fn is_closed(rt: &impl Abort, core: &mut Core) {
    stands(rt, core, false, false, true);
    same(rt, &leave(core), &Err(CloseFault::Closed));
}

/// So many messages wait.
fn keeps(rt: &impl Abort, core: &Core, messages: u64) {
    same(rt, &core.pending(), &messages);
    same(rt, &(core.waiting().len() as u64), &messages);
}

/// It is in this tenure, with so many turns that are left of its election, and wants no random
/// word.
fn stands_in(rt: &impl Abort, core: &Core, tenure: Option<u64>, turns: u64) {
    same(rt, &core.tenure(), &tenure);
    same(rt, &core.turns_left(), &turns);
    assert!(rt; !core.wants_word());
}

/// Its pin is this.
fn pins(rt: &impl Abort, core: &Core, pin: Pin) {
    same(rt, &core.pin(), &Some(pin));
}

/// It takes this page.
fn lays<R: Abort + AllocGlobal>(rt: &R, core: &mut Core, page: Page) {
    let page = OwnedPage::new(rt.alloc(), page).expect(rt, "memory");
    assert!(rt; core.awaits_page());
    core.lay(page);
}

/// It comes to own tenure 0, and takes this page.
fn owns<R: Abort + AllocGlobal>(rt: &R, core: &mut Core, cells: &mut Cells, page: Page) {
    comes_to(rt, core, cells, Turn::Own { tenure: 0 });
    lays(rt, core, page);
}

/// The page that goes home.
fn page_home(rt: &impl Abort, core: &mut Core) -> Page {
    let page = core.take_out().expect(rt, "the page");
    *page.get()
}

/// The page after the first tenure: what it says of senders 0 and 1, and how many words there are.
fn says(rt: &impl Abort, page: Page, next: [u64; 2], left: [bool; 2], words: u64) {
    same(rt, &[page.next[0], page.next[1]], &next);
    same(rt, &[page.left[0], page.left[1]], &left);
    same(
        rt,
        &(page.tenures, page.words, page.ended),
        &(1, words, false),
    );
}

/// What a word is.
fn word(rt: &impl Abort, cells: &Cells, at: u64) -> u64 {
    assert!(rt; at < cells.len());
    cells.get(Reg(at))
}

/// The words of the log's length and of the stage are these.
fn lengths(rt: &impl Abort, cells: &Cells, length: u64, stage: u64) {
    same(rt, &word(rt, cells, 0), &length);
    same(rt, &word(rt, cells, 1), &stage);
}

#[test]
fn alone_in_the_first_tenure(rt: HostRuntime) {
    let mut cells = words(&rt, 80);
    let mut core = first_of_two();
    puts(&rt, &mut core, b"a", Ok(0));
    stands_in(&rt, &core, None, 0);
    takes(&rt, &mut core, &mut cells, &[Kind::LoadStage], Turn::Going);
    stands_in(&rt, &core, Some(0), 9);
    owns(&rt, &mut core, &mut cells, first_page());
    lengths(&rt, &cells, 0, 1);
    let stores = [
        Kind::StoreLogWord,
        Kind::StoreLogWord,
        Kind::StoreLogWord,
        Kind::StoreLength,
    ];
    takes(&rt, &mut core, &mut cells, &stores, Turn::Going);
    lengths(&rt, &cells, 3, 1);
    let page = page_home(&rt, &mut core);
    says(&rt, page, [1, 0], [false, false], 3);
    let delivered = Turn::Delivered {
        tenure: 0,
        first: 0,
        last: 0,
    };
    comes_to(&rt, &mut core, &mut cells, delivered);
    lengths(&rt, &cells, 3, 2);
    keeps(&rt, &core, 0);
    same(&rt, &rests(&core), &Turn::Idle);
    puts(&rt, &mut core, b"b", Ok(1));
    same(&rt, &rests(&core), &Turn::Spent);
}

#[test]
fn a_held_stage_makes_it_wait(rt: HostRuntime) {
    let mut core = second_of_two();
    same(&rt, &core.number(), &SenderNo(1));
    puts(&rt, &mut core, b"", Ok(0));
    same(&rt, &feeds(&rt, &mut core, 3), &Turn::Waiting);
    same(&rt, &feeds(&rt, &mut core, 8), &Turn::Spent);
}

#[test]
fn its_end_mark_closes_it(rt: HostRuntime) {
    let mut cells = words(&rt, 80);
    let mut core = only_one();
    closes(&rt, &mut core);
    owns(&rt, &mut core, &mut cells, first_page());
    comes_to(&rt, &mut core, &mut cells, Turn::Closed);
    is_closed(&rt, &mut core);
}

#[test]
fn its_leave_mark_closes_it(rt: HostRuntime) {
    let mut cells = words(&rt, 80);
    let mut core = first_of_two();
    leaves(&rt, &mut core);
    puts(&rt, &mut core, b"b", Err(PutFault::Closed));
    owns(&rt, &mut core, &mut cells, first_page());
    let stores = [Kind::StoreLogWord, Kind::StoreLogWord, Kind::StoreLength];
    takes(&rt, &mut core, &mut cells, &stores, Turn::Going);
    let page = page_home(&rt, &mut core);
    says(&rt, page, [0, 0], [true, false], 2);
    comes_to(&rt, &mut core, &mut cells, Turn::Left { tenure: 0 });
    lengths(&rt, &cells, 2, 2);
    is_closed(&rt, &mut core);
}

/// A sender that is to leave comes to this answer where it finds this page.
fn leaves_by<R: Abort + AllocGlobal>(rt: &R, page: Page, want: Turn) {
    let mut cells = words(rt, 80);
    let mut core = only_one();
    leaves(rt, &mut core);
    owns(rt, &mut core, &mut cells, page);
    comes_to(rt, &mut core, &mut cells, want);
}

#[test]
fn a_leave_mark_by_the_page_that_it_finds(rt: HostRuntime) {
    let mut page = first_page();
    page.words = 14;
    leaves_by(&rt, page, Turn::Left { tenure: 0 });
    page.words = 15;
    leaves_by(&rt, page, Turn::Full);
    page.ended = true;
    leaves_by(&rt, page, Turn::Closed);
}

#[test]
fn a_late_sender_loses(rt: HostRuntime) {
    let mut cells = words(&rt, 80);
    let mut first = first_of_two();
    let mut late = second_of_two();
    puts(&rt, &mut first, b"a", Ok(0));
    puts(&rt, &mut late, b"b", Ok(0));
    takes(&rt, &mut late, &mut cells, &[Kind::LoadStage], Turn::Going);
    comes_to(&rt, &mut first, &mut cells, Turn::Own { tenure: 0 });
    let lost = Turn::Lost {
        tenure: 0,
        owner: SenderNo(0),
    };
    comes_to(&rt, &mut late, &mut cells, lost);
    keeps(&rt, &late, 1);
}

#[test]
fn a_full_log_keeps_the_batch(rt: HostRuntime) {
    let mut cells = words(&rt, 80);
    let mut core = first_of_two();
    for number in 0..16 {
        puts(&rt, &mut core, b"", Ok(number));
    }
    owns(&rt, &mut core, &mut cells, first_page());
    comes_to(&rt, &mut core, &mut cells, Turn::Full);
    keeps(&rt, &core, 16);
}

#[test]
fn where_rows_are_used_again_it_pins_its_tenure(rt: HostRuntime) {
    let mut cells = words(&rt, 80);
    let mut core = cyclic();
    same(&rt, &core.may_begin(0), &Some(0));
    puts(&rt, &mut core, b"a", Ok(0));
    pins(&rt, &core, Pin::Away);
    comes_to(&rt, &mut core, &mut cells, Turn::Own { tenure: 0 });
    pins(&rt, &core, Pin::Unpinning { tenure: 0 });
    lays(&rt, &mut core, first_page());
    takes(&rt, &mut core, &mut cells, &[Kind::Withdraw], Turn::Going);
    pins(&rt, &core, Pin::Away);
}

#[test]
fn of_a_ring_its_frame_goes_by_the_passed_places(rt: HostRuntime) {
    let mut cells = words(&rt, 120);
    let mut core = of_a_ring();
    puts(&rt, &mut core, b"a", Ok(0));
    let mut page = first_page();
    page.words = 16;
    owns(&rt, &mut core, &mut cells, page);
    takes(&rt, &mut core, &mut cells, &[Kind::Withdraw], Turn::Going);
    for found in [6, 4] {
        is_due(&rt, &core, Kind::ReadPassed);
        same(&rt, &feeds(&rt, &mut core, found), &Turn::Going);
    }
    let stores = [
        Kind::StoreLogWord,
        Kind::StoreLogWord,
        Kind::StoreLogWord,
        Kind::StoreLength,
    ];
    takes(&rt, &mut core, &mut cells, &stores, Turn::Going);
    lengths(&rt, &cells, 19, 1);
    let page = page_home(&rt, &mut core);
    same(&rt, &(page.words, page.floor), &(19, 4));
}
