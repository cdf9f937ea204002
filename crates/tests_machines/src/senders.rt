//! Worked turns of a sender whose rows are used again.

ghost use Rattle.std.specs.Prelude.{◌<◌};

use crate::games::{delivered, same, says};
use bus_adoptcommit::ThreeWord;
use bus_batch::{CloseFault, PutFault};
use bus_core::SenderCore;
use bus_presence::Pin;
use bus_register::limits::MOST_SENDERS;
use bus_register::{Cells, Kind, Op, Reg, SenderNo};
use bus_tenure::{OwnedPage, Page, Turn};
use std::process::Abort;

/// The words of a bus of two senders, one round, two rows and 16 log words: the length, the stage,
/// two presences, two rows of six words and the log.
const WORDS: u64 = 32;

/// Sender `me` of two, over two rows.
fn made(me: u8) -> SenderCore<ThreeWord>
    requires { me < 2 }
{
    SenderCore::cyclic(2, SenderNo(me), 1, 2, 16, 0, 0, 16)
}

/// The page of a bus that has had no tenure.
fn first_page() -> Page {
    Page {
        next: [0; MOST_SENDERS],
        left: [false; MOST_SENDERS],
        ended: false,
        tenures: 0,
        words: 0,
        floor: 0,
    }
}

/// Takes one turn, at most one step, with which the page comes and goes.
fn turn(
    rt: &impl Abort,
    sender: &mut SenderCore<ThreeWord>,
    cells: &mut Cells,
    page: &mut Option<OwnedPage>,
) -> Turn {
    if let Some(given) = sender.take_out() {
        *page = Some(given);
    }
    let Some(op) = sender.next(0) else {
        return sender.rest();
    };
    let place = match op {
        Op::Load(at) | Op::Store(at, _) | Op::Add(at, _) | Op::Cas(at, _, _) => at.0,
    };
    assert!(rt; place < cells.len());
    if let Op::Add(at, value) = op {
        assert!(rt; value <= u64::MAX - cells.get(at));
    }
    let got = cells.apply(op);
    let answer = sender.feed(got, 0);
    if sender.awaits_page() {
        sender.lay(page.take().expect(rt, "the page is at home"));
    }
    answer
}

/// Two senders, their words and their page. Each method makes one call and has no clauses, so that
/// a test has no contract to carry.
#[derive(Drop)]
struct Pair {
    senders: [SenderCore<ThreeWord>; 2],
    cells: Cells,
    page: Option<OwnedPage>,
}

impl Pair {
    fn new<R: Abort + AllocGlobal>(rt: &R) -> Pair {
        Pair {
            senders: [made(0), made(1)],
            cells: Cells::new(rt.alloc(), WORDS).expect(rt, "memory"),
            page: Some(OwnedPage::new(rt.alloc(), first_page()).expect(rt, "memory")),
        }
    }

    /// The sender of this number, 0 or 1.
    fn sender(&mut self, rt: &impl Abort, me: usize) -> &mut SenderCore<ThreeWord> {
        assert!(rt; me < 2);
        &mut self.senders[me]
    }

    /// Wants that the message is taken.
    fn puts(&mut self, rt: &impl Abort, me: usize, bytes: &[u8]) {
        puts(rt, self.sender(rt, me), bytes);
    }

    /// Wants that a leave is answered so.
    fn leaves(&mut self, rt: &impl Abort, me: usize, want: Result<(), CloseFault>) {
        same(rt, &self.sender(rt, me).leave(), &want);
    }

    /// Takes one turn.
    fn turn(&mut self, rt: &impl Abort, me: usize) -> Turn {
        assert!(rt; me < 2);
        turn(rt, &mut self.senders[me], &mut self.cells, &mut self.page)
    }

    /// Wants that the next turn answers this.
    fn answers(&mut self, rt: &impl Abort, me: usize, want: Turn) {
        same(rt, &self.turn(rt, me), &want);
    }

    /// Wants so many turns that answer Going.
    fn goes_on(&mut self, rt: &impl Abort, me: usize, turns: u64) {
        for _ in 0..turns {
            self.answers(rt, me, Turn::Going);
        }
    }

    /// The first of at most 100 turns that does not answer Going.
    fn turns(&mut self, rt: &impl Abort, me: usize) -> Turn {
        for _ in 0..100 {
            let answer = self.turn(rt, me);
            if !matches!(answer, Turn::Going) {
                return answer;
            }
        }
        Turn::Going
    }

    /// Wants that the first turn that does not answer Going answers this.
    fn comes_to(&mut self, rt: &impl Abort, me: usize, want: Turn) {
        same(rt, &self.turns(rt, me), &want);
    }

    /// Wants that a sender owns this tenure, and sends the message with this number in it.
    fn sends(&mut self, rt: &impl Abort, me: usize, tenure: u64, number: u64) {
        self.comes_to(rt, me, Turn::Own { tenure });
        self.comes_to(rt, me, delivered(tenure, number));
    }

    /// Wants that the next step of a sender is of this kind.
    fn is_at(&mut self, rt: &impl Abort, me: usize, want: Option<Kind>) {
        same(rt, &self.sender(rt, me).kind(), &want);
    }

    /// Wants that a sender's presence shows this pin.
    fn pins(&mut self, rt: &impl Abort, me: usize, want: Option<Pin>) {
        same(rt, &self.sender(rt, me).pin(), &want);
    }

    /// Wants that a sender has begun this tenure.
    fn is_in(&mut self, rt: &impl Abort, me: usize, want: Option<u64>) {
        same(rt, &self.sender(rt, me).tenure(), &want);
    }

    /// Wants that a sender that takes no step answers so.
    fn rests(&mut self, rt: &impl Abort, me: usize, want: Turn) {
        same(rt, &self.sender(rt, me).rest(), &want);
    }

    /// What stands in a word.
    fn word(&self, rt: &impl Abort, at: u64) -> u64 {
        assert!(rt; at < self.cells.len());
        self.cells.get(Reg(at))
    }

    /// Wants that a word is this.
    fn holds(&self, rt: &impl Abort, at: u64, value: u64) {
        same(rt, &self.word(rt, at), &value);
    }

    /// The page, which is at home.
    fn page(&self, rt: &impl Abort) -> Page {
        *self.page.as_ref().expect(rt, "the page is at home").get()
    }
}

/// Wants that the message is taken.
fn puts(rt: &impl Abort, sender: &mut SenderCore<ThreeWord>, bytes: &[u8]) {
    assert!(rt; sender.next_number() < 10);
    assert!(rt; sender.put(bytes).is_ok());
}

/// Between turns in a tenure it takes neither a message nor a mark.
fn takes_nothing(rt: &impl Abort, sender: &mut SenderCore<ThreeWord>) {
    assert!(rt; sender.next_number() < 10);
    same(rt, &sender.put(b"b"), &Err(PutFault::Busy));
    assert!(rt; sender.close().is_err());
}

/// It is open, and its election has not begun.
fn is_open(rt: &impl Abort, sender: &SenderCore<ThreeWord>) {
    assert!(rt; !sender.is_closing());
    assert!(rt; !sender.is_closed());
    same(rt, &sender.turns_left(), &0);
}

/// Its election begins, with no vote.
fn begins(rt: &impl Abort, sender: &SenderCore<ThreeWord>) {
    same(rt, &sender.turns_left(), &9);
    assert!(rt; !sender.wants_word());
}

/// A sender that is alone enters the first tenure, step by step.
fn enters(rt: &impl Abort, pair: &mut Pair) {
    pair.is_at(rt, 0, Some(Kind::LoadStage));
    pair.goes_on(rt, 0, 1);
    pair.is_at(rt, 0, Some(Kind::Enter));
    pair.is_in(rt, 0, Some(0));
    is_open(rt, pair.sender(rt, 0));
    takes_nothing(rt, pair.sender(rt, 0));
    pair.goes_on(rt, 0, 1);
    pair.holds(rt, 2, 1);
    pair.is_at(rt, 0, Some(Kind::LoadStageAgain));
    pair.goes_on(rt, 0, 1);
    pair.pins(rt, 0, Some(Pin::Pinned { tenure: 0 }));
    begins(rt, pair.sender(rt, 0));
}

/// It takes the page, clears its presence, and gives the page back: the first rows are all new.
fn owns(rt: &impl Abort, pair: &mut Pair) {
    pair.comes_to(rt, 0, Turn::Own { tenure: 0 });
    pair.is_at(rt, 0, Some(Kind::Withdraw));
    pair.goes_on(rt, 0, 1);
    pair.holds(rt, 2, 0);
    pair.comes_to(rt, 0, delivered(0, 0));
    assert!(rt; pair.word(rt, 4) != 0);
}

/// In the second tenure it makes the first row ready for the third.
fn reclaims(rt: &impl Abort, pair: &mut Pair) {
    pair.comes_to(rt, 0, Turn::Own { tenure: 1 });
    pair.goes_on(rt, 0, 5);
    pair.is_at(rt, 0, Some(Kind::ReadPresence));
    pair.goes_on(rt, 0, 2);
    pair.is_at(rt, 0, Some(Kind::ClearRow));
    pair.comes_to(rt, 0, delivered(1, 1));
    for place in 4..10 {
        pair.holds(rt, place, 0);
    }
    pair.holds(rt, 1, 4);
}

/// It has its number, and one message waits.
fn has_one(rt: &impl Abort, sender: &SenderCore<ThreeWord>) {
    same(rt, &sender.number().0, &0);
    same(rt, &sender.pending(), &1);
}

#[test]
fn alone_in_two_tenures(rt: HostRuntime) {
    let mut pair = Pair::new(&rt);
    pair.rests(&rt, 0, Turn::Idle);
    pair.puts(&rt, 0, b"a");
    has_one(&rt, pair.sender(&rt, 0));
    enters(&rt, &mut pair);
    owns(&rt, &mut pair);
    pair.puts(&rt, 0, b"b");
    reclaims(&rt, &mut pair);
    same(&rt, &pair.page(&rt).tenures, &2);
}

#[test]
fn late_sender_withdraws(rt: HostRuntime) {
    let mut pair = Pair::new(&rt);
    pair.puts(&rt, 0, b"a");
    pair.puts(&rt, 1, b"b");
    pair.goes_on(&rt, 1, 1);
    pair.sends(&rt, 0, 0, 0);
    pair.goes_on(&rt, 1, 2);
    pair.pins(&rt, 1, Some(Pin::Invalidated { tenure: 0 }));
    pair.answers(&rt, 1, Turn::Waiting);
    pair.is_in(&rt, 1, None);
    pair.holds(&rt, 3, 0);
    pair.comes_to(&rt, 1, Turn::Own { tenure: 1 });
}

#[test]
fn holder_waits_for_who_is_inside(rt: HostRuntime) {
    let mut pair = Pair::new(&rt);
    pair.puts(&rt, 0, b"a");
    pair.puts(&rt, 1, b"b");
    pair.goes_on(&rt, 1, 3);
    pair.sends(&rt, 0, 0, 0);
    pair.puts(&rt, 0, b"c");
    pair.comes_to(&rt, 0, Turn::Own { tenure: 1 });
    let behind = Turn::Behind {
        tenure: 0,
        sender: SenderNo(1),
    };
    pair.comes_to(&rt, 0, behind);
    pair.answers(&rt, 0, behind);
    let lost = Turn::Lost {
        tenure: 0,
        owner: SenderNo(0),
    };
    pair.comes_to(&rt, 1, lost);
    pair.comes_to(&rt, 0, delivered(1, 1));
}

/// It is to leave, and takes a first step for that.
fn is_to_leave(rt: &impl Abort, sender: &SenderCore<ThreeWord>) {
    assert!(rt; sender.is_leaving());
    same(rt, &sender.kind(), &Some(Kind::LoadStage));
}

/// It has left, and takes no step any more.
fn has_left(rt: &impl Abort, sender: &SenderCore<ThreeWord>) {
    assert!(rt; sender.is_closed() && !sender.is_leaving());
    same(rt, &sender.kind(), &None);
    same(rt, &sender.rest(), &Turn::Closed);
}

#[test]
fn leaves_for_good(rt: HostRuntime) {
    let mut pair = Pair::new(&rt);
    pair.leaves(&rt, 1, Ok(()));
    is_to_leave(&rt, pair.sender(&rt, 1));
    pair.goes_on(&rt, 1, 2);
    same(&rt, &pair.sender(&rt, 1).close(), &Err(CloseFault::Closed));
    pair.comes_to(&rt, 1, Turn::Own { tenure: 0 });
    pair.goes_on(&rt, 1, 1);
    pair.holds(&rt, 3, 0);
    pair.comes_to(&rt, 1, Turn::Left { tenure: 0 });
    pair.holds(&rt, 0, 2);
    pair.holds(&rt, 17, 0xC000_0000_0000_0001);
    has_left(&rt, pair.sender(&rt, 1));
    says(&rt, &pair.page(&rt), [0, 0], [false, true], (false, 1, 2));
}

/// One that pins a tenure takes no leave, as it takes no close.
#[test]
fn pinned_it_takes_no_leave(rt: HostRuntime) {
    let mut pair = Pair::new(&rt);
    pair.puts(&rt, 0, b"a");
    pair.leaves(&rt, 0, Err(CloseFault::Pending));
    pair.goes_on(&rt, 0, 2);
    pair.leaves(&rt, 0, Err(CloseFault::Busy));
    pair.sends(&rt, 0, 0, 0);
    pair.leaves(&rt, 0, Ok(()));
    assert!(rt; pair.sender(&rt, 0).waiting().is_empty());
}

#[test]
fn tenures_come_to_an_end(rt: HostRuntime) {
    let mut last = made(1);
    puts(&rt, &mut last, b"");
    assert!(rt; last.next(0).is_some());
    same(&rt, &last.feed(1 << 41, 0), &Turn::Spent);
    same(&rt, &last.rest(), &Turn::Spent);
}
