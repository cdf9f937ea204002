//! Games: a machine, and the calls that tests make of it. Each stands in a small method without
//! clauses, so a test is a list of names and carries no contract.

use bus_adoptcommit::ThreeWord;
use bus_batch::PutFault;
use bus_deliverylog::{Order, RecvTurn};
use bus_machine::World;
use bus_register::SenderNo;
use bus_tenure::{Page, Turn};
use bus_world::{Answer, Event, PlayFault, Shape, StepFault};
use std::fmt::Debug;
use std::process::Abort;

/// A bus of one round for each bit, whose batches have at most 16 messages.
pub fn shape(senders: u64, receivers: u64, rows: u64, log_words: u64) -> Shape {
    Shape {
        senders,
        receivers,
        rounds: 1,
        rows,
        log_words,
        batch: 16,
    }
}

/// Wants that both are the same. Here `assert_eq!` is proved once, and not wherever two values are
/// compared: a test calls this.
pub fn same<T: PartialEq + Debug>(rt: &impl Abort, got: &T, want: &T) {
    assert_eq!(rt; *got, *want);
}

/// The message with this number was sent in this tenure.
pub fn delivered(tenure: u64, number: u64) -> Turn {
    Turn::Delivered {
        tenure,
        first: number,
        last: number,
    }
}

/// Wants that a page says this: of senders 0 and 1 their next numbers and whether they have left,
/// of the order whether it has ended, its tenures and its words.
pub fn says(
    rt: &impl Abort,
    page: &Page,
    next: [u64; 2],
    left: [bool; 2],
    order: (bool, u64, u64),
) {
    same(rt, &[page.next[0], page.next[1]], &next);
    same(rt, &[page.left[0], page.left[1]], &left);
    same(rt, &(page.ended, page.tenures, page.words), &order);
}

/// A machine.
#[derive(Drop)]
pub struct Game {
    world: World<ThreeWord>,
}

impl Game {
    /// A bus with a row of words for each tenure.
    pub fn new<R: Abort + AllocGlobal>(rt: &R, shape: Shape) -> Game {
        let Ok(world) = World::new(rt.alloc(), shape) else {
            panic!(rt; "a bus of this shape");
        };
        Game { world }
    }

    /// A bus whose rows are used again.
    pub fn again<R: Abort + AllocGlobal>(rt: &R, shape: Shape) -> Game {
        let Ok(world) = World::cyclic(rt.alloc(), shape, None) else {
            panic!(rt; "a bus of this shape");
        };
        Game { world }
    }

    /// A bus whose rows are used again and whose log is.
    pub fn ring<R: Abort + AllocGlobal>(rt: &R, shape: Shape) -> Game {
        let Ok(world) = World::ring(rt.alloc(), shape, None) else {
            panic!(rt; "a ring of this shape");
        };
        Game { world }
    }

    /// The sitting after this page, with a row of words for each tenure.
    pub fn after<R: Abort + AllocGlobal>(rt: &R, shape: Shape, page: &Page) -> Game {
        let Ok(world) = World::after(rt.alloc(), shape, page) else {
            panic!(rt; "the next sitting");
        };
        Game { world }
    }

    /// What happens next, and its answer.
    pub fn step(&mut self, event: &Event) -> Result<Answer, StepFault> {
        self.world.step(event)
    }

    /// Wants that events are played so.
    pub fn plays(&mut self, rt: &impl Abort, events: &[Event], want: Result<(), PlayFault>) {
        same(rt, &self.world.play(events), &want);
    }

    /// Puts a message into the batch of a sender.
    pub fn put(&mut self, sender: SenderNo, bytes: &[u8]) -> Result<u64, StepFault> {
        self.world.put(sender, bytes)
    }

    /// Wants that a put is answered so.
    pub fn puts(
        &mut self,
        rt: &impl Abort,
        sender: u8,
        bytes: &[u8],
        want: Result<u64, StepFault>,
    ) {
        same(rt, &self.put(SenderNo(sender), bytes), &want);
    }

    /// Wants that messages like this one are taken, with the numbers from 0 on, so many, and then
    /// no more.
    pub fn fills(&mut self, rt: &impl Abort, bytes: &[u8], many: u64) {
        for number in 0..many {
            self.puts(rt, 0, bytes, Ok(number));
        }
        self.puts(rt, 0, bytes, Err(StepFault::Put(PutFault::BatchFull)));
    }

    /// Wants that a close is answered so.
    pub fn closes(&mut self, rt: &impl Abort, sender: u8, want: Result<(), StepFault>) {
        same(rt, &self.world.close(SenderNo(sender)), &want);
    }

    /// Wants that a leave is answered so.
    pub fn leaves(&mut self, rt: &impl Abort, sender: u8, want: Result<(), StepFault>) {
        same(rt, &self.world.leave(SenderNo(sender)), &want);
    }

    /// Wants that a stop is answered so.
    pub fn stops(&mut self, rt: &impl Abort, sender: u8, want: Result<(), StepFault>) {
        same(rt, &self.world.stop(SenderNo(sender)), &want);
    }

    /// Wants that a receiver's leave is answered so.
    pub fn lets_go(&mut self, rt: &impl Abort, receiver: u64, want: Result<(), StepFault>) {
        same(rt, &self.world.gone(receiver), &want);
    }

    /// Wants that a fork to this number is answered so.
    pub fn forks(
        &mut self,
        rt: &impl Abort,
        receiver: u64,
        number: u64,
        want: Result<bool, StepFault>,
    ) {
        same(rt, &self.world.fork(receiver, number), &want);
    }

    /// One turn of a sender.
    pub fn turn(&mut self, rt: &impl Abort, sender: u64, word: u32) -> Turn {
        match self.step(&Event::Turn { sender, word }) {
            Ok(Answer::Turn(turn)) => turn,
            _ => panic!(rt; "a turn answers a turn"),
        }
    }

    /// The last of so many turns of a sender at most, of which all but the last are going.
    pub fn turns(&mut self, rt: &impl Abort, sender: u64, most: u64) -> Turn {
        for _ in 0..most {
            let turn = self.turn(rt, sender, 0);
            if !matches!(turn, Turn::Going) {
                return turn;
            }
        }
        Turn::Going
    }

    /// Wants that the last of so many turns of a sender at most is answered so.
    pub fn goes(&mut self, rt: &impl Abort, sender: u64, most: u64, want: Turn) {
        same(rt, &self.turns(rt, sender, most), &want);
    }

    /// Wants that the last of at most 99 turns of a sender is answered so.
    pub fn comes_to(&mut self, rt: &impl Abort, sender: u64, want: Turn) {
        self.goes(rt, sender, 99, want);
    }

    /// Wants that a sender owns this tenure, and sends the message with this number in it.
    pub fn sends(&mut self, rt: &impl Abort, sender: u64, tenure: u64, number: u64) {
        self.comes_to(rt, sender, Turn::Own { tenure });
        self.comes_to(rt, sender, delivered(tenure, number));
    }

    /// Whether no step is left for a sender.
    pub fn rests(&self, rt: &impl Abort, sender: u8) -> bool {
        let core = self.world.sender(SenderNo(sender));
        core.expect(rt, "a sender").kind().is_none()
    }

    /// One turn of a receiver.
    pub fn recv_of(&mut self, rt: &impl Abort, receiver: u64) -> RecvTurn {
        match self.step(&Event::Recv(receiver)) {
            Ok(Answer::Recv(turn)) => turn,
            _ => panic!(rt; "a receiver answers"),
        }
    }

    /// One turn of receiver 0.
    pub fn recv(&mut self, rt: &impl Abort) -> RecvTurn {
        self.recv_of(rt, 0)
    }

    /// The last of so many turns of a receiver at most, up to one that finds nothing or the end.
    pub fn listens(&mut self, rt: &impl Abort, receiver: u64, most: u64) -> RecvTurn {
        let mut last = RecvTurn::Going;
        for _ in 0..most {
            last = self.recv_of(rt, receiver);
            if matches!(last, RecvTurn::Empty | RecvTurn::End) {
                return last;
            }
        }
        last
    }

    /// Wants that a receiver has heard all that there is.
    pub fn hears_all(&mut self, rt: &impl Abort, receiver: u64) {
        same(rt, &self.listens(rt, receiver, 99), &RecvTurn::Empty);
    }

    /// Wants that a turn of receiver 0 is answered so.
    pub fn hears(&mut self, rt: &impl Abort, want: RecvTurn) {
        same(rt, &self.recv(rt), &want);
    }

    /// Whether a sender has the page.
    pub fn is_out(&self) -> bool {
        self.world.page().is_none()
    }

    /// The page, which is at home.
    pub fn page(&self, rt: &impl Abort) -> Page {
        *self.world.page().expect(rt, "the page is at home")
    }

    /// Wants that the page is at home and `says` this.
    pub fn has_page(
        &self,
        rt: &impl Abort,
        next: [u64; 2],
        left: [bool; 2],
        order: (bool, u64, u64),
    ) {
        says(rt, &self.page(rt), next, left, order);
    }

    /// Wants that these are the words of the log.
    pub fn has_log<R: Abort + AllocGlobal>(&self, rt: &R, words: &[u64]) {
        let log = self.world.log(rt.alloc()).expect(rt, "memory");
        same(rt, &log.as_slice(), &words);
    }

    /// Wants that these took the pages.
    pub fn has_owners(&self, rt: &impl Abort, owners: &[SenderNo]) {
        same(rt, &self.world.owners(), &owners);
    }

    /// The order.
    pub fn order<R: Abort + AllocGlobal>(&self, rt: &R) -> Order {
        self.world.order(rt.alloc()).expect(rt, "memory")
    }

    /// What receiver 0 was given.
    pub fn given<R: Abort + AllocGlobal>(&self, rt: &R) -> Order {
        assert!(rt; self.world.receivers() > 0);
        self.world.given(rt.alloc(), 0).expect(rt, "memory")
    }

    /// The machine.
    pub fn world(&self) -> &World<ThreeWord> {
        &self.world
    }
}
