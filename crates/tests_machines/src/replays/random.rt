//! Random scripts of all shapes, whose closing lines a plain checker looks at: it knows what was
//! put and nothing of buses.

use crate::dice::Dice;
use crate::games::Game;
use bus_adoptcommit::ThreeWord;
use bus_deliverylog::RecvTurn;
use bus_register::limits::MOST_RECEIVERS;
use bus_replay::answer_to;
use bus_script::{Lines, Outcome, Words, number_of};
use bus_tenure::Turn;
use bus_world::{Answer, Event, Shape};
use std::process::Abort;

/// What was put: for each sender the numbers that its messages carry, in 16 digits, and whether it
/// has asked to leave.
#[derive(Drop)]
struct Sheet {
    puts: [[u64; 64]; 8],
    many: [usize; 8],
    leaves: [bool; 8],
}

/// So many receivers: 1 to 8, and at one time in eight up to as many as there can be.
fn receivers(dice: &mut Dice) -> u64 {
    let most = if dice.below(8) == 0 {
        MOST_RECEIVERS
    } else {
        8
    };
    dice.below(most).wrapping_add(1)
}

/// A shape of few tenures and a log that may fill up.
fn shape(dice: &mut Dice) -> Shape {
    Shape {
        senders: dice.below(8).wrapping_add(1),
        receivers: receivers(dice),
        rounds: dice.below(8).wrapping_add(1),
        rows: dice.below(12).wrapping_add(1),
        log_words: dice.below(200).wrapping_add(16),
        batch: 16,
    }
}

/// The first line of a script.
fn first_line<R: Abort + AllocGlobal>(rt: &R, shape: Shape) -> String {
    let Shape {
        senders,
        receivers,
        rounds,
        rows,
        log_words,
        ..
    } = shape;
    let line = format!(in rt.alloc(); "shape {senders} {receivers} {rounds} {rows} {log_words}\n");
    line.expect(rt, "memory")
}

/// A script that is being written, and the bus that has taken its lines.
#[derive(Drop)]
struct Draft {
    shape: Shape,
    game: Game,
    sheet: Sheet,
    script: String,
}

impl Draft {
    fn new<R: Abort + AllocGlobal>(rt: &R, shape: Shape) -> Draft {
        Draft {
            shape,
            game: Game::new(rt, shape),
            sheet: Sheet {
                puts: [[0; 64]; 8],
                many: [0; 8],
                leaves: [false; 8],
            },
            script: first_line(rt, shape),
        }
    }

    /// Notes what was put. Says whether there was room.
    fn note(&mut self, sender: u64, number: u64) -> bool {
        let at = (sender % 8) as usize;
        let many = self.sheet.many[at];
        if many >= 64 {
            return false;
        }
        self.sheet.puts[at][many] = number;
        self.sheet.many[at] = many.wrapping_add(1);
        true
    }

    /// A message of this number, where the bus takes it.
    fn put<R: Abort + AllocGlobal>(&mut self, rt: &R, sender: u64, number: u64) {
        let mut bytes = Vec::new(rt.alloc());
        bytes
            .extend_from_slice(&number.to_be_bytes())
            .expect(rt, "memory");
        let put = self.game.step(&Event::Put { sender, bytes });
        if put.is_ok() && self.note(sender, number) {
            writeln!(self.script, "put {sender} {number:016x}").expect(rt, "memory");
        }
    }

    /// A close, where the bus takes it.
    fn close(&mut self, rt: &impl Abort, sender: u64) {
        if self.game.step(&Event::Close(sender)).is_ok() {
            writeln!(self.script, "close {sender}").expect(rt, "memory");
        }
    }

    /// A leave, where the bus takes it.
    fn leave(&mut self, rt: &impl Abort, sender: u64) {
        if self.game.step(&Event::Leave(sender)).is_ok() {
            self.sheet.leaves[(sender % 8) as usize] = true;
            writeln!(self.script, "leave {sender}").expect(rt, "memory");
        }
    }

    /// Turns of a sender, up to the first that is not going.
    fn turn(&mut self, rt: &impl Abort, sender: u64, word: u32, times: u64) {
        writeln!(self.script, "turn {sender} {word} {times}").expect(rt, "memory");
        for _ in 0..times {
            match self.game.step(&Event::Turn { sender, word }) {
                Ok(Answer::Turn(Turn::Going)) => {}
                _ => return,
            }
        }
    }

    /// Turns of a receiver, up to one that finds nothing or the end.
    fn recv(&mut self, rt: &impl Abort, receiver: u64, times: u64) {
        writeln!(self.script, "recv {receiver} {times}").expect(rt, "memory");
        for _ in 0..times {
            match self.game.step(&Event::Recv(receiver)) {
                Ok(Answer::Recv(RecvTurn::Empty | RecvTurn::End)) => return,
                _ => {}
            }
        }
    }

    /// The line of a random event, where the bus takes it.
    fn push_line<R: Abort + AllocGlobal>(&mut self, rt: &R, dice: &mut Dice) {
        let sender = dice.below(self.shape.senders);
        let choice = dice.below(100);
        if choice < 25 {
            self.put(rt, sender, dice.below(0x4000_0000));
        } else if choice < 26 {
            self.close(rt, sender);
        } else if choice < 29 {
            self.leave(rt, sender);
        } else if choice < 85 {
            let times = dice.below(40).wrapping_mul(dice.below(3)).wrapping_add(1);
            let word = (dice.below(0x10_0000) % 0x10_0000) as u32;
            self.turn(rt, sender, word, times);
        } else {
            let receiver = dice.below(self.shape.receivers);
            let times = dice.below(30).wrapping_add(1);
            self.recv(rt, receiver, times);
        }
    }
}

/// What the closing lines have said so far.
#[derive(Drop)]
struct Said {
    owners: u64,
    items: u64,
    of: [usize; 8],
    left: [bool; 8],
    ended: bool,
    receivers: u64,
    given: u64,
}

/// The next word of a line.
fn next<'s>(rt: &impl Abort, words: &mut Words<'s>) -> &'s [u8] {
    words.next_word().expect(rt, "a word more")
}

/// The next number of a line.
fn next_number(rt: &impl Abort, words: &mut Words<'_>) -> u64 {
    number_of(next(rt, words)).expect(rt, "a number")
}

/// The owners of tenures, of which each has one at most.
fn check_owners(rt: &impl Abort, words: &mut Words<'_>, shape: Shape, said: &mut Said) {
    for _ in 0..300 {
        let Some(word) = words.next_word() else {
            break;
        };
        assert!(rt; number_of(word).expect(rt, "an owner") < shape.senders);
        said.owners = said.owners.wrapping_add(1);
    }
    assert!(rt; said.owners <= shape.rows, "one owner for each tenure");
}

/// What was put as the message of this number of a sender, which is below 8.
fn put_of<R: Abort + AllocGlobal>(rt: &R, sheet: &Sheet, sender: usize, number: usize) -> String {
    assert!(rt; sender < 8 && number < 64);
    assert!(rt; number < sheet.many[sender], "it was put");
    format!(in rt.alloc(); "{:016x}", sheet.puts[sender][number]).expect(rt, "memory")
}

/// An item of the order: the next of its sender, with the number that was put.
fn check_item<R: Abort + AllocGlobal>(
    rt: &R,
    words: &mut Words<'_>,
    sheet: &Sheet,
    said: &mut Said,
) {
    assert!(rt; !said.ended, "nothing follows the end");
    let sender = next_number(rt, words);
    let number = next_number(rt, words);
    assert!(rt; sender < 8, "a sender");
    let at = sender as usize;
    assert!(rt;
        !said.left[at],
        "nothing of a sender follows its leave mark"
    );
    assert!(rt; number == said.of[at] as u64, "none skipped, none repeated");
    let put = put_of(rt, sheet, at, said.of[at]);
    assert!(rt; next(rt, words) == put.as_bytes(), "as it was put");
    said.of[at] = said.of[at].wrapping_add(1);
    said.items = said.items.wrapping_add(1);
}

/// A sender that has left: once, after it had asked to, and behind all that it had put.
fn check_leave(rt: &impl Abort, words: &mut Words<'_>, sheet: &Sheet, said: &mut Said) {
    assert!(rt; next(rt, words) == b"leave".as_slice());
    assert!(rt; !said.ended, "nothing follows the end");
    let sender = next_number(rt, words);
    assert!(rt; words.next_word().is_none());
    assert!(rt; sender < 8, "a sender");
    let at = sender as usize;
    assert!(rt; sheet.leaves[at], "it had asked to leave");
    assert!(rt; !said.left[at], "it leaves once");
    assert!(rt;
        said.of[at] == sheet.many[at],
        "all that it had put stands before"
    );
    said.left[at] = true;
}

/// What a receiver was given: no more than the order has, and the end only after all.
fn check_given(rt: &impl Abort, words: &mut Words<'_>, said: &mut Said) {
    assert!(rt; next_number(rt, words) == said.receivers);
    let count = next_number(rt, words);
    assert!(rt; count <= said.items, "a prefix of the order");
    if words.next_word().is_some() {
        assert!(rt; said.ended && count == said.items, "the end comes last");
    }
    said.receivers = said.receivers.wrapping_add(1);
    said.given = said.given.wrapping_add(count);
}

/// How many of these are so.
fn count(all: &[bool; 8]) -> u64 {
    let mut many: u64 = 0;
    for one in all.iter() {
        many = many.wrapping_add(u64::from(*one));
    }
    many
}

/// A closing line.
fn check_line<R: Abort + AllocGlobal>(
    rt: &R,
    line: &[u8],
    shape: Shape,
    sheet: &Sheet,
    said: &mut Said,
) {
    let mut words = Words::new(line);
    let first = next(rt, &mut words);
    if first == b"owners".as_slice() {
        check_owners(rt, &mut words, shape, said);
    } else if line == b"order end".as_slice() {
        said.ended = true;
    } else if line.starts_with(b"order leave".as_slice()) {
        check_leave(rt, &mut words, sheet, said);
    } else if first == b"order".as_slice() {
        check_item(rt, &mut words, sheet, said);
    } else if first == b"given".as_slice() {
        check_given(rt, &mut words, said);
    }
}

/// Looks at each closing line.
fn check<R: Abort + AllocGlobal>(rt: &R, shape: Shape, sheet: &Sheet, text: &[u8]) -> Said {
    let mut said = Said {
        owners: 0,
        items: 0,
        of: [0; 8],
        left: [false; 8],
        ended: false,
        receivers: 0,
        given: 0,
    };
    let mut lines = Lines::new(text);
    for _ in 0..2000 {
        let Some(line) = lines.next_line() else {
            break;
        };
        check_line(rt, line.bytes, shape, sheet, &mut said);
    }
    assert!(rt;
        said.receivers == shape.receivers,
        "a line for each receiver"
    );
    said
}

/// Writes and replays a random script, and gives what its closing lines say.
fn plays<R: Abort + AllocGlobal>(rt: &R, dice: &mut Dice) -> Said {
    let mut draft = Draft::new(rt, shape(dice));
    for _ in 0..100 {
        draft.push_line(rt, dice);
    }
    let script = draft.script.as_bytes();
    let answer = answer_to::<ThreeWord>(rt.alloc(), script).expect(rt, "memory");
    assert!(rt; answer.outcome == Outcome::Done, "of {}", draft.script);
    check(rt, draft.shape, &draft.sheet, answer.text.as_bytes())
}

#[test]
fn random_scripts(rt: HostRuntime) {
    let mut dice = Dice { state: 1 };
    let mut items: u64 = 0;
    let mut given: u64 = 0;
    let mut left: u64 = 0;
    for _ in 0..500 {
        let said = plays(&rt, &mut dice);
        items = items.wrapping_add(said.items);
        given = given.wrapping_add(said.given);
        left = left.wrapping_add(count(&said.left));
    }
    assert!(rt; items > 1000, "the scripts are long enough: {items} items");
    assert!(rt;
        given > 1000,
        "receivers are given something: {given} items"
    );
    assert!(rt; left > 100, "some leave: {left} leave marks");
}
