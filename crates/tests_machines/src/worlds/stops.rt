//! Senders that stop.

use crate::dice::Dice;
use crate::games::{Game, delivered, same, shape};
use bus_deliverylog::{LogRead, RecvTurn, read_log};
use bus_register::SenderNo;
use bus_tenure::Turn;
use bus_world::{Answer, Event};
use std::process::Abort;

/// More turns than three senders have.
const MOST_TURNS: u32 = 3_000;

/// A bus of two senders with a message each, of which sender 0 has stopped after so many steps.
fn stopped_after<R: Abort + AllocGlobal>(rt: &R, steps: u64) -> Game {
    let mut game = Game::new(rt, shape(2, 1, 4, 64));
    game.puts(rt, 0, b"a", Ok(0));
    game.puts(rt, 1, b"b", Ok(0));
    for _ in 0..steps {
        game.turn(rt, 0, 0);
    }
    assert!(rt; matches!(game.step(&Event::Stop(0)), Ok(Answer::Stopped)));
    game
}

/// Wants that the receiver is given these messages, of one byte each, and then finds nothing more.
fn hears(rt: &impl Abort, game: &mut Game, messages: &[u8]) {
    let mut heard = 0;
    for _ in 0..99 {
        match game.recv(rt) {
            RecvTurn::Going | RecvTurn::Head { .. } => {}
            RecvTurn::Item(item) => {
                assert!(rt; heard < messages.len(), "no message more");
                same(rt, &item.message.as_slice(), &[messages[heard]].as_slice());
                heard += 1;
            }
            RecvTurn::Empty => break,
            RecvTurn::Leave(_) | RecvTurn::End => panic!(rt; "nobody leaves or closes"),
        }
    }
    same(rt, &heard, &messages.len());
}

/// What the page counts of the two senders, where it is at home.
fn counts(game: &Game) -> Option<[u64; 2]> {
    match game.world().page() {
        Some(page) => Some([page.next[0], page.next[1]]),
        None => None,
    }
}

/// Wants that sender 1 answers so, that the receiver is then given these messages, and that the
/// page is at home with these counts of the two senders, or out where there are none.
fn goes_on(
    rt: &impl Abort,
    game: &mut Game,
    answers: &[Turn],
    messages: &[u8],
    want: Option<[u64; 2]>,
) {
    for answer in answers {
        game.comes_to(rt, 1, *answer);
    }
    hears(rt, game, messages);
    same(rt, &counts(game), &want);
}

/// A tenure of sender 1, whose one message is delivered.
fn delivers(tenure: u64) -> [Turn; 2] {
    [Turn::Own { tenure }, delivered(tenure, 0)]
}

#[test]
fn sender_stops_after_each_step(rt: HostRuntime) {
    let lost = Turn::Lost {
        tenure: 0,
        owner: SenderNo(0),
    };
    for steps in 1..13 {
        let mut game = stopped_after(&rt, steps);
        if steps <= 4 {
            goes_on(&rt, &mut game, &delivers(0), b"b", Some([0, 1]));
        } else if steps <= 6 {
            goes_on(&rt, &mut game, &[lost, Turn::Waiting], b"", Some([0, 0]));
            game.has_log(&rt, &[]);
        } else if steps <= 10 {
            goes_on(&rt, &mut game, &[Turn::Waiting], b"", None);
        } else if steps == 11 {
            goes_on(&rt, &mut game, &[Turn::Waiting], b"a", None);
        } else {
            goes_on(&rt, &mut game, &delivers(1), b"ab", Some([1, 1]));
        }
    }
}

/// What was seen of three senders.
#[derive(Drop)]
struct Story {
    game: Game,
    dice: Dice,
    owners: [Option<SenderNo>; 4],
    /// Who has the page.
    holder: Option<SenderNo>,
}

impl Story {
    /// Three senders with a message each.
    fn new<R: Abort + AllocGlobal>(rt: &R, seed: u64) -> Story {
        let mut game = Game::new(rt, shape(3, 1, 4, 64));
        for sender in 0..3 {
            game.puts(rt, sender, b"c", Ok(0));
        }
        Story {
            game,
            dice: Dice { state: seed },
            owners: [None; 4],
            holder: None,
        }
    }

    /// Wants that nobody was told another owner of this tenure.
    fn note(&mut self, rt: &impl Abort, tenure: u64, owner: SenderNo) {
        let at = (tenure % 4) as usize;
        match self.owners[at] {
            Some(told) => assert!(rt; told == owner, "two owners of tenure {tenure}"),
            None => self.owners[at] = Some(owner),
        }
    }

    /// It takes the page, which nobody has.
    fn takes(&mut self, rt: &impl Abort, sender: SenderNo) {
        assert!(rt; self.holder.is_none(), "another has the page");
        self.holder = Some(sender);
    }

    /// It has given the page back, and puts its next message.
    fn gives_back(&mut self, rt: &impl Abort, sender: SenderNo) {
        assert!(rt; self.holder == Some(sender), "it has the page");
        self.holder = None;
        assert!(rt; self.game.put(sender, b"c").is_ok());
    }

    /// A turn of a sender, which puts its next message once one was delivered. The page is out
    /// just where somebody has it.
    fn turn(&mut self, rt: &impl Abort, sender: u64) {
        let number = SenderNo((sender % 3) as u8);
        let word = (self.dice.below(0x10_0000) % 0x10_0000) as u32;
        match self.game.turn(rt, sender, word) {
            Turn::Own { tenure } => {
                self.note(rt, tenure, number);
                self.takes(rt, number);
            }
            Turn::Lost { tenure, owner } => self.note(rt, tenure, owner),
            Turn::Delivered { .. } => self.gives_back(rt, number),
            _ => {}
        }
        assert!(rt;
            self.game.is_out() == self.holder.is_some(),
            "the page is out where it is held"
        );
    }

    /// Turns of the three at random, until sender 0 has taken so many and stops. Says whether it
    /// has: else no step was left for it.
    fn zero_stops(&mut self, rt: &impl Abort, steps: u32) -> bool {
        let mut left = steps;
        for _ in 0..MOST_TURNS {
            if left == 0 {
                self.game.stops(rt, 0, Ok(()));
                return true;
            }
            if self.game.rests(rt, 0) {
                return false;
            }
            let sender = self.dice.below(3);
            self.turn(rt, sender);
            if sender == 0 {
                left -= 1;
            }
        }
        panic!(rt; "a sender has too many steps")
    }

    /// The owners of the frames in the log, which are whole, are those that were told.
    fn has_told<R: Abort + AllocGlobal>(&self, rt: &R) {
        for (tenure, owner) in frames(rt, &self.game).owners.iter() {
            same(rt, &self.owners[(*tenure % 4) as usize], &Some(*owner));
        }
    }
}

/// What stands in the log, which is of whole frames.
fn frames<R: Abort + AllocGlobal>(rt: &R, game: &Game) -> LogRead {
    let log = game.world().log(rt.alloc()).expect(rt, "memory");
    let read = read_log(rt.alloc(), &log, 3).ok();
    read.expect(rt, "whole frames")
}

/// Under this schedule sender 0 stops after so many steps, and the others go on. Wants one owner
/// of each tenure, and a log of whole frames that are theirs. Says whether the page then is out;
/// none where sender 0 never takes so many.
fn plays<R: Abort + AllocGlobal>(rt: &R, seed: u64, steps: u32) -> Option<bool> {
    let mut story = Story::new(rt, seed);
    if !story.zero_stops(rt, steps) {
        return None;
    }
    for _ in 0..200 {
        let sender = 1 + story.dice.below(2) % 2;
        story.turn(rt, sender);
    }
    story.has_told(rt);
    Some(story.game.is_out())
}

#[test]
fn one_of_three_senders_stops_after_each_step(rt: HostRuntime) {
    let (mut out, mut home) = (0u32, 0u32);
    for seed in 0..100 {
        for steps in 1..MOST_TURNS {
            match plays(&rt, seed, steps) {
                Some(true) => out = out.saturating_add(1),
                Some(false) => home = home.saturating_add(1),
                None => break,
            }
        }
    }
    assert!(rt; out > 0 && home > 0, "{out} pages out, {home} home");
}
