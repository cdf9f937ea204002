//! Receivers of a storm, on the bus B: each takes one turn a call, forks, or leaves. What it is
//! given is held against what others of its worker were given.

ghost use Rattle.std.specs.Prelude.{◌≡◌, Some};

use crate::workers::MOST_TURNS;
use bus_pageslot::OfBus;
use bus_receiver::{Heard, Item, Page, RecvTurn, SenderNo};
use bus_register::limits::MOST_SENDERS;
use bus_run::buses::{Tap, TheBus};
use rand_core::Rng;
use rand_pcg::Pcg32;
use std::alloc::{AllocError, Global};
use std::marker::PhantomData;

/// Room for all messages of a sitting.
pub const MOST_ITEMS: usize = 3_072;

/// How a receiver goes.
#[derive(Clone, Copy)]
pub struct Pace {
    /// So many turns of its worker go by before it begins.
    late: u32,
    /// Of so many it takes one.
    apart: u32,
}

impl Pace {
    /// It takes each turn.
    pub fn full() -> Pace {
        Pace { late: 0, apart: 1 }
    }

    /// Three in eight are slow, and take one turn of 2, 4 or 8.
    pub fn cast(dice: &mut Pcg32) -> Pace {
        Pace {
            late: 0,
            apart: 1 << (dice.next_u32() % 8).saturating_sub(4),
        }
    }

    /// The same, and one in two begins late.
    pub fn cast_of_fork(dice: &mut Pcg32) -> Pace {
        let late = dice.next_u32() % 256;
        Pace {
            late: if dice.next_u32() % 2 == 0 { late } else { 0 },
            ..Pace::cast(dice)
        }
    }
}

/// So many items and leave marks.
#[derive(Clone, Copy)]
pub struct Tally {
    pub items: usize,
    pub marks: usize,
}

/// A place of the log that a receiver has passed, and what it was given before that.
#[derive(Clone, Copy)]
pub struct Passed {
    pub words: u64,
    pub before: Tally,
}

/// What the receivers of a worker were given, each from the beginning to where it stands: of a
/// forked one what its maker was given up to the fork, and then what it was given itself.
#[derive(Drop)]
pub struct Notes {
    pub items: Vec<Item>,
    /// Who left, and after how many items.
    pub left: Vec<(SenderNo, u64)>,
    /// Each answer of a receiver could follow those before it, and there was room for it.
    pub is_sound: bool,
    /// At each place all that came to it were given the same.
    pub is_same: bool,
}

impl Notes {
    /// Nothing.
    pub fn new(alloc: Global) -> Result<Notes, AllocError> {
        Ok(Notes {
            items: Vec::with_capacity(alloc, MOST_ITEMS)?,
            left: Vec::with_capacity(alloc, MOST_SENDERS)?,
            is_sound: true,
            is_same: true,
        })
    }

    /// The item that one is given who was given so many before.
    fn take_item(&mut self, before: usize, item: Item) {
        if before == self.items.len() {
            self.is_sound &= self.items.push(item).is_ok();
            return;
        }
        let is_same = match self.items.get(before) {
            Some(other) => *other == item,
            None => false,
        };
        self.is_same &= is_same;
    }

    /// The leave mark that one is given who was given so many before.
    fn take_mark(&mut self, before: usize, mark: (SenderNo, u64)) {
        if before == self.left.len() {
            self.is_sound &= self.left.push(mark).is_ok();
            return;
        }
        let is_same = match self.left.get(before) {
            Some(other) => *other == mark,
            None => false,
        };
        self.is_same &= is_same;
    }
}

/// A receiver of the bus B.
#[derive(Drop)]
pub struct TurnReceiver<B: OfBus> {
    /// None once it has left.
    tap: Option<Tap>,
    pub heard: Heard,
    /// What it was given; of a forked one with what its maker was given before.
    pub tally: Tally,
    /// What of that stands before the place that it has passed.
    passed: Tally,
    pace: Pace,
    /// It takes this turn of its worker.
    is_due: bool,
    of: PhantomData<B>,
    ghost of_bus: { (held : _) → tap ≡ Some held → held.table_id ≡ B.table },
}

impl<B: OfBus> TurnReceiver<B> {
    /// A receiver that has not begun, of the sitting that goes on after this page.
    pub fn new(tap: Tap, pace: Pace, after: Option<&Page>) -> TurnReceiver<B>
        requires { tap.table_id ≡ B.table }
    {
        let heard = match after {
            Some(page) => Heard::after(page),
            None => Heard::new(),
        };
        let nothing = Tally { items: 0, marks: 0 };
        TurnReceiver {
            tap: Some(tap),
            heard,
            tally: nothing,
            passed: nothing,
            pace,
            is_due: false,
            of: PhantomData,
        }
    }

    /// The receiver of this tap, which was given what this one was given.
    fn with_tap(&self, tap: Tap, pace: Pace) -> TurnReceiver<B>
        requires { tap.table_id ≡ B.table }
    {
        TurnReceiver {
            tap: Some(tap),
            heard: self.heard.copied(),
            tally: self.tally,
            passed: self.passed,
            pace,
            is_due: false,
            of: PhantomData,
        }
    }

    /// Forks, as `Receiver::fork` does: to the lowest number above its own that is free, and on a
    /// bus that is no ring to its own. None where each was taken, or where it has left.
    pub fn fork(&mut self, the: &TheBus<B>, pace: Pace) -> Option<TurnReceiver<B>> {
        let (own, passers) = match &self.tap {
            Some(tap) => (tap.number(), tap.passers()),
            None => return None,
        };
        if passers == 0 {
            return self.fork_flat(the, pace);
        }
        for number in own.saturating_add(1)..passers {
            if let Some(made) = self.fork_to(the, number, pace) {
                return Some(made);
            }
        }
        None
    }

    /// Forks to this number of a ring, if it is a higher one, and free.
    fn fork_to(&mut self, the: &TheBus<B>, number: u64, pace: Pace) -> Option<TurnReceiver<B>> {
        let Some(tap) = &mut self.tap else {
            return None;
        };
        if tap.number() < number && number < tap.passers() {
            let made = tap.fork(&the.bus, number)?;
            Some(self.with_tap(made, pace))
        } else {
            None
        }
    }

    /// Forks on a bus that is no ring.
    fn fork_flat(&mut self, the: &TheBus<B>, pace: Pace) -> Option<TurnReceiver<B>> {
        let Some(tap) = &mut self.tap else {
            return None;
        };
        let number = tap.number();
        if tap.passers() == 0 {
            let made = tap.fork(&the.bus, number)?;
            Some(self.with_tap(made, pace))
        } else {
            None
        }
    }

    /// Leaves for good.
    pub fn leave(&mut self, the: &TheBus<B>) {
        if let Some(tap) = self.tap.take() {
            tap.leave(&the.bus);
        }
    }

    /// It has not left, and was not given the end.
    pub fn hears_on(&self) -> bool {
        match &self.tap {
            Some(tap) => !tap.has_ended(),
            None => false,
        }
    }

    /// Draws whether it takes the next turn of its worker.
    pub fn draw(&mut self, dice: &mut Pcg32) -> bool {
        let has_begun = self.pace.late == 0;
        self.pace.late = self.pace.late.saturating_sub(1);
        let is_its_turn = dice.next_u32() % self.pace.apart.max(1) == 0;
        self.is_due = has_begun && is_its_turn && self.hears_on();
        self.is_due
    }

    /// A turn, if it is due. Says whether nothing was found.
    pub fn hear_if_due(&mut self, the: &TheBus<B>, notes: &mut Notes) -> bool {
        !self.is_due || self.hear(the, notes)
    }

    /// A turn. Says whether nothing was found.
    fn hear(&mut self, the: &TheBus<B>, notes: &mut Notes) -> bool {
        let turn = match &mut self.tap {
            Some(tap) => tap.turn(&the.bus),
            None => return true,
        };
        notes.is_sound &= self.heard.note(&turn);
        let is_idle = turn == RecvTurn::Empty;
        self.take_in(turn, notes);
        is_idle
    }

    /// Goes by the answer of a turn.
    fn take_in(&mut self, turn: RecvTurn, notes: &mut Notes) {
        match turn {
            RecvTurn::Item(item) => {
                notes.take_item(self.tally.items, item);
                self.tally.items = self.tally.items.saturating_add(1);
            }
            RecvTurn::Leave(sender) => {
                notes.take_mark(self.tally.marks, (sender, self.tally.items as u64));
                self.tally.marks = self.tally.marks.saturating_add(1);
            }
            RecvTurn::Going if self.has_just_passed() => self.passed = self.tally,
            RecvTurn::Empty | RecvTurn::Going | RecvTurn::Head { .. } | RecvTurn::End => {}
        }
    }

    /// Its place is the one that it has passed: no frame was begun since.
    fn has_just_passed(&self) -> bool {
        match &self.tap {
            Some(tap) => tap.place() == tap.passed(),
            None => false,
        }
    }

    /// It goes on to the end of the log.
    pub fn catch_up(&mut self, the: &TheBus<B>, notes: &mut Notes) {
        for _ in 0..MOST_TURNS {
            if !self.hears_on() || self.hear(the, notes) {
                return;
            }
        }
    }

    /// The place that it has passed; none where it has left.
    pub fn floor(&self) -> Option<Passed> {
        match &self.tap {
            Some(tap) => Some(Passed {
                words: tap.passed(),
                before: self.passed,
            }),
            None => None,
        }
    }

    /// Of a ring its number; none where it has left.
    pub fn seat(&self) -> Option<u64> {
        match &self.tap {
            Some(tap) if tap.passers() > 0 => Some(tap.number()),
            _ => None,
        }
    }

    /// Its tap, unless it has left.
    pub fn take_tap(&mut self) -> Option<Tap>
        ensures { (held : _) → result ≡ Some held → held.table_id ≡ B.table }
    {
        self.tap.take()
    }

    /// The words of the log from this place on, each by a load.
    pub fn words(
        &mut self,
        alloc: Global,
        the: &TheBus<B>,
        floor: u64,
    ) -> Result<Vec<u64>, AllocError> {
        let mut words = Vec::new(alloc);
        for place in floor..self.length(the) {
            if let Some(word) = self.word(the, place) {
                words.push(word)?;
            }
        }
        Ok(words)
    }

    /// The length of the log, by a load.
    fn length(&mut self, the: &TheBus<B>) -> u64 {
        match &mut self.tap {
            Some(tap) => tap.load_length(&the.bus),
            None => 0,
        }
    }

    /// The word of this place, by a load, if it may load it.
    fn word(&mut self, the: &TheBus<B>, place: u64) -> Option<u64> {
        let Some(tap) = &mut self.tap else {
            return None;
        };
        if tap.passed() <= place && place < tap.known() {
            Some(tap.load_word(&the.bus, place))
        } else {
            None
        }
    }
}
