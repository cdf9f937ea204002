//! A sender that takes turns in a row.

ghost use Rattle.std.specs.Prelude.{◌≡◌, ℕ, ◌≤◌, ◌<◌, None, Some, false};
ghost use Rattle.bus_automaton.specs.Buses.{process_by};
ghost use Rattle.bus_core.specs.Doings.{step_of};
ghost use Rattle.bus_core.specs.Plain.{IsPlain, StoresPlain};
ghost use Rattle.bus_core.specs.Senders.{situation};
ghost use Rattle.bus_core.specs.Telling.{FeedTells, RestTells};
ghost use Rattle.bus_pageslot.specs.Seats.{table_of, TookAndTold};
ghost use Rattle.bus_pageslot.specs.Turns.{tells_by, TakesUpTo, GoesPlainly, TakesPlainly};
ghost use Rattle.bus_pageslot.specs.Turns.{TakesSome, ElectsIn, IsElecting};
ghost use Rattle.bus_register.specs.declared.registers.Op.{Op};
ghost use Rattle.bus_tenure.specs.Classes.{still_goes};
ghost use Rattle.bus_tenure.specs.Elections.{election_of};

use crate::buses::Bus;
use crate::seats::Sender;
use crate::steps::{clear_row, elect_row, store_row};
use bus_adoptcommit::Ratifier;
use bus_core::Step;
use bus_tenure::{Doing, Turn};
use rand_core::Rng;

/// How many turns of an election `next_turns` takes at most.
const MOST_ELECTION_TURNS: u64 = 256;

impl<Q: Ratifier + Drop> Sender<Q> {
    /// A turn with this random word, and as long as the last one was answered Going up to so many
    /// more that ask for no word. The answer is the last one's.
    ///
    /// So Going says that the next turn is a vote, for which it is to be called again with another
    /// word, or that all of them were taken. It waits for nothing.
    pub fn turns(&mut self, bus: &Bus<Q>, word: u32, more: u64) -> Turn
        requires table { table_of self.old ≡ bus.now.table }
        ensures table { table_of self.new ≡ table_of self.old }
        ensures turns { TakesUpTo (process_by Q.Ratifier) (tells_by Q.Ratifier) self.old word more
            result self.new }
    {
        let mut turn = self.turn(bus, word);
        let mut taken = 0;
        for _ in 0..more {
            if !is_going(turn) {
                return turn;
            }
            taken += self.plain_turns(bus, more - taken);
            if taken == more {
                return turn;
            }
            let next = self.next_step();
            if self.wants_word_for(next) {
                return turn;
            }
            let (many, last) = self.wordless_turns(bus, next, more - taken);
            turn = last;
            taken += many;
        }
        turn
    }

    /// Turns in a row whose steps are plain stores, at most so many, and one at least where that is
    /// due: how many it took.
    #[inline(always)]
    pub(super) fn plain_turns(&mut self, bus: &Bus<Q>, most: u64) -> u64
        requires { table_of self.old ≡ bus.now.table }
        ensures table { table_of self.new ≡ table_of self.old }
        ensures few { result ≤ most }
        ensures stays { result ≡ 0 → self.new ≡ self.old }
        ensures exact { IsPlain (election_of Q.Ratifier) self.old.core → 0 < most → 0 < result }
        ensures goes { GoesPlainly (process_by Q.Ratifier) (tells_by Q.Ratifier)
            (IsPlain (election_of Q.Ratifier)) self.old result self.new }
    {
        let (mut at, mut value) = (0, 0);
        if !self.core.plain(&mut at, &mut value) {
            return 0;
        }
        let cleared = self.clear_turns(bus, at, most);
        if cleared > 0 {
            return cleared;
        }
        self.frame_turns(bus, at, value, most)
    }

    /// Turns in a row that clear words of the next row, from the one at `at` on, at most so many:
    /// how many it took. None where its next step, this plain store, is of a word of its frame.
    #[inline(always)]
    fn clear_turns(&mut self, bus: &Bus<Q>, at: u64, most: u64) -> u64
        requires table { table_of self.old ≡ bus.now.table }
        requires stores { (value : ℕ)
            × StoresPlain (election_of Q.Ratifier) self.old.core at value }
        ensures table { table_of self.new ≡ table_of self.old }
        ensures few { result ≤ most }
        ensures stays { result ≡ 0 → self.new ≡ self.old }
        ensures goes { GoesPlainly (process_by Q.Ratifier) (tells_by Q.Ratifier)
            (IsPlain (election_of Q.Ratifier)) self.old result self.new }
    {
        let many = self.core.clears_left().min(most);
        if many == 0 {
            return 0;
        }
        clear_row(&bus.words, &mut self.seat, &self.core, at, many);
        self.core.clears_done(many);
        many
    }

    /// Turns in a row that store words of its frame, of which the first is this plain store, at
    /// most so many, and one at least where one is allowed: how many it took.
    #[inline(always)]
    fn frame_turns(&mut self, bus: &Bus<Q>, at: u64, value: u64, most: u64) -> u64
        requires table { table_of self.old ≡ bus.now.table }
        requires stores { StoresPlain (election_of Q.Ratifier) self.old.core at value }
        ensures table { table_of self.new ≡ table_of self.old }
        ensures few { result ≤ most }
        ensures some { 0 < most → 0 < result }
        ensures goes { GoesPlainly (process_by Q.Ratifier) (tells_by Q.Ratifier)
            (IsPlain (election_of Q.Ratifier)) self.old result self.new }
    {
        if most == 0 {
            return 0;
        }
        let (mut at, mut value) = (at, value);
        if !self.store_on(bus, &mut at, &mut value, 0) {
            return 1;
        }
        1 + self.row_turns(bus, at, most - 1)
    }

    /// Turns in a row that store words of its frame one behind another, from its next step on,
    /// which is a plain store in the word at `at`; at most so many: how many it took.
    #[inline(always)]
    fn row_turns(&mut self, bus: &Bus<Q>, at: u64, most: u64) -> u64
        requires table { table_of self.old ≡ bus.now.table }
        requires stores { let X = election_of Q.Ratifier in
            (value : ℕ) × StoresPlain X self.old.core at value }
        ensures table { table_of self.new ≡ table_of self.old }
        ensures few { result ≤ most }
        ensures goes { GoesPlainly (process_by Q.Ratifier) (tells_by Q.Ratifier)
            (IsPlain (election_of Q.Ratifier)) self.old result self.new }
    {
        let words = self.core.words_left(at, most);
        let many = words.len() as u64;
        if many == 0 {
            return 0;
        }
        store_row(&bus.words, &mut self.seat, &self.core, at, words);
        self.core.words_done(many);
        many
    }

    /// The next turn, and where that is one of an election, those of it that follow, up to a vote.
    /// The answer is the last one's.
    #[inline(always)]
    pub(super) fn next_turns<R: Rng>(&mut self, bus: &Bus<Q>, rng: &mut R) -> Turn
        requires { table_of self.old ≡ bus.now.table }
        ensures table { table_of self.new ≡ table_of self.old }
        ensures some { TakesSome (process_by Q.Ratifier) (tells_by Q.Ratifier) self.old
            (R.stream rng.old) result self.new (R.stream rng.new) }
    {
        let next = self.next_step();
        if !self.wants_word_for(next) {
            let (_many, last) = self.wordless_turns(bus, next, MOST_ELECTION_TURNS);
            return last;
        }
        let word = rng.next_u32();
        self.full_turn(bus, word)
    }

    /// The turn of which `next_step` told `next`, which asks for no random word, and where it is
    /// one of an election, those of it that follow, up to a vote; at most so many: how many it
    /// took, and the last one's answer.
    #[inline(always)]
    fn wordless_turns(&mut self, bus: &Bus<Q>, next: Step, most: u64) -> (u64, Turn)
        requires table { table_of self.old ≡ bus.now.table }
        requires next { let X = election_of Q.Ratifier in
            step_of (situation X self.old.core) ≡ next }
        requires wordless { (process_by Q.Ratifier).wants_word self.old.core ≡ false }
        requires some { 0 < most }
        ensures table { table_of self.new ≡ table_of self.old }
        ensures few { result.0 ≤ most }
        ensures takes { TakesPlainly (process_by Q.Ratifier) (tells_by Q.Ratifier) (λ c. Unit)
            self.old result.0 result.1 self.new }
    {
        if let Step::Does(doing) = next {
            if let Doing::Elects { tenure } = doing {
                return self.election_turns(bus, tenure, most);
            }
        }
        (1, self.turn_apart(bus, next, 0))
    }

    /// Turns in a row of an election that runs, at most so many: up to a vote, and none once it
    /// knows an owner. How many it took, and the last one's answer.
    #[inline(never)]
    fn election_turns(&mut self, bus: &Bus<Q>, begun: u64, most: u64) -> (u64, Turn)
        requires table { table_of self.old ≡ bus.now.table }
        requires elects { ElectsIn (election_of Q.Ratifier) self.old.core begun }
        requires wordless { (process_by Q.Ratifier).wants_word self.old.core ≡ false }
        requires some { 0 < most }
        ensures table { table_of self.new ≡ table_of self.old }
        ensures few { result.0 ≤ most }
        ensures takes { TakesPlainly (process_by Q.Ratifier) (tells_by Q.Ratifier)
            (IsElecting (election_of Q.Ratifier)) self.old result.0 result.1 self.new }
    {
        elect_row(&bus.words, &mut self.seat, &mut self.core, begun, most)
    }

    /// The turn of which `next_step` told `next`. A situation that is often has a copy of it, which
    /// asks for no other.
    #[inline(always)]
    fn turn_apart(&mut self, bus: &Bus<Q>, next: Step, word: u32) -> Turn
        requires table { table_of self.old ≡ bus.now.table }
        requires next { let X = election_of Q.Ratifier in
            step_of (situation X self.old.core) ≡ next }
        ensures table { table_of self.new ≡ table_of self.old }
        ensures rests { let P = process_by Q.Ratifier in
            P.op self.old.core word ≡ None → (self.new ≡ self.old) × (result ≡ P.rest
            self.old.core) × RestTells self.old.core result }
        ensures steps { let P = process_by Q.Ratifier in
            (op : Op) → P.op self.old.core word ≡ Some op → TookAndTold P (FeedTells (election_of
            Q.Ratifier)) self.old word result self.new }
    {
        match next {
            Step::Does(Doing::Looks) => self.turn_by(bus, next, word),
            Step::Does(Doing::Takes { .. }) => self.turn_by(bus, next, word),
            Step::Does(Doing::Length { .. }) => self.turn_by(bus, next, word),
            Step::Does(Doing::Back { .. }) => self.turn_by(bus, next, word),
            Step::Announces { .. } => self.turn_by(bus, next, word),
            Step::Validates { .. } => self.turn_by(bus, next, word),
            Step::Unpins { .. } => self.turn_by(bus, next, word),
            Step::Withdraws { .. } => self.turn_by(bus, next, word),
            Step::Scans => self.turn_by(bus, next, word),
            _ => self.full_turn(bus, word),
        }
    }
}

/// A step was taken, and nothing more is said.
#[inline(always)]
fn is_going(turn: Turn) -> bool
    ensures { result ≡ still_goes turn }
{
    matches!(turn, Turn::Going)
}
