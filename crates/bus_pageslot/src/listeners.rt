//! What a receiver keeps beside its seat: where the words of the log lie, and what it has read of
//! them. It goes round the log, and knows how far it may go before it has to look anew. So no word
//! costs it a division, nor a test more.

ghost use Rattle.std.specs.Prelude.{◌≡◌, ◌≢◌, ◌⊎◌, ℕ, ◌+◌, ◌%◌, ◌<◌, ◌≤◌, Some, None, true, false};
ghost use Rattle.std.specs.Prelude.{[], IsTrue, ◌↔◌};
ghost use Rattle.bus_automaton.specs.Processes.{TableLayout};
ghost use Rattle.bus_batch.specs.Reading.{is_between};
ghost use Rattle.bus_deliverylog.specs.Receiving.{HasReceived};
ghost use Rattle.bus_pageslot.specs.Rounds.{GoesRound, HasRoom, HasSpan};
ghost use Rattle.bus_pageslot.specs.Seats.{HasCells};

use bus_core::limits::PASSED_APART;
use bus_deliverylog::LogReader;

/// Where the words of a log lie, and where a receiver of it says how far it has come.
#[derive(Clone, Copy, Debug)]
pub(crate) struct LogCells {
    /// The place of the first cell.
    pub(crate) log: u64,
    /// How many cells there are.
    pub(crate) log_words: u64,
    /// The place of its passed place; none where no word of the log is used again.
    pub(crate) passed_at: Option<u64>,
    /// Its number.
    pub(crate) number: u64,
    /// How many passed places there are.
    pub(crate) passers: u64,
}

impl LogCells {
    /// Those of the receiver of a higher number: the same but for its number and its passed place,
    /// and just the same where no receiver has a passed place.
    pub(crate) fn of(self, number: u64) -> LogCells
        requires cells { (x : TableLayout) × HasCells x self.number self
            × (0 < x.passers → (self.number < number) × (number < x.passers)) }
        ensures log { (result.log ≡ self.log) × (result.log_words ≡ self.log_words) }
        ensures ring { (x : TableLayout) → HasCells x self.number self → self.number < number
            → number < x.passers → HasCells x number result }
        ensures flat { (x : TableLayout) → HasCells x self.number self → x.passers ≡ 0
            → result ≡ self }
    {
        let Some(at) = self.passed_at else {
            return self;
        };
        LogCells {
            passed_at: Some(at + PASSED_APART * (number - self.number)),
            number,
            ..self
        }
    }
}

/// What a receiver has read of a log, and how it goes round it.
#[derive(Drop)]
pub(crate) struct Listener {
    pub(crate) cells: LogCells,
    /// A place and this are the place of its cell, in this round of the log. The sum wraps.
    pub(crate) shift: u64,
    /// Where it looks anew: the least of the length that it knows and of the end of this round.
    pub(crate) limit: u64,
    /// The place that it stored in its passed place last, and 0 before.
    pub(crate) passed: u64,
    pub(crate) reader: LogReader,
}

impl Listener {
    /// At the first word of a log of so many senders.
    pub(crate) fn new(cells: LogCells, senders: u64) -> Listener
        requires { HasRoom cells }
        ensures round { GoesRound result }
        ensures cells { result.cells ≡ cells }
        ensures passed { result.passed ≡ 0 }
        ensures start { (result.reader.known ≡ 0) × (result.reader.place ≡ 0)
            × (result.reader.ended ≡ false) }
        ensures senders { result.reader.frames.senders ≡ senders }
        ensures received { HasReceived [] [] result.reader }
    {
        Listener {
            cells,
            shift: cells.log,
            limit: 0,
            passed: 0,
            reader: LogReader::new(senders),
        }
    }

    /// The same, for a receiver that has these cells: of this log, with a passed place of its own.
    pub(crate) fn copied(&self, cells: LogCells) -> Listener
        requires round { GoesRound self.now }
        requires log { (cells.log ≡ self.now.cells.log)
            × (cells.log_words ≡ self.now.cells.log_words) }
        ensures round { GoesRound result }
        ensures reader { result.reader ≡ self.now.reader }
        ensures cells { result.cells ≡ cells }
        ensures passed { result.passed ≡ self.now.passed }
    {
        Listener {
            cells,
            shift: self.shift,
            limit: self.limit,
            passed: self.passed,
            reader: self.reader.copied(),
        }
    }

    /// The place of its passed place, where it is to store its place there: it has heard a whole
    /// frame since it did last.
    #[inline(always)]
    pub(crate) fn pass_due(&self) -> Option<u64>
        ensures due { (at : ℕ) → result ≡ Some at → (self.now.cells.passed_at ≡ Some at)
            × (self.now.passed < self.now.reader.place)
            × (is_between self.now.reader.frames.place ≡ true) }
        ensures none { result ≡ None → (self.now.cells.passed_at ≡ None)
            ⊎ (self.now.reader.place ≤ self.now.passed)
            ⊎ (is_between self.now.reader.frames.place ≡ false) }
    {
        let at = self.cells.passed_at?;
        if self.passed < self.reader.place() && self.reader.is_between() {
            Some(at)
        } else {
            None
        }
    }

    /// Its frame was begun, all that is left of it is known, and no round ends in that.
    #[inline(always)]
    pub(crate) fn has_span(&self) -> bool
        requires { GoesRound self.now }
        ensures { IsTrue result ↔ HasSpan self.now }
    {
        let left = self.reader.left();
        left > 0 && left <= self.limit - self.reader.place()
    }

    /// The place of the cell of its place.
    #[inline(always)]
    pub(crate) fn at(&self) -> u64
        requires round { GoesRound self.now }
        requires below { self.now.reader.place ≢ self.now.limit }
        ensures { result
            ≡ self.now.cells.log + self.now.reader.place % self.now.cells.log_words }
    {
        self.reader.place().wrapping_add(self.shift)
    }

    /// So many words are known from now on.
    pub(crate) fn learn(&mut self, length: u64)
        requires round { GoesRound self.old }
        requires more { self.old.reader.known ≤ length }
        ensures round { GoesRound self.new }
        ensures reader { self.new.reader ≡ record self.old.reader { known = length } }
        ensures keeps { (self.new.cells ≡ self.old.cells) × (self.new.passed ≡ self.old.passed) }
    {
        let place = self.reader.place();
        let cell = place.wrapping_add(self.shift) - self.cells.log;
        let rest = self.cells.log_words - cell;
        self.reader.learn(length);
        self.limit = place + rest.min(length - place);
    }

    /// This round of the log is over, and more is known: the next round begins.
    pub(crate) fn next_round(&mut self)
        requires round { GoesRound self.old }
        requires over { self.old.reader.place ≡ self.old.limit }
        requires below { self.old.reader.place ≢ self.old.reader.known }
        ensures round { GoesRound self.new }
        ensures below { self.new.reader.place ≢ self.new.limit }
        ensures reader { self.new.reader ≡ self.old.reader }
        ensures keeps { (self.new.cells ≡ self.old.cells) × (self.new.passed ≡ self.old.passed) }
    {
        let place = self.reader.place();
        let words = self.cells.log_words;
        self.shift = self.shift.wrapping_sub(words);
        self.limit = place + words.min(self.reader.known() - place);
    }
}
