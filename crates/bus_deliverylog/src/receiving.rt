//! A receiver's end of the log.

ghost use Rattle.std.specs.Prelude.{◌≡◌, ◌≢◌, ℕ, ◌+◌, ◌<◌, ◌≤◌};
ghost use Rattle.std.specs.Prelude.{◌^◌, List, [], false, IsTrue, IfSome, IfNone, Some, None};
ghost use Rattle.bus_batch.specs.Reading.{HasRead, is_between};

use bus_batch::{FrameReader, Item, Piece, Span};
use bus_register::limits::PASSED_ALL;
use bus_register::{Kind, Op, Reg, SenderNo, cell};
use std::marker::Model;

/// What a receiver answers after one step.
///
/// It is written in the words of `replay`, as `head 2 0` or `item 0 3 6869`.
#[derive(Debug, Drop, PartialEq, Eq)]
pub enum RecvTurn {
    Going,
    /// The length is the one that it knew, and its place is there.
    Empty,
    /// A frame begins.
    Head { tenure: u64, owner: SenderNo },
    Item(Item),
    /// This sender has left for good.
    Leave(SenderNo),
    /// The order has ended.
    End,
}

/// What was read of a log: how many of its words are known, and how far these were read. The words
/// come one at a time, from wherever the log lies.
#[derive(Debug, Drop)]
pub struct LogReader {
    known: u64,
    place: u64,
    frames: FrameReader,
    ended: bool,
}

impl Model for LogReader {
    ghost use Rattle.std.specs.Prelude.{◌≤◌};
    ghost use Rattle.bus_deliverylog.specs.Receiving.{LogReading, HasSeen};

    ghost Value = { LogReading };

    ghost view = { λ r. record {
      known = r.known;
      place = r.place;
      frames = r.frames;
      ended = r.ended;
    } };

    ghost invariant = { λ r. (r.place ≤ r.known) × HasSeen (record {
      known = r.known;
      place = r.place;
      frames = r.frames;
      ended = r.ended;
    }) };
}

impl LogReader {
    ghost use Rattle.bus_batch.specs.Reading.{words_left};
    ghost use Rattle.bus_batch.specs.Spans.{IsSpan, HasBytes};
    ghost use Rattle.bus_deliverylog.specs.Receiving.{HasReceived, HasSeen, TakesNext, TakesWithin};
    ghost use Rattle.bus_deliverylog.specs.Receiving.{midway_in};

    /// At the first word of a log of so many senders. No word is known.
    pub fn new(senders: u64) -> LogReader
        ensures start { (result.known ≡ 0) × (result.place ≡ 0) × (result.ended ≡ false) }
        ensures senders { result.frames.senders ≡ senders }
        ensures received { HasReceived [] [] result }
    {
        LogReader {
            known: 0,
            place: 0,
            frames: FrameReader::new(senders),
            ended: false,
        }
    }

    /// The same reader once more, at its place. Takes no memory.
    pub fn copied(&self) -> LogReader
        ensures { result ≡ self.now }
    {
        LogReader {
            known: self.known,
            place: self.place,
            frames: self.frames.copied(),
            ended: self.ended,
        }
    }

    /// How many words were read.
    pub fn place(&self) -> u64
        ensures place { result ≡ self.now.place }
        ensures within { result ≤ self.now.known }
    {
        self.place
    }

    /// How many words are known.
    pub fn known(&self) -> u64
        ensures { result ≡ self.now.known }
    {
        self.known
    }

    /// The end was among what was read.
    pub fn has_ended(&self) -> bool
        ensures { result ≡ self.now.ended }
    {
        self.ended
    }

    /// No frame is under way where it stands, and the order has not ended.
    pub fn is_between(&self) -> bool
        ensures { result ≡ is_between self.now.frames.place }
    {
        self.frames.is_between()
    }

    /// So many words are known from now on.
    pub fn learn(&mut self, length: u64)
        requires { self.old.known ≤ length }
        ensures { self.new ≡ record self.old { known = length } }
    {
        self.known = length;
    }

    /// How many words are left of its frame, where the next is a message's or a mark; else 0.
    #[inline(always)]
    pub fn left(&self) -> u64
        ensures { result ≡ words_left self.now.frames.place }
    {
        self.frames.left()
    }

    /// A message with bytes that the word begins which was found at its place; it may find none.
    /// Nothing is taken yet.
    #[inline(always)]
    pub fn span(&self, told: u64) -> Option<Span>
        requires { self.now.ended ≡ false }
        ensures span { IfSome result (IsSpan self.now.frames) }
        ensures begins { IfSome result
            (λ span. TakesNext self.now told RecvTurn.Going (midway_in self.now span [])) }
        ensures within { IfSome result (TakesWithin self.now) }
    {
        self.frames.span(told)
    }

    /// Takes all words of a message, the last of them this, where the item has the bytes of those
    /// behind its own; makes the item of them, and says whether it did: then the last answers that.
    /// A bad one changes nothing.
    #[inline(always)]
    pub fn take_span(&mut self, span: Span, last: u64, item: &mut Item) -> bool
        requires span { IsSpan self.old.frames span }
        requires bytes { (taken : List ℕ) × HasBytes span taken last item.old
            × HasSeen (midway_in self.old span taken) }
        requires known { self.old.place + (1 + span.words) ≤ self.old.known }
        requires going { self.old.ended ≡ false }
        ensures word { IsTrue result → (taken : List ℕ) → HasBytes span taken last item.old
            → TakesNext (midway_in self.old span taken) last (RecvTurn.Item item.new) self.new }
        ensures bad { result ≡ false → (taken : List ℕ) → HasBytes span taken last item.old
            → TakesNext (midway_in self.old span taken) last RecvTurn.Going
            (midway_in self.old span taken) }
        ensures stays { result ≡ false → (self.new ≡ self.old) × (item.new ≡ item.old) }
        ensures senders { self.new.frames.senders ≡ self.old.frames.senders }
    {
        if self.frames.take_span(span, last, item) {
            self.place += 1 + span.words;
            true
        } else {
            false
        }
    }

    /// Takes the word that was found at its place where that says nothing by itself, and says
    /// whether it did: then it answers `Going`. Else nothing changes, and `take_word` takes it.
    #[inline(always)]
    pub fn take_plain(&mut self, got: u64) -> bool
        requires unread { self.old.place ≢ self.old.known }
        requires going { self.old.ended ≡ false }
        ensures word { IsTrue result → TakesNext self.old got RecvTurn.Going self.new }
        ensures read { IsTrue result → self.new.place ≡ self.old.place + 1 }
        ensures known { self.new.known ≡ self.old.known }
        ensures stays { result ≡ false → self.new ≡ self.old }
        ensures senders { self.new.frames.senders ≡ self.old.frames.senders }
    {
        if self.frames.take_plain(got) {
            self.place += 1;
            true
        } else {
            false
        }
    }

    /// Takes the word that was found at its place where that is the last of a message with bytes,
    /// writes the item in place, and says whether it did: then it answers that. Else nothing
    /// changes, and `take_word` takes it.
    #[inline(always)]
    pub fn take_item(&mut self, got: u64, item: &mut Item) -> bool
        requires unread { self.old.place ≢ self.old.known }
        requires going { self.old.ended ≡ false }
        ensures word { IsTrue result
            → TakesNext self.old got (RecvTurn.Item item.new) self.new }
        ensures read { IsTrue result → self.new.place ≡ self.old.place + 1 }
        ensures known { self.new.known ≡ self.old.known }
        ensures stays { result ≡ false → (self.new ≡ self.old) × (item.new ≡ item.old) }
        ensures senders { self.new.frames.senders ≡ self.old.frames.senders }
    {
        if self.frames.take_item(got, item) {
            self.place += 1;
            true
        } else {
            false
        }
    }

    /// Takes the word that was found at its place. A bad one gives `Going` and changes nothing.
    pub fn take_word(&mut self, got: u64) -> RecvTurn
        requires unread { self.old.place ≢ self.old.known }
        requires going { self.old.ended ≡ false }
        ensures word { TakesNext self.old got result self.new }
        ensures known { self.new.known ≡ self.old.known }
        ensures place { self.new.place ≤ self.old.place + 1 }
        ensures rises { self.old.place ≤ self.new.place }
        ensures senders { self.new.frames.senders ≡ self.old.frames.senders }
    {
        let Ok(found) = self.frames.try_feed(got) else {
            return RecvTurn::Going;
        };
        self.place += 1;
        match found {
            None => RecvTurn::Going,
            Some(Piece::Head { tenure, owner }) => RecvTurn::Head { tenure, owner },
            Some(Piece::Item(item)) => RecvTurn::Item(item),
            Some(Piece::Leave(sender)) => RecvTurn::Leave(sender),
            Some(Piece::End) => {
                self.ended = true;
                RecvTurn::End
            }
        }
    }
}

/// A receiver of the log: it loads the length and the words below it, one at a time.
///
/// It takes steps as a machine does: `kind` and `next` tell the step, and `feed` is told what was
/// found. Where the words of the log are used again, it has a passed place. It stores its place
/// there behind each whole frame but that of an end mark, and needs the words below no more. It
/// believes no length of more than a whole log past what it stored. One that leaves for good takes
/// the step that `leaving` tells, if any, and `leave` notes it; what holds it asks nothing of it
/// from then on.
#[derive(Debug, Drop)]
pub struct Reader {
    log: Reg,
    length: Reg,
    words: u64,
    /// The place of its passed place.
    passed_at: Option<u64>,
    /// The place that it stored there last, and 0 before.
    passed: u64,
    /// It has left for good.
    gone: bool,
    reader: LogReader,
}

impl Model for Reader {
    ghost use Rattle.std.specs.Prelude.{◌≡◌, ◌+◌, ◌<◌, ◌≤◌, ◌^◌, None, IfSome};
    ghost use Rattle.bus_deliverylog.specs.Receiving.{Receiving, LiesApart};

    ghost Value = { Receiving };

    ghost view = { λ r. record {
      log_at = r.log.0;
      length_at = r.length.0;
      log_words = r.words;
      passed_at = r.passed_at;
      passed = r.passed;
      gone = r.gone;
      known = r.reader.known;
      place = r.reader.place;
      frames = r.reader.frames;
      ended = r.reader.ended;
    } };

    ghost invariant = { λ r. (r.log.0 + r.words < 2 ^ 64) × (0 < r.words)
        × (r.passed ≤ r.reader.place) × (r.reader.known ≤ r.words + r.passed)
        × (r.passed_at ≡ None → r.passed ≡ 0)
        × IfSome r.passed_at (LiesApart r.log.0 r.length.0 r.words) };
}

impl Reader {
    ghost use Rattle.bus_deliverylog.specs.Receiving.{due_kind, due_op, receiving_op, reading_of};
    ghost use Rattle.bus_deliverylog.specs.Receiving.{leaving_op, with_leave, LiesApart};
    ghost use Rattle.bus_deliverylog.specs.Receiving.{joining_op, forked_at, WritesApart};
    ghost use Rattle.bus_deliverylog.specs.Receiving.{with_reading, HasReceived, passing_due};
    ghost use Rattle.bus_deliverylog.specs.Receiving.{TakesLength, TakesNext, TakesPassed};

    /// A receiver at the first word of a log of so many senders, which has `words` words from `log`
    /// on, and its length at `length`. It knows no word. Its passed place is the word `passed_at`;
    /// it has none where no word of the log is used again. One that lay in the log would be stored
    /// over what was published there.
    pub fn new(senders: u64, log: Reg, length: Reg, words: u64, passed_at: Option<u64>) -> Reader
        requires fits { log.0 + words < 2 ^ 64 }
        requires some { 0 < words }
        requires apart { IfSome passed_at (LiesApart log.0 length.0 words) }
        ensures at { (result.log_at ≡ log.0) × (result.length_at ≡ length.0)
            × (result.log_words ≡ words) × (result.passed_at ≡ passed_at) }
        ensures start { (result.known ≡ 0) × (result.place ≡ 0) × (result.passed ≡ 0)
            × (result.ended ≡ false) × (result.gone ≡ false) }
        ensures senders { result.frames.senders ≡ senders }
        ensures received { HasReceived [] [] (reading_of result) }
    {
        Reader {
            log,
            length,
            words,
            passed_at,
            passed: 0,
            gone: false,
            reader: LogReader::new(senders),
        }
    }

    /// How many words it has read.
    pub fn place(&self) -> u64
        ensures place { result ≡ self.now.place }
        ensures within { result ≤ self.now.known }
    {
        self.reader.place()
    }

    /// The length that it knows.
    pub fn known(&self) -> u64
        ensures known { result ≡ self.now.known }
        ensures within { result ≤ self.now.log_words + self.now.passed }
        ensures alone { self.now.passed_at ≡ None → result ≤ self.now.log_words }
    {
        self.reader.known()
    }

    /// The place that it stored in its passed place last, and 0 before. Leaving does not change it.
    pub fn passed(&self) -> u64
        ensures passed { result ≡ self.now.passed }
        ensures within { result ≤ self.now.place }
        ensures never { self.now.passed_at ≡ None → result ≡ 0 }
    {
        self.passed
    }

    /// The end was among what it read.
    pub fn has_ended(&self) -> bool
        ensures { result ≡ self.now.ended }
    {
        self.reader.has_ended()
    }

    /// It has left for good.
    pub fn has_left(&self) -> bool
        ensures { result ≡ self.now.gone }
    {
        self.gone
    }

    /// The step with which it leaves for good: it stores 2^64 - 1 in its passed place. None where
    /// it has no such place.
    pub fn leaving(&self) -> Option<Op>
        ensures { result ≡ leaving_op self.now }
    {
        match self.passed_at {
            None => None,
            Some(at) => Some(Op::Store(Reg(at), PASSED_ALL)),
        }
    }

    /// Another receiver, which is just what this one is, but that it has the passed place of a
    /// receiver of the same log. It has taken no step, and this one goes on as before.
    pub fn forked(&self, other: &Reader) -> Reader
        requires log { (other.now.log_at ≡ self.now.log_at)
            × (other.now.length_at ≡ self.now.length_at)
            × (other.now.log_words ≡ self.now.log_words) }
        requires both { other.now.passed_at ≡ None → self.now.passed_at ≡ None }
        ensures { result ≡ forked_at other.now.passed_at self.now }
    {
        Reader {
            log: self.log,
            length: self.length,
            words: self.words,
            passed_at: other.passed_at,
            passed: self.passed,
            gone: self.gone,
            reader: self.reader.copied(),
        }
    }

    /// The step with which one that was made joins: where its passed place shows 2^64 - 1 it stores
    /// there what it has passed. None where it has no such place.
    pub fn joining(&self) -> Option<Op>
        ensures { result ≡ joining_op self.now }
    {
        match self.passed_at {
            None => None,
            Some(at) => Some(Op::Cas(Reg(at), PASSED_ALL, self.passed)),
        }
    }

    /// What it writes with its next step, as it leaves, or as it joins, lies apart from the log and
    /// from its length.
    pub fn writes_apart(&self)
        ensures next { IfSome (receiving_op self.now) (WritesApart self.now) }
        ensures leaving { IfSome (leaving_op self.now) (WritesApart self.now) }
        ensures joining { IfSome (joining_op self.now) (WritesApart self.now) }
    {
        let _ = &self.reader;
    }

    /// It leaves for good.
    pub fn leave(&mut self)
        ensures { self.new ≡ with_leave self.old }
    {
        self.gone = true;
    }

    /// Where it is to store its place: it has heard a whole frame since it did last.
    fn passing(&self) -> Option<u64>
        ensures { result ≡ passing_due self.now }
    {
        if self.reader.is_between() && self.passed < self.reader.place() {
            self.passed_at
        } else {
            None
        }
    }

    /// What the next step is for; none after the end, and none of one that has left.
    pub fn kind(&self) -> Option<Kind>
        ensures { result ≡ due_kind self.now }
    {
        if self.has_left() {
            None
        } else if self.reader.has_ended() {
            None
        } else if let Some(_) = self.passing() {
            Some(Kind::StorePassed)
        } else if self.reader.place() == self.reader.known() {
            Some(Kind::LoadLength)
        } else {
            Some(Kind::LoadLogWord)
        }
    }

    /// The next step; none after the end, and none of one that has left.
    pub fn next(&self) -> Option<Op>
        ensures { result ≡ due_op self.now }
    {
        if self.gone {
            None
        } else if self.reader.has_ended() {
            None
        } else if let Some(at) = self.passing() {
            Some(Op::Store(Reg(at), self.reader.place()))
        } else if self.reader.place() == self.reader.known() {
            Some(Op::Load(self.length))
        } else {
            let place = cell(self.reader.place(), self.words);
            Some(Op::Load(Reg(self.log.0 + place)))
        }
    }

    /// The step that `next` told was taken, and found `got`.
    pub fn feed(&mut self, got: u64) -> RecvTurn
        requires { self.old.ended ≡ false }
        ensures passed { (at : _) → passing_due self.old ≡ Some at
            → TakesPassed self.old result self.new }
        ensures length { passing_due self.old ≡ None → self.old.place ≡ self.old.known
            → TakesLength self.old got result self.new }
        ensures word { passing_due self.old ≡ None → self.old.place ≢ self.old.known
            → TakesNext (reading_of self.old) got result (reading_of self.new) }
        ensures registers { passing_due self.old ≡ None
            → self.new ≡ with_reading self.old (reading_of self.new) }
        ensures keeps { (self.new.log_at ≡ self.old.log_at)
            × (self.new.length_at ≡ self.old.length_at)
            × (self.new.log_words ≡ self.old.log_words)
            × (self.new.passed_at ≡ self.old.passed_at)
            × (self.new.gone ≡ self.old.gone) }
        ensures place { self.new.place ≤ self.old.place + 1 }
        ensures senders { self.new.frames.senders ≡ self.old.frames.senders }
    {
        if let Some(_) = self.passing() {
            self.passed = self.reader.place();
            return RecvTurn::Going;
        }
        if self.reader.place() == self.reader.known() {
            return self.feed_length(got);
        }
        self.reader.take_word(got)
    }

    /// A length was found.
    fn feed_length(&mut self, got: u64) -> RecvTurn
        requires { self.old.place ≡ self.old.known }
        ensures length { TakesLength self.old got result self.new }
        ensures registers { self.new ≡ with_reading self.old (reading_of self.new) }
        ensures place { self.new.place ≡ self.old.place }
        ensures senders { self.new.frames.senders ≡ self.old.frames.senders }
    {
        if got == self.reader.known() {
            return RecvTurn::Empty;
        }
        if self.reader.known() < got && got - self.passed <= self.words {
            self.reader.learn(got);
        }
        RecvTurn::Going
    }
}
