//! A reader of the log's words, one at a time.

ghost use Rattle.std.specs.Prelude.{◌≡◌, ℕ, ◌+◌, ◌*◌, ◌-◌, ◌<◌, ◌≤◌};
ghost use Rattle.std.specs.Prelude.{◌^◌, List, [], ◌∷◌, ◌++◌, length, IfSome};
ghost use Rattle.std.specs.Prelude.{IfNone, IsNone, IfOk, OnErr, IsErr, IsTrue, ◌↔◌, false, ◌⊎◌};
ghost use Rattle.std.specs.Prelude.{All, drop, replicate};
ghost use Rattle.std.specs.Int.{w64, to_be_bytes};
ghost use Rattle.bus_batch.specs.Frames.{data_len};

use crate::messages::{Item, Message, Piece};
use crate::words::{COUNT, END, HIGH, LEAVE, TAG};
use bus_register::SenderNo;
use bus_register::limits::{MOST_BYTES, MOST_MESSAGE_WORDS, MOST_MESSAGES, NUMBERS};
use std::marker::Model;

/// No log goes on with this word.
#[derive(Clone, Copy, Debug, PartialEq, Eq)]
pub struct BadWord;

/// What a head says.
#[derive(Clone, Copy)]
struct Head {
    tenure: u64,
    owner: SenderNo,
    count: u64,
}

/// What a message word says.
#[derive(Clone, Copy)]
struct Length {
    len: u64,
    number: u64,
}

/// A message with bytes that a frame goes on with: how many words of bytes stand behind its own,
/// and what a reader knows of it before these are read.
#[derive(Clone, Copy)]
pub struct Span {
    /// 1 to 7.
    pub words: u64,
    owner: SenderNo,
    /// Of the frame so many words are left, its own among them, and so many messages at most.
    left: u64,
    room: u64,
    number: u64,
    len: u64,
}

/// Where a reader stands in the log.
#[derive(Clone, Copy, Debug)]
enum Place {
    /// At a head, or at the end.
    Between,
    /// In a message's place: of the frame so many words are left, and so many messages at most.
    Body {
        owner: SenderNo,
        left: u64,
        room: u64,
    },
    /// Within a message of so many bytes; `left` counts its words too.
    Data {
        owner: SenderNo,
        left: u64,
        room: u64,
        number: u64,
        len: u64,
    },
    /// After an end mark.
    Ended,
    /// After a bad word.
    Bad,
}

/// How many owners a head can name.
const OWNERS: usize = 256;

/// The most messages of a frame.
const BATCH_MESSAGES: u64 = MOST_MESSAGES as u64;

ghost use Rattle.bus_batch.specs.Steps.{IsHead, IsMessageWord, IsAfter};

/// The head that a word is, of a frame of so many messages at most, of one of so many senders and
/// of a tenure not below `least`.
fn head_of(word: u64, most: u64, senders: u64, least: u64) -> Option<Head>
    requires { most ≤ MOST_MESSAGES }
    ensures some { IfSome result (IsHead most senders least word) }
    ensures none { IfNone result ((h : _) → ¬ IsHead most senders least word h) }
{
    let tag = word / TAG;
    let owner = word % TAG / HIGH;
    let count = word % HIGH / COUNT;
    let tenure = word % COUNT;
    let fillable = 1 <= count && count <= MOST_MESSAGE_WORDS * most;
    if tag == 1 && owner < senders && fillable && tenure >= least {
        Some(Head {
            tenure,
            owner: SenderNo(owner as u8),
            count,
        })
    } else {
        None
    }
}

/// The length and the number that a message word has.
fn message_of(word: u64) -> Option<Length>
    ensures some { IfSome result (IsMessageWord word) }
    ensures none { IfNone result ((m : _) → ¬ IsMessageWord word m) }
{
    let tag = word / TAG;
    let len = word % TAG / HIGH;
    let number = word % HIGH;
    if tag == 2 && len <= MOST_BYTES as u64 && number < NUMBERS {
        Some(Length { len, number })
    } else {
        None
    }
}

/// Reads the words of a log in order, and tells what each says.
///
/// After a bad word it answers `BadWord` for good.
#[derive(Debug, Drop)]
pub struct FrameReader {
    senders: u64,
    /// The messages of a frame: at most so many, 1 to 64.
    most: u64,
    least: u64,
    /// Who has left, by number: for each owner that a head can name.
    left: [bool; OWNERS],
    place: Place,
    bytes: Message,
}

impl Model for FrameReader {
    ghost use Rattle.std.specs.Prelude.{◌≤◌};
    ghost use Rattle.bus_register.specs.declared.limits.TheConstants.{MOST_MESSAGES};
    ghost use Rattle.bus_batch.specs.Reading.{Reading, IsSound};

    ghost Value = { Reading };

    ghost view = { λ r. record {
      senders = r.senders;
      most = r.most;
      least = r.least;
      left = r.left;
      place = r.place;
      bytes = r.bytes;
    } };

    ghost invariant = { λ r. IsSound r.most r.place r.bytes × (1 ≤ r.most)
        × (r.most ≤ MOST_MESSAGES) };
}

impl FrameReader {
    ghost use Rattle.bus_batch.specs.declared.readers.Place.TheVariants as place;
    ghost use Rattle.bus_batch.specs.Frames.{IsBadWordOf, GivesPieceOf, IsLogOf, SpellsOf};
    ghost use Rattle.bus_batch.specs.Frames.{order_in};
    ghost use Rattle.bus_batch.specs.Frames.{owners_in, end_word, mark_word};
    ghost use Rattle.bus_batch.specs.declared.messages.Mark.TheVariants as mark;
    ghost use Rattle.bus_batch.specs.Reading.{HasRead, HasReadOf, HasMetBadWord, is_between};
    ghost use Rattle.bus_batch.specs.Reading.{IsTornOrEndedOf, IsSound};
    ghost use Rattle.bus_batch.specs.declared.messages.Piece.TheVariants as piece;
    ghost use Rattle.bus_batch.specs.Steps.{Steps, Refuses};
    ghost use Rattle.bus_batch.specs.Reading.{words_left};
    ghost use Rattle.bus_batch.specs.Spans.{IsSpan, LeadsOn, Stops, GoesOnWithin, HasBytes, midway};

    /// A reader of a log of so many senders, before its first word: a frame may have as many
    /// messages as any.
    pub fn new(senders: u64) -> FrameReader
        ensures senders { result.senders ≡ senders }
        ensures read { HasRead senders [] [] result }
    {
        FrameReader::within(senders, BATCH_MESSAGES)
    }

    /// The same of a log whose frames have so many messages at most, 1 to 64.
    pub fn within(senders: u64, most: u64) -> FrameReader
        requires most { (1 ≤ most) × (most ≤ MOST_MESSAGES) }
        ensures senders { result.senders ≡ senders }
        ensures read { HasReadOf most senders [] [] result }
    {
        FrameReader {
            senders,
            most,
            least: 0,
            left: nobody(),
            place: Place::Between,
            bytes: Message::new(),
        }
    }

    /// The same reader once more, where it stands. Takes no memory.
    pub fn copied(&self) -> FrameReader
        ensures { result ≡ self.now }
    {
        FrameReader {
            senders: self.senders,
            most: self.most,
            least: self.least,
            left: self.left,
            place: self.place,
            bytes: self.bytes.copied(),
        }
    }

    /// The words so far end within a frame: they begin a log and are none. After a bad word it
    /// answers no.
    pub fn inside(&self) -> bool
        ensures torn { (most : _) (words : _) (pieces : _) → HasReadOf most self.now.senders words
            pieces self.now
            → IsTrue result → ¬ IsLogOf most self.now.senders words }
        // Outside the words are a log, and the pieces say its order and owners.
        ensures whole { (most : _) (words : _) (pieces : _) → HasReadOf most self.now.senders words
            pieces self.now
            → result ≡ false
            → SpellsOf most self.now.senders words (order_in pieces) (owners_in pieces) }
        ensures met { HasMetBadWord self.now → result ≡ false }
    {
        matches!(self.place, Place::Body { .. } | Place::Data { .. })
    }

    /// No frame is under way, and the order has not ended: the next word is a head.
    pub fn is_between(&self) -> bool
        ensures between { result ≡ is_between self.now.place }
        // The words so far are a log that has not ended, and the pieces say its order and owners.
        ensures log { (most : _) (words : _) (pieces : _) → HasReadOf most self.now.senders words
            pieces self.now
            → IsTrue result
            → SpellsOf most self.now.senders words (order_in pieces) (owners_in pieces)
            × ((order_in pieces).ended ≡ false) }
        // Else they are none, or it has ended.
        ensures within { (most : _) (words : _) (pieces : _) → HasReadOf most self.now.senders
            words pieces self.now
            → result ≡ false → IsTornOrEndedOf most self.now.senders words pieces }
    {
        matches!(self.place, Place::Between)
    }

    /// Takes a word in a head's place.
    fn take_head(&mut self, word: u64) -> Result<Option<Piece>, BadWord>
        requires { self.old.place ≡ place.Between }
        ensures senders { self.new.senders ≡ self.old.senders }
        ensures sound { IsSound self.new.most self.new.place self.new.bytes }
        ensures steps { Steps self.old word result self.new }
    {
        match head_of(word, self.most, self.senders, self.least) {
            Some(head) => {
                if self.left[head.owner.0 as usize] {
                    return Err(BadWord);
                }
                self.least = head.tenure + 1;
                self.place = Place::Body {
                    owner: head.owner,
                    left: head.count,
                    room: self.most,
                };
                Ok(Some(Piece::Head {
                    tenure: head.tenure,
                    owner: head.owner,
                }))
            }
            None => Err(BadWord),
        }
    }

    /// Takes a word in a message's place.
    fn take_message(
        &mut self,
        word: u64,
        owner: SenderNo,
        left: u64,
        room: u64,
    ) -> Result<Option<Piece>, BadWord>
        requires { self.old.place ≡ place.Body owner left room }
        ensures senders { self.new.senders ≡ self.old.senders }
        ensures sound { IsSound self.new.most self.new.place self.new.bytes }
        ensures steps { Steps self.old word result self.new }
    {
        let _held = &self.bytes;
        if word >= END {
            return self.take_mark(word, owner, left, room);
        }
        match message_of(word) {
            Some(length) => self.take_length(word, owner, left, room, length),
            None => Err(BadWord),
        }
    }

    /// Takes a word with the tag of a mark.
    fn take_mark(
        &mut self,
        word: u64,
        owner: SenderNo,
        left: u64,
        room: u64,
    ) -> Result<Option<Piece>, BadWord>
        requires place { self.old.place ≡ place.Body owner left room }
        requires word { end_word ≤ word }
        ensures senders { self.new.senders ≡ self.old.senders }
        ensures sound { IsSound self.new.most self.new.place self.new.bytes }
        ensures steps { Steps self.old word result self.new }
    {
        let _held = &self.bytes;
        if word == END {
            return self.take_end(word, owner, left, room);
        }
        if word == LEAVE {
            return self.take_leave(word, owner, left, room);
        }
        Err(BadWord)
    }

    /// Takes an end word.
    fn take_end(
        &mut self,
        word: u64,
        owner: SenderNo,
        left: u64,
        room: u64,
    ) -> Result<Option<Piece>, BadWord>
        requires place { self.old.place ≡ place.Body owner left room }
        requires word { word ≡ end_word }
        ensures senders { self.new.senders ≡ self.old.senders }
        ensures sound { IsSound self.new.most self.new.place self.new.bytes }
        ensures steps { Steps self.old word result self.new }
    {
        let most = self.most;
        if left == 1 && room == most {
            self.place = Place::Ended;
            Ok(Some(Piece::End))
        } else {
            Err(BadWord)
        }
    }

    /// Takes a leave word.
    fn take_leave(
        &mut self,
        word: u64,
        owner: SenderNo,
        left: u64,
        room: u64,
    ) -> Result<Option<Piece>, BadWord>
        requires place { self.old.place ≡ place.Body owner left room }
        requires word { word ≡ mark_word mark.Leave }
        ensures senders { self.new.senders ≡ self.old.senders }
        ensures sound { IsSound self.new.most self.new.place self.new.bytes }
        ensures steps { Steps self.old word result self.new }
    {
        let _held = &self.bytes;
        let most = self.most;
        if left == 1 && room == most {
            self.left[owner.0 as usize] = true;
            self.place = Place::Between;
            Ok(Some(Piece::Leave(owner)))
        } else {
            Err(BadWord)
        }
    }

    /// Takes a message word.
    fn take_length(
        &mut self,
        word: u64,
        owner: SenderNo,
        left: u64,
        room: u64,
        length: Length,
    ) -> Result<Option<Piece>, BadWord>
        requires place { self.old.place ≡ place.Body owner left room }
        requires word { IsMessageWord word length }
        ensures senders { self.new.senders ≡ self.old.senders }
        ensures sound { IsSound self.new.most self.new.place self.new.bytes }
        ensures steps { Steps self.old word result self.new }
    {
        let _held = &self.bytes;
        if length.len > 0 {
            return if self.begin_message(word, owner, left, room, length) {
                Ok(None)
            } else {
                Err(BadWord)
            };
        }
        if !can_hold(left, room, 0) {
            return Err(BadWord);
        }
        self.place = place_after(owner, left - 1, room - 1);
        Ok(Some(Piece::Item(Item {
            sender: owner,
            number: length.number,
            message: Message::new(),
        })))
    }

    /// Takes the word of a message that has bytes, and says whether it did; a bad one changes
    /// nothing.
    #[inline(always)]
    fn begin_message(
        &mut self,
        word: u64,
        owner: SenderNo,
        left: u64,
        room: u64,
        length: Length,
    ) -> bool
        requires place { self.old.place ≡ place.Body owner left room }
        requires word { IsMessageWord word length }
        requires some { 0 < length.len }
        ensures senders { self.new.senders ≡ self.old.senders }
        ensures sound { IsSound self.new.most self.new.place self.new.bytes }
        ensures good { IsTrue result → Steps self.old word (Ok None) self.new }
        ensures bad { result ≡ false → Refuses self.old word × (self.new ≡ self.old) }
    {
        let _held = &self.bytes;
        if !can_hold(left, room, length.len) {
            return false;
        }
        self.place = Place::Data {
            owner,
            left: left - 1,
            room: room - 1,
            number: length.number,
            len: length.len,
        };
        true
    }

    /// Takes a word of a message's bytes.
    fn take_bytes(
        &mut self,
        word: u64,
        owner: SenderNo,
        left: u64,
        room: u64,
        length: Length,
    ) -> Result<Option<Piece>, BadWord>
        requires { self.old.place ≡ place.Data owner left room length.number length.len }
        ensures senders { self.new.senders ≡ self.old.senders }
        ensures sound { IsSound self.new.most self.new.place self.new.bytes }
        ensures steps { Steps self.old word result self.new }
    {
        if length.len as usize - self.bytes.len() > 8 {
            self.take_part(word, owner, left, room, length);
            return Ok(None);
        }
        let mut item = Item::blank();
        if self.take_last(word, owner, left, room, length, &mut item) {
            Ok(Some(Piece::Item(item)))
        } else {
            Err(BadWord)
        }
    }

    /// Takes eight bytes of a message that has more.
    #[inline(always)]
    fn take_part(&mut self, word: u64, owner: SenderNo, left: u64, room: u64, told: Length)
        requires place { self.old.place ≡ place.Data owner left room told.number told.len }
        requires more { length self.old.bytes + 8 < told.len }
        ensures senders { self.new.senders ≡ self.old.senders }
        ensures sound { IsSound self.new.most self.new.place self.new.bytes }
        ensures steps { Steps self.old word (Ok None) self.new }
    {
        let _held = &self.bytes;
        self.place = Place::Data {
            owner,
            left: left - 1,
            room,
            number: told.number,
            len: told.len,
        };
        self.bytes.append_word(word);
    }

    /// Takes the last bytes of a message, writes its item in place, and says whether it did; a bad
    /// word changes nothing.
    #[inline(always)]
    fn take_last(
        &mut self,
        word: u64,
        owner: SenderNo,
        left: u64,
        room: u64,
        told: Length,
        item: &mut Item,
    ) -> bool
        requires place { self.old.place ≡ place.Data owner left room told.number told.len }
        requires last { told.len ≤ length self.old.bytes + 8 }
        ensures senders { self.new.senders ≡ self.old.senders }
        ensures sound { IsSound self.new.most self.new.place self.new.bytes }
        ensures good { IsTrue result
            → Steps self.old word (Ok (Some (piece.Item item.new))) self.new }
        ensures bad { result ≡ false
            → Refuses self.old word × (self.new ≡ self.old) × (item.new ≡ item.old) }
    {
        let missing = told.len - self.bytes.len() as u64;
        if !is_padded(word, missing) {
            return false;
        }
        item.sender = owner;
        item.number = told.number;
        item.message
            .finish(&mut self.bytes, word, told.len as usize);
        self.place = place_after(owner, left - 1, room);
        true
    }

    /// How many words are left of its frame, where the next is a message's or a mark; else 0.
    #[inline(always)]
    pub fn left(&self) -> u64
        ensures { result ≡ words_left self.now.place }
    {
        match self.place {
            Place::Body { left, .. } => left,
            _ => 0,
        }
    }

    /// A message with bytes that the next word begins; it may find none. Nothing is taken yet:
    /// `take_span` takes its words all at once.
    #[inline(always)]
    pub fn span(&self, told: u64) -> Option<Span>
        ensures span { IfSome result (IsSpan self.now) }
        // Its own word and those of bytes, but for the last, say nothing by themselves.
        ensures begins { IfSome result
            (λ span. LeadsOn self.now told None (midway self.now span [])) }
        ensures within { IfSome result (GoesOnWithin self.now) }
    {
        let Place::Body { owner, left, room } = self.place else {
            return None;
        };
        let Some(length) = message_of(told) else {
            return None;
        };
        if length.len == 0 || !can_hold(left, room, length.len) {
            return None;
        }
        Some(Span {
            words: (length.len + 7) / 8,
            owner,
            left,
            room,
            number: length.number,
            len: length.len,
        })
    }

    /// Takes all words of a message, the last of them this, where the item has the bytes of those
    /// behind its own; makes the item of them, and says whether it did. A bad one changes nothing.
    #[inline(always)]
    pub fn take_span(&mut self, span: Span, last: u64, item: &mut Item) -> bool
        requires span { IsSpan self.old span }
        requires bytes { (taken : List ℕ) × HasBytes span taken last item.old }
        ensures senders { self.new.senders ≡ self.old.senders }
        ensures good { IsTrue result → (taken : List ℕ) → HasBytes span taken last item.old
            → LeadsOn (midway self.old span taken) last (Some (piece.Item item.new)) self.new }
        ensures bad { result ≡ false → (taken : List ℕ) → HasBytes span taken last item.old
            → Stops (midway self.old span taken) last }
        ensures stays { result ≡ false → (self.new ≡ self.old) × (item.new ≡ item.old) }
    {
        if !is_padded(last, span.len + 8 - 8 * span.words) {
            return false;
        }
        item.sender = span.owner;
        item.number = span.number;
        item.message.truncate(span.len as usize);
        self.place = place_after(span.owner, span.left - (1 + span.words), span.room - 1);
        true
    }

    /// Takes the next word where it says nothing by itself, and says whether it did; else nothing
    /// changes.
    #[inline(always)]
    pub fn take_plain(&mut self, word: u64) -> bool
        ensures senders { self.new.senders ≡ self.old.senders }
        ensures gives { (most : _) (words : _) (pieces : _) → HasReadOf most self.old.senders words
            pieces self.old
            → IsTrue result → GivesPieceOf most self.old.senders words word None }
        ensures read { (most : _) (words : _) (pieces : _) → HasReadOf most self.old.senders words
            pieces self.old
            → IsTrue result
            → HasReadOf most self.old.senders (words ++ word ∷ []) (pieces ++ None ∷ []) self.new }
        ensures stays { result ≡ false → self.new ≡ self.old }
        ensures for_good { HasMetBadWord self.old → result ≡ false }
    {
        match self.place {
            Place::Body { owner, left, room } => {
                let Some(length) = message_of(word) else {
                    return false;
                };
                length.len > 0 && self.begin_message(word, owner, left, room, length)
            }
            Place::Data {
                owner,
                left,
                room,
                number,
                len,
            } => {
                if len as usize - self.bytes.len() <= 8 {
                    return false;
                }
                self.take_part(word, owner, left, room, Length { len, number });
                true
            }
            _ => false,
        }
    }

    /// Takes the next word where it is the last of a message with bytes, writes the item in place,
    /// and says whether it did; else nothing changes.
    #[inline(always)]
    pub fn take_item(&mut self, word: u64, item: &mut Item) -> bool
        ensures senders { self.new.senders ≡ self.old.senders }
        ensures gives { (most : _) (words : _) (pieces : _) → HasReadOf most self.old.senders words
            pieces self.old
            → IsTrue result
            → GivesPieceOf most self.old.senders words word (Some (piece.Item item.new)) }
        ensures read { (most : _) (words : _) (pieces : _) → HasReadOf most self.old.senders words
            pieces self.old
            → IsTrue result
            → HasReadOf most self.old.senders (words ++ word ∷ [])
            (pieces ++ Some (piece.Item item.new) ∷ []) self.new }
        ensures stays { result ≡ false → (self.new ≡ self.old) × (item.new ≡ item.old) }
        ensures for_good { HasMetBadWord self.old → result ≡ false }
    {
        match self.place {
            Place::Data {
                owner,
                left,
                room,
                number,
                len,
            } => {
                if len as usize - self.bytes.len() > 8 {
                    return false;
                }
                self.take_last(word, owner, left, room, Length { len, number }, item)
            }
            Place::Between | Place::Body { .. } | Place::Ended | Place::Bad => false,
        }
    }

    /// Takes the next word, and gives what it says. After a bad word it stands where it stood.
    pub fn try_feed(&mut self, word: u64) -> Result<Option<Piece>, BadWord>
        ensures senders { self.new.senders ≡ self.old.senders }

        // It refuses exactly the words that no log goes on with.
        ensures bad { (most : _) (words : _) (pieces : _) → HasReadOf most self.old.senders words
            pieces self.old
            → (IsErr result ↔ IsBadWordOf most self.old.senders words word) }
        ensures gives { (most : _) (words : _) (pieces : _) → HasReadOf most self.old.senders words
            pieces self.old
            → IfOk result (GivesPieceOf most self.old.senders words word) }
        ensures read { (most : _) (words : _) (pieces : _) → HasReadOf most self.old.senders words
            pieces self.old
            → IfOk result
            (λ found. HasReadOf most self.old.senders
            (words ++ word ∷ []) (pieces ++ found ∷ []) self.new) }

        ensures stays { OnErr result (self.new ≡ self.old) }
        ensures for_good { HasMetBadWord self.old → IsErr result }
    {
        match self.place {
            Place::Between => self.take_head(word),
            Place::Body { owner, left, room } => self.take_message(word, owner, left, room),
            Place::Data {
                owner,
                left,
                room,
                number,
                len,
            } => self.take_bytes(word, owner, left, room, Length { len, number }),
            Place::Ended | Place::Bad => Err(BadWord),
        }
    }

    /// Takes the next word, and gives what it says.
    pub fn feed(&mut self, word: u64) -> Result<Option<Piece>, BadWord>
        ensures senders { self.new.senders ≡ self.old.senders }

        // It refuses exactly the words that no log goes on with.
        ensures bad { (most : _) (words : _) (pieces : _) → HasReadOf most self.old.senders words
            pieces self.old
            → (IsErr result ↔ IsBadWordOf most self.old.senders words word) }
        ensures gives { (most : _) (words : _) (pieces : _) → HasReadOf most self.old.senders words
            pieces self.old
            → IfOk result (GivesPieceOf most self.old.senders words word) }
        ensures read { (most : _) (words : _) (pieces : _) → HasReadOf most self.old.senders words
            pieces self.old
            → IfOk result
            (λ found. HasReadOf most self.old.senders
            (words ++ word ∷ []) (pieces ++ found ∷ []) self.new) }

        ensures met { OnErr result (HasMetBadWord self.new) }
        ensures for_good { HasMetBadWord self.old → IsErr result }
    {
        let found = self.try_feed(word);
        if found.is_err() {
            self.place = Place::Bad;
        }
        found
    }
}

/// A frame with so many words left, and so many messages at most, can go on with a message of so
/// many bytes: the words are enough for it, and what is left then can be filled.
#[inline(always)]
fn can_hold(left: u64, room: u64, len: u64) -> bool
    requires len { len ≤ MOST_BYTES }
    requires room { (1 ≤ room) × (room ≤ MOST_MESSAGES) }
    ensures enough { IsTrue result → 1 + data_len len ≤ left }
    ensures fillable { IsTrue result
        → left - (1 + data_len len) ≤ MOST_MESSAGE_WORDS * (room - 1) }
    ensures none { result ≡ false
        → (left < 1 + data_len len)
        ⊎ (MOST_MESSAGE_WORDS * (room - 1) < left - (1 + data_len len)) }
{
    let words = 1 + (len + 7) / 8;
    left >= words && left - words <= MOST_MESSAGE_WORDS * (room - 1)
}

/// Nobody has left.
fn nobody() -> [bool; OWNERS]
    ensures { result ≡ replicate OWNERS false }
{
    [false; OWNERS]
}

/// Where a reader stands after a message, with so many words and messages left.
fn place_after(owner: SenderNo, left: u64, room: u64) -> Place
    ensures { IsAfter owner left room result }
{
    if left == 0 {
        Place::Between
    } else {
        Place::Body { owner, left, room }
    }
}

/// Behind so many bytes of a word all bytes are zero.
#[inline(always)]
fn is_padded(word: u64, bytes: u64) -> bool
    requires { (1 ≤ bytes) × (bytes ≤ 8) }
    ensures { IsTrue result
        ↔ All (λ b. b ≡ 0) (drop bytes (to_be_bytes w64 word)) }
{
    word % (1u64 << (64 - 8 * bytes)) == 0
}
