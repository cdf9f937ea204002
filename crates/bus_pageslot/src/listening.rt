//! A receiver's turn: one load, and what its reader makes of it, or a store of its place.

ghost use Rattle.std.specs.Prelude.{◌≡◌, ◌≢◌, ◌+◌, ◌-◌, ◌<◌};
ghost use Rattle.std.specs.Prelude.{None, Some, false};
ghost use Rattle.bus_pageslot.specs.Rounds.{HasSpan};
ghost use Rattle.bus_pageslot.specs.Seats.{IsReceiverView};
ghost use Rattle.bus_pageslot.specs.Steps.{HasPassed};
ghost use Rattle.bus_batch.specs.declared.messages.Item.{Item};
ghost use Rattle.bus_deliverylog.specs.declared.receiving.RecvTurn.{RecvTurn};
ghost use Rattle.bus_deliverylog.specs.Receiving.{TakesNext};
ghost use Rattle.bus_pageslot.specs.Listening.{Hears, HearsLength, HearsWord, PassesNext};
ghost use Rattle.bus_pageslot.specs.Listening.{item_turn_of};
ghost use Rattle.bus_pageslot.specs.Listening.{Writes, WritesOrPlain, HearsSigned, sign_after};

use crate::listeners::Listener;
use crate::rule::BusSeat;
use crate::words::Words;
use bus_adoptcommit::Ratifier;
use bus_batch::Item;
use bus_deliverylog::{LogReader, RecvTurn};

/// What a turn of a receiver answers where an item is written in its place.
#[derive(Clone, Copy, Debug, PartialEq, Eq)]
pub enum ItemTurn {
    /// A head, a leave mark, a longer length, a word that says nothing by itself, one that is not
    /// taken, or a store of its place.
    Going,
    /// The length is the one that it knew, and its place is there.
    Empty,
    /// The item was written.
    Item,
    /// The order has ended.
    End,
}

/// The answer with its item written in place, and with a head or a leave mark written as the sign;
/// any other answer leaves both as they were.
#[inline(always)]
fn tell(answer: RecvTurn, item: &mut Item, sign: &mut RecvTurn) -> ItemTurn
    ensures item { Writes answer item.old result item.new }
    ensures sign { sign.new ≡ sign_after answer sign.old }
{
    match answer {
        RecvTurn::Item(given) => {
            *item = given;
            ItemTurn::Item
        }
        RecvTurn::End => ItemTurn::End,
        RecvTurn::Empty => ItemTurn::Empty,
        RecvTurn::Going => ItemTurn::Going,
        RecvTurn::Head { .. } | RecvTurn::Leave(_) => {
            *sign = answer;
            ItemTurn::Going
        }
    }
}

/// The answer of one turn, of which this was told, with this item and this sign. Where none was
/// told, the turn took a word that says nothing by itself.
#[inline(always)]
pub(crate) fn answered(told: Option<ItemTurn>, item: Item, sign: RecvTurn) -> RecvTurn
    ensures { (answer : RecvTurn) (before : Item) → WritesOrPlain answer before told item
        → sign ≡ sign_after answer RecvTurn.Going → result ≡ answer }
{
    match told {
        None => RecvTurn::Going,
        Some(ItemTurn::Going) => sign,
        Some(ItemTurn::Empty) => RecvTurn::Empty,
        Some(ItemTurn::Item) => RecvTurn::Item(item),
        Some(ItemTurn::End) => RecvTurn::End,
    }
}

/// Its place is stored in its passed place, which is the word `at`.
#[inline(never)]
fn pass<Q: Ratifier + Drop>(
    words: &Words<Q>,
    seat: &mut BusSeat<Q>,
    listener: &mut Listener,
    at: u64,
)
    requires table { seat.old.table_id ≡ words.now.table }
    requires receiver_view { IsReceiverView seat.old.me seat.old.table_id.words listener.old }
    requires going { listener.old.reader.ended ≡ false }
    requires due { PassesNext seat.old.me.0 }
    requires at { listener.old.cells.passed_at ≡ Some at }
    ensures table { seat.new.table_id ≡ seat.old.table_id }
    ensures receiver_view { IsReceiverView seat.new.me seat.new.table_id.words listener.new }
    ensures passed { HasPassed seat.old.me seat.new.me }
{
    let place = listener.reader.place();
    words.store_passed(seat, at as usize, place);
    listener.passed = place;
}

/// The length is loaded.
#[inline(never)]
fn hear_length<Q: Ratifier + Drop>(
    words: &Words<Q>,
    seat: &mut BusSeat<Q>,
    listener: &mut Listener,
) -> ItemTurn
    requires table { seat.old.table_id ≡ words.now.table }
    requires receiver_view { IsReceiverView seat.old.me seat.old.table_id.words listener.old }
    requires going { listener.old.reader.ended ≡ false }
    requires not_due { ¬ PassesNext seat.old.me.0 }
    requires at { listener.old.reader.place ≡ listener.old.reader.known }
    ensures table { seat.new.table_id ≡ seat.old.table_id }
    ensures receiver_view { IsReceiverView seat.new.me seat.new.table_id.words listener.new }
    ensures hears { (answer : RecvTurn) × (result ≡ item_turn_of answer)
        × HearsLength seat.old.me answer seat.new.me }
{
    let length = words.load_length_in_turn(seat);
    let is_known = length == listener.reader.known();
    listener.learn(length);
    if is_known {
        ItemTurn::Empty
    } else {
        ItemTurn::Going
    }
}

/// Any word is taken, and an item is written in place.
#[inline(never)]
fn feed_word(reader: &mut LogReader, word: u64, item: &mut Item, sign: &mut RecvTurn) -> ItemTurn
    requires going { reader.old.ended ≡ false }
    requires below { reader.old.place ≢ reader.old.known }
    ensures word { (answer : RecvTurn) × Writes answer item.old result item.new
        × (sign.new ≡ sign_after answer sign.old)
        × TakesNext reader.old word answer reader.new }
    ensures senders { reader.new.frames.senders ≡ reader.old.frames.senders }
{
    tell(reader.take_word(word), item, sign)
}

/// A word that may say something, or be bad, is taken, and an item is written in place.
#[inline(always)]
fn take_word(reader: &mut LogReader, word: u64, item: &mut Item, sign: &mut RecvTurn) -> ItemTurn
    requires going { reader.old.ended ≡ false }
    requires below { reader.old.place ≢ reader.old.known }
    ensures word { (answer : RecvTurn) × Writes answer item.old result item.new
        × (sign.new ≡ sign_after answer sign.old)
        × TakesNext reader.old word answer reader.new }
    ensures senders { reader.new.frames.senders ≡ reader.old.frames.senders }
{
    if reader.take_item(word, item) {
        return ItemTurn::Item;
    }
    feed_word(reader, word, item, sign)
}

/// The word at the reader's place is loaded, and an item is written in place, and so is a sign.
/// Where none is told, the word says nothing by itself.
#[inline(always)]
fn hear_word<Q: Ratifier + Drop>(
    words: &Words<Q>,
    seat: &mut BusSeat<Q>,
    listener: &mut Listener,
    item: &mut Item,
    sign: &mut RecvTurn,
) -> Option<ItemTurn>
    requires table { seat.old.table_id ≡ words.now.table }
    requires receiver_view { IsReceiverView seat.old.me seat.old.table_id.words listener.old }
    requires going { listener.old.reader.ended ≡ false }
    requires below { listener.old.reader.place ≢ listener.old.limit }
    ensures table { seat.new.table_id ≡ seat.old.table_id }
    ensures receiver_view { IsReceiverView seat.new.me seat.new.table_id.words listener.new }
    ensures hears { (answer : RecvTurn) × WritesOrPlain answer item.old result item.new
        × (sign.new ≡ sign_after answer sign.old) × HearsWord seat.old.me answer seat.new.me }
    ensures plain { result ≡ None → (listener.new.reader.known - listener.new.reader.place
        < listener.old.reader.known - listener.old.reader.place)
        × (listener.new.reader.ended ≡ false) }
{
    let at = listener.at();
    let word = words.load_word_in_turn(seat, at as usize);
    if listener.reader.take_plain(word) {
        return None;
    }
    Some(take_word(&mut listener.reader, word, item, sign))
}

/// The same where a round of the log is over: the next begins. An answer is told of any word, so
/// that who goes on from word to word sees at once which of them told none.
#[inline(never)]
fn hear_first<Q: Ratifier + Drop>(
    words: &Words<Q>,
    seat: &mut BusSeat<Q>,
    listener: &mut Listener,
    item: &mut Item,
    sign: &mut RecvTurn,
) -> ItemTurn
    requires table { seat.old.table_id ≡ words.now.table }
    requires receiver_view { IsReceiverView seat.old.me seat.old.table_id.words listener.old }
    requires going { listener.old.reader.ended ≡ false }
    requires over { listener.old.reader.place ≡ listener.old.limit }
    requires below { listener.old.reader.place ≢ listener.old.reader.known }
    ensures table { seat.new.table_id ≡ seat.old.table_id }
    ensures receiver_view { IsReceiverView seat.new.me seat.new.table_id.words listener.new }
    ensures hears { (answer : RecvTurn) × Writes answer item.old result item.new
        × (sign.new ≡ sign_after answer sign.old) × HearsWord seat.old.me answer seat.new.me }
{
    listener.next_round();
    let Some(turn) = hear_word(words, seat, listener, item, sign) else {
        return ItemTurn::Going;
    };
    turn
}

/// The turn of a receiver that has not ended and whose passed place is not due, with an item
/// written in place, and a head or a leave mark written as the sign. Where none is told, the word
/// says nothing by itself, and the passed place is not due behind it.
#[inline(always)]
fn hear_next<Q: Ratifier + Drop>(
    words: &Words<Q>,
    seat: &mut BusSeat<Q>,
    listener: &mut Listener,
    item: &mut Item,
    sign: &mut RecvTurn,
) -> Option<ItemTurn>
    requires table { seat.old.table_id ≡ words.now.table }
    requires receiver_view { IsReceiverView seat.old.me seat.old.table_id.words listener.old }
    requires going { listener.old.reader.ended ≡ false }
    requires passed { ¬ PassesNext seat.old.me.0 }
    ensures table { seat.new.table_id ≡ seat.old.table_id }
    ensures receiver_view { IsReceiverView seat.new.me seat.new.table_id.words listener.new }
    ensures hears { (answer : RecvTurn) × WritesOrPlain answer item.old result item.new
        × (sign.new ≡ sign_after answer sign.old) × Hears seat.old.me answer seat.new.me }
    ensures plain { result ≡ None → (listener.new.reader.known - listener.new.reader.place
        < listener.old.reader.known - listener.old.reader.place)
        × (listener.new.reader.ended ≡ false) }
    ensures passed { result ≡ None → ¬ PassesNext seat.new.me.0 }
{
    if listener.reader.place() != listener.limit {
        return hear_word(words, seat, listener, item, sign);
    }
    if listener.reader.place() == listener.reader.known() {
        return Some(hear_length(words, seat, listener));
    }
    Some(hear_first(words, seat, listener, item, sign))
}

/// The turn of a receiver that has not ended, with an item written in place, and a head or a leave
/// mark written as the sign. Where none is told, the word says nothing by itself.
#[inline(always)]
pub(crate) fn hear<Q: Ratifier + Drop>(
    words: &Words<Q>,
    seat: &mut BusSeat<Q>,
    listener: &mut Listener,
    item: &mut Item,
    sign: &mut RecvTurn,
) -> Option<ItemTurn>
    requires table { seat.old.table_id ≡ words.now.table }
    requires receiver_view { IsReceiverView seat.old.me seat.old.table_id.words listener.old }
    requires going { listener.old.reader.ended ≡ false }
    ensures table { seat.new.table_id ≡ seat.old.table_id }
    ensures receiver_view { IsReceiverView seat.new.me seat.new.table_id.words listener.new }
    ensures hears { (answer : RecvTurn) × WritesOrPlain answer item.old result item.new
        × (sign.new ≡ sign_after answer sign.old) × Hears seat.old.me answer seat.new.me }
{
    if let Some(at) = listener.pass_due() {
        pass(words, seat, listener, at);
        return Some(ItemTurn::Going);
    }
    hear_next(words, seat, listener, item, sign)
}

/// Turns of a receiver that knows its frame to the end, and no round ends in that: those of one
/// message, the item of which is written in place, or that of another word, taken by itself.
#[inline(always)]
fn hear_span<Q: Ratifier + Drop>(
    words: &Words<Q>,
    seat: &mut BusSeat<Q>,
    listener: &mut Listener,
    item: &mut Item,
    sign: &mut RecvTurn,
) -> ItemTurn
    requires table { seat.old.table_id ≡ words.now.table }
    requires receiver_view { IsReceiverView seat.old.me seat.old.table_id.words listener.old }
    requires going { listener.old.reader.ended ≡ false }
    requires span { HasSpan listener.old }
    ensures table { seat.new.table_id ≡ seat.old.table_id }
    ensures receiver_view { IsReceiverView seat.new.me seat.new.table_id.words listener.new }
    ensures hears { HearsSigned seat.old.me item.old sign.old result item.new sign.new
        seat.new.me }
{
    let at = listener.at();
    let told = words.load_word_in_turn(seat, at as usize);
    let Some(span) = listener.reader.span(told) else {
        return feed_word(&mut listener.reader, told, item, sign);
    };
    item.message.clear();
    for i in 1..span.words {
        let word = words.load_word_in_turn(seat, (at + i) as usize);
        item.message.append_word(word);
    }
    let last = words.load_word_in_turn(seat, (at + span.words) as usize);
    item.message.append_word(last);
    if listener.reader.take_span(span, last, item) {
        ItemTurn::Item
    } else {
        ItemTurn::Going
    }
}

/// Turns of a receiver that has not ended: some that take words which say nothing by themselves,
/// and a last one. An item is written in place, and a head or a leave mark as the sign.
#[inline(always)]
pub(crate) fn hear_on<Q: Ratifier + Drop>(
    words: &Words<Q>,
    seat: &mut BusSeat<Q>,
    listener: &mut Listener,
    item: &mut Item,
    sign: &mut RecvTurn,
) -> ItemTurn
    requires table { seat.old.table_id ≡ words.now.table }
    requires receiver_view { IsReceiverView seat.old.me seat.old.table_id.words listener.old }
    requires going { listener.old.reader.ended ≡ false }
    ensures table { seat.new.table_id ≡ seat.old.table_id }
    ensures receiver_view { IsReceiverView seat.new.me seat.new.table_id.words listener.new }
    ensures hears { HearsSigned seat.old.me item.old sign.old result item.new sign.new
        seat.new.me }
{
    if listener.has_span() {
        return hear_span(words, seat, listener, item, sign);
    }
    if let Some(at) = listener.pass_due() {
        pass(words, seat, listener, at);
        return ItemTurn::Going;
    }
    loop {
        if let Some(turn) = hear_next(words, seat, listener, item, sign) {
            return turn;
        }
    }
}
