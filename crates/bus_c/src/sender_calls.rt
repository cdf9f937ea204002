//! The calls of a sender. An empty handle stays empty, and nothing else is changed.

ghost use Rattle.std.specs.Prelude.{◌≡◌, None, IfSome, IfNone, IsSomeAnd};
ghost use Rattle.bus_batch.specs.declared.messages.Mark.TheVariants as mark;
ghost use Rattle.bus_embed.specs.declared.codes.TheConstants.{OK as done};
ghost use Rattle.bus_embed.specs.declared.codes.TheConstants.{EMPTY_HANDLE as no_handle};
ghost use Rattle.bus_embed.specs.Calls.{PutAnswered, CloseAnswered, TurnAnswered, ShowsSender};
ghost use Rattle.bus_embed.specs.Calls.{CarryAnswered, TurnsAnswered, RoomAnswered};
ghost use Rattle.bus_embed.specs.Ends.{BeginsPage, NotesSender};
ghost use Rattle.bus_embed.specs.Finishing.{FinishAnswered};

use crate::sender::CSender;
use bus_embed::codes::{EMPTY_HANDLE, OK};
use bus_embed::{
    Left, SenderShown, TurnAnswer, begin_page, carry_messages, close_sender, finish_sender,
    leave_sender, look_for_room, note_sender, put_message, show_sender, take_turn, take_turns,
};
use std::alloc::Global;

/// Appends a message to the sender's batch.
#[unsafe(no_mangle)]
pub extern "C" fn bus_c_put(
    alloc: Global,
    sender: &mut CSender,
    bytes: &[u8],
    number: &mut u64,
) -> u32
    ensures none { IfNone sender.old.held ((result ≡ no_handle) × (sender.new.held ≡ None)
        × (number.new ≡ number.old)) }
    ensures put { IfSome sender.old.held (λ old. IsSomeAnd sender.new.held (λ new.
        PutAnswered old.handle bytes.now result number.old number.new new.handle)) }
{
    match sender.take(alloc) {
        Some(mut seat) => {
            let code = put_message(&mut seat.handle, bytes, number);
            sender.hold(seat);
            code
        }
        None => EMPTY_HANDLE,
    }
}

/// Lets an end mark wait.
#[unsafe(no_mangle)]
pub extern "C" fn bus_c_close(alloc: Global, sender: &mut CSender) -> u32
    ensures none { IfNone sender.old.held ((result ≡ no_handle) × (sender.new.held ≡ None)) }
    ensures close { IfSome sender.old.held (λ old. IsSomeAnd sender.new.held (λ new.
        CloseAnswered mark.End old.handle result new.handle)) }
{
    match sender.take(alloc) {
        Some(mut seat) => {
            let code = close_sender(&mut seat.handle);
            sender.hold(seat);
            code
        }
        None => EMPTY_HANDLE,
    }
}

/// Lets a leave mark wait.
#[unsafe(no_mangle)]
pub extern "C" fn bus_c_leave(alloc: Global, sender: &mut CSender) -> u32
    ensures none { IfNone sender.old.held ((result ≡ no_handle) × (sender.new.held ≡ None)) }
    ensures leave { IfSome sender.old.held (λ old. IsSomeAnd sender.new.held (λ new.
        CloseAnswered mark.Leave old.handle result new.handle)) }
{
    match sender.take(alloc) {
        Some(mut seat) => {
            let code = leave_sender(&mut seat.handle);
            sender.hold(seat);
            code
        }
        None => EMPTY_HANDLE,
    }
}

/// Puts what waits with a sender into the batch of the next one.
#[unsafe(no_mangle)]
pub extern "C" fn bus_c_carry(alloc: Global, sender: &mut CSender, next: &mut CSender) -> u32
    ensures none { IfNone sender.old.held ((result ≡ no_handle) × (sender.new.held ≡ None)
        × (next.new.held ≡ next.old.held)) }
    ensures no_next { IfNone next.old.held ((result ≡ no_handle) × (next.new.held ≡ None)
        × (sender.new.held ≡ sender.old.held)) }
    ensures carry { IfSome sender.old.held (λ from. IfSome next.old.held (λ old.
        (sender.new.held ≡ sender.old.held) × IsSomeAnd next.new.held (λ new.
        CarryAnswered from.handle old.handle result new.handle))) }
{
    let Some(from) = sender.take(alloc) else {
        return EMPTY_HANDLE;
    };
    let code = match next.take(alloc) {
        Some(mut seat) => {
            let code = carry_messages(&from.handle, &mut seat.handle);
            next.hold(seat);
            code
        }
        None => EMPTY_HANDLE,
    };
    sender.hold(from);
    code
}

/// One turn with this random word.
#[unsafe(no_mangle)]
pub extern "C" fn bus_c_turn(
    alloc: Global,
    sender: &mut CSender,
    word: u32,
    answer: &mut TurnAnswer,
) -> u32
    ensures none { IfNone sender.old.held ((result ≡ no_handle) × (sender.new.held ≡ None)
        × (answer.new ≡ answer.old)) }
    ensures turn { IfSome sender.old.held (λ old. IsSomeAnd sender.new.held (λ new.
        TurnAnswered old.handle word result answer.new new.handle)) }
{
    match sender.take(alloc) {
        Some(mut seat) => {
            let code = take_turn(&mut seat.handle, word, answer);
            sender.hold(seat);
            code
        }
        None => EMPTY_HANDLE,
    }
}

/// One turn with this random word, and up to so many more that ask for none.
#[unsafe(no_mangle)]
pub extern "C" fn bus_c_turns(
    alloc: Global,
    sender: &mut CSender,
    word: u32,
    more: u64,
    answer: &mut TurnAnswer,
) -> u32
    ensures none { IfNone sender.old.held ((result ≡ no_handle) × (sender.new.held ≡ None)
        × (answer.new ≡ answer.old)) }
    ensures turns { IfSome sender.old.held (λ old. IsSomeAnd sender.new.held (λ new.
        TurnsAnswered old.handle word more result answer.new new.handle)) }
{
    match sender.take(alloc) {
        Some(mut seat) => {
            let code = take_turns(&mut seat.handle, word, more, answer);
            sender.hold(seat);
            code
        }
        None => EMPTY_HANDLE,
    }
}

/// The turns that are left of the tenure that the sender has begun.
#[unsafe(no_mangle)]
pub extern "C" fn bus_c_finish(alloc: Global, sender: &mut CSender, answer: &mut TurnAnswer) -> u32
    ensures none { IfNone sender.old.held ((result ≡ no_handle) × (sender.new.held ≡ None)
        × (answer.new ≡ answer.old)) }
    ensures finish { IfSome sender.old.held (λ old. IsSomeAnd sender.new.held (λ new.
        FinishAnswered old.handle result answer.old answer.new new.handle)) }
{
    match sender.take(alloc) {
        Some(mut seat) => {
            let code = finish_sender(&mut seat.handle, answer);
            sender.hold(seat);
            code
        }
        None => EMPTY_HANDLE,
    }
}

/// What the sender shows.
#[unsafe(no_mangle)]
pub extern "C" fn bus_c_sender(alloc: Global, sender: &mut CSender, shown: &mut SenderShown) -> u32
    ensures none { IfNone sender.old.held ((result ≡ no_handle) × (sender.new.held ≡ None)
        × (shown.new ≡ shown.old)) }
    ensures shows { IfSome sender.old.held (λ old. (result ≡ done)
        × ShowsSender old.handle shown.new × (sender.new.held ≡ sender.old.held)) }
{
    match sender.take(alloc) {
        Some(seat) => {
            *shown = show_sender(&seat.handle);
            sender.hold(seat);
            OK
        }
        None => EMPTY_HANDLE,
    }
}

/// Looks whether the sender's batch has room.
#[unsafe(no_mangle)]
pub extern "C" fn bus_c_has_room(alloc: Global, sender: &mut CSender) -> u32
    ensures none { IfNone sender.old.held ((result ≡ no_handle) × (sender.new.held ≡ None)) }
    ensures room { IfSome sender.old.held (λ old. IsSomeAnd sender.new.held (λ new.
        RoomAnswered old.handle result new.handle)) }
{
    match sender.take(alloc) {
        Some(mut seat) => {
            let code = look_for_room(&mut seat.handle);
            sender.hold(seat);
            code
        }
        None => EMPTY_HANDLE,
    }
}

/// Where the bus of the sender lies.
#[unsafe(no_mangle)]
pub extern "C" fn bus_c_sender_bus(
    alloc: Global,
    sender: &mut CSender,
    place: &mut *const u8,
) -> u32
    ensures none { IfNone sender.old.held ((result ≡ no_handle) × (sender.new.held ≡ None)
        × (place.new ≡ place.old)) }
    ensures same { IfSome sender.old.held (λ _. (result ≡ done)
        × (sender.new.held ≡ sender.old.held)) }
{
    match sender.take(alloc) {
        Some(seat) => {
            *place = seat.handle.bus_place() as *const u8;
            sender.hold(seat);
            OK
        }
        None => EMPTY_HANDLE,
    }
}

/// The numbers that the sitting of a sender's bus began with, if it has so many senders.
#[unsafe(no_mangle)]
pub extern "C" fn bus_c_begin_page(
    alloc: Global,
    sender: &mut CSender,
    senders: u64,
    left: &mut Left,
) -> u32
    ensures none { IfNone sender.old.held ((result ≡ no_handle) × (sender.new.held ≡ None)
        × (left.new ≡ left.old)) }
    ensures begins { IfSome sender.old.held (λ old.
        BeginsPage old.handle senders result left.old left.new
        × (sender.new.held ≡ sender.old.held)) }
{
    match sender.take(alloc) {
        Some(seat) => {
            let code = begin_page(&seat.handle, senders, left);
            sender.hold(seat);
            code
        }
        None => EMPTY_HANDLE,
    }
}

/// Notes the number with which a sender goes on that sends nothing more.
#[unsafe(no_mangle)]
pub extern "C" fn bus_c_note_sender(
    alloc: Global,
    sender: &mut CSender,
    number: u64,
    left: &mut Left,
) -> u32
    ensures none { IfNone sender.old.held ((result ≡ no_handle) × (sender.new.held ≡ None)
        × (left.new ≡ left.old)) }
    ensures notes { IfSome sender.old.held (λ old.
        NotesSender old.handle number result left.old left.new
        × (sender.new.held ≡ sender.old.held)) }
{
    match sender.take(alloc) {
        Some(seat) => {
            let code = note_sender(&seat.handle, number, left);
            sender.hold(seat);
            code
        }
        None => EMPTY_HANDLE,
    }
}

/// Gives the handle up, and takes no turn: it is empty then. `bus_c_finish` is called before it, or
/// others may wait for good for the tenure that the sender has begun.
#[unsafe(no_mangle)]
pub extern "C" fn bus_c_free_sender(alloc: Global, sender: &mut CSender)
    ensures { sender.new.held ≡ None }
{
    drop(sender.take(alloc));
}
