//! The calls of a receiver. An empty handle stays empty, and nothing else is changed.

ghost use Rattle.std.specs.Prelude.{◌≡◌, true, None, IfSome, IfNone, IsSomeAnd};
ghost use Rattle.bus_c.specs.Forked.{ForkAnswered, IsHeld};
ghost use Rattle.bus_pageslot.specs.Seats.{table_of};
ghost use Rattle.bus_embed.specs.declared.codes.TheConstants.{OK as done};
ghost use Rattle.bus_embed.specs.declared.codes.TheConstants.{EMPTY_HANDLE as no_handle};
ghost use Rattle.bus_embed.specs.declared.codes.TheConstants.{USED_HANDLE as used_handle};
ghost use Rattle.bus_embed.specs.Calls.{HeardOnce, HearsInto, ShowsReceiver};
ghost use Rattle.bus_embed.specs.Calls.{TellAnswered, MeetAnswered};
ghost use Rattle.bus_embed.specs.Ends.{EndAnswered};

use crate::receiver::CReceiver;
use crate::seats::{ReceiverSeat, seat_receiver};
use crate::sender::CSender;
use bus_embed::codes::{EMPTY_HANDLE, NO_MEMORY, OK, USED_HANDLE};
use bus_embed::{
    HeardAnswer, HeardItem, Left, ReceiverHandle, ReceiverShown, ThreeWord, end_bus, fork_receiver,
    hear_items, hear_once, receivers_meet, show_receiver, tell_receiver,
};
use std::alloc::Global;

/// One turn.
#[unsafe(no_mangle)]
pub extern "C" fn bus_c_hear_once(
    alloc: Global,
    receiver: &mut CReceiver,
    answer: &mut HeardAnswer,
) -> u32
    ensures none { IfNone receiver.old.held ((result ≡ no_handle) × (receiver.new.held ≡ None)
        × (answer.new ≡ answer.old)) }
    ensures hears { IfSome receiver.old.held (λ old. IsSomeAnd receiver.new.held (λ new.
        (new.handle.bus ≡ old.handle.bus)
        × HeardOnce old.handle.me result answer.new new.handle.me)) }
{
    match receiver.take(alloc) {
        Some(mut seat) => {
            let code = hear_once(&mut seat.handle, answer);
            receiver.hold(seat);
            code
        }
        None => EMPTY_HANDLE,
    }
}

/// Looks, at most so many, which write items into `items`: how many they were into `many`. A look
/// is some turns, or none, that take words which say nothing by themselves, and one turn more.
#[unsafe(no_mangle)]
pub extern "C" fn bus_c_hear(
    alloc: Global,
    receiver: &mut CReceiver,
    items: &mut [HeardItem],
    looks: u64,
    many: &mut usize,
) -> u32
    ensures none { IfNone receiver.old.held ((result ≡ no_handle) × (receiver.new.held ≡ None)
        × (items.new ≡ items.old) × (many.new ≡ many.old)) }
    ensures hears { IfSome receiver.old.held (λ old. IsSomeAnd receiver.new.held (λ new.
        (new.handle.bus ≡ old.handle.bus)
        × HearsInto old.handle.me items.old looks many.new result items.new new.handle.me)) }
{
    match receiver.take(alloc) {
        Some(mut seat) => {
            let (heard, code) = hear_items(&mut seat.handle, items, looks);
            receiver.hold(seat);
            *many = heard;
            code
        }
        None => EMPTY_HANDLE,
    }
}

/// What the receiver shows.
#[unsafe(no_mangle)]
pub extern "C" fn bus_c_receiver(
    alloc: Global,
    receiver: &mut CReceiver,
    shown: &mut ReceiverShown,
) -> u32
    ensures none { IfNone receiver.old.held ((result ≡ no_handle) × (receiver.new.held ≡ None)
        × (shown.new ≡ shown.old)) }
    ensures shows { IfSome receiver.old.held (λ old. (result ≡ done)
        × ShowsReceiver old.handle.me shown.new × (receiver.new.held ≡ receiver.old.held)) }
{
    match receiver.take(alloc) {
        Some(seat) => {
            *shown = show_receiver(&seat.handle);
            receiver.hold(seat);
            OK
        }
        None => EMPTY_HANDLE,
    }
}

/// Where the bus of the receiver lies.
#[unsafe(no_mangle)]
pub extern "C" fn bus_c_receiver_bus(
    alloc: Global,
    receiver: &mut CReceiver,
    place: &mut *const u8,
) -> u32
    ensures none { IfNone receiver.old.held ((result ≡ no_handle) × (receiver.new.held ≡ None)
        × (place.new ≡ place.old)) }
    ensures same { IfSome receiver.old.held (λ _. (result ≡ done)
        × (receiver.new.held ≡ receiver.old.held)) }
{
    match receiver.take(alloc) {
        Some(seat) => {
            *place = seat.handle.bus_place() as *const u8;
            receiver.hold(seat);
            OK
        }
        None => EMPTY_HANDLE,
    }
}

/// A sender tells a receiver of the log. That both are of one bus C says, by `of_one_bus`.
#[unsafe(no_mangle)]
pub extern "C" fn bus_c_tell(
    alloc: Global,
    receiver: &mut CReceiver,
    sender: &mut CSender,
    of_one_bus: bool,
) -> u32
    requires { of_one_bus ≡ true → IfSome receiver.old.held (λ old. IfSome sender.old.held (λ from.
        table_of from.handle ≡ old.handle.bus.table)) }
    ensures none { IfNone receiver.old.held ((result ≡ no_handle) × (receiver.new.held ≡ None)
        × (sender.new.held ≡ sender.old.held)) }
    ensures no_sender { IfNone sender.old.held ((result ≡ no_handle) × (sender.new.held ≡ None)
        × (receiver.new.held ≡ receiver.old.held)) }
    ensures tells { IfSome receiver.old.held (λ old. IfSome sender.old.held (λ from.
        IsSomeAnd receiver.new.held (λ new. IsSomeAnd sender.new.held (λ kept.
        (new.handle.bus ≡ old.handle.bus) × TellAnswered of_one_bus from.handle old.handle.me
        result kept.handle new.handle.me)))) }
{
    let Some(mut seat) = receiver.take(alloc) else {
        return EMPTY_HANDLE;
    };
    let code = match sender.take(alloc) {
        Some(mut from) => {
            let code = tell_receiver(&mut seat.handle, &mut from.handle, of_one_bus);
            sender.hold(from);
            code
        }
        None => EMPTY_HANDLE,
    };
    receiver.hold(seat);
    code
}

/// Two receivers meet. That both are of one bus C says, by `of_one_bus`.
#[unsafe(no_mangle)]
pub extern "C" fn bus_c_meet(
    alloc: Global,
    receiver: &mut CReceiver,
    other: &mut CReceiver,
    of_one_bus: bool,
    order: &mut i32,
) -> u32
    requires { of_one_bus ≡ true → IfSome receiver.old.held (λ old. IfSome other.old.held (λ theirs.
        theirs.handle.bus.table ≡ old.handle.bus.table)) }
    ensures none { IfNone receiver.old.held ((result ≡ no_handle) × (receiver.new.held ≡ None)
        × (other.new.held ≡ other.old.held) × (order.new ≡ order.old)) }
    ensures no_other { IfNone other.old.held ((result ≡ no_handle) × (other.new.held ≡ None)
        × (receiver.new.held ≡ receiver.old.held) × (order.new ≡ order.old)) }
    ensures meets { IfSome receiver.old.held (λ old. IfSome other.old.held (λ theirs.
        IsSomeAnd receiver.new.held (λ new. IsSomeAnd other.new.held (λ met.
        (new.handle.bus ≡ old.handle.bus) × (met.handle.bus ≡ theirs.handle.bus)
        × MeetAnswered of_one_bus old.handle.me theirs.handle.me result order.old order.new
        new.handle.me met.handle.me)))) }
{
    let Some(mut seat) = receiver.take(alloc) else {
        return EMPTY_HANDLE;
    };
    let code = match other.take(alloc) {
        Some(mut their) => {
            let code = receivers_meet(&mut seat.handle, &mut their.handle, of_one_bus, order);
            other.hold(their);
            code
        }
        None => EMPTY_HANDLE,
    };
    receiver.hold(seat);
    code
}

/// Another receiver of the same bus, which `joined` holds then. Where it has no memory the new one
/// is dropped again, so it leaves.
#[unsafe(no_mangle)]
pub extern "C" fn bus_c_fork(alloc: Global, receiver: &mut CReceiver, joined: &mut CReceiver) -> u32
    ensures none { IfNone receiver.old.held ((result ≡ no_handle) × (receiver.new.held ≡ None)
        × (joined.new.held ≡ joined.old.held)) }
    ensures used { IfSome receiver.old.held (λ _. IfSome joined.old.held (λ _.
        (result ≡ used_handle) × (receiver.new.held ≡ receiver.old.held)
        × (joined.new.held ≡ joined.old.held))) }
    ensures forks { IfSome receiver.old.held (λ old. IfNone joined.old.held (
        IsSomeAnd receiver.new.held (λ new. (new.handle.bus ≡ old.handle.bus)
        × ForkAnswered old.handle result joined.new.held new.handle))) }
{
    let Some(mut seat) = receiver.take(alloc) else {
        return EMPTY_HANDLE;
    };
    let code = match joined.take(alloc) {
        Some(used) => {
            joined.hold(used);
            USED_HANDLE
        }
        None => match fork_receiver(&mut seat.handle) {
            Ok(made) => hold_new(alloc, joined, made),
            Err(code) => code,
        },
    };
    receiver.hold(seat);
    code
}

/// Puts a receiver into a handle: OK, or NO_MEMORY, and then the handle is as it was.
fn hold_new(alloc: Global, joined: &mut CReceiver, made: ReceiverHandle<ThreeWord>) -> u32
    ensures { IsHeld made result joined.old.held joined.new.held }
{
    match Box::new(alloc, seat_receiver(made)) {
        Ok(seat) => {
            joined.hold(seat);
            OK
        }
        Err(_) => NO_MEMORY,
    }
}

/// Gives the handle up: it is empty then. Of a ring the receiver leaves for good, since its handle
/// is dropped.
#[unsafe(no_mangle)]
pub extern "C" fn bus_c_free_receiver(alloc: Global, receiver: &mut CReceiver)
    ensures { receiver.new.held ≡ None }
{
    drop(receiver.take(alloc));
}

/// Ends the bus by the last handle that is left. The handle is empty then.
#[unsafe(no_mangle)]
pub extern "C" fn bus_c_end(
    alloc: Global,
    receiver: &mut CReceiver,
    log: &mut [u64],
    left: &mut Left,
) -> u32
    ensures none { IfNone receiver.old.held ((result ≡ no_handle) × (log.new ≡ log.old)
        × (left.new ≡ left.old)) }
    ensures empty { receiver.new.held ≡ None }
    ensures end { IfSome receiver.old.held (λ old.
        EndAnswered old.handle log.old left.old result log.new left.new) }
{
    match receiver.take(alloc) {
        Some(seat) => {
            let ReceiverSeat { handle, .. } = Box::into_inner(seat);
            end_bus(handle, log, left)
        }
        None => EMPTY_HANDLE,
    }
}
