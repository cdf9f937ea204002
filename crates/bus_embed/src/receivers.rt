//! The calls of a receiver.

ghost use Rattle.std.specs.Prelude.{◌≡◌, true};
ghost use Rattle.bus_pageslot.specs.Seats.{table_of};
ghost use Rattle.bus_embed.specs.Answers.{order_number};
ghost use Rattle.bus_embed.specs.Calls.{HeardOnce, HearsInto, ShowsReceiver};
ghost use Rattle.bus_embed.specs.Calls.{TellAnswered, MeetAnswered, Forks};

use crate::answers::{HeardAnswer, HeardItem, heard_told};
use crate::codes;
use bus_handles::{ForkFault, Item, ItemTurn, ReceiverHandle, SenderHandle, ThreeWord};
use std::cmp::Ordering;

/// What a receiver shows, at no step.
#[repr(C)]
#[derive(Clone, Copy, Debug)]
pub struct ReceiverShown {
    /// How many words of the log it knows.
    pub known: u64,
    /// How many of them it has read.
    pub place: u64,
    /// The end was among its answers.
    pub has_ended: bool,
    /// Of a ring: how many words it has passed, so that they may be used again. Else 0.
    pub passed: u64,
}

/// One turn, as `ReceiverHandle::turn`: the code of its answer, and what that says in `answer`.
pub fn hear_once(receiver: &mut ReceiverHandle<ThreeWord>, answer: &mut HeardAnswer) -> u32
    ensures bus { receiver.new.bus ≡ receiver.old.bus }
    ensures hears { HeardOnce receiver.old.me result answer.new receiver.new.me }
{
    let turn = receiver.turn();
    let (code, told) = heard_told(turn);
    *answer = told;
    code
}

/// Looks, at most so many, which write items into `items` from its first place on, as long as there
/// is room: how many items they were, and the code of what ended it. A look is some turns, or none,
/// that take words which say nothing by themselves, and one turn more, which may be any. What ends
/// it is Empty, or End, and Going where `items` is full or all looks are taken. No turn is taken
/// where it is full. Leave marks are passed over, as heads: `hear_once` tells them.
#[tactic(auto, using(crate::proofs::HearLaws::starts, crate::proofs::HearLaws::tired))]
pub fn hear_items(
    receiver: &mut ReceiverHandle<ThreeWord>,
    items: &mut [HeardItem],
    looks: u64,
) -> (usize, u32)
    ensures bus { receiver.new.bus ≡ receiver.old.bus }
    ensures hears { HearsInto receiver.old.me items.old looks result.0 result.1 items.new
        receiver.new.me }
{
    let mut many = 0;
    let mut heard = Item::blank();
    for _ in 0..looks {
        if many == items.len() {
            return (many, codes::GOING);
        }
        match receiver.item_turns(&mut heard) {
            ItemTurn::Going => {}
            ItemTurn::Empty => return (many, codes::EMPTY),
            ItemTurn::End => return (many, codes::END),
            ItemTurn::Item => {
                items[many].tell(&heard);
                many += 1;
            }
        }
    }
    (many, codes::GOING)
}

/// What a receiver shows. Takes no step.
pub fn show_receiver(receiver: &ReceiverHandle<ThreeWord>) -> ReceiverShown
    ensures { ShowsReceiver receiver.now.me result }
{
    ReceiverShown {
        known: receiver.known(),
        place: receiver.place(),
        has_ended: receiver.has_ended(),
        passed: receiver.passed(),
    }
}

/// A sender tells a receiver of the log, as `ReceiverHandle::told`: OK, or OTHER_BUS, and then
/// nothing changes. Whether both are of one bus the caller says.
pub fn tell_receiver(
    receiver: &mut ReceiverHandle<ThreeWord>,
    sender: &mut SenderHandle<ThreeWord>,
    of_one_bus: bool,
) -> u32
    requires { of_one_bus ≡ true → table_of sender.old ≡ receiver.old.bus.table }
    ensures bus { receiver.new.bus ≡ receiver.old.bus }
    ensures tells { TellAnswered of_one_bus sender.old receiver.old.me result sender.new
        receiver.new.me }
{
    if !of_one_bus {
        return codes::OTHER_BUS;
    }
    receiver.told(sender);
    codes::OK
}

/// Two receivers meet, as `ReceiverHandle::meet`: OK, and in `order` how the first one's place
/// compares with the other's; or OTHER_BUS, and then nothing changes. Whether both are of one bus
/// the caller says.
pub fn receivers_meet(
    receiver: &mut ReceiverHandle<ThreeWord>,
    other: &mut ReceiverHandle<ThreeWord>,
    of_one_bus: bool,
    order: &mut i32,
) -> u32
    requires { of_one_bus ≡ true → other.old.bus.table ≡ receiver.old.bus.table }
    ensures bus { (receiver.new.bus ≡ receiver.old.bus) × (other.new.bus ≡ other.old.bus) }
    ensures meets { MeetAnswered of_one_bus receiver.old.me other.old.me result order.old
        order.new receiver.new.me other.new.me }
{
    if !of_one_bus {
        return codes::OTHER_BUS;
    }
    *order = compared(receiver.meet(other));
    codes::OK
}

/// Another receiver of the same bus, as `ReceiverHandle::fork`; or the code of the fault, which is
/// NO_SEAT or NO_MEMORY.
pub fn fork_receiver(
    receiver: &mut ReceiverHandle<ThreeWord>,
) -> Result<ReceiverHandle<ThreeWord>, u32>
    ensures bus { receiver.new.bus ≡ receiver.old.bus }
    ensures forks { Forks receiver.old result receiver.new }
{
    match receiver.fork() {
        Ok(joined) => Ok(joined),
        Err(ForkFault::NoSeat) => Err(codes::NO_SEAT),
        Err(ForkFault::NoMemory) => Err(codes::NO_MEMORY),
    }
}

/// Below 0 where it is less, 0 where it is equal, and above 0 where it is greater.
fn compared(order: Ordering) -> i32
    ensures { result ≡ order_number order }
{
    match order {
        Ordering::Less => -1,
        Ordering::Equal => 0,
        Ordering::Greater => 1,
    }
}
