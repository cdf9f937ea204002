//! Worked calls of a bus.

mod going;
mod leaving;
mod sittings;
mod stops;

use crate::games::{Game, delivered, same, shape};
use bus_adoptcommit::ThreeWord;
use bus_batch::{CloseFault, Item, PutFault};
use bus_deliverylog::RecvTurn;
use bus_machine::World;
use bus_register::SenderNo;
use bus_tenure::Turn;
use bus_world::{Event, MakeFault, PlayFault, StepFault};
use std::process::Abort;

/// The only sender sends a message of no bytes.
fn sends_it<R: Abort + AllocGlobal>(rt: &R, game: &mut Game) {
    game.puts(rt, 0, b"", Ok(0));
    game.comes_to(rt, 0, Turn::Own { tenure: 0 });
    assert!(rt; game.is_out());
    game.has_log(rt, &[]);
    game.comes_to(rt, 0, delivered(0, 0));
}

/// What stands in the bus then.
fn holds_it<R: Abort + AllocGlobal>(rt: &R, game: &Game) {
    game.has_log(rt, &[0x4000_0100_0000_0000, 0x8000_0000_0000_0000]);
    game.has_page(rt, [1, 0], [false, false], (false, 1, 2));
    game.has_owners(rt, &[SenderNo(0)]);
    same(rt, &game.world().receivers(), &1);
}

/// What its receiver is answered, word by word, with the item.
fn gives_it(rt: &impl Abort, game: &mut Game) -> Item {
    game.hears(rt, RecvTurn::Going);
    let head = RecvTurn::Head {
        tenure: 0,
        owner: SenderNo(0),
    };
    game.hears(rt, head);
    let RecvTurn::Item(item) = game.recv(rt) else {
        panic!(rt; "the message is given");
    };
    game.hears(rt, RecvTurn::Empty);
    item
}

/// The order and what the receiver was given are this item.
fn has_it<R: Abort + AllocGlobal>(rt: &R, game: &Game, item: Item) {
    let order = game.order(rt);
    let given = game.given(rt);
    same(rt, &order.items.as_slice(), &[item].as_slice());
    same(rt, &given.items.as_slice(), &order.items.as_slice());
    assert!(rt; !order.ended && !given.ended);
}

#[test]
fn empty_message_word_by_word(rt: HostRuntime) {
    let mut game = Game::new(&rt, shape(1, 1, 4, 16));
    sends_it(&rt, &mut game);
    holds_it(&rt, &game);
    let item = gives_it(&rt, &mut game);
    same(&rt, &item.number, &0);
    assert!(rt; item.message.as_slice().is_empty());
    has_it(&rt, &game, item);
}

#[test]
fn payload_that_looks_like_a_head_word_by_word(rt: HostRuntime) {
    let mut game = Game::new(&rt, shape(1, 1, 1, 16));
    game.puts(&rt, 0, &[0; 8], Ok(0));
    game.puts(&rt, 0, &[0x40, 0, 1, 0, 0, 0, 0, 0], Ok(1));
    game.comes_to(&rt, 0, Turn::Own { tenure: 0 });
    let delivered = Turn::Delivered {
        tenure: 0,
        first: 0,
        last: 1,
    };
    game.comes_to(&rt, 0, delivered);
    let words: [u64; 5] = [
        0x4000_0400_0000_0000,
        0x8200_0000_0000_0000,
        0,
        0x8200_0000_0000_0001,
        0x4000_0100_0000_0000,
    ];
    game.has_log(&rt, &words);
}

/// Up to the event of a receiver that there is not, events are played.
fn plays_until_no_receiver(rt: &impl Abort, game: &mut Game) {
    let events = [
        Event::Turn { sender: 0, word: 7 },
        Event::Recv(0),
        Event::Recv(1),
        Event::Recv(0),
    ];
    let fault = PlayFault {
        place: 2,
        why: StepFault::NoSuchReceiver,
    };
    game.plays(rt, &events, Err(fault));
    game.plays(rt, &events[..2], Ok(()));
}

#[test]
fn what_is_refused(rt: HostRuntime) {
    let mut game = Game::new(&rt, shape(2, 1, 1, 16));
    game.puts(&rt, 0, &[0; 57], Err(StepFault::Put(PutFault::TooLong)));
    game.puts(&rt, 2, b"", Err(StepFault::NoSuchSender));
    game.puts(&rt, 1, b"a", Ok(0));
    game.closes(&rt, 1, Err(StepFault::Close(CloseFault::Pending)));
    game.closes(&rt, 0, Ok(()));
    assert!(rt; game.world().sender(SenderNo(1)).is_some());
    assert!(rt; game.world().sender(SenderNo(2)).is_none());
    plays_until_no_receiver(&rt, &mut game);
    let crowd = World::<ThreeWord>::new(rt.alloc(), shape(65, 65, 0, 0)).err();
    same(&rt, &crowd, &Some(MakeFault::Senders));
}
