//! Worked calls of a bus whose rows are used again.

use crate::games::{Game, delivered, same, shape};
use bus_adoptcommit::ThreeWord;
use bus_batch::PutFault;
use bus_deliverylog::RecvTurn;
use bus_machine::World;
use bus_register::{Reg, SenderNo};
use bus_tenure::Turn;
use bus_world::{Event, MakeFault, PlayFault, Shape, StepFault};
use std::process::Abort;

/// The last answer of receiver 0, which goes on until it finds nothing or the end.
fn hear(rt: &impl Abort, game: &mut Game) -> RecvTurn {
    for _ in 0..99 {
        let turn = game.recv(rt);
        if matches!(turn, RecvTurn::Empty | RecvTurn::End) {
            return turn;
        }
    }
    RecvTurn::Going
}

/// Wants that receiver 0 was given so many items, and that the items of the order are these, each
/// by its sender and its number.
fn holds<R: Abort + AllocGlobal>(rt: &R, game: &Game, given: usize, items: &[(u8, u64)]) {
    same(rt, &game.given(rt).items.len(), &given);
    let mut order = Vec::new(rt.alloc());
    for item in &game.order(rt).items {
        order
            .push((item.sender.0, item.number))
            .expect(rt, "memory");
    }
    same(rt, &order.as_slice(), &items);
}

/// Sender 0 has taken the page of tenure 1 and waits for sender 1, which pins tenure 0.
fn is_behind<R: Abort + AllocGlobal>(rt: &R) -> Game {
    let mut game = Game::again(rt, shape(2, 1, 2, 64));
    game.puts(rt, 0, b"a", Ok(0));
    game.puts(rt, 1, b"b", Ok(0));
    game.goes(rt, 1, 3, Turn::Going);
    game.sends(rt, 0, 0, 0);
    game.puts(rt, 0, b"c", Ok(1));
    game.comes_to(rt, 0, Turn::Own { tenure: 1 });
    let behind = Turn::Behind {
        tenure: 0,
        sender: SenderNo(1),
    };
    game.comes_to(rt, 0, behind);
    game.goes(rt, 0, 1, behind);
    game
}

#[test]
fn holder_waits_behind(rt: HostRuntime) {
    let mut game = is_behind(&rt);
    assert!(rt; game.is_out());
    same(&rt, &hear(&rt, &mut game), &RecvTurn::Empty);
    let lost = Turn::Lost {
        tenure: 0,
        owner: SenderNo(0),
    };
    game.comes_to(&rt, 1, lost);
    game.comes_to(&rt, 0, delivered(1, 1));
    game.has_owners(&rt, &[SenderNo(0), SenderNo(0)]);
    holds(&rt, &game, 2, &[(0, 0), (0, 1)]);
}

#[test]
fn rows_come_round(rt: HostRuntime) {
    let mut game = Game::again(&rt, shape(2, 1, 2, 64));
    game.puts(&rt, 0, b"a", Ok(0));
    game.puts(&rt, 1, b"b", Ok(0));
    game.goes(&rt, 1, 1, Turn::Going);
    game.puts(&rt, 1, b"late", Err(StepFault::Put(PutFault::Busy)));
    game.sends(&rt, 0, 0, 0);
    game.puts(&rt, 0, b"c", Ok(1));
    game.sends(&rt, 0, 1, 1);
    game.comes_to(&rt, 1, Turn::Waiting);
    game.sends(&rt, 1, 2, 0);
    game.has_owners(&rt, &[SenderNo(0), SenderNo(1)]);
    holds(&rt, &game, 0, &[(0, 0), (0, 1), (1, 0)]);
}

/// Wants that no bus of this shape is made, for this reason.
fn is_refused<R: Abort + AllocGlobal>(rt: &R, shape: Shape, why: MakeFault) {
    let fault = World::<ThreeWord>::cyclic(rt.alloc(), shape, None).err();
    same(rt, &fault, &Some(why));
}

#[test]
fn cyclic_limits(rt: HostRuntime) {
    is_refused(&rt, shape(1, 1, 1, 16), MakeFault::Rows);
    is_refused(&rt, shape(1, 1, 9, 16), MakeFault::Rows);
    is_refused(&rt, shape(65, 1, 9, 0), MakeFault::Senders);
}

/// What the machine tells of its senders.
fn tells_senders(rt: &impl Abort, world: &World<ThreeWord>) {
    same(rt, &world.senders(), &2);
    assert!(rt; world.sender(SenderNo(1)).is_some());
    assert!(rt; world.sender(SenderNo(2)).is_none());
}

/// What the machine tells of its words and its receivers.
fn tells_words<R: Abort + AllocGlobal>(rt: &R, world: &World<ThreeWord>) {
    assert!(rt; world.log(rt.alloc()).is_ok_and(|log| !log.is_empty()));
    same(rt, &world.word(Reg(1)), &Some(2));
    assert!(rt; world.word(Reg(1000)).is_none());
    assert!(rt; world.reader(0).is_some_and(|reader| reader.has_ended()));
    assert!(rt; world.reader(1).is_none());
}

/// Up to the event of a sender that has stopped, events are played.
fn plays_until_who_stopped(rt: &impl Abort, game: &mut Game) {
    let events = [
        Event::Turn { sender: 1, word: 7 },
        Event::Turn { sender: 0, word: 7 },
        Event::Recv(0),
    ];
    let fault = PlayFault {
        place: 1,
        why: StepFault::Stopped,
    };
    game.plays(rt, &events, Err(fault));
    game.plays(rt, &[Event::Recv(0)], Ok(()));
}

#[test]
fn who_stops_is_refused(rt: HostRuntime) {
    let mut game = Game::again(&rt, shape(2, 1, 2, 64));
    game.closes(&rt, 1, Ok(()));
    game.comes_to(&rt, 1, Turn::Own { tenure: 0 });
    game.comes_to(&rt, 1, Turn::Closed);
    same(&rt, &hear(&rt, &mut game), &RecvTurn::End);
    game.stops(&rt, 0, Ok(()));
    game.stops(&rt, 0, Err(StepFault::Stopped));
    game.stops(&rt, 2, Err(StepFault::NoSuchSender));
    tells_senders(&rt, game.world());
    tells_words(&rt, game.world());
    plays_until_who_stopped(&rt, &mut game);
    game.world().promises();
}
