//! Worked calls of a bus whose log is used again: a ring of 16 words. A message of 56 bytes makes a
//! frame of 9 words, one of 48 bytes 8, one of 40 bytes 7, and an empty one 2.

use crate::games::{Game, delivered, same, shape};
use bus_adoptcommit::ThreeWord;
use bus_deliverylog::RecvTurn;
use bus_machine::World;
use bus_register::SenderNo;
use bus_tenure::Turn;
use bus_world::{Event, MakeFault, Shape, StepFault};
use std::process::Abort;

/// A ring of so many senders and receivers, with two rows.
fn ring<R: Abort + AllocGlobal>(rt: &R, senders: u64, receivers: u64) -> Game {
    Game::ring(rt, shape(senders, receivers, 2, 16))
}

/// Sender 0 sends a message of so many bytes in this tenure.
fn sent(rt: &impl Abort, game: &mut Game, bytes: &[u8], tenure: u64, number: u64) {
    game.puts(rt, 0, bytes, Ok(number));
    game.sends(rt, 0, tenure, number);
}

/// Sender 0 owns this tenure, and finds no room.
fn finds_full(rt: &impl Abort, game: &mut Game, tenure: u64) {
    game.comes_to(rt, 0, Turn::Own { tenure });
    game.comes_to(rt, 0, Turn::Full);
}

/// Wants that the log stands from this place on, and that so many items are read from it.
fn stands<R: Abort + AllocGlobal>(rt: &R, game: &Game, floor: u64, items: usize) {
    same(rt, &game.world().floor(), &floor);
    same(rt, &game.order(rt).items.len(), &items);
}

#[test]
fn drained_and_filled_again(rt: HostRuntime) {
    let mut game = ring(&rt, 1, 1);
    sent(&rt, &mut game, &[97; 48], 0, 0);
    sent(&rt, &mut game, &[98; 48], 1, 1);
    game.puts(&rt, 0, &[99; 48], Ok(2));
    finds_full(&rt, &mut game, 2);
    stands(&rt, &game, 0, 2);
    game.hears_all(&rt, 0);
    stands(&rt, &game, 16, 0);
    game.sends(&rt, 0, 3, 2);
    sent(&rt, &mut game, &[100; 48], 4, 3);
    game.puts(&rt, 0, &[101; 48], Ok(4));
    finds_full(&rt, &mut game, 5);
    stands(&rt, &game, 16, 2);
    game.hears_all(&rt, 0);
    stands(&rt, &game, 32, 0);
}

/// The steps of a holder without room: two loads of passed places, a row, and the page goes back.
fn counts_without_room(rt: &impl Abort, game: &mut Game) {
    game.goes(rt, 0, 5, Turn::Own { tenure: 1 });
    game.goes(rt, 0, 3, Turn::Going);
    game.goes(rt, 0, 2, Turn::Going);
    game.goes(rt, 0, 1, Turn::Full);
}

#[test]
fn steps_without_room_and_with_it(rt: HostRuntime) {
    let mut game = ring(&rt, 1, 2);
    game.puts(&rt, 0, &[120; 56], Ok(0));
    game.goes(&rt, 0, 5, Turn::Own { tenure: 0 });
    game.goes(&rt, 0, 11, Turn::Going);
    game.goes(&rt, 0, 1, delivered(0, 0));
    game.puts(&rt, 0, &[121; 56], Ok(1));
    counts_without_room(&rt, &mut game);
    assert!(rt; matches!(game.listens(&rt, 0, 10), RecvTurn::Item(_)));
    same(&rt, &game.listens(&rt, 1, 11), &RecvTurn::Going);
    game.goes(&rt, 0, 5, Turn::Own { tenure: 2 });
    game.comes_to(&rt, 0, Turn::Full);
    same(&rt, &game.listens(&rt, 0, 1), &RecvTurn::Going);
    game.goes(&rt, 0, 5, Turn::Own { tenure: 3 });
    game.goes(&rt, 0, 15, Turn::Going);
    game.goes(&rt, 0, 1, delivered(3, 1));
    game.hears_all(&rt, 1);
    same(&rt, &game.listens(&rt, 0, 12), &RecvTurn::Empty);
}

#[test]
fn one_leaves_within_a_frame(rt: HostRuntime) {
    let mut game = ring(&rt, 1, 2);
    sent(&rt, &mut game, &[120; 56], 0, 0);
    game.hears_all(&rt, 0);
    same(&rt, &game.listens(&rt, 1, 4), &RecvTurn::Going);
    game.puts(&rt, 0, &[121; 56], Ok(1));
    finds_full(&rt, &mut game, 1);
    stands(&rt, &game, 0, 1);
    game.lets_go(&rt, 1, Ok(()));
    stands(&rt, &game, 9, 0);
    game.sends(&rt, 0, 2, 1);
    stands(&rt, &game, 9, 1);
    game.hears_all(&rt, 0);
    game.lets_go(&rt, 0, Ok(()));
    sent(&rt, &mut game, &[120; 56], 3, 2);
    stands(&rt, &game, 27, 0);
}

#[test]
fn a_place_within_a_frame_is_not_passed(rt: HostRuntime) {
    let mut game = ring(&rt, 1, 1);
    sent(&rt, &mut game, &[120; 56], 0, 0);
    same(&rt, &game.listens(&rt, 0, 9), &RecvTurn::Going);
    game.puts(&rt, 0, &[121; 56], Ok(1));
    finds_full(&rt, &mut game, 1);
    assert!(rt; matches!(game.recv(&rt), RecvTurn::Item(_)));
    finds_full(&rt, &mut game, 2);
    game.hears(&rt, RecvTurn::Going);
    game.sends(&rt, 0, 3, 1);
    game.hears_all(&rt, 0);
}

#[test]
fn who_left_is_refused(rt: HostRuntime) {
    let mut game = ring(&rt, 1, 1);
    game.lets_go(&rt, 0, Ok(()));
    game.lets_go(&rt, 0, Err(StepFault::Gone));
    same(
        &rt,
        &game.step(&Event::Recv(0)).err(),
        &Some(StepFault::Gone),
    );
    game.lets_go(&rt, 1, Err(StepFault::NoSuchReceiver));
}

#[test]
fn nobody_is_left(rt: HostRuntime) {
    let mut game = ring(&rt, 1, 1);
    game.lets_go(&rt, 0, Ok(()));
    sent(&rt, &mut game, &[120; 56], 0, 0);
    sent(&rt, &mut game, &[121; 56], 1, 1);
    stands(&rt, &game, 18, 0);
    game.puts(&rt, 0, &[120; 56], Ok(2));
    game.puts(&rt, 0, &[121; 56], Ok(3));
    finds_full(&rt, &mut game, 2);
    finds_full(&rt, &mut game, 3);
    same(&rt, &game.given(&rt).items.len(), &0);
    game.world().promises();
}

#[test]
fn a_mark_is_passed_but_not_the_end(rt: HostRuntime) {
    let mut game = ring(&rt, 2, 1);
    sent(&rt, &mut game, b"", 0, 0);
    game.leaves(&rt, 0, Ok(()));
    game.comes_to(&rt, 0, Turn::Own { tenure: 1 });
    game.comes_to(&rt, 0, Turn::Left { tenure: 1 });
    game.closes(&rt, 1, Ok(()));
    game.comes_to(&rt, 1, Turn::Own { tenure: 2 });
    game.comes_to(&rt, 1, Turn::Closed);
    same(&rt, &game.listens(&rt, 0, 4), &RecvTurn::Going);
    stands(&rt, &game, 2, 0);
    same(&rt, &game.listens(&rt, 0, 2), &RecvTurn::Leave(SenderNo(0)));
    same(&rt, &game.listens(&rt, 0, 3), &RecvTurn::End);
    stands(&rt, &game, 4, 0);
    assert!(rt; game.given(&rt).ended);
}

#[test]
fn ring_limits(rt: HostRuntime) {
    let few = World::<ThreeWord>::ring(rt.alloc(), shape(1, 1, 1, 16), None).err();
    same(&rt, &few, &Some(MakeFault::Rows));
    let small = World::<ThreeWord>::ring(rt.alloc(), shape(1, 1, 2, 15), None).err();
    same(&rt, &small, &Some(MakeFault::LogWords));
}

/// A ring of one sender and one receiver, of so many log words, with so many messages in a batch.
fn batched<R: Abort + AllocGlobal>(rt: &R, log_words: u64, batch: u64) -> Game {
    let one = shape(1, 1, 2, log_words);
    Game::ring(rt, Shape { batch, ..one })
}

/// How many items receiver 0 is given until it finds nothing.
fn heard(rt: &impl Abort, game: &mut Game) -> u64 {
    let mut items = 0u64;
    for _ in 0..999 {
        match game.recv(rt) {
            RecvTurn::Item(_) => items = items.wrapping_add(1),
            RecvTurn::Empty => return items,
            _ => {}
        }
    }
    items
}

/// Wants that a ring sends as many such messages in one frame as a batch may have, and no more, and
/// that its receiver is given all of them.
fn sends_all<R: Abort + AllocGlobal>(rt: &R, game: &mut Game, bytes: &[u8], batch: u64) {
    game.fills(rt, bytes, batch);
    game.comes_to(rt, 0, Turn::Own { tenure: 0 });
    let last = batch.wrapping_sub(1);
    let sent = Turn::Delivered {
        tenure: 0,
        first: 0,
        last,
    };
    game.goes(rt, 0, 999, sent);
    stands(rt, game, 0, batch as usize);
    same(rt, &heard(rt, game), &batch);
}

#[test]
fn batches_of_all_sizes(rt: HostRuntime) {
    sends_all(&rt, &mut batched(&rt, 16, 1), &[97; 56], 1);
    sends_all(&rt, &mut batched(&rt, 18, 17), &[], 17);
    sends_all(&rt, &mut batched(&rt, 512, 64), &[98; 48], 64);
    sends_all(&rt, &mut batched(&rt, 513, 64), &[99; 56], 64);
}

#[test]
fn a_batch_longer_than_its_ring(rt: HostRuntime) {
    let mut game = batched(&rt, 512, 64);
    game.fills(&rt, &[97; 56], 64);
    finds_full(&rt, &mut game, 0);
    finds_full(&rt, &mut game, 1);
    stands(&rt, &game, 0, 0);
}

#[test]
fn batch_limits(rt: HostRuntime) {
    for batch in [0, 65, u64::MAX] {
        let shape = Shape {
            batch,
            ..shape(1, 1, 2, 16)
        };
        let ring = World::<ThreeWord>::ring(rt.alloc(), shape, None).err();
        same(&rt, &ring, &Some(MakeFault::Batch));
    }
    for batch in [0, 1, 15, 17, 64] {
        let shape = Shape {
            batch,
            ..shape(1, 1, 2, 16)
        };
        let plain = World::<ThreeWord>::new(rt.alloc(), shape).err();
        same(&rt, &plain, &Some(MakeFault::Batch));
        let again = World::<ThreeWord>::cyclic(rt.alloc(), shape, None).err();
        same(&rt, &again, &Some(MakeFault::Batch));
    }
}
