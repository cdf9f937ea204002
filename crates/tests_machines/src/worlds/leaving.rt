//! Senders that leave.

use crate::games::{Game, same, shape};
use bus_batch::{CloseFault, PutFault};
use bus_deliverylog::{Order, RecvTurn};
use bus_register::SenderNo;
use bus_tenure::Turn;
use bus_world::{Answer, Event, StepFault};
use std::process::Abort;

/// A bus of two senders and a receiver, with a row for each tenure.
fn made<R: Abort + AllocGlobal>(rt: &R) -> Game {
    Game::new(rt, shape(2, 1, 4, 64))
}

/// The same whose two rows are used again.
fn made_again<R: Abort + AllocGlobal>(rt: &R) -> Game {
    Game::again(rt, shape(2, 1, 2, 64))
}

/// Sender 0 leaves in tenure 0, and sender 1 sends its message in tenure 1.
fn one_leaves(rt: &impl Abort, game: &mut Game) {
    game.puts(rt, 1, b"b", Ok(0));
    game.leaves(rt, 0, Ok(()));
    game.comes_to(rt, 0, Turn::Own { tenure: 0 });
    game.comes_to(rt, 0, Turn::Left { tenure: 0 });
    game.comes_to(rt, 0, Turn::Closed);
    game.sends(rt, 1, 1, 0);
}

/// The words of both frames, and the page that is at home.
fn holds_them<R: Abort + AllocGlobal>(rt: &R, game: &Game) {
    let words: [u64; 5] = [
        0x4000_0100_0000_0000,
        0xC000_0000_0000_0001,
        0x4040_0200_0000_0001,
        0x8040_0000_0000_0000,
        0x6200_0000_0000_0000,
    ];
    game.has_log(rt, &words);
    game.has_page(rt, [0, 1], [true, false], (false, 2, 5));
}

/// The answers of the receiver's next turns, of which the third is of no item.
fn hears_them(rt: &impl Abort, game: &mut Game) {
    game.hears(rt, RecvTurn::Going);
    let head = RecvTurn::Head {
        tenure: 0,
        owner: SenderNo(0),
    };
    game.hears(rt, head);
    game.hears(rt, RecvTurn::Leave(SenderNo(0)));
}

/// Sender 0 has left before all items, of which there are so many.
fn has_it_first(rt: &impl Abort, order: &Order, items: usize) {
    same(rt, &order.left.as_slice(), &[(SenderNo(0), 0)].as_slice());
    same(rt, &(order.items.len(), order.ended), &(items, false));
}

/// Sender 0 leaves, and the order and what the receiver was given say so.
fn leaves_first<R: Abort + AllocGlobal>(rt: &R, mut game: Game) {
    one_leaves(rt, &mut game);
    holds_them(rt, &game);
    hears_them(rt, &mut game);
    has_it_first(rt, &game.order(rt), 1);
    has_it_first(rt, &game.given(rt), 0);
}

#[test]
fn one_of_two_leaves(rt: HostRuntime) {
    leaves_first(&rt, made(&rt));
    leaves_first(&rt, made_again(&rt));
}

/// A close and a leave of sender 0 are refused, and so is a put.
fn takes_nothing(rt: &impl Abort, game: &mut Game) {
    let closed = Err(StepFault::Close(CloseFault::Closed));
    game.leaves(rt, 0, closed);
    game.closes(rt, 0, closed);
    game.puts(rt, 0, b"a", Err(StepFault::Put(PutFault::Closed)));
}

/// From its leave on sender 0 takes neither a message nor a mark. Why other leaves are refused.
fn leaves_for_good(rt: &impl Abort, mut game: Game) {
    assert!(rt; matches!(game.step(&Event::Leave(0)), Ok(Answer::Leaving)));
    takes_nothing(rt, &mut game);
    game.comes_to(rt, 0, Turn::Own { tenure: 0 });
    game.comes_to(rt, 0, Turn::Left { tenure: 0 });
    takes_nothing(rt, &mut game);
    game.puts(rt, 1, b"b", Ok(0));
    game.leaves(rt, 1, Err(StepFault::Close(CloseFault::Pending)));
    game.leaves(rt, 2, Err(StepFault::NoSuchSender));
    game.stops(rt, 0, Ok(()));
    game.leaves(rt, 0, Err(StepFault::Stopped));
}

#[test]
fn who_leaves_takes_nothing(rt: HostRuntime) {
    leaves_for_good(&rt, made(&rt));
    leaves_for_good(&rt, made_again(&rt));
}

/// The order was closed before the leave mark was sent: there is none.
fn finds_the_end<R: Abort + AllocGlobal>(rt: &R, mut game: Game) {
    game.leaves(rt, 0, Ok(()));
    game.closes(rt, 1, Ok(()));
    game.comes_to(rt, 1, Turn::Own { tenure: 0 });
    game.comes_to(rt, 1, Turn::Closed);
    game.comes_to(rt, 0, Turn::Own { tenure: 1 });
    game.comes_to(rt, 0, Turn::Closed);
    game.has_page(rt, [0, 0], [false, false], (true, 2, 2));
    let order = game.order(rt);
    assert!(rt; order.left.is_empty() && order.ended);
}

#[test]
fn who_finds_the_end_has_no_mark(rt: HostRuntime) {
    finds_the_end(&rt, made(&rt));
    finds_the_end(&rt, made_again(&rt));
}

/// A sitting in which sender 0 has sent a message and left, and sender 1 has closed.
fn first_sitting<R: Abort + AllocGlobal>(rt: &R) -> Game {
    let mut game = made(rt);
    game.puts(rt, 0, b"a", Ok(0));
    game.sends(rt, 0, 0, 0);
    game.leaves(rt, 0, Ok(()));
    game.comes_to(rt, 0, Turn::Own { tenure: 1 });
    game.comes_to(rt, 0, Turn::Left { tenure: 1 });
    game.closes(rt, 1, Ok(()));
    game.comes_to(rt, 1, Turn::Own { tenure: 2 });
    game.comes_to(rt, 1, Turn::Closed);
    game
}

/// In the next sitting it is there again, with the number that follows.
#[test]
fn who_left_is_there_in_the_next_sitting(rt: HostRuntime) {
    let game = first_sitting(&rt);
    game.has_page(&rt, [1, 0], [true, false], (true, 3, 7));
    let mut next = Game::after(&rt, shape(2, 1, 4, 64), &game.page(&rt));
    next.has_page(&rt, [1, 0], [false, false], (false, 0, 0));
    next.puts(&rt, 0, b"b", Ok(1));
    next.sends(&rt, 0, 0, 1);
}
