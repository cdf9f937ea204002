//! Worked calls of receivers that fork, in a ring of 16 words, and where no word is used again.

use crate::games::{Game, same, shape};
use bus_deliverylog::RecvTurn;
use bus_world::StepFault;
use std::process::Abort;

/// A ring of one sender and so many receivers, with two rows.
fn ring<R: Abort + AllocGlobal>(rt: &R, receivers: u64) -> Game {
    Game::ring(rt, shape(1, receivers, 2, 16))
}

/// Each refusal before the next, and a number that is taken.
fn is_refused(rt: &impl Abort, game: &mut Game) {
    game.forks(rt, 2, 3, Err(StepFault::NoSuchReceiver));
    game.forks(rt, 2, 0, Err(StepFault::NoSuchReceiver));
    game.forks(rt, 0, 2, Err(StepFault::NoSuchReceiver));
    game.forks(rt, 0, 0, Err(StepFault::NotAbove));
    game.forks(rt, 1, 0, Err(StepFault::NotAbove));
    game.forks(rt, 0, 1, Ok(false));
    game.lets_go(rt, 0, Ok(()));
    game.forks(rt, 1, 0, Err(StepFault::NotAbove));
    game.forks(rt, 0, 1, Err(StepFault::Gone));
}

#[test]
fn refused_in_order(rt: HostRuntime) {
    is_refused(&rt, &mut ring(&rt, 2));
    is_refused(&rt, &mut Game::new(&rt, shape(1, 2, 4, 16)));
    is_refused(&rt, &mut Game::again(&rt, shape(1, 2, 2, 16)));
}

/// Receiver 0 forks within a frame of nine words, and both hear the rest of it.
fn forks_within(rt: &impl Abort, game: &mut Game) {
    game.lets_go(rt, 1, Ok(()));
    game.puts(rt, 0, &[120; 56], Ok(0));
    game.sends(rt, 0, 0, 0);
    same(rt, &game.listens(rt, 0, 3), &RecvTurn::Going);
    game.forks(rt, 0, 1, Ok(true));
    assert!(rt; matches!(game.listens(rt, 1, 7), RecvTurn::Item(_)));
    assert!(rt; matches!(game.listens(rt, 0, 7), RecvTurn::Item(_)));
    game.hears_all(rt, 0);
    game.hears_all(rt, 1);
}

#[test]
fn both_hear_the_rest_of_a_frame(rt: HostRuntime) {
    forks_within(&rt, &mut ring(&rt, 2));
    forks_within(&rt, &mut Game::new(&rt, shape(1, 2, 4, 16)));
    forks_within(&rt, &mut Game::again(&rt, shape(1, 2, 2, 16)));
}

#[test]
fn a_fork_holds_the_ring_up(rt: HostRuntime) {
    let mut game = ring(&rt, 2);
    game.lets_go(&rt, 1, Ok(()));
    game.forks(&rt, 0, 1, Ok(true));
    game.puts(&rt, 0, &[120; 56], Ok(0));
    game.sends(&rt, 0, 0, 0);
    game.hears_all(&rt, 0);
    same(&rt, &game.world().floor(), &0);
    game.lets_go(&rt, 1, Ok(()));
    same(&rt, &game.world().floor(), &9);
    game.forks(&rt, 0, 1, Ok(true));
    same(&rt, &game.world().floor(), &9);
    game.world().promises();
}
