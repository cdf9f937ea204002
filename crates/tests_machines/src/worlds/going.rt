//! Receivers that leave for good.

use crate::games::{Game, delivered, same, shape};
use bus_deliverylog::RecvTurn;
use bus_register::SenderNo;
use bus_tenure::Turn;
use bus_world::{Answer, Event, StepFault};
use std::process::Abort;

/// Receiver 1 leaves, and is refused from then on.
fn one_goes(rt: &impl Abort, game: &mut Game) {
    assert!(rt; matches!(game.step(&Event::Gone(1)), Ok(Answer::Gone)));
    assert!(rt; matches!(game.step(&Event::Recv(1)), Err(StepFault::Gone)));
    game.lets_go(rt, 1, Err(StepFault::Gone));
    game.lets_go(rt, 2, Err(StepFault::NoSuchReceiver));
}

/// Receiver 0 hears that a frame of this tenure begins.
fn hears_head(rt: &impl Abort, game: &mut Game, tenure: u64) {
    game.hears(rt, RecvTurn::Going);
    let head = RecvTurn::Head {
        tenure,
        owner: SenderNo(0),
    };
    game.hears(rt, head);
}

/// The other hears on. It leaves within a frame, and the sender sends on.
fn other_hears<R: Abort + AllocGlobal>(rt: &R, mut game: Game) {
    one_goes(rt, &mut game);
    game.puts(rt, 0, b"", Ok(0));
    game.sends(rt, 0, 0, 0);
    hears_head(rt, &mut game, 0);
    assert!(rt; matches!(game.recv(rt), RecvTurn::Item(_)));
    game.hears(rt, RecvTurn::Empty);
    game.puts(rt, 0, b"", Ok(1));
    game.sends(rt, 0, 1, 1);
    hears_head(rt, &mut game, 1);
    game.lets_go(rt, 0, Ok(()));
    same(rt, &game.given(rt).items.len(), &1);
    game.puts(rt, 0, b"", Ok(2));
    game.comes_to(rt, 0, Turn::Own { tenure: 2 });
    game.comes_to(rt, 0, delivered(2, 2));
}

#[test]
fn receivers_leave_for_good(rt: HostRuntime) {
    other_hears(&rt, Game::new(&rt, shape(1, 2, 4, 16)));
    other_hears(&rt, Game::again(&rt, shape(1, 2, 2, 16)));
}
