//! A next sitting, which goes on with the numbers of the one before.

use crate::games::{Game, same, says, shape};
use bus_adoptcommit::ThreeWord;
use bus_deliverylog::Order;
use bus_machine::World;
use bus_register::SenderNo;
use bus_tenure::{Page, Turn};
use bus_world::MakeFault;
use std::process::Abort;

/// The page of a sitting in which a message was delivered and the order was closed.
fn first_sitting<R: Abort + AllocGlobal>(rt: &R) -> Page {
    let mut game = Game::new(rt, shape(1, 1, 4, 16));
    game.puts(rt, 0, b"a", Ok(0));
    game.sends(rt, 0, 0, 0);
    game.closes(rt, 0, Ok(()));
    game.comes_to(rt, 0, Turn::Own { tenure: 1 });
    game.comes_to(rt, 0, Turn::Closed);
    game.page(rt)
}

/// Wants that no next sitting goes on with a page, for this reason; or that one does, where there
/// is none.
fn is_refused<R: Abort + AllocGlobal>(rt: &R, page: &Page, why: Option<MakeFault>) {
    let plain = World::<ThreeWord>::after(rt.alloc(), shape(1, 1, 1, 16), page).err();
    same(rt, &plain, &why);
    let again = World::<ThreeWord>::cyclic(rt.alloc(), shape(1, 1, 2, 16), Some(page)).err();
    same(rt, &again, &why);
}

/// The order is one item, the second of sender 0.
fn is_second(rt: &impl Abort, order: &Order) {
    assert!(rt; order.items.len() == 1);
    let item = &order.items[0];
    same(rt, &(item.sender, item.number), &(SenderNo(0), 1));
    same(rt, &item.message.as_slice(), &b"b".as_slice());
}

#[test]
fn next_sitting_goes_on_with_the_numbers(rt: HostRuntime) {
    let page = first_sitting(&rt);
    says(&rt, &page, [1, 0], [false, false], (true, 2, 5));
    let mut game = Game::after(&rt, shape(1, 1, 1, 16), &page);
    game.puts(&rt, 0, b"b", Ok(1));
    game.sends(&rt, 0, 0, 1);
    is_second(&rt, &game.order(&rt));
}

#[test]
fn what_no_sitting_goes_on_with(rt: HostRuntime) {
    let mut page = first_sitting(&rt);
    page.next[63] = (1 << 48) - 65_537;
    is_refused(&rt, &page, None);
    page.next[63] = (1 << 48) - 65_536;
    is_refused(&rt, &page, Some(MakeFault::Numbers));
    page.ended = false;
    is_refused(&rt, &page, Some(MakeFault::NotEnded));
}
