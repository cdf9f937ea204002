//! The state that the operations of an order lead to.

ghost use Rattle.std.specs.Prelude.{◌≡◌, ◌++◌, IfOk, OnErr, OnOk, length, take};
ghost use Rattle.bus_batch.specs.Frames.{items_in};
ghost use Rattle.bus_deliverylog.specs.Orders.{HasPlaces, order_held};
ghost use Rattle.bus_replica.specs.Replicas.{Folds, LeadTo};

use crate::states::State;
use bus_batch::Item;
use bus_deliverylog::Order;
use bus_deliverylog::laws::merged_is_one_list;
use std::alloc::{AllocError, Global};

/// Applies all operations of an order to a state, one after another: of `read.log.order` of what
/// `read_journal` gave, or of `read.order` of what `read_log` gave. What they answer is lost.
///
/// It has no fault. Bytes and words that are no log, and memory that is refused, are faults of
/// these two, which give no order then. A journal that is damaged tells what stands before: so ask
/// `page_after` first, which refuses it.
///
/// Several journals, one of each sitting, are replayed in their order by a call for each, or as one
/// order that `append` has made of theirs; `page_after` is asked of each before. A state of long
/// operations is replayed as `Long` of it, and so is what replicas of the Rust crate recorded, also
/// where each operation was short.
pub fn replay<S: State>(state: &mut S, order: &Order)
    ensures { Folds S.applies state.old (items_in (order_held order.now).entries) state.new }
{
    merged_is_one_list();
    for item in &order.items {
        let _ = state.apply(item.sender, item.message.as_slice());
    }
}

/// Puts the items of an order behind those of another, so that `open_recorded` replays those of
/// several journals. Its leave marks and its end are left out, and those of the other stay. Where
/// memory is refused nothing changes.
pub fn append(order: &mut Order, more: &Order) -> Result<(), AllocError>
    ensures joined { OnOk result (items_in (order_held order.new).entries
        ≡ items_in (order_held order.old).entries ++ items_in (order_held more.now).entries) }
    ensures refused { OnErr result (items_in (order_held order.new).entries
        ≡ items_in (order_held order.old).entries) }
    ensures rest { (order.new.left.items ≡ order.old.left.items)
        × (order.new.ended ≡ order.old.ended) }
    ensures places { HasPlaces order.old → HasPlaces order.new }
{
    merged_is_one_list();
    let before = order.items.len();
    let pushed = push_all(&mut order.items, &more.items);
    if pushed.is_err() {
        order.items.truncate(before);
    }
    pushed
}

/// Puts items behind others. Where memory is refused some of them may stand there.
fn push_all(items: &mut Vec<Item>, more: &[Item]) -> Result<(), AllocError>
    ensures ok { OnOk result (items.new.items ≡ items.old.items ++ more.now) }
    ensures kept { take (length items.old.items) items.new.items ≡ items.old.items }
{
    for item in more {
        items.push(item.copied())?;
    }
    Ok(())
}

/// The state that the operations of an order lead to from a first one.
pub(crate) fn replayed<S: State>(alloc: Global, order: &Order) -> Result<S, AllocError>
    ensures { IfOk result
        (LeadTo S.is_first S.applies (items_in (order_held order.now).entries)) }
{
    let mut state = S::first(alloc)?;
    replay(&mut state, order);
    Ok(state)
}
