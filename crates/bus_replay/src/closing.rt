//! What `replay` prints behind the answers to a script.

ghost use Rattle.std.specs.Prelude.{◌≡◌, ◌++◌, ℕ, Bool, List, map, flat_map, OnOk, IfOk};
ghost use Rattle.std.specs.Prelude.{string_bytes};
ghost use Rattle.bus_batch.specs.Frames.{Says};
ghost use Rattle.bus_deliverylog.specs.Orders.{merged, order_held};
ghost use Rattle.bus_tenure.specs.Elections.{election_of};
ghost use Rattle.bus_machine.specs.Machine.{Trails};
ghost use Rattle.bus_register.specs.declared.registers.SenderNo.{SenderNo as Number};
ghost use Rattle.bus_batch.specs.Frames.{IsLog, Spells};
ghost use Rattle.bus_replay.specs.Histories.{IsHistoryOf};
ghost use Rattle.bus_replay.specs.Text.{owners_line, entry_line, order_text, count_line};
ghost use Rattle.bus_replay.specs.Text.{counts_text};
ghost use Rattle.bus_replay.specs.Answers.{Closes};

use crate::histories::{Given, History};
use bus_adoptcommit::Ratifier;
use bus_batch::Item;
use bus_deliverylog::texts::ItemText;
use bus_deliverylog::{LogFault, Order, read_log};
use bus_machine::World;
use bus_register::{NoMemory, SenderNo};
use std::alloc::{AllocError, Global};

/// Puts the line of the owners at the end of a text.
fn push_owners(text: &mut String, owners: &[SenderNo]) -> Result<(), AllocError>
    ensures { OnOk result
        (string_bytes text.new ≡ string_bytes text.old ++ owners_line
        (map (λ s. s.0) owners.now)) }
{
    text.push_str("owners")?;
    for owner in owners {
        write!(text, " {}", owner.0)?;
    }
    text.push_str("\n")
}

/// Puts a line for each item at the end of a text.
fn push_items(text: &mut String, items: &[Item]) -> Result<(), AllocError>
    ensures { OnOk result
        (string_bytes text.new ≡ string_bytes text.old
        ++ flat_map entry_line (map Says items.now)) }
{
    for item in items {
        let item = ItemText(item);
        writeln!(text, "order {item}")?;
    }
    Ok(())
}

/// Puts a line for each item at the end of a text, and one for each that left, at its place.
fn push_entries(
    text: &mut String,
    items: &[Item],
    left: &[(SenderNo, u64)],
) -> Result<(), AllocError>
    ensures { OnOk result
        (string_bytes text.new ≡ string_bytes text.old
        ++ flat_map entry_line (merged items.now left.now)) }
{
    let mut rest = items;
    let mut before = 0u64;
    for mark in left {
        let more = mark.1.saturating_sub(before).min(rest.len() as u64);
        let (front, behind) = rest.split_at(more as usize);
        push_items(text, front)?;
        writeln!(text, "order leave {}", mark.0.0)?;
        rest = behind;
        before = mark.1;
    }
    push_items(text, rest)
}

/// Puts a line for each entry at the end of a text, and one for the end.
fn push_order(text: &mut String, order: &Order) -> Result<(), AllocError>
    ensures { OnOk result
        (string_bytes text.new ≡ string_bytes text.old ++ order_text (order_held order.now)) }
{
    push_entries(text, &order.items, &order.left)?;
    if order.ended {
        text.push_str("order end\n")?;
    }
    Ok(())
}

/// Puts the line of a receiver that was given so many items at the end of a text.
fn push_count(text: &mut String, receiver: u64, items: u64, ended: bool) -> Result<(), AllocError>
    ensures { OnOk result
        (string_bytes text.new ≡ string_bytes text.old ++ count_line receiver items ended) }
{
    write!(text, "given {receiver} {items}")?;
    if ended {
        text.push_str(" end")?;
    }
    text.push_str("\n")
}

/// Puts the line of each seat that has or had a receiver at the end of a text.
fn push_all_given(text: &mut String, all: &[Given]) -> Result<(), AllocError>
    ensures { OnOk result (string_bytes text.new ≡ string_bytes text.old ++ counts_text all.now) }
{
    for (receiver, given) in all.iter().enumerate() {
        if given.taken {
            push_count(text, receiver as u64, given.items, given.ended)?;
        }
    }
    Ok(())
}

/// The order that all words of a history spell, which are a whole log: want of memory is its only
/// refusal.
fn order_of(alloc: Global, history: &History, senders: u64) -> Result<Order, NoMemory>
    requires { IsLog senders history.now.log }
    ensures { IfOk result (λ order. (owners : List (ℕ × Number))
        × Spells senders history.now.log (order_held order) owners) }
{
    match read_log(alloc, history.log(), senders) {
        Ok(read) => Ok(read.order),
        Err(LogFault::NoMemory) => Err(NoMemory),
        Err(LogFault::BadWord { .. }) => unreachable!(),
        Err(LogFault::Torn) => unreachable!(),
    }
}

/// Puts the closing lines at the end of a text.
pub fn push_closing<Q: Ratifier + Drop>(
    alloc: Global,
    bus: &World<Q>,
    history: &History,
    text: &mut String,
) -> Result<(), NoMemory>
    requires { let X = election_of Q.Ratifier in
        (trails : Trails) × (taken : ℕ → Bool)
        × IsHistoryOf X Q.protocol bus.now history.now trails taken }
    ensures { let X = election_of Q.Ratifier in
        OnOk result ((trails : Trails) (taken : ℕ → Bool)
        → IsHistoryOf X Q.protocol bus.now history.now trails taken
        → (closing : List ℕ) × Closes X Q.protocol bus.now trails taken closing
        × (string_bytes text.new ≡ string_bytes text.old ++ closing)) }
{
    bus.promises();
    let order = order_of(alloc, history, bus.senders())?;
    push_owners(text, bus.owners())?;
    push_order(text, &order)?;
    push_all_given(text, history.given())?;
    Ok(())
}
