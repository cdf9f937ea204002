//! Three workers replicate a ledger: each submits transfers between accounts. A transfer of more
//! than an account has is refused, so which ones are depends on the order. It may differ from run
//! to run: the balances go to standard error, the verdict to standard output.
#![tactic(auto)]

ghost use Rattle.std.specs.Prelude.{◌≡◌, ◌↔◌, ◌^◌, ◌<◌, List, ℕ, Bool, IsTrue, sum};
ghost use Rattle.std.specs.Bool.{OnFalse};
ghost use Rattle.bus_batch.specs.declared.messages.Item.{Item};
ghost use Rattle.bus_batch.specs.Frames.{Order, items_in};
ghost use Rattle.bus_replica.specs.Histories.{AreDoneBy, AreInTurn, AreMoments, Call};
ghost use Rattle.bus_replica.specs.Histories.{IsLinearizable};
ghost use Rattle.bus_replica.specs.OneOrder.{AreFunctions};
ghost use Rattle.bus_replica.specs.Replicas.{Folds, IsFold, LeadTo};
ghost use Rattle.example_ledger.specs.Transfers.{after_transfer, message_of, money, CanBePaid};
ghost use Rattle.example_ledger.specs.Transfers.{IsFirst, Applies};

use anyhow::{Context, ensure};
use bus_replica::histories::histories_are_linearizable;
use bus_replica::{Replica, SenderNo, State, open_replicas};
use std::alloc::{AllocError, Global};
use std::marker::Model;
use std::sync::Wait;
use std::thread;

/// An amount that one account is to pay to another.
#[derive(Clone, Copy)]
struct Transfer {
    from: u8,
    to: u8,
    amount: u8,
}

/// The transfer as a message.
fn encode(transfer: Transfer) -> [u8; 4]
    ensures { result ≡ message_of transfer }
{
    [b'>', transfer.from, transfer.to, transfer.amount]
}

/// The transfer of a message, which is the one that was encoded. Other messages have none.
fn decode(message: &[u8]) -> Option<Transfer>
    ensures { (transfer : Transfer)
        → (result ≡ Some transfer) ↔ (message.now ≡ message_of transfer) }
{
    match *message {
        [b'>', from, to, amount] => Some(Transfer { from, to, amount }),
        _ => None,
    }
}

/// Carries out the transfer of a message, and tells whether it could: it is refused where the
/// message is of none, an account is unknown, or the one that pays has less. Whatever the bytes
/// are, money is neither made nor lost.
fn apply(message: &[u8], balances: &mut [u64; 4]) -> bool
    requires { sum balances.old < 2 ^ 64 }
    ensures conserved { sum balances.new ≡ sum balances.old }
    ensures exact { IsTrue result ↔ CanBePaid message.now balances.old }
    ensures applied { (transfer : Transfer) → message.now ≡ message_of transfer
        → IsTrue result → balances.new ≡ after_transfer transfer balances.old }
    ensures refused { OnFalse result (balances.new ≡ balances.old) }
{
    let Some(transfer) = decode(message) else {
        return false;
    };
    let (from, to) = (usize::from(transfer.from), usize::from(transfer.to));
    let amount = u64::from(transfer.amount);
    if from >= balances.len() || to >= balances.len() || balances[from] < amount {
        return false;
    }
    balances[from] -= amount;
    balances[to] += amount;
    true
}

/// What the accounts have.
#[derive(Drop)]
struct Ledger {
    balances: [u64; 4],
}

impl Model for Ledger {
    ghost use Rattle.std.specs.Prelude.{◌≡◌, ℕ, List, sum};
    ghost use Rattle.example_ledger.specs.Transfers.{money};

    ghost Value = { List ℕ };

    ghost view = { λ l. l.balances };

    ghost invariant = { λ l. sum l.balances ≡ money };
}

impl State for Ledger {
    ghost use Rattle.example_ledger.specs.Transfers.{IsFirst, Applies};

    /// Whether the transfer was carried out.
    type Answer = bool;

    ghost is_first = { IsFirst };

    ghost applies = { Applies };

    fn first(_alloc: Global) -> Result<Ledger, AllocError> {
        Ok(Ledger { balances: [60; 4] })
    }

    fn apply(&mut self, _from: SenderNo, op: &[u8]) -> bool {
        apply(op, &mut self.balances)
    }
}

/// No money is made or lost: whatever operations led to these balances, they sum up to all of it.
pub fn no_money_is_made_or_lost()
    ensures { (first balances : List ℕ) (items : List Item) → IsFirst first
        → Folds Applies first items balances → sum balances ≡ money }
{}

/// A transfer has one outcome, and there is one first ledger. So any history of calls of ledgers is
/// linearizable whose calls are done between moments of one order, as `bus_replica` says, from what
/// the replayed transfers lead to, if any were replayed.
pub fn ledgers_are_linearizable()
    ensures functions { AreFunctions IsFirst Applies }
    ensures histories { (replayed : List Item) (first : List ℕ) (orders : ℕ → Order) (last : ℕ)
        (calls : List (Call (List ℕ) Bool)) → LeadTo IsFirst Applies replayed first
        → AreMoments orders → AreDoneBy (LeadTo IsFirst Applies replayed) Applies orders last calls
        → AreInTurn calls → IsLinearizable (LeadTo IsFirst Applies replayed) Applies
        (items_in (orders last).entries) calls }
{
    histories_are_linearizable::<Ledger>();
}

/// What the accounts of a replica have: all the money, at any time. It is what the transfers lead
/// to that were replayed and that it was given.
fn balances_of(replica: &Replica<Ledger>) -> [u64; 4]
    ensures fold { IsFold (LeadTo IsFirst Applies replica.now.bus.replayed) Applies
        replica.now.me.0 result }
    ensures all { sum result ≡ money }
{
    replica.state().balances
}

/// Executes ten transfers, of which two are to an unknown account.
fn work<W: Wait>(wait: &W, mut replica: Replica<Ledger>) -> anyhow::Result<[u64; 4]> {
    let from = replica.number().0;
    for amount in [20, 30] {
        for to in 0..5 {
            let paid = replica.execute(wait, &encode(Transfer { from, to, amount }))?;
            ensure!(to < 4 || !paid, "an unknown account was paid");
        }
    }
    replica.leave(wait)?;
    Ok(balances_of(&replica))
}

fn main(rt: HostRuntime) -> anyhow::Result<()> {
    let replicas = open_replicas::<Ledger>(rt.alloc(), 3)?;
    let mut all = Vec::new(rt.alloc());
    for balances in thread::map_vec(&rt, replicas, &|replica| work(&rt, replica))? {
        all.push(balances?)?;
    }
    eprintln!(&rt; "{all:?}")?;
    let last = all.pop().context("no worker")?;
    ensure!(all.iter().all(|it| *it == last), "two ledgers differ");
    println!(&rt; "3 replicas: all equal, with all the money").context("no output")
}
