//! How the replicas of a bus are opened.

ghost use Rattle.std.specs.Prelude.{◌≡◌, ℕ, IfOk, IfErr, None, Some, [], Option};
ghost use Rattle.std.specs.Option.{option_copied};
ghost use Rattle.bus_batch.specs.Frames.{items_in};
ghost use Rattle.bus_deliverylog.specs.Orders.{order_held};
ghost use Rattle.bus_tenure.specs.declared.pages.Page.{Page};
ghost use Rattle.bus_automaton.specs.ThreeWordBuses.{automaton, process};
ghost use Rattle.bus_automaton.specs.Buses.{ring_plan};
ghost use Rattle.bus_handles.specs.Handles.{OpenRefused};
ghost use Rattle.bus_replica.specs.Openings.{AreNewReplicas, AreSizes, IsOpenFault, IsPairing};
ghost use Rattle.bus_replica.specs.declared.opening.TheConstants.{LOG_WORDS};
ghost use Rattle.bus_replica.specs.Openings.{replica_shape};

use crate::faults::OpenFault;
use crate::pasts::Past;
use crate::replaying::replayed;
use crate::replicas::Replica;
use crate::states::State;
use bus_automaton::laws::threads_may_go_by;
use bus_deliverylog::Order;
use bus_handles::{
    MOST_LOG_WORDS, MOST_MESSAGES, MOST_SENDERS, MakeFault, Page, ReceiverHandle, RingFault,
    SenderHandle, Shape, ThreeWord, open_ring,
};
use bus_register::NoMemory;
use bus_register::limits::MOST_FRAME_WORDS;
use std::alloc::Global;

/// How many words the log of `open_replicas` has.
pub const LOG_WORDS: u64 = 32_768;

/// Opens a bus for so many workers, 1 to 64, and gives each a replica of the first state. Its log
/// is a ring of `LOG_WORDS` words.
pub fn open_replicas<S: State>(alloc: Global, workers: u64) -> Result<Vec<Replica<S>>, OpenFault>
    ensures opened { IfOk result (λ made. AreNewReplicas process automaton S.is_first S.applies
        workers LOG_WORDS None [] made.items) }
    ensures fault { IfErr result (IsOpenFault workers LOG_WORDS None) }
{
    open_replicas_in(alloc, workers, LOG_WORDS)
}

/// As `open_replicas`, over a ring of so many words: 513, which the longest batch takes, to 65,536.
/// In a short one workers wait more often for the slowest.
pub fn open_replicas_in<S: State>(
    alloc: Global,
    workers: u64,
    log_words: u64,
) -> Result<Vec<Replica<S>>, OpenFault>
    ensures opened { IfOk result (λ made. AreNewReplicas process automaton S.is_first S.applies
        workers log_words None [] made.items) }
    ensures fault { IfErr result (IsOpenFault workers log_words None) }
{
    open_behind(alloc, workers, log_words, None, &Order::new(alloc))
}

/// As `open_replicas_in`, of a sitting that goes on from what was recorded: with the numbers of
/// this page, and each replica with the state that the operations of this order lead to. Each
/// replays them by itself. Of a journal the page is that of `page_after`, and the order that of
/// `read_journal`.
pub fn open_recorded<S: State>(
    alloc: Global,
    workers: u64,
    log_words: u64,
    page: &Page,
    order: &Order,
) -> Result<Vec<Replica<S>>, OpenFault>
    ensures opened { IfOk result (λ made. AreNewReplicas process automaton S.is_first S.applies
        workers log_words (Some page.now) (items_in (order_held order.now).entries) made.items) }
    ensures fault { IfErr result (IsOpenFault workers log_words (Some page.now)) }
{
    open_behind(alloc, workers, log_words, Some(page), order)
}

/// Replicas behind the operations of this order, with the numbers of this page, if of any.
fn open_behind<S: State>(
    alloc: Global,
    workers: u64,
    log_words: u64,
    page: Option<&Page>,
    order: &Order,
) -> Result<Vec<Replica<S>>, OpenFault>
    ensures opened { IfOk result (λ made. AreNewReplicas process automaton S.is_first S.applies
        workers log_words (option_copied page.entry) (items_in (order_held order.now).entries)
        made.items) }
    ensures fault { IfErr result (IsOpenFault workers log_words (option_copied page.entry)) }
{
    if workers < 1 || workers > MOST_SENDERS as u64 {
        return Err(OpenFault::Workers);
    }
    if log_words < MOST_FRAME_WORDS as u64 || log_words > MOST_LOG_WORDS {
        return Err(OpenFault::LogWords);
    }
    let shape = shape_of(workers, log_words);
    match open_ring::<ThreeWord>(alloc, shape, page) {
        Ok((senders, receivers)) => match pair(alloc, shape, page, order, senders, receivers) {
            Ok(replicas) => Ok(replicas),
            Err(NoMemory) => Err(OpenFault::NoMemory),
        },
        Err(why) => Err(fault_of(why)),
    }
}

/// Why there are no replicas, where this is why there is no bus for them.
fn fault_of(why: RingFault) -> OpenFault
    ensures { (workers words : ℕ) (page : Option Page) → AreSizes workers words
        → OpenRefused (ring_plan (replica_shape workers words) None) page why
        → IsOpenFault workers words page result }
{
    match why {
        RingFault::Make(MakeFault::NotEnded) => OpenFault::NotEnded,
        RingFault::Make(MakeFault::Numbers) => OpenFault::Numbers,
        _ => OpenFault::NoMemory,
    }
}

/// The sizes of the bus of so many workers, over a ring of so many words.
fn shape_of(workers: u64, log_words: u64) -> Shape
    ensures { result ≡ replica_shape workers log_words }
{
    Shape {
        senders: workers,
        receivers: workers,
        rounds: 1,
        rows: 8,
        log_words,
        batch: MOST_MESSAGES as u64,
    }
}

/// A replica for each of these senders and receivers of one bus, of the state that the operations
/// of this order lead to. The bus goes on with the numbers of this page, if of any.
fn pair<S: State>(
    alloc: Global,
    shape: Shape,
    page: Option<&Page>,
    order: &Order,
    senders: Vec<SenderHandle<ThreeWord>>,
    receivers: Vec<ReceiverHandle<ThreeWord>>,
) -> Result<Vec<Replica<S>>, NoMemory>
    requires { IsPairing process automaton S.is_first S.applies shape (option_copied page)
        (items_in (order_held order.now).entries) [] senders.items receivers.items }
    ensures opened { IfOk result (λ made. AreNewReplicas process automaton S.is_first S.applies
        shape.senders shape.log_words (option_copied page.entry)
        (items_in (order_held order.now).entries) made.items) }
{
    let _ = page;
    threads_may_go_by::<ThreeWord>();
    let mut senders = senders.into_iter();
    let mut replicas = Vec::new(alloc);
    for receiver in receivers {
        let Some(sender) = senders.next() else {
            unreachable!()
        };
        let bell = receiver.bell()?;
        let state = replayed(alloc, order)?;
        let past = Past::of(order);
        let workers = shape.senders as u8;
        replicas.push(Replica::new(sender, receiver, state, past, workers, bell))?;
    }
    Ok(replicas)
}
