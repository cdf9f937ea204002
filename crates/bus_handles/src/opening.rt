//! How a bus is opened: all its handles in one call.

ghost use Rattle.std.specs.Prelude.{All, ◌≡◌, ◌↔◌, Some, None, IfOk, OnOk, IfErr, IsTrue};
ghost use Rattle.std.specs.Option.{option_copied};
ghost use Rattle.bus_machine.specs.Playing.{MakeRefused, IsFollowed, AfterRefused};
ghost use Rattle.bus_machine.specs.Playing.{MayFollow, MakeRefusedAfter};
ghost use Rattle.bus_machine.specs.Playing.{IsServedWith, MayGoOn, RefusedWith};
ghost use Rattle.bus_automaton.specs.Buses.{process_by, automaton_by, new_plan, cyclic_plan};
ghost use Rattle.bus_automaton.specs.Buses.{ring_plan};
ghost use Rattle.bus_pageslot.specs.Seats.{table_of};
ghost use Rattle.bus_handles.specs.Handles.{seats_of, IsOpened, HoldsFrames, OpenRefused};

use crate::answers::RingFault;
use crate::receivers::ReceiverHandle;
use crate::senders::SenderHandle;
use bus_adoptcommit::Ratifier;
use bus_machine::shapes::fault_of;
use bus_pageslot::{Bus, Sender, Tap};
use bus_receiver::{Page, Receiver};
use bus_register::NoMemory;
use bus_register::limits::{MOST_MESSAGE_WORDS, MOST_MESSAGES};
use bus_waiting::SharedBell;
use bus_world::{MakeFault, Shape};
use rand_pcg::Pcg32;
use std::alloc::Global;
use std::sync::Arc;

/// Opens a bus of this shape, with a row of words for each of its tenures: a handle for each of its
/// senders and receivers, in order. All memory is taken here. Each sender votes by the words of a
/// `Pcg32` that is started by its number; `with_rng` gives it another generator.
pub fn open<Q: Ratifier + Drop>(
    alloc: Global,
    shape: Shape,
) -> Result<(Vec<SenderHandle<Q>>, Vec<ReceiverHandle<Q>>), MakeFault>
    ensures opened { let plan = new_plan shape None in
        IfOk result (λ made. IsOpened (process_by Q.Ratifier) (automaton_by Q.Ratifier plan)
        plan made.0.items made.1.items) }
    ensures served { OnOk result (IsServedWith 0 shape None) }
    ensures fault { IfErr result (MakeRefused shape None) }
{
    let (bus, senders, taps) = Bus::<Q>::new(alloc, shape)?;
    let handles = share(alloc, bus, senders, taps)?;
    Ok(handles)
}

/// Opens the next sitting, as `open`: a bus whose senders go on with the numbers of this page. That
/// is the page of a bus that was ended once its order had ended: `end` gives it by `Ended::page`.
/// Nothing else of it is carried over. A message that waited there has to be put here anew, as
/// `SenderHandle::carry_to` does, and gets its number again if it is put first. NotEnded says that
/// the order of the page has not ended, and Numbers that a sender has no numbers left for a whole
/// log.
pub fn open_after<Q: Ratifier + Drop>(
    alloc: Global,
    shape: Shape,
    page: &Page,
) -> Result<(Vec<SenderHandle<Q>>, Vec<ReceiverHandle<Q>>), MakeFault>
    ensures opened { let plan = new_plan shape (Some page.now) in
        IfOk result (λ made. IsOpened (process_by Q.Ratifier) (automaton_by Q.Ratifier plan)
        plan made.0.items made.1.items) }
    ensures served { OnOk result (IsServedWith 0 shape None) }
    ensures follows { OnOk result (IsFollowed page.now) }
    ensures fault { IfErr result (AfterRefused shape None page.now) }
{
    let (bus, senders, taps) = Bus::<Q>::after(alloc, shape, page)?;
    let handles = share(alloc, bus, senders, taps)?;
    Ok(handles)
}

/// As `open`, of a bus whose rows of words are used again. With a page it is the next sitting, as
/// `open_after`.
pub fn open_cyclic<Q: Ratifier + Drop>(
    alloc: Global,
    shape: Shape,
    page: Option<&Page>,
) -> Result<(Vec<SenderHandle<Q>>, Vec<ReceiverHandle<Q>>), MakeFault>
    ensures opened { let plan = cyclic_plan shape (option_copied page.entry) in
        IfOk result (λ made. IsOpened (process_by Q.Ratifier) (automaton_by Q.Ratifier plan)
        plan made.0.items made.1.items) }
    ensures served { OnOk result (IsServedWith 0 shape (Some shape.rows)) }
    ensures follows { OnOk result (MayFollow (option_copied page.entry)) }
    ensures fault { IfErr result
        (MakeRefusedAfter shape (Some shape.rows) (option_copied page.entry)) }
{
    let (bus, senders, taps) = Bus::<Q>::cyclic(alloc, shape, page)?;
    let handles = share(alloc, bus, senders, taps)?;
    Ok(handles)
}

/// The sizes and the batches of this ring are served, and its log is shorter than a frame may be.
fn is_short(shape: Shape) -> bool
    ensures { let plan = ring_plan shape None in
        IsTrue result ↔ (IsServedWith shape.receivers shape (Some shape.rows)
        × (¬ HoldsFrames plan)) }
{
    fault_of(shape, Some(shape.rows)).is_none()
        && 1 <= shape.batch
        && shape.batch <= MOST_MESSAGES as u64
        && shape.log_words < 1 + MOST_MESSAGE_WORDS * shape.batch
}

/// As `open_cyclic`, of a bus whose log is a ring: its words are used again too. So it serves for
/// as long as it has tenures, which are 2^40, and then senders are answered Spent. With a page it
/// is the next sitting, as `open_after`. A batch has at most as many messages as the shape says, 1
/// to 64, and the log has room for the longest batch, or the answer is ShortLog.
pub fn open_ring<Q: Ratifier + Drop>(
    alloc: Global,
    shape: Shape,
    page: Option<&Page>,
) -> Result<(Vec<SenderHandle<Q>>, Vec<ReceiverHandle<Q>>), RingFault>
    ensures opened { let plan = ring_plan shape (option_copied page.entry) in
        IfOk result (λ made. IsOpened (process_by Q.Ratifier) (automaton_by Q.Ratifier plan)
        plan made.0.items made.1.items) }
    ensures served { OnOk result (IsServedWith shape.receivers shape (Some shape.rows)) }
    ensures follows { OnOk result (MayGoOn shape.receivers shape.batch (option_copied page.entry)) }
    ensures holds { let plan = ring_plan shape None in OnOk result (HoldsFrames plan) }
    ensures fault { let plan = ring_plan shape None in
        IfErr result (OpenRefused plan (option_copied page.entry)) }
{
    if is_short(shape) {
        return Err(RingFault::ShortLog);
    }
    match opened_ring(alloc, shape, page) {
        Ok(handles) => Ok(handles),
        Err(fault) => Err(RingFault::Make(fault)),
    }
}

/// The handles of a ring, however short its log is.
fn opened_ring<Q: Ratifier + Drop>(
    alloc: Global,
    shape: Shape,
    page: Option<&Page>,
) -> Result<(Vec<SenderHandle<Q>>, Vec<ReceiverHandle<Q>>), MakeFault>
    ensures opened { let plan = ring_plan shape (option_copied page.entry) in
        IfOk result (λ made. IsOpened (process_by Q.Ratifier) (automaton_by Q.Ratifier plan)
        plan made.0.items made.1.items) }
    ensures served { OnOk result (IsServedWith shape.receivers shape (Some shape.rows)) }
    ensures follows { OnOk result (MayGoOn shape.receivers shape.batch (option_copied page.entry)) }
    ensures fault { IfErr result
        (RefusedWith shape.receivers shape (Some shape.rows) (option_copied page.entry)) }
{
    let (bus, senders, taps) = Bus::<Q>::ring(alloc, shape, page)?;
    let handles = share(alloc, bus, senders, taps)?;
    Ok(handles)
}

/// A handle for each of these senders and receivers, with their bus.
fn share<Q: Ratifier + Drop>(
    alloc: Global,
    bus: Bus<Q>,
    senders: Vec<Sender<Q>>,
    taps: Vec<Tap<Q>>,
) -> Result<(Vec<SenderHandle<Q>>, Vec<ReceiverHandle<Q>>), NoMemory>
    requires senders { All (λ sender. table_of sender ≡ bus.table) senders.items }
    requires taps { All (λ tap. tap.table_id ≡ bus.table) taps.items }
    ensures senders { IfOk result (λ made. made.0.items ≡ senders.items) }
    ensures receivers { IfOk result (λ made. seats_of made.1.items ≡ taps.items) }
    ensures bus { IfOk result (λ made. All (λ r. r.bus ≡ bus) made.1.items) }
{
    let bus = Arc::new(alloc, bus)?;
    let bell = SharedBell::new(alloc)?;
    let mut sending = Vec::new(alloc);
    for sender in senders {
        let rng = Pcg32::new(0, u64::from(sender.number().0));
        sending.push(SenderHandle::new(Arc::try_clone(&bus)?, bell.again()?, sender, rng))?;
    }
    let mut receiving = Vec::new(alloc);
    for tap in taps {
        let receiver = Receiver::new(tap);
        receiving.push(ReceiverHandle::new(Arc::try_clone(&bus)?, bell.again()?, receiver))?;
    }
    Ok((sending, receiving))
}
