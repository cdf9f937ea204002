//! The table of a new bus, and the seats of its senders and receivers.

ghost use Rattle.std.specs.Prelude.{◌≡◌, ℕ, ◌+◌, ◌*◌, ◌<◌, ◌≤◌, ◌^◌, List, [], Some};
ghost use Rattle.std.specs.Prelude.{IfOk};
ghost use Rattle.bus_automaton.specs.Buses.{process_by, automaton_by, plan_passers, Serves};
ghost use Rattle.bus_automaton.specs.Processes.{base_in};
ghost use Rattle.bus_core.specs.declared.limits.TheConstants.{PASSED_APART};
ghost use Rattle.bus_pageslot.specs.declared.rule.View.TheVariants.{Maker};
ghost use Rattle.bus_pageslot.specs.Buses.{IsBusTable, IsNewSeat, AreNewSeats};
ghost use Rattle.bus_pageslot.specs.Buses.{IsNewTap, AreNewTaps};
ghost use Rattle.bus_pageslot.specs.Seats.{HasCells, IsPassedAt};

use crate::listeners::LogCells;
use crate::rule::{BusSeat, Seated};
use crate::seats::Sender;
use crate::taps::Tap;
use crate::words::Words;
use bus_adoptcommit::Ratifier;
use bus_automaton::Plan;
use bus_automaton::laws::threads_may_go_by;
use bus_core::SenderCore;
use bus_core::limits::PASSED_APART;
use bus_machine::shapes::log_word;
use bus_ownerbits::Election;
use bus_register::{NoMemory, SenderNo};
use bus_world::starts::first_page;
use std::alloc::Global;
use std::marker::Brand;

/// The place of the first word of the log, which comes last.
pub(crate) fn log_at<Q: Ratifier + Drop>(plan: Plan) -> u64
    requires { Serves plan }
    ensures log { result ≡ (automaton_by Q.Ratifier plan).table_layout.log }
    ensures words { result + plan.shape.log_words
        ≡ (automaton_by Q.Ratifier plan).table_layout.words }
    ensures passed { result
        ≡ (automaton_by Q.Ratifier plan).table_layout.passed + PASSED_APART * plan_passers plan }
    ensures capacity { plan.shape.log_words
        ≡ (automaton_by Q.Ratifier plan).table_layout.capacity }
    ensures senders { plan.shape.senders
        ≡ (automaton_by Q.Ratifier plan).table_layout.senders }
    ensures bases { plan.bases ≡ (automaton_by Q.Ratifier plan).bases }
    ensures passers { (automaton_by Q.Ratifier plan).table_layout.passers ≡ plan_passers plan }
    ensures few { result + plan.shape.log_words ≤ 2 ^ 63 }
{
    let width = Election::<Q>::width(plan.shape.senders, plan.shape.rounds);
    log_word(plan.shape, plan.reuse, width) + PASSED_APART * plan.passers()
}

/// Sender `me` of a bus of this plan, at its start.
fn start<Q: Ratifier + Drop>(plan: Plan, me: SenderNo) -> SenderCore<Q>
    requires served { Serves plan }
    requires below { me.0 < plan.shape.senders }
    requires room { (automaton_by Q.Ratifier plan).table_layout.words ≤ 2 ^ 63 }
    ensures { result ≡ (automaton_by Q.Ratifier plan).started me.0 }
{
    threads_may_go_by::<Q>();
    let shape = plan.shape;
    let (senders, rounds, words) = (shape.senders, shape.rounds, shape.log_words);
    let first = plan.bases[usize::from(me.0)];
    let batch = shape.batch;
    match plan.reuse {
        None => SenderCore::new(senders, me, rounds, shape.rows, words, first, batch),
        Some(rows) => {
            SenderCore::cyclic(
                senders,
                me,
                rounds,
                rows,
                words,
                first,
                plan.passers(),
                batch,
            )
        }
    }
}

/// The table of a new bus, and the seat that the senders' seats are cut from.
pub(crate) fn bus_table<Q: Ratifier + Drop>(
    alloc: Global,
    plan: Plan,
) -> Result<(Words<Q>, BusSeat<Q>), NoMemory>
    requires { Serves plan }
    ensures bus_table { IfOk result
        (λ made. IsBusTable (automaton_by Q.Ratifier plan) made.0.table made.1) }
    ensures plan { IfOk result (λ made. made.0.plan ≡ plan) }
{
    threads_may_go_by::<Q>();
    let words = vec![in alloc; 0u64; (log_at::<Q>(plan) + plan.shape.log_words) as usize]?;
    let page = first_page(alloc, plan.bases)?;
    let mut slots = Vec::with_capacity(alloc, 1)?;
    slots.push(Some(page))?;
    Words::new(alloc, words.as_slice(), slots, &plan)
}

/// The next sender, with its seat.
fn seat_next<Q: Ratifier + Drop, K: Seated<SenderCore<Q>>>(
    words: &Words<Q>,
    maker: &mut BusSeat<Q>,
    plan: Plan,
    me: u64,
) -> Sender<Q>
    requires table { maker.old.table_id ≡ words.now.table }
    requires key { words.now.plan ≡ plan }
    requires seated { K.core ≡ Some ((automaton_by Q.Ratifier plan).started me) }
    requires first { K.first ≡ base_in (automaton_by Q.Ratifier plan) me }
    requires served { Serves plan }
    requires room { (automaton_by Q.Ratifier plan).table_layout.words ≤ 2 ^ 63 }
    requires wide { (maker.old.table_id.words ≡ (automaton_by Q.Ratifier plan).table_layout.words)
        × (maker.old.table_id.slots ≡ 1) }
    requires below { me < plan.shape.senders }
    requires senders { plan.shape.senders ≡ (automaton_by Q.Ratifier plan).table_layout.senders }
    requires maker { maker.old.me
        ≡ (Maker (automaton_by Q.Ratifier plan).table_layout me, []) }
    ensures table { maker.new.table_id ≡ maker.old.table_id }
    ensures maker { maker.new.me
        ≡ (Maker (automaton_by Q.Ratifier plan).table_layout (me + 1), []) }
    ensures seat { let P = process_by Q.Ratifier in let A = automaton_by Q.Ratifier plan in
        IsNewSeat P A maker.old.table_id me result }
{
    threads_may_go_by::<Q>();
    let seat = words.cut_sender::<K>(maker);
    let core = start(plan, SenderNo(me as u8));
    Sender::seated(core, seat)
}

/// All senders, in order.
pub(crate) fn seat_all<Q: Ratifier + Drop>(
    alloc: Global,
    plan: Plan,
    words: &Words<Q>,
    mut maker: BusSeat<Q>,
) -> Result<(Vec<Sender<Q>>, BusSeat<Q>), NoMemory>
    requires served { Serves plan }
    requires key { words.now.plan ≡ plan }
    requires bus_table { IsBusTable (automaton_by Q.Ratifier plan) words.now.table maker }
    requires senders { plan.shape.senders ≡ (automaton_by Q.Ratifier plan).table_layout.senders }
    ensures senders { let P = process_by Q.Ratifier in let A = automaton_by Q.Ratifier plan in
        IfOk result (λ made. AreNewSeats P A words.now.table plan.shape.senders made.0.items) }
    ensures maker { let A = automaton_by Q.Ratifier plan in
        IfOk result (λ made. (made.1.table_id ≡ words.now.table)
        × (made.1.me ≡ (Maker A.table_layout plan.shape.senders, []))) }
{
    let mut senders = Vec::new(alloc);
    for me in 0..plan.shape.senders {
        let sender = seat_next::<Q, Brand>(words, &mut maker, plan, me);
        senders.push(sender)?;
    }
    Ok((senders, maker))
}

/// The passed place of the receiver of this number, if it has one. `log` is the place of the log's
/// first word.
fn passed_place<Q: Ratifier + Drop>(plan: Plan, index: u64, log: u64) -> Option<u64>
    requires log { log ≡ (automaton_by Q.Ratifier plan).table_layout.log }
    requires passed { log
        ≡ (automaton_by Q.Ratifier plan).table_layout.passed + PASSED_APART * plan_passers plan }
    requires below { index < plan.shape.receivers }
    ensures { IsPassedAt (automaton_by Q.Ratifier plan).table_layout index result }
{
    threads_may_go_by::<Q>();
    let passers = plan.passers();
    if index < passers {
        return Some(log - PASSED_APART * (passers - index));
    }
    None
}

/// The cells of the log, as the receiver of this number has them.
fn cells_of<Q: Ratifier + Drop>(plan: Plan, index: u64, log: u64) -> LogCells
    requires served { Serves plan }
    requires room { (automaton_by Q.Ratifier plan).table_layout.words ≤ 2 ^ 63 }
    requires log { log ≡ (automaton_by Q.Ratifier plan).table_layout.log }
    requires passed { log
        ≡ (automaton_by Q.Ratifier plan).table_layout.passed + PASSED_APART * plan_passers plan }
    requires capacity { plan.shape.log_words
        ≡ (automaton_by Q.Ratifier plan).table_layout.capacity }
    requires below { index < plan.shape.receivers }
    ensures { HasCells (automaton_by Q.Ratifier plan).table_layout index result }
{
    threads_may_go_by::<Q>();
    let passed_at = passed_place::<Q>(plan, index, log);
    LogCells {
        log,
        log_words: plan.shape.log_words,
        passed_at,
        number: index,
        passers: plan.passers(),
    }
}

/// The next receiver, with its seat, of a maker that has made the seats of all senders, and of so
/// many receivers.
fn tap_next<Q: Ratifier + Drop>(
    words: &Words<Q>,
    maker: &mut BusSeat<Q>,
    plan: Plan,
    index: u64,
    log: u64,
) -> Tap<Q>
    requires table { maker.old.table_id ≡ words.now.table }
    requires served { Serves plan }
    requires room { (automaton_by Q.Ratifier plan).table_layout.words ≤ 2 ^ 63 }
    requires wide { maker.old.table_id.words ≡ (automaton_by Q.Ratifier plan).table_layout.words }
    requires log { log ≡ (automaton_by Q.Ratifier plan).table_layout.log }
    requires passed { log
        ≡ (automaton_by Q.Ratifier plan).table_layout.passed + PASSED_APART * plan_passers plan }
    requires capacity { plan.shape.log_words
        ≡ (automaton_by Q.Ratifier plan).table_layout.capacity }
    requires senders { plan.shape.senders ≡ (automaton_by Q.Ratifier plan).table_layout.senders }
    requires below { index < plan.shape.receivers }
    requires maker { maker.old.me
        ≡ (Maker (automaton_by Q.Ratifier plan).table_layout (plan.shape.senders + index), []) }
    ensures table { maker.new.table_id ≡ maker.old.table_id }
    ensures maker { maker.new.me ≡ (
      Maker (automaton_by Q.Ratifier plan).table_layout
          (plan.shape.senders + index + 1),
      [],
    ) }
    ensures tap { IsNewTap (automaton_by Q.Ratifier plan).table_layout maker.old.table_id index
        result }
{
    threads_may_go_by::<Q>();
    let cells = cells_of::<Q>(plan, index, log);
    let seat = words.cut_tap(maker);
    Tap::seated(seat, cells, plan.shape.senders)
}

/// All receivers, in order. `log` is the place of the log's first word.
pub(crate) fn tap_all<Q: Ratifier + Drop>(
    alloc: Global,
    plan: Plan,
    words: &Words<Q>,
    mut maker: BusSeat<Q>,
    log: u64,
) -> Result<Vec<Tap<Q>>, NoMemory>
    requires table { maker.table_id ≡ words.now.table }
    requires served { Serves plan }
    requires room { (automaton_by Q.Ratifier plan).table_layout.words ≤ 2 ^ 63 }
    requires wide { words.now.table.words ≡ (automaton_by Q.Ratifier plan).table_layout.words }
    requires log { log ≡ (automaton_by Q.Ratifier plan).table_layout.log }
    requires passed { log
        ≡ (automaton_by Q.Ratifier plan).table_layout.passed + PASSED_APART * plan_passers plan }
    requires capacity { plan.shape.log_words
        ≡ (automaton_by Q.Ratifier plan).table_layout.capacity }
    requires senders { plan.shape.senders ≡ (automaton_by Q.Ratifier plan).table_layout.senders }
    requires maker { maker.me
        ≡ (Maker (automaton_by Q.Ratifier plan).table_layout plan.shape.senders, []) }
    ensures { let A = automaton_by Q.Ratifier plan in
        IfOk result (λ taps. AreNewTaps A.table_layout words.now.table plan.shape.receivers
        taps.items) }
{
    let mut taps = Vec::new(alloc);
    for index in 0..plan.shape.receivers {
        let tap = tap_next(words, &mut maker, plan, index, log);
        taps.push(tap)?;
    }
    Ok(taps)
}
