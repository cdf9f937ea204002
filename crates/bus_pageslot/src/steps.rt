//! One step of a sender on one word, with which the page comes to it or goes home.

ghost use Rattle.std.specs.Prelude.{◌≡◌, ℕ, ◌+◌, ◌<◌, ◌≤◌, ◌^◌, ◌∷◌, true, false, [], Some, None};
ghost use Rattle.std.specs.Prelude.{IsTrue, IsSome, length, slice_index, unwrap_or};
ghost use Rattle.bus_register.specs.Words.{register};
ghost use Rattle.bus_tenure.specs.Elections.{election_of};
ghost use Rattle.bus_core.specs.Doings.{step_of};
ghost use Rattle.bus_core.specs.TenureRows.{row_told};
ghost use Rattle.bus_core.specs.Plain.{IsPlain, StoresPlain, StoresRow, stored_on};
ghost use Rattle.bus_core.specs.Senders.{situation};
ghost use Rattle.bus_tenure.specs.declared.turns.Turn.TheVariants as turn;
ghost use Rattle.bus_core.specs.Telling.{FeedTells};
ghost use Rattle.bus_automaton.specs.Buses.{process_by};
ghost use Rattle.bus_pageslot.specs.Steps.{laid_at, carried_of, out_with, stored_by};
ghost use Rattle.bus_pageslot.specs.Steps.{GoesOn, Due, slot_in, slots_emptied};
ghost use Rattle.bus_pageslot.specs.Rule.{stored_in};
ghost use Rattle.bus_pageslot.specs.Seats.{Shows, TookAndTold};
ghost use Rattle.bus_pageslot.specs.Turns.{tells_by, GoesPlainly, TakesPlainly, ElectsIn};
ghost use Rattle.bus_pageslot.specs.Turns.{IsElecting};

use crate::rule::{BusSeat, Told};
use crate::words::Words;
use bus_adoptcommit::Ratifier;
use bus_automaton::laws::threads_may_go_by;
use bus_core::{Row, SenderCore, Step};
use bus_register::{Op, Reg};
use bus_tenure::Turn;
use std::marker::Brand;

/// A sender that is to give the page back puts it into its slot. What it does next becomes what it
/// does with the page out of its hands.
#[inline(always)]
fn put_out<Q: Ratifier + Drop>(
    words: &Words<Q>,
    seat: &mut BusSeat<Q>,
    core: &mut SenderCore<Q>,
    next: &mut Step,
)
    requires table { seat.old.table_id ≡ words.now.table }
    requires next { let X = election_of Q.Ratifier in step_of (situation X core.old) ≡ next.old }
    requires carried { seat.old.me.1 ≡ carried_of ((process_by Q.Ratifier).holds core.old) }
    ensures core { core.new ≡ (process_by Q.Ratifier).handed core.old }
    ensures next { let X = election_of Q.Ratifier in step_of (situation X core.new) ≡ next.new }
    ensures table { (seat.new.table_id ≡ seat.old.table_id) × (seat.new.id ≡ seat.old.id) }
    ensures me { seat.new.me
        ≡ (seat.old.me.0, out_with ((process_by Q.Ratifier).move core.old) seat.old.me.1) }
{
    threads_may_go_by::<Q>();
    if let Some(page) = core.take_out_of(next) {
        let _none = words.exchange(seat, Some(page));
    }
}

/// A sender that has taken the page takes it out of its slot.
#[inline(always)]
fn take_in<Q: Ratifier + Drop>(words: &Words<Q>, seat: &mut BusSeat<Q>, core: &mut SenderCore<Q>)
    requires table { seat.old.table_id ≡ words.now.table }
    requires page { (process_by Q.Ratifier).awaits core.old ≡ true → (page : _)
        × (seat.old.me.1 ≡ (0, Some page) ∷ []) }
    ensures core { let P = process_by Q.Ratifier in
        core.new ≡ laid_at P core.old (P.awaits core.old) (slot_in seat.old.me.1) }
    ensures table { (seat.new.table_id ≡ seat.old.table_id) × (seat.new.id ≡ seat.old.id) }
    ensures me { seat.new.me
        ≡ (seat.old.me.0, slots_emptied ((process_by Q.Ratifier).awaits core.old) seat.old.me.1) }
{
    if core.awaits_page() {
        let page = words.exchange(seat, None).unwrap();
        core.lay(page);
    }
}

/// The turn of a sender of which a step is due.
#[inline(always)]
pub(crate) fn walk<Q: Ratifier + Drop, K: Told<SenderCore<Q>>>(
    words: &Words<Q>,
    seat: &mut BusSeat<Q>,
    core: &mut SenderCore<Q>,
    mut next: Step,
    op: Op,
    word: u32,
) -> Turn
    requires table { seat.old.table_id ≡ words.now.table }
    requires told { (K.core ≡ Some core.old) × (K.word ≡ word) }
    requires shows { Shows (process_by Q.Ratifier) core.old seat.old }
    requires next { let X = election_of Q.Ratifier in step_of (situation X core.old) ≡ next }
    requires due { (process_by Q.Ratifier).op core.old word ≡ Some op }
    requires below { register op < ((process_by Q.Ratifier).table_layout core.old).words }
    ensures table { (seat.new.table_id ≡ seat.old.table_id) × (seat.new.id ≡ seat.old.id) }
    ensures shows { Shows (process_by Q.Ratifier) core.new seat.new }
    ensures took { TookAndTold (process_by Q.Ratifier) (FeedTells (election_of Q.Ratifier))
        (record { core = core.old; seat = seat.old }) word result (record {
          core = core.new;
          seat = seat.new;
        }) }
{
    threads_may_go_by::<Q>();
    put_out(words, seat, core, &mut next);
    let got = words.step::<K>(seat, op);
    let turn = core.feed_of(next, got, word);
    take_in(words, seat, core);
    turn
}

/// The turn of a sender whose step is a plain store, of `value` in the word at `at`. Says whether
/// its next step is one too, and then of what and where.
#[inline(always)]
pub(crate) fn store_plain<Q: Ratifier + Drop, K: Told<SenderCore<Q>>>(
    words: &Words<Q>,
    seat: &mut BusSeat<Q>,
    core: &mut SenderCore<Q>,
    at: &mut u64,
    value: &mut u64,
    word: u32,
) -> bool
    requires table { seat.old.table_id ≡ words.now.table }
    requires told { (K.core ≡ Some core.old) × (K.word ≡ word) }
    requires shows { Shows (process_by Q.Ratifier) core.old seat.old }
    requires stores { StoresPlain (election_of Q.Ratifier) core.old at.old value.old }
    ensures table { (seat.new.table_id ≡ seat.old.table_id) × (seat.new.id ≡ seat.old.id) }
    ensures shows { Shows (process_by Q.Ratifier) core.new seat.new }
    ensures took { TookAndTold (process_by Q.Ratifier) (FeedTells (election_of Q.Ratifier))
        (record { core = core.old; seat = seat.old }) word turn.Going (record {
          core = core.new;
          seat = seat.new;
        }) }
    ensures stores { IsTrue result
        → StoresPlain (election_of Q.Ratifier) core.new at.new value.new }
    ensures exact { IsPlain (election_of Q.Ratifier) core.new → IsTrue result }
{
    threads_may_go_by::<Q>();
    words.step::<K>(seat, Op::Store(Reg(*at), *value));
    core.plain_done(at, value)
}

/// The turn of a sender whose step is a plain store, of `value` in the word at `at`. It has taken
/// so many since `core` was what it held, which does not take it in.
#[inline(always)]
fn store_behind<Q: Ratifier + Drop, K: Told<SenderCore<Q>>>(
    words: &Words<Q>,
    seat: &mut BusSeat<Q>,
    core: &SenderCore<Q>,
    taken: u64,
    at: u64,
    value: u64,
)
    requires table { seat.old.table_id ≡ words.now.table }
    requires told { let X = election_of Q.Ratifier in
        (K.core ≡ Some (stored_on X core.now taken)) × (K.word ≡ 0) }
    requires shows { let X = election_of Q.Ratifier in
        Shows (process_by Q.Ratifier) (stored_on X core.now taken) seat.old }
    requires stores { let X = election_of Q.Ratifier in
        StoresPlain X (stored_on X core.now taken) at value }
    requires tells { let X = election_of Q.Ratifier in
        (got : ℕ) → FeedTells X (stored_on X core.now taken) got 0 turn.Going }
    ensures table { (seat.new.table_id ≡ seat.old.table_id) × (seat.new.id ≡ seat.old.id) }
    ensures shows { let X = election_of Q.Ratifier in
        Shows (process_by Q.Ratifier) (stored_on X core.now (taken + 1)) seat.new }
    ensures took { let X = election_of Q.Ratifier in
        TookAndTold (process_by Q.Ratifier) (FeedTells X) (record {
          core = stored_on X core.now taken;
          seat = seat.old;
        }) 0 turn.Going (record {
          core = stored_on X core.now (taken + 1);
          seat = seat.new;
        }) }
{
    threads_may_go_by::<Q>();
    words.step::<K>(seat, Op::Store(Reg(at), value));
}

/// The turns in a row of a sender that clears so many words one behind another, the first of them
/// at `at`. What it holds does not take them in.
#[inline(always)]
pub(crate) fn clear_row<Q: Ratifier + Drop>(
    words: &Words<Q>,
    seat: &mut BusSeat<Q>,
    core: &SenderCore<Q>,
    at: u64,
    many: u64,
)
    requires table { seat.old.table_id ≡ words.now.table }
    requires shows { Shows (process_by Q.Ratifier) core.now seat.old }
    requires row { StoresRow (election_of Q.Ratifier) core.now at (λ n. 0) many }
    requires room { at + many ≤ 2 ^ 63 }
    ensures table { (seat.new.table_id ≡ seat.old.table_id) × (seat.new.id ≡ seat.old.id) }
    ensures shows { let X = election_of Q.Ratifier in
        Shows (process_by Q.Ratifier) (stored_on X core.now many) seat.new }
    ensures stored { stored_in seat.new.me.0 ≡ stored_in seat.old.me.0 }
    ensures goes { let X = election_of Q.Ratifier in
        GoesPlainly (process_by Q.Ratifier) (tells_by Q.Ratifier) (IsPlain X)
        (record { core = core.now; seat = seat.old }) many (record {
          core = stored_on X core.now many;
          seat = seat.new;
        }) }
{
    for taken in 0..many {
        store_behind::<Q, Brand>(words, seat, core, taken, at + taken, 0);
    }
}

/// The turns in a row of a sender that stores these words one behind another, the first of them in
/// the word at `at`. What it holds does not take them in.
#[inline(always)]
pub(crate) fn store_row<Q: Ratifier + Drop>(
    words: &Words<Q>,
    seat: &mut BusSeat<Q>,
    core: &SenderCore<Q>,
    at: u64,
    values: &[u64],
)
    requires table { seat.old.table_id ≡ words.now.table }
    requires shows { Shows (process_by Q.Ratifier) core.now seat.old }
    requires row { let X = election_of Q.Ratifier in
        StoresRow X core.now at (λ n. slice_index values.now n) (length values.now) }
    requires room { at + length values.now ≤ 2 ^ 63 }
    ensures table { (seat.new.table_id ≡ seat.old.table_id) × (seat.new.id ≡ seat.old.id) }
    ensures shows { let X = election_of Q.Ratifier in
        Shows (process_by Q.Ratifier) (stored_on X core.now (length values.now)) seat.new }
    ensures stored { stored_in seat.new.me.0 ≡ stored_in seat.old.me.0 }
    ensures goes { let X = election_of Q.Ratifier in
        GoesPlainly (process_by Q.Ratifier) (tells_by Q.Ratifier) (IsPlain X)
        (record { core = core.now; seat = seat.old }) (length values.now) (record {
          core = stored_on X core.now (length values.now);
          seat = seat.new;
        }) }
{
    for (taken, value) in values.iter().enumerate() {
        store_behind::<Q, Brand>(words, seat, core, taken as u64, at + taken as u64, *value);
    }
}

/// The turn of a sender whose step is one of its election, on the row that `election_row` told.
/// None says that the election goes on, and the answer is Going; else it has ended, with this
/// answer.
#[inline(always)]
fn elect_once<Q: Ratifier + Drop, K: Told<SenderCore<Q>>>(
    words: &Words<Q>,
    seat: &mut BusSeat<Q>,
    core: &mut SenderCore<Q>,
    tenure: u64,
    row: Row,
    word: u32,
) -> Option<Turn>
    requires table { seat.old.table_id ≡ words.now.table }
    requires told { (K.core ≡ Some core.old) × (K.word ≡ word) }
    requires shows { Shows (process_by Q.Ratifier) core.old seat.old }
    requires elects { ElectsIn (election_of Q.Ratifier) core.old tenure }
    requires row { row ≡ row_told core.old.core.layout core.old.reuse tenure }
    ensures table { (seat.new.table_id ≡ seat.old.table_id) × (seat.new.id ≡ seat.old.id) }
    ensures shows { Shows (process_by Q.Ratifier) core.new seat.new }
    ensures stored { stored_in seat.new.me.0 ≡ stored_in seat.old.me.0 }
    ensures due { IsSome ((process_by Q.Ratifier).op core.old word) }
    ensures took { TookAndTold (process_by Q.Ratifier) (FeedTells (election_of Q.Ratifier))
        (record { core = core.old; seat = seat.old }) word (unwrap_or result turn.Going) (record {
          core = core.new;
          seat = seat.new;
        }) }
    ensures goes { result ≡ None → ElectsIn (election_of Q.Ratifier) core.new tenure }
    ensures row { result ≡ None → row ≡ row_told core.new.core.layout core.new.reuse tenure }
{
    threads_may_go_by::<Q>();
    let Some(op) = core.election_next(tenure, row, word) else {
        unreachable!()
    };
    let got = words.step::<K>(seat, op);
    core.elect_on(tenure, got, word)
}

/// Turns in a row of an election that runs, at most so many: up to a vote, and none once it has
/// ended. How many it took, and the answer of the last one.
#[inline(always)]
pub(crate) fn elect_row<Q: Ratifier + Drop>(
    words: &Words<Q>,
    seat: &mut BusSeat<Q>,
    core: &mut SenderCore<Q>,
    tenure: u64,
    most: u64,
) -> (u64, Turn)
    requires table { seat.old.table_id ≡ words.now.table }
    requires shows { Shows (process_by Q.Ratifier) core.old seat.old }
    requires elects { ElectsIn (election_of Q.Ratifier) core.old tenure }
    requires wordless { (process_by Q.Ratifier).wants_word core.old ≡ false }
    requires some { 0 < most }
    ensures table { (seat.new.table_id ≡ seat.old.table_id) × (seat.new.id ≡ seat.old.id) }
    ensures shows { Shows (process_by Q.Ratifier) core.new seat.new }
    ensures stored { stored_in seat.new.me.0 ≡ stored_in seat.old.me.0 }
    ensures few { result.0 ≤ most }
    ensures takes { TakesPlainly (process_by Q.Ratifier) (tells_by Q.Ratifier)
        (IsElecting (election_of Q.Ratifier)) (record { core = core.old; seat = seat.old })
        result.0 result.1 (record { core = core.new; seat = seat.new }) }
{
    let row = core.election_row(tenure);
    for taken in 0..most {
        if core.election_wants_word(tenure) {
            return (taken, Turn::Going);
        }
        if let Some(answer) = elect_once::<Q, Brand>(words, seat, core, tenure, row, 0) {
            return (taken + 1, answer);
        }
    }
    (most, Turn::Going)
}

/// The last length that a sender has stored, once it takes this step. `before` is the one that it
/// had stored until then.
#[inline(always)]
pub(crate) fn length_after(op: Op, before: u64) -> u64
    ensures { result ≡ stored_by (Some op) before }
{
    match op {
        Op::Store(Reg(0), value) => value,
        _ => before,
    }
}
