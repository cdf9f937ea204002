//! All steps on the table's words are here. Each function takes one step, or says how many, and its
//! seat shows it: a receiver's list of the words that its steps were on, or a sender's list of
//! steps or of looks, grows by it.
//!
//! No other module has the table, so no other function takes a step. What stands in `shown` is
//! proved. That a body calls the table no second time is for the reader to see: each has one call,
//! `meet` three, and `fork` one more where it cuts a seat, which is a load that tells nothing. What
//! `plays` says is what the call makes the seat show: of a receiver's step that the word is the one
//! that is noted, and of its store what was stored.

ghost use Rattle.std.specs.Prelude.{◌≡◌, ◌⊎◌, ℕ, ◌+◌, ◌<◌, ◌≤◌, Option, Some, [], ◌∷◌, false};
ghost use Rattle.std.specs.Prelude.{is_some, length, take, IfNone, IfOk, IfSome};
ghost use Rattle.std.specs.Slots.{slots_items, slots_len, IsFull};
ghost use Rattle.atomic_table.specs.Table.{opening, rest, Final, Seen};
ghost use Rattle.bus_automaton.specs.Buses.{process_by, automaton_by};
ghost use Rattle.bus_automaton.specs.Processes.{TableLayout, base_in, log_cell, passed_word};
ghost use Rattle.bus_batch.specs.Frames.{IsLog};
ghost use Rattle.bus_pageslot.specs.declared.rule.View.TheVariants.{Maker, Tap};
ghost use Rattle.bus_pageslot.specs.Listening.{FindsLength, FindsWord, PassIsDue};
ghost use Rattle.bus_pageslot.specs.Looks.{IsFoundOn, IsSenders, IsTakenOn};
ghost use Rattle.bus_pageslot.specs.ReceiverViews.{ReceiverView};
ghost use Rattle.bus_pageslot.specs.Rule.{IsFirst, MayRead, TableInvariant, cut_left, cut_right};
ghost use Rattle.bus_pageslot.specs.Rule.{table_layout_in, tap_left, tap_right, with_look};
ghost use Rattle.bus_pageslot.specs.Steps.{Due, GoesOn, Learns, Reads, Met, HasPassed, HasLeft};
ghost use Rattle.bus_pageslot.specs.Steps.{HasTriedAt, fork_of};
ghost use Rattle.bus_register.specs.declared.limits.TheConstants.{PASSED_ALL};
ghost use Rattle.bus_pageslot.specs.StepsShown.{steps_shown};
ghost use Rattle.bus_tenure.specs.declared.pages.Page.{Page};

use crate::rule::{BusRule, BusSeat, Planned, Seated, Told, View};
use crate::words::plays::{
    Copies, Cut, CutTap, Forks, Goes, Leaves, LoadsJoined, LoadsLength, LoadsLengthInTurn,
    LoadsWord, LoadsWordInTurn, Looks, Meet, Part, StoresPassed,
};
use atomic_table::{Closed, Table};
use bus_adoptcommit::Ratifier;
use bus_automaton::Plan;
use bus_automaton::laws::threads_may_go_by;
use bus_core::SenderCore;
use bus_register::limits::PASSED_ALL;
use bus_register::{NoMemory, Op};
use bus_tenure::OwnedPage;
use std::alloc::Global;
use std::marker::Model;

mod plays;

type BusTable<Q> = Table<Option<OwnedPage>, View<SenderCore<Q>>, Plan, BusRule<Q>, Global>;

/// The words of a bus, and the slot of its page.
#[derive(Drop)]
pub(crate) struct Words<Q: Ratifier> {
    table: BusTable<Q>,
}

impl<Q: Ratifier> Model for Words<Q> {
    ghost use Rattle.bus_pageslot.specs.Buses.{BusId};

    ghost Value = { BusId };

    ghost view = { λ w. record { table = w.table.shared.table_id; plan = w.table.shared.key } };
}

impl<Q: Ratifier> Words<Q> {
    /// The words of a new bus, and the seat that all others are cut from. No step.
    #[inline(always)]
    pub(crate) fn new(
        alloc: Global,
        words: &[u64],
        slots: Vec<Option<OwnedPage>>,
        plan: &Plan,
    ) -> Result<(Words<Q>, BusSeat<Q>), NoMemory>
        requires { let A = automaton_by Q.Ratifier plan.now in
            TableInvariant (process_by Q.Ratifier) A (opening words.now slots.items
            (Maker A.table_layout 0)) }
        ensures counts { IfOk result (λ made. (made.0.table.words ≡ length words.now)
            × (made.0.table.slots ≡ length slots.items)) }
        ensures maker { IfOk result (λ made. (made.1.table_id ≡ made.0.table)
            × (made.1.me ≡ (Maker (automaton_by Q.Ratifier plan.now).table_layout 0, []))) }
        ensures plan { IfOk result (λ made. made.0.plan ≡ plan.now) }
    {
        match Table::new(alloc, words, slots, plan) {
            Ok((table, seat)) => Ok((Words { table }, seat)),
            Err(_) => Err(NoMemory),
        }
    }

    /// The seat of the next sender, which the call picks. One load, by the seat that all others are
    /// cut from, which counts them. Once a bus is made nobody has that seat.
    #[inline(always)]
    pub(crate) fn cut_sender<K: Seated<SenderCore<Q>>>(&self, maker: &mut BusSeat<Q>) -> BusSeat<Q>
        requires table { (maker.old.table_id ≡ self.now.table) × (0 < self.now.table.words) }
        requires maker { let A = automaton_by Q.Ratifier self.now.plan in
            (made : ℕ) × (maker.old.me ≡ (Maker A.table_layout made, []))
            × (made < A.table_layout.senders) × (K.core ≡ Some (A.started made))
            × (K.first ≡ base_in A made) }
        ensures table { (maker.new.table_id ≡ maker.old.table_id)
            × (result.table_id ≡ maker.old.table_id) }
        ensures maker { maker.new.me ≡ (cut_left maker.old.me.0, maker.old.me.1) }
        ensures seat { result.me ≡ (cut_right K.core K.first, []) }
    {
        threads_may_go_by::<Q>();
        self.table.shared.split_seat::<Cut<Q, K>>(maker)
    }

    /// The seat of the next receiver. One load, by the same seat, once it has made those of all
    /// senders. It has a number of its own where it has a passed place.
    #[inline(always)]
    pub(crate) fn cut_tap(&self, maker: &mut BusSeat<Q>) -> BusSeat<Q>
        requires table { (maker.old.table_id ≡ self.now.table) × (0 < self.now.table.words) }
        requires maker { (x : TableLayout) × (made : ℕ) × (maker.old.me ≡ (Maker x made, []))
            × (x.senders ≤ made) × ((x.passers ≡ 0) ⊎ (made < x.senders + x.passers)) }
        ensures table { (maker.new.table_id ≡ maker.old.table_id)
            × (result.table_id ≡ maker.old.table_id) }
        ensures maker { maker.new.me ≡ (tap_left maker.old.me.0, maker.old.me.1) }
        ensures seat { result.me ≡ (tap_right maker.old.me.0, []) }
    {
        threads_may_go_by::<Q>();
        self.table.shared.split_seat::<CutTap<Q>>(maker)
    }

    /// One step, of the sender that the call picks. At a store it gives what was stored.
    #[inline(always)]
    pub(crate) fn step<K: Told<SenderCore<Q>>>(&self, seat: &mut BusSeat<Q>, op: Op) -> u64
        requires table { seat.old.table_id ≡ self.now.table }
        requires due { Due (process_by Q.Ratifier) K.core K.word seat.old.me
            seat.old.table_id.words op }
        ensures table { (seat.new.table_id ≡ seat.old.table_id) × (seat.new.id ≡ seat.old.id) }
        ensures goes { GoesOn (process_by Q.Ratifier) K.core K.word seat.old.me result
            seat.new.me }
        ensures shown { steps_shown seat.new.me.0 ≡ steps_shown seat.old.me.0 + 1 }
    {
        threads_may_go_by::<Q>();
        let shared = &self.table.shared;
        match op {
            Op::Load(at) => shared.load::<Goes<Q, K>>(seat, at.0 as usize),
            Op::Store(at, value) => {
                shared.store::<Goes<Q, K>>(seat, at.0 as usize, value);
                value
            }
            Op::Add(at, value) => shared.fetch_add::<Goes<Q, K>>(seat, at.0 as usize, value),
            Op::Cas(at, expected, value) => {
                shared.compare_exchange::<Goes<Q, K>>(seat, at.0 as usize, expected, value)
            }
        }
    }

    /// Puts this into the slot of the page, which is out with the seat, and gives what lay there.
    /// No step on a word.
    #[inline(always)]
    pub(crate) fn exchange(
        &self,
        seat: &mut BusSeat<Q>,
        page: Option<OwnedPage>,
    ) -> Option<OwnedPage>
        requires table { seat.old.table_id ≡ self.now.table }
        requires out { (old : Option Page) × (seat.old.me.1 ≡ (0, old) ∷ rest seat.old.me.1) }
        ensures table { (seat.new.table_id ≡ seat.old.table_id) × (seat.new.id ≡ seat.old.id) }
        ensures found { seat.old.me.1 ≡ (0, result) ∷ rest seat.old.me.1 }
        ensures me { seat.new.me ≡ (seat.old.me.0, (0, page) ∷ rest seat.old.me.1) }
    {
        self.table.shared.exchange(seat, 0, page)
    }

    /// One load of the length, by a turn of a receiver that has not left, and that has no frame to
    /// pass.
    #[inline(always)]
    pub(crate) fn load_length_in_turn(&self, seat: &mut BusSeat<Q>) -> u64
        requires table { (seat.old.table_id ≡ self.now.table) × (0 < self.now.table.words) }
        requires tap { (x : TableLayout) × (e : ReceiverView) × (seat.old.me ≡ (Tap x e, []))
            × (e.ended ≡ false) × (e.gone ≡ false) × ¬ PassIsDue x e }
        ensures table { (seat.new.table_id ≡ seat.old.table_id) × (seat.new.id ≡ seat.old.id) }
        ensures finds { FindsLength seat.old.me result seat.new.me }
        ensures shown { steps_shown seat.new.me.0 ≡ steps_shown seat.old.me.0 + 1 }
    {
        threads_may_go_by::<Q>();
        self.table.shared.load::<LoadsLengthInTurn<Q>>(seat, 0)
    }

    /// One load of the word at its place, by a turn of a receiver.
    #[inline(always)]
    pub(crate) fn load_word_in_turn(&self, seat: &mut BusSeat<Q>, at: usize) -> u64
        requires table { (seat.old.table_id ≡ self.now.table) × (at < self.now.table.words) }
        requires tap { (x : TableLayout) × (e : ReceiverView) × (seat.old.me ≡ (Tap x e, []))
            × (e.ended ≡ false) × MayRead x e e.place × (e.place < length e.known)
            × (at ≡ log_cell x e.place) }
        ensures table { (seat.new.table_id ≡ seat.old.table_id) × (seat.new.id ≡ seat.old.id) }
        ensures finds { FindsWord seat.old.me result seat.new.me }
        ensures shown { steps_shown seat.new.me.0 ≡ steps_shown seat.old.me.0 + 1 }
    {
        threads_may_go_by::<Q>();
        self.table.shared.load::<LoadsWordInTurn<Q>>(seat, at)
    }

    /// One load of the length, by a receiver that has not left, out of turn.
    #[inline(always)]
    pub(crate) fn load_length(&self, seat: &mut BusSeat<Q>) -> u64
        requires table { (seat.old.table_id ≡ self.now.table) × (0 < self.now.table.words) }
        requires tap { (x : TableLayout) × (e : ReceiverView) × (seat.old.me ≡ (Tap x e, []))
            × (e.gone ≡ false) }
        ensures table { (seat.new.table_id ≡ seat.old.table_id) × (seat.new.id ≡ seat.old.id) }
        ensures learns { Learns seat.old.me result seat.new.me }
        ensures shown { steps_shown seat.new.me.0 ≡ steps_shown seat.old.me.0 + 1 }
    {
        threads_may_go_by::<Q>();
        self.table.shared.load::<LoadsLength<Q>>(seat, 0)
    }

    /// One load of a word that it knows, by a receiver out of turn.
    #[inline(always)]
    pub(crate) fn load_word(&self, seat: &mut BusSeat<Q>, at: usize) -> u64
        requires table { (seat.old.table_id ≡ self.now.table) × (at < self.now.table.words) }
        requires tap { (x : TableLayout) × (e : ReceiverView) × (seat.old.me ≡ (Tap x e, []))
            × (place : ℕ) × MayRead x e place × (place < length e.known)
            × (at ≡ log_cell x place) }
        ensures table { (seat.new.table_id ≡ seat.old.table_id) × (seat.new.id ≡ seat.old.id) }
        ensures reads { Reads seat.old.me at result seat.new.me }
        ensures shown { steps_shown seat.new.me.0 ≡ steps_shown seat.old.me.0 + 1 }
    {
        threads_may_go_by::<Q>();
        self.table.shared.load::<LoadsWord<Q>>(seat, at)
    }

    /// One store of its place in its passed place, by a turn of a receiver that has heard whole
    /// frames, and at least one since it stored that last.
    #[inline(always)]
    pub(crate) fn store_passed(&self, seat: &mut BusSeat<Q>, at: usize, place: u64)
        requires table { (seat.old.table_id ≡ self.now.table) × (at < self.now.table.words) }
        requires tap { (x : TableLayout) × (e : ReceiverView) × (seat.old.me ≡ (Tap x e, []))
            × (e.ended ≡ false) × (e.gone ≡ false) × (0 < x.passers)
            × IsLog x.senders (take e.place e.known) × (at ≡ passed_word x e.me)
            × (place ≡ e.place) × (e.passed < e.place) }
        ensures table { (seat.new.table_id ≡ seat.old.table_id) × (seat.new.id ≡ seat.old.id) }
        ensures passed { HasPassed seat.old.me seat.new.me }
        ensures shown { steps_shown seat.new.me.0 ≡ steps_shown seat.old.me.0 + 1 }
    {
        threads_may_go_by::<Q>();
        self.table.shared.store::<StoresPassed<Q>>(seat, at, place);
    }

    /// One store of the number past all places in its passed place: a receiver leaves for good.
    #[inline(always)]
    pub(crate) fn leave(&self, seat: &mut BusSeat<Q>, at: usize)
        requires table { (seat.old.table_id ≡ self.now.table) × (at < self.now.table.words) }
        requires tap { (x : TableLayout) × (e : ReceiverView) × (seat.old.me ≡ (Tap x e, []))
            × (e.gone ≡ false) × (0 < x.passers) × (at ≡ passed_word x e.me) }
        ensures table { (seat.new.table_id ≡ seat.old.table_id) × (seat.new.id ≡ seat.old.id) }
        ensures left { HasLeft seat.old.me seat.new.me }
        ensures shown { steps_shown seat.new.me.0 ≡ steps_shown seat.old.me.0 + 1 }
    {
        threads_may_go_by::<Q>();
        self.table.shared.store::<Leaves<Q>>(seat, at, PASSED_ALL);
    }

    /// One compare_exchange on the passed place of a higher number, by a receiver that has not
    /// left: from the number past all places to what this one has passed. Where it finds that,
    /// nobody has the number, and the seat of a receiver that has it is cut off this one. The seat
    /// of this one shows what it found.
    #[inline(always)]
    pub(crate) fn fork<K: Planned>(
        &self,
        seat: &mut BusSeat<Q>,
        at: usize,
        passed: u64,
    ) -> Option<BusSeat<Q>>
        requires table { (seat.old.table_id ≡ self.now.table) × (at < self.now.table.words) }
        requires tap { (x : TableLayout) × (e : ReceiverView) × (number : ℕ)
            × (seat.old.me ≡ (Tap x e, [])) × (e.gone ≡ false) × (e.me < number)
            × (number < x.passers) × (at ≡ passed_word x number) × (passed ≡ e.passed) }
        requires plan { K.plan ≡ Some self.now.plan }
        ensures table { (seat.new.table_id ≡ seat.old.table_id) × (seat.new.id ≡ seat.old.id) }
        ensures tries { HasTriedAt seat.old.me at (is_some result) seat.new.me }
        ensures made { IfSome result (λ made. (made.table_id ≡ seat.old.table_id) × ((number : ℕ)
            → at ≡ passed_word (table_layout_in seat.old.me.0) number
            → made.me ≡ (fork_of seat.old.me.0 number, []))) }
        ensures free { IfSome result (λ _. IsFoundOn (process_by Q.Ratifier)
            (automaton_by Q.Ratifier self.now.plan) seat.old.me.0 at PASSED_ALL) }
        ensures taken { IfNone result (IsTakenOn (process_by Q.Ratifier)
            (automaton_by Q.Ratifier self.now.plan) seat.old.me at seat.new.me) }
        ensures shown { steps_shown seat.new.me.0 ≡ steps_shown seat.old.me.0 + 1 }
    {
        threads_may_go_by::<Q>();
        let shared = &self.table.shared;
        let found = shared.compare_exchange::<Forks<Q, K>>(seat, at, PASSED_ALL, passed);
        if found != PASSED_ALL {
            return None;
        }
        Some(shared.split_seat::<Part<Q>>(seat))
    }

    /// A copy of a receiver's seat, cut off it where no receiver has a passed place. One load,
    /// which tells nothing, and which no seat shows.
    #[inline(always)]
    pub(crate) fn copy(&self, seat: &mut BusSeat<Q>) -> BusSeat<Q>
        requires table { (seat.old.table_id ≡ self.now.table) × (0 < self.now.table.words) }
        requires tap { (x : TableLayout) × (e : ReceiverView) × (seat.old.me ≡ (Tap x e, []))
            × (x.passers ≡ 0) }
        ensures table { (seat.new.table_id ≡ seat.old.table_id) × (seat.new.id ≡ seat.old.id)
            × (result.table_id ≡ seat.old.table_id) }
        ensures same { (seat.new.me ≡ seat.old.me) × (result.me ≡ seat.old.me) }
    {
        threads_may_go_by::<Q>();
        self.table.shared.split_seat::<Copies<Q>>(seat)
    }

    /// One load by a sender's seat, of any word, beside its turns: a look, which the seat shows
    /// with the word and with the number that it found. That stood there, on a table of which the
    /// rule held and where the seat shows what it had shown before.
    #[inline(always)]
    pub(crate) fn look<K: Planned>(&self, seat: &mut BusSeat<Q>, at: usize) -> u64
        requires table { (seat.old.table_id ≡ self.now.table) × (at < self.now.table.words) }
        requires sender { IsSenders seat.old.me.0 }
        requires plan { K.plan ≡ Some self.now.plan }
        ensures table { (seat.new.table_id ≡ seat.old.table_id) × (seat.new.id ≡ seat.old.id) }
        ensures looks { seat.new.me ≡ (
          with_look seat.old.me.0 (record {
            word = at;
            found = result;
          }),
          seat.old.me.1,
        ) }
        ensures found { IsFoundOn (process_by Q.Ratifier)
            (automaton_by Q.Ratifier self.now.plan) seat.old.me.0 at result }
    {
        self.table.shared.load::<Looks<Q, K>>(seat, at)
    }

    /// A receiver's seat goes into another seat, which loads the length, and comes out of it again.
    /// Three loads of the length, of which the second tells. Each receiver of the two shows one
    /// more, and a sender none.
    #[inline(always)]
    pub(crate) fn meet(&self, seat: &mut BusSeat<Q>, other: BusSeat<Q>) -> (u64, BusSeat<Q>)
        requires table { (seat.old.table_id ≡ self.now.table)
            × (other.table_id ≡ self.now.table) × (0 < self.now.table.words) }
        requires first { IsFirst seat.old.me.0 }
        requires second { (d : _) × (e : ReceiverView) × (other.me ≡ (Tap d e, [])) }
        ensures table { (seat.new.table_id ≡ seat.old.table_id) × (seat.new.id ≡ seat.old.id)
            × (result.1.table_id ≡ seat.old.table_id) }
        ensures met { Met (process_by Q.Ratifier) seat.old.me other.me result.0 seat.new.me
            result.1.me }
        ensures shown { steps_shown result.1.me.0 ≡ steps_shown other.me.0 + 1 }
        ensures both { (d : TableLayout) (e : ReceiverView) → seat.old.me.0 ≡ Tap d e
            → steps_shown seat.new.me.0 ≡ steps_shown seat.old.me.0 + 1 }
    {
        threads_may_go_by::<Q>();
        let shared = &self.table.shared;
        shared.join_seat::<Meet<Q>>(seat, other);
        let length = shared.load::<LoadsJoined<Q>>(seat, 0);
        let part = shared.split_seat::<Part<Q>>(seat);
        (length, part)
    }

    /// The words and the slot, which no thread shares any more, by a seat of them. No step.
    #[inline(always)]
    pub(crate) fn close(self, seat: BusSeat<Q>) -> Closed<Option<OwnedPage>, Global>
        requires { seat.table_id ≡ self.table }
        ensures counts { (slots_len result.words ≡ self.table.words)
            × (slots_len result.slots ≡ self.table.slots) }
        ensures full { IsFull result.words × IsFull result.slots }
        ensures last { let H = TableInvariant (process_by Q.Ratifier)
            (automaton_by Q.Ratifier self.plan) in
            Final (Seen H seat.id seat.me.0) (slots_items result.words) (slots_items result.slots) }
    {
        self.table.close_with(seat)
    }
}
