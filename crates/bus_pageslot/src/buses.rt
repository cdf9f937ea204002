//! The bus: how it is made, and how it ends.

ghost use Rattle.std.specs.Prelude.{All, ◌≡◌, ℕ, List, Some, None, IfOk, OnOk, OnErr, IfErr, []};
ghost use Rattle.std.specs.Prelude.{◌+◌, ◌≤◌, IsTrue, ◌↔◌};
ghost use Rattle.std.specs.Vec.{vec_len, vec_capacity};
ghost use Rattle.std.specs.Option.{option_copied};
ghost use Rattle.bus_machine.specs.Playing.{IsServed, MakeRefused, ShapeOf, MayFollow, MayGoOn};
ghost use Rattle.bus_machine.specs.Playing.{IsFollowed, AfterRefused, MakeRefusedAfter};
ghost use Rattle.bus_machine.specs.Playing.{RefusedWith, IsBatch};
ghost use Rattle.bus_automaton.specs.Buses.{process_by, automaton_by, Serves, Refuses};
ghost use Rattle.bus_automaton.specs.Buses.{plan_after, plan_passers, new_plan, cyclic_plan};
ghost use Rattle.bus_automaton.specs.Buses.{ring_plan};
ghost use Rattle.bus_pageslot.specs.Buses.{AreNewSeats, AreNewTaps};
ghost use Rattle.bus_pageslot.specs.Seats.{table_of};
ghost use Rattle.bus_pageslot.specs.Endings.{IsLeft};
ghost use Rattle.bus_pageslot.specs.Looks.{FloorSeen, HasLooked, IsSenders};

use crate::outcomes::{EndFault, Ended, Places, leave, lesser};
use crate::rule::BusSeat;
use crate::seating::{bus_table, log_at, seat_all, tap_all};
use crate::seats::Sender;
use crate::taps::Tap;
use crate::words::Words;
use bus_adoptcommit::{Ratifier, ThreeWord};
use bus_automaton::Plan;
use bus_automaton::laws::threads_may_go_by;
use bus_core::limits::PASSED_APART;
use bus_machine::shapes::fault_of;
use bus_register::NoMemory;
use bus_register::limits::MOST_SENDERS;
use bus_tenure::Page;
use bus_world::{MakeFault, Shape};
use std::alloc::Global;
use std::marker::{Brand, Model};

/// A bus with its senders and its receivers.
type Made<Q> = (Bus<Q>, Vec<Sender<Q>>, Vec<Tap<Q>>);

/// A bus that threads share by `&`: each step of a sender or of a receiver is one atomic step on
/// one word of its table. The election of an owner is wait-free, and the append is not: who is
/// elected holds the page as one holds a lock, and if it stops there nobody else appends.
#[derive(Drop)]
pub struct Bus<Q: Ratifier = ThreeWord> {
    pub(crate) words: Words<Q>,
    senders: u64,
    /// The numbers that its sitting began with.
    bases: [u64; MOST_SENDERS],
    places: Places,
    /// For the words that it leaves.
    room: Vec<u64>,
}

impl<Q: Ratifier> Model for Bus<Q> {
    ghost use Rattle.std.specs.Prelude.{◌≡◌, ◌≤◌, []};
    ghost use Rattle.std.specs.Vec.{vec_len, vec_capacity};
    ghost use Rattle.std.specs.Prelude.{◌<◌, ◌^◌};
    ghost use Rattle.bus_automaton.specs.Buses.{automaton_with};
    ghost use Rattle.bus_pageslot.specs.Buses.{BusId};
    ghost use Rattle.bus_pageslot.specs.Places.{AreIn};

    ghost Value = { BusId };

    ghost view = { λ b. b.words };

    ghost invariant = { λ b.
        let A = automaton_with Q.kind_of Q.op Q.fed Q.protocol b.words.plan in
        (b.senders ≡ b.words.plan.shape.senders)
        × (b.senders ≡ A.table_layout.senders)
        × (b.bases ≡ b.words.plan.bases)
        × (b.bases ≡ A.bases)
        × AreIn A.table_layout b.places
        × (b.words.table.words ≡ A.table_layout.words)
        × (A.table_layout.words ≤ 2 ^ 63)
        × (0 < b.places.log_words)
        × (b.room.items ≡ []) × (vec_len b.room ≡ 0)
        × (b.places.log_words ≤ vec_capacity b.room) };
}

impl<Q: Ratifier + Drop> Bus<Q> {
    /// A new bus of this shape with a row of words for each tenure, with its words at zero and its
    /// page at home, and each of its senders and receivers, in order. All memory is taken here: no
    /// later call takes any. A batch has at most 16 messages, and where the shape says another
    /// number the answer is Batch.
    pub fn new(
        alloc: Global,
        shape: Shape,
    ) -> Result<(Bus<Q>, Vec<Sender<Q>>, Vec<Tap<Q>>), MakeFault>
        ensures plan { IfOk result (λ made. made.0.plan ≡ new_plan shape None) }
        ensures senders { IfOk result
            (λ made. AreNewSeats (process_by Q.Ratifier)
            (automaton_by Q.Ratifier (new_plan shape None)) made.0.table shape.senders
            made.1.items) }
        ensures taps { IfOk result
            (λ made. AreNewTaps (automaton_by Q.Ratifier (new_plan shape None)).table_layout
            made.0.table shape.receivers made.2.items) }
        ensures table { IfOk result (λ made. All (λ s. table_of s ≡ made.0.table) made.1.items
            × All (λ t. t.table_id ≡ made.0.table) made.2.items) }
        ensures served { IfOk result (λ _. IsServed shape None) }
        ensures batch { OnOk result (IsBatch 0 shape.batch) }
        ensures fault { IfErr result (MakeRefused shape None) }
    {
        make(alloc, Plan::new(shape), None)
    }

    /// The next sitting: a new bus with a row of words for each tenure, whose senders go on with
    /// the numbers of this page. That is the page of a bus that was ended once its order had ended
    /// (`Ended::page`). Nothing else of it is carried over, and the shape may be another. Of a page
    /// whose order has not ended the answer is NotEnded, and Numbers where a next number is
    /// 2^48 - 65,536 or more.
    pub fn after(
        alloc: Global,
        shape: Shape,
        page: &Page,
    ) -> Result<(Bus<Q>, Vec<Sender<Q>>, Vec<Tap<Q>>), MakeFault>
        ensures plan { IfOk result (λ made. made.0.plan ≡ new_plan shape (Some page.now)) }
        ensures senders { IfOk result
            (λ made. AreNewSeats (process_by Q.Ratifier)
            (automaton_by Q.Ratifier (new_plan shape (Some page.now))) made.0.table shape.senders
            made.1.items) }
        ensures taps { IfOk result
            (λ made. AreNewTaps
            (automaton_by Q.Ratifier (new_plan shape (Some page.now))).table_layout
            made.0.table shape.receivers made.2.items) }
        ensures table { IfOk result (λ made. All (λ s. table_of s ≡ made.0.table) made.1.items
            × All (λ t. t.table_id ≡ made.0.table) made.2.items) }
        ensures served { IfOk result (λ _. IsServed shape None) }
        ensures batch { OnOk result (IsBatch 0 shape.batch) }
        ensures follows { OnOk result (IsFollowed page.now) }
        ensures fault { IfErr result (AfterRefused shape None page.now) }
    {
        make(alloc, Plan::new(shape), Some(page))
    }

    /// As `new`, with two to eight rows of words that are used again, for up to 2^40 tenures:
    /// `rows` of its shape is how many there are. With a page it is the next sitting, as `after`.
    ///
    /// Who holds the page makes the row of the next tenure ready before it gives the page back. It
    /// asks each sender once which tenure it pins, and where that is the one that used the row
    /// before, it answers Behind until that has changed. So a sender that stops while it pins a
    /// tenure may make a holder wait for good.
    pub fn cyclic(
        alloc: Global,
        shape: Shape,
        page: Option<&Page>,
    ) -> Result<(Bus<Q>, Vec<Sender<Q>>, Vec<Tap<Q>>), MakeFault>
        ensures plan { IfOk result
            (λ made. made.0.plan ≡ cyclic_plan shape (option_copied page.entry)) }
        ensures senders { IfOk result
            (λ made. AreNewSeats (process_by Q.Ratifier)
            (automaton_by Q.Ratifier (cyclic_plan shape (option_copied page.entry))) made.0.table
            shape.senders made.1.items) }
        ensures taps { IfOk result
            (λ made. AreNewTaps
            (automaton_by Q.Ratifier (cyclic_plan shape (option_copied page.entry))).table_layout
            made.0.table shape.receivers made.2.items) }
        ensures table { IfOk result (λ made. All (λ s. table_of s ≡ made.0.table) made.1.items
            × All (λ t. t.table_id ≡ made.0.table) made.2.items) }
        ensures served { IfOk result (λ _. IsServed shape (Some shape.rows)) }
        ensures batch { OnOk result (IsBatch 0 shape.batch) }
        ensures follows { OnOk result (MayFollow (option_copied page.entry)) }
        ensures fault { IfErr result
            (MakeRefusedAfter shape (Some shape.rows) (option_copied page.entry)) }
    {
        make(alloc, Plan::cyclic(shape), page)
    }

    /// As `cyclic`, with a log whose words are used again too. It serves for as long as it has
    /// tenures. Each receiver stores how far it has heard in its passed place. A frame fits as far
    /// as the slowest has passed. Behind that the answer is Full: for now, or for good where the
    /// frame is longer than the log. A receiver that stops without leaving stops whoever needs its
    /// room.
    ///
    /// A batch has at most as many messages as its shape says, 1 to 64; with another number the
    /// answer is Batch. With batches of B messages each next number of a page is to be below
    /// 2^48 - B * (2^40 + 1), and else the answer is Numbers.
    pub fn ring(
        alloc: Global,
        shape: Shape,
        page: Option<&Page>,
    ) -> Result<(Bus<Q>, Vec<Sender<Q>>, Vec<Tap<Q>>), MakeFault>
        ensures plan { IfOk result
            (λ made. made.0.plan ≡ ring_plan shape (option_copied page.entry)) }
        ensures senders { IfOk result
            (λ made. AreNewSeats (process_by Q.Ratifier)
            (automaton_by Q.Ratifier (ring_plan shape (option_copied page.entry))) made.0.table
            shape.senders made.1.items) }
        ensures taps { IfOk result
            (λ made. AreNewTaps
            (automaton_by Q.Ratifier (ring_plan shape (option_copied page.entry))).table_layout
            made.0.table shape.receivers made.2.items) }
        ensures table { IfOk result (λ made. All (λ s. table_of s ≡ made.0.table) made.1.items
            × All (λ t. t.table_id ≡ made.0.table) made.2.items) }
        ensures served { IfOk result (λ _. IsServed shape (Some shape.rows)) }
        ensures batch { OnOk result (IsBatch shape.receivers shape.batch) }
        ensures follows { OnOk result (MayGoOn shape.receivers shape.batch
            (option_copied page.entry)) }
        ensures fault { IfErr result
            (RefusedWith shape.receivers shape (Some shape.rows) (option_copied page.entry)) }
    {
        make(alloc, Plan::ring(shape), page)
    }

    /// How many senders it has.
    pub fn senders(&self) -> u64
        ensures { result ≡ self.now.plan.shape.senders }
    {
        self.senders
    }

    /// The number of each sender's first message.
    pub fn bases(&self) -> [u64; MOST_SENDERS]
        ensures { result ≡ self.now.plan.bases }
    {
        self.bases
    }

    /// Ends the bus, by a receiver of it: the words of its log that stand and its page, where the
    /// page is at home, and PageOut where a sender that took it has not given it back. All words
    /// stand where none is used again. Bus and receiver are gone in either case. Takes no memory.
    pub fn end(self, tap: Tap<Q>) -> Result<Ended, EndFault>
        requires { tap.table_id ≡ self.table }
        ensures ended { IfOk result
            (λ left. IsLeft (process_by Q.Ratifier) (automaton_by Q.Ratifier self.plan)
            tap.me.0 left.log left.floor (Some left.page)) }
        ensures flat { IfOk result (λ left. plan_passers self.plan ≡ 0 → left.floor ≡ 0) }
        ensures senders { IfOk result (λ left. left.senders ≡ self.plan.shape.senders) }
        ensures bases { IfOk result (λ left. left.bases ≡ self.plan.bases) }
        ensures out { OnErr result ((log : List ℕ) × (floor : ℕ)
            × IsLeft (process_by Q.Ratifier) (automaton_by Q.Ratifier self.plan)
            tap.me.0 log floor None) }
    {
        threads_may_go_by::<Q>();
        let Bus {
            words,
            senders,
            bases,
            places,
            room,
        } = self;
        leave(words, tap.into_seat(), senders, bases, places, room)
    }

    /// Whether a frame of so many words fits the log, by one load of the length and one of each
    /// passed place, in rising order. The sender's seat shows these looks.
    pub(crate) fn has_room(&self, seat: &mut BusSeat<Q>, many: u64) -> bool
        requires table { seat.old.table_id ≡ self.now.table }
        requires sender { IsSenders seat.old.me.0 }
        ensures table { (seat.new.table_id ≡ seat.old.table_id) × (seat.new.id ≡ seat.old.id) }
        ensures slots { seat.new.me.1 ≡ seat.old.me.1 }
        ensures looked { HasLooked (process_by Q.Ratifier)
            (automaton_by Q.Ratifier self.now.plan) seat.old.me.0 many result seat.new.me.0 }
    {
        threads_may_go_by::<Q>();
        let length = self.words.look::<Brand>(seat, 0);
        let floor = self.floor_seen(seat, length);
        fits(many, length, floor, self.places.log_words)
    }

    /// The least of this length and of the passed places, each of which it loads once; 0 where
    /// there are none.
    fn floor_seen(&self, seat: &mut BusSeat<Q>, length: u64) -> u64
        requires table { seat.old.table_id ≡ self.now.table }
        requires sender { IsSenders seat.old.me.0 }
        ensures table { (seat.new.table_id ≡ seat.old.table_id) × (seat.new.id ≡ seat.old.id) }
        ensures slots { seat.new.me.1 ≡ seat.old.me.1 }
        ensures low { result ≤ length }
        ensures floor { FloorSeen (process_by Q.Ratifier)
            (automaton_by Q.Ratifier self.now.plan) seat.old.me.0 length result seat.new.me.0 }
    {
        threads_may_go_by::<Q>();
        let Places {
            passed,
            passers,
            ..
        } = self.places;
        if passers == 0 {
            return 0;
        }
        let mut least = length;
        for r in 0..passers {
            let at = passed + PASSED_APART * r;
            least = lesser(self.words.look::<Brand>(seat, at as usize), least);
        }
        least
    }
}

/// A frame of so many words, behind this length, ends no further behind the floor than the log is
/// long.
fn fits(many: u64, length: u64, floor: u64, log_words: u64) -> bool
    requires { floor ≤ length }
    ensures { IsTrue result ↔ (length + many ≤ log_words + floor) }
{
    many <= log_words && length - floor <= log_words - many
}

/// A new bus of this plan, which goes on with the numbers of this page, if of any.
fn make<Q: Ratifier + Drop>(
    alloc: Global,
    plan: Plan,
    page: Option<&Page>,
) -> Result<Made<Q>, MakeFault>
    requires shape { ShapeOf plan.shape plan.reuse }
    ensures plan { IfOk result (λ made. made.0.plan ≡ plan_after plan (option_copied page.entry)) }
    ensures senders { IfOk result
        (λ made. AreNewSeats (process_by Q.Ratifier)
        (automaton_by Q.Ratifier (plan_after plan (option_copied page.entry))) made.0.table
        plan.shape.senders made.1.items) }
    ensures taps { IfOk result
        (λ made. AreNewTaps
        (automaton_by Q.Ratifier (plan_after plan (option_copied page.entry))).table_layout
        made.0.table plan.shape.receivers made.2.items) }
    ensures table { IfOk result (λ made. All (λ s. table_of s ≡ made.0.table) made.1.items
        × All (λ t. t.table_id ≡ made.0.table) made.2.items) }
    ensures served { IfOk result (λ _. IsServed plan.shape plan.reuse) }
    ensures batch { OnOk result (IsBatch (plan_passers plan) plan.shape.batch) }
    ensures follows { OnOk result (MayGoOn (plan_passers plan) plan.shape.batch
        (option_copied page.entry)) }
    ensures fault { IfErr result (Refuses plan (option_copied page.entry)) }
{
    if let Some(fault) = fault_of(plan.shape, plan.reuse) {
        return Err(fault);
    }
    let next = plan.after(page)?;
    let made = build(alloc, next)?;
    Ok(made)
}

/// A new bus of a plan that is served.
fn build<Q: Ratifier + Drop>(alloc: Global, plan: Plan) -> Result<Made<Q>, NoMemory>
    requires served { Serves plan }
    ensures plan { IfOk result (λ made. made.0.plan ≡ plan) }
    ensures senders { IfOk result
        (λ made. AreNewSeats (process_by Q.Ratifier) (automaton_by Q.Ratifier plan) made.0.table
        plan.shape.senders made.1.items) }
    ensures taps { IfOk result
        (λ made. AreNewTaps (automaton_by Q.Ratifier plan).table_layout made.0.table
        plan.shape.receivers made.2.items) }
    ensures table { IfOk result (λ made. All (λ s. table_of s ≡ made.0.table) made.1.items
        × All (λ t. t.table_id ≡ made.0.table) made.2.items) }
{
    let (words, maker) = bus_table(alloc, plan)?;
    let log = log_at::<Q>(plan);
    let (senders, maker) = seat_all(alloc, plan, &words, maker)?;
    let taps = tap_all(alloc, plan, &words, maker, log)?;
    let room = roomy(alloc, plan.shape.log_words)?;
    let passers = plan.passers();
    let places = Places {
        log,
        log_words: plan.shape.log_words,
        passed: log - PASSED_APART * passers,
        passers,
    };
    let bases = plan.bases;
    let bus = Bus {
        words,
        senders: plan.shape.senders,
        bases,
        places,
        room,
    };
    Ok((bus, senders, taps))
}

/// Room for so many words.
fn roomy(alloc: Global, words: u64) -> Result<Vec<u64>, NoMemory>
    ensures { IfOk result (λ room. (room.items ≡ []) × (vec_len room ≡ 0)
        × (words ≤ vec_capacity room)) }
{
    Ok(Vec::with_capacity(alloc, words as usize)?)
}
