//! What a bus leaves behind.

ghost use Rattle.std.specs.Prelude.{◌≡◌, ℕ, ◌+◌, ◌*◌, ◌-◌, ◌<◌, ◌≤◌, ◌^◌, List, [], Some};
ghost use Rattle.std.specs.Prelude.{None, false, true};
ghost use Rattle.std.specs.Prelude.{codes, length, slice_get, slice_index, IfOk, OnErr};
ghost use Rattle.std.specs.Vec.{vec_len, vec_capacity};
ghost use Rattle.std.specs.Slots.{slots_items, slots_len, IsFull};
ghost use Rattle.bus_register.specs.declared.registers.SenderNo.{SenderNo as Number};
ghost use Rattle.bus_batch.specs.declared.messages.Item.{Item};
ghost use Rattle.bus_batch.specs.Frames.{Order, Spells, has_gone};
ghost use Rattle.bus_core.specs.declared.limits.TheConstants.{PASSED_APART};
ghost use Rattle.bus_deliverylog.specs.Orders.{of_sender};
ghost use Rattle.bus_tenure.specs.Situations.{lesser as spec_lesser};
ghost use Rattle.bus_world.specs.Log.{floor_shown, words_in_ring, KeepsFloor};
ghost use Rattle.bus_automaton.specs.Buses.{process_by, automaton_by};
ghost use Rattle.bus_pageslot.specs.declared.rule.View.TheVariants.{Tap};
ghost use Rattle.bus_pageslot.specs.ReceiverViews.{ReceiverView};
ghost use Rattle.bus_pageslot.specs.Endings.{IsLeft};
ghost use Rattle.bus_pageslot.specs.Places.{AreIn};

use crate::laws::{tables_are_machines, what_stands_fits};
use crate::rule::BusSeat;
use crate::words::Words;
use atomic_table::Closed;
use bus_adoptcommit::Ratifier;
use bus_automaton::laws::threads_may_go_by;
use bus_batch::laws::spells_one;
use bus_core::limits::PASSED_APART;
use bus_register::limits::MOST_SENDERS;
use bus_register::{SenderNo, cell};
use bus_tenure::{OwnedPage, Page};
use std::alloc::Global;
use std::error::Error;
use std::fmt;
use std::marker::Model;

/// Why a bus leaves nothing behind.
#[derive(Clone, Copy, Debug, PartialEq, Eq)]
pub enum EndFault {
    /// A sender that took the page has not given it back.
    PageOut,
}

impl Error for EndFault {}

impl fmt::Display for EndFault {
    ghost output = { λ _. Some (codes "a sender has not given the page back") };

    fn fmt<W: fmt::Write>(&self, f: &mut fmt::Formatter<W>) -> fmt::Result {
        f.write_str("a sender has not given the page back")
    }
}

/// Where the words of a bus have its log, and its passed places if there are any.
#[derive(Clone, Copy)]
pub(crate) struct Places {
    /// The first word of the log, and how many there are.
    pub(crate) log: u64,
    pub(crate) log_words: u64,
    /// The first passed place, and how many there are: none where no word of the log is used
    /// again.
    pub(crate) passed: u64,
    pub(crate) passers: u64,
}

/// What a bus leaves behind: the words of its log that stand, and its page.
#[derive(Drop)]
pub struct Ended {
    senders: u64,
    bases: [u64; MOST_SENDERS],
    floor: u64,
    log: Vec<u64>,
    page: OwnedPage,
}

impl Model for Ended {
    ghost use Rattle.bus_pageslot.specs.Outcomes.{Outcome, IsOutcome};

    ghost Value = { Outcome };

    ghost view = { λ e. record {
      senders = e.senders;
      bases = e.bases;
      floor = e.floor;
      log = e.log.items;
      page = e.page;
    } };

    ghost invariant = { λ e. IsOutcome (record {
      senders = e.senders;
      bases = e.bases;
      floor = e.floor;
      log = e.log.items;
      page = e.page;
    }) };
}

impl Ended {
    /// Where `log` begins: all words of the log from this place on stand, and those before it may
    /// have been used again. It is the least that a receiver has passed; of a bus whose log is no
    /// ring it is 0, and all of the log stands.
    pub fn floor(&self) -> u64
        ensures floor { result ≡ self.now.floor }
        ensures words { result + length self.now.log ≡ self.now.page.words }
    {
        self.floor
    }

    /// The words of the log that stand, from the floor up to the length. A frame begins at the
    /// floor, so they are a log by themselves: of a ring they say what its last frames say.
    pub fn log(&self) -> &[u64]
        ensures log { result.now ≡ self.now.log }
        ensures spelled { (order : Order) × (owners : List (ℕ × Number))
            × Spells self.now.senders self.now.log order owners }
    {
        self.log.as_slice()
    }

    /// The page, as its last owner gave it back. It has the number of all words of the log, also
    /// of those before the floor; whether the order has ended; and for each sender whether it has
    /// left, and the number that its next message would have. So an item of the words that stand
    /// has as many numbers before that one as items of its sender stand from it on; and who has
    /// left by these words has left, and an order that has ended by them has ended. Where the
    /// floor is 0 all words stand, and the page says just what they say. Its tenures are above
    /// that of each frame that stands, and its own floor is no further than this one.
    pub fn page(&self) -> &Page
        ensures page { result.now ≡ self.now.page }
        ensures words { result.now.words ≡ self.now.floor + length self.now.log }
        ensures floor { result.now.floor ≤ self.now.floor }
        ensures flat { self.now.floor ≡ 0 → KeepsFloor result.now }
        ensures ended { self.now.floor ≡ 0 → (order : Order) (owners : List (ℕ × Number))
            → Spells self.now.senders self.now.log order owners
            → result.now.ended ≡ order.ended }
        ensures left { self.now.floor ≡ 0
            → (sender : ℕ) (order : Order) (owners : List (ℕ × Number))
            → sender < MOST_SENDERS → Spells self.now.senders self.now.log order owners
            → slice_get result.now.left sender ≡ Some (has_gone sender order) }
        ensures next { self.now.floor ≡ 0
            → (sender : ℕ) (order : Order) (owners : List (ℕ × Number))
            → sender < MOST_SENDERS → Spells self.now.senders self.now.log order owners
            → slice_index result.now.next sender
            ≡ slice_index self.now.bases sender + length (of_sender sender order) }
        ensures has_ended { (order : Order) (owners : List (ℕ × Number))
            → Spells self.now.senders self.now.log order owners
            → order.ended ≡ true → result.now.ended ≡ true }
        ensures has_left { (sender : ℕ) (order : Order) (owners : List (ℕ × Number))
            → sender < MOST_SENDERS → Spells self.now.senders self.now.log order owners
            → has_gone sender order ≡ true → slice_get result.now.left sender ≡ Some true }
        ensures last { (sender : ℕ) (order : Order) (owners : List (ℕ × Number)) (place : ℕ)
            (item : Item) → sender < MOST_SENDERS
            → Spells self.now.senders self.now.log order owners
            → slice_get (of_sender sender order) place ≡ Some item
            → item.number + length (of_sender sender order)
            ≡ slice_index result.now.next sender + place }
        ensures tenures { (order : Order) (owners : List (ℕ × Number)) (place tenure : ℕ)
            (owner : Number) → Spells self.now.senders self.now.log order owners
            → slice_get owners place ≡ Some (tenure, owner) → tenure < result.now.tenures }
    {
        spells_one();
        self.page.get()
    }

    /// The number that the sender's first item has in this sitting: 0, but where the bus went on
    /// with the numbers of another. Where the floor is 0 that item stands, and those behind it
    /// count on from there.
    pub fn base(&self, sender: SenderNo) -> u64
        requires { sender.0 < MOST_SENDERS }
        ensures base { result ≡ slice_index self.now.bases sender.0 }
        ensures before { result ≤ slice_index self.now.page.next sender.0 }
        ensures numbered { self.now.floor ≡ 0
            → (order : Order) (owners : List (ℕ × Number)) (place : ℕ) (item : Item)
            → Spells self.now.senders self.now.log order owners
            → slice_get (of_sender sender.0 order) place ≡ Some item
            → item.number ≡ result + place }
    {
        spells_one();
        self.bases[usize::from(sender.0)]
    }

    /// How many items the sender has in the whole order. Where the floor is 0 all of them stand:
    /// as many as in the order that the words spell. They spell one alone.
    pub fn count(&self, sender: SenderNo) -> u64
        requires { sender.0 < MOST_SENDERS }
        ensures count { slice_index self.now.page.next sender.0
            ≡ slice_index self.now.bases sender.0 + result }
        ensures counts { self.now.floor ≡ 0 → (order : Order) (owners : List (ℕ × Number))
            → Spells self.now.senders self.now.log order owners
            → result ≡ length (of_sender sender.0 order) }
        ensures stands { (order : Order) (owners : List (ℕ × Number))
            → Spells self.now.senders self.now.log order owners
            → length (of_sender sender.0 order) ≤ result }
        ensures spelled { (order : Order) × (owners : List (ℕ × Number))
            × Spells self.now.senders self.now.log order owners }
    {
        spells_one();
        let place = usize::from(sender.0);
        self.page.get().next[place] - self.bases[place]
    }
}

/// What this table, of which this is the seat of a receiver, leaves behind.
pub(crate) fn leave<Q: Ratifier + Drop>(
    words: Words<Q>,
    seat: BusSeat<Q>,
    senders: u64,
    bases: [u64; MOST_SENDERS],
    places: Places,
    room: Vec<u64>,
) -> Result<Ended, EndFault>
    requires table { seat.table_id ≡ words.table }
    requires tap { (d : _) × (e : ReceiverView) × (seat.me ≡ (Tap d e, [])) × (e.gone ≡ false) }
    requires empty { (room.items ≡ []) × (vec_len room ≡ 0) }
    requires some { 0 < places.log_words }
    requires few { (automaton_by Q.Ratifier words.plan).table_layout.words ≤ 2 ^ 63 }
    requires senders { senders ≡ (automaton_by Q.Ratifier words.plan).table_layout.senders }
    requires bases { bases ≡ (automaton_by Q.Ratifier words.plan).bases }
    requires places { AreIn (automaton_by Q.Ratifier words.plan).table_layout places }
    requires roomy { places.log_words ≤ vec_capacity room }
    ensures ended { IfOk result
        (λ left. IsLeft (process_by Q.Ratifier) (automaton_by Q.Ratifier words.plan)
        seat.me.0 left.log left.floor (Some left.page)) }
    ensures senders { IfOk result (λ left. left.senders ≡ senders) }
    ensures bases { IfOk result (λ left. left.bases ≡ bases) }
    ensures out { OnErr result ((log : List ℕ) × (floor : ℕ)
        × IsLeft (process_by Q.Ratifier) (automaton_by Q.Ratifier words.plan)
        seat.me.0 log floor None) }
{
    threads_may_go_by::<Q>();
    tables_are_machines::<Q>();
    what_stands_fits::<Q>();
    let mut closed = words.close(seat);
    let stage = closed.word(1);
    let length = closed.word(0);
    let floor = floor_left(&closed, places, length);
    let log = words_left(&closed, places, floor, length, room);
    let page = closed.take(0);
    closed.free();
    if stage % 2 == 1 {
        return Err(EndFault::PageOut);
    }
    Ok(Ended {
        senders,
        bases,
        floor,
        log,
        page: page.unwrap(),
    })
}

/// The lesser one of two numbers.
pub(crate) fn lesser(one: u64, other: u64) -> u64
    ensures { result ≡ spec_lesser one other }
{
    if one < other { one } else { other }
}

/// From this place on all words of the log stand: the least of this length and of the passed
/// places; 0 where there are none.
fn floor_left(closed: &Closed<Option<OwnedPage>, Global>, places: Places, length: u64) -> u64
    requires full { IsFull closed.now.words }
    requires few { slots_len closed.now.words ≤ 2 ^ 63 }
    requires within { (r : ℕ) → r < places.passers
        → places.passed + PASSED_APART * r < slots_len closed.now.words }
    ensures { result ≡ floor_shown (slice_index (slots_items closed.now.words)) places.passed
        places.passers length }
{
    if places.passers == 0 {
        return 0;
    }
    let mut least = length;
    for r in 0..places.passers {
        let passed = closed.word((places.passed + PASSED_APART * r) as usize);
        least = lesser(passed, least);
    }
    least
}

/// The words of the log from the floor up to the length, each from its cell.
fn words_left(
    closed: &Closed<Option<OwnedPage>, Global>,
    places: Places,
    floor: u64,
    length: u64,
    mut room: Vec<u64>,
) -> Vec<u64>
    requires full { IsFull closed.now.words }
    requires few { slots_len closed.now.words ≤ 2 ^ 63 }
    requires cells { 0 < places.log_words }
    requires within { places.log + places.log_words ≤ slots_len closed.now.words }
    requires low { floor ≤ length }
    requires empty { (room.items ≡ []) × (vec_len room ≡ 0) }
    requires roomy { length - floor ≤ vec_capacity room }
    ensures { result.items ≡ words_in_ring (slice_index (slots_items closed.now.words)) places.log
        places.log_words floor (length - floor) }
{
    for place in floor..length {
        let at = places.log + cell(place, places.log_words);
        room.push_reserved(closed.word(at as usize));
    }
    room
}
