//! The rule of the table: its words, its slot and the views of its seats are a run of the machine.

use atomic_table::{Seat, TableRule};
use bus_adoptcommit::Ratifier;
use bus_automaton::Plan;
use bus_core::SenderCore;
use bus_tenure::OwnedPage;
use std::marker::{Brand, Model, PhantomData};

/// What a sender did. No value of it is made.
pub struct SenderTrail {
    of: PhantomData<()>,
}

impl Model for SenderTrail {
    ghost use Rattle.bus_automaton.specs.SenderTrails.{SenderTrail, no_sender_trail};

    ghost Value = { SenderTrail };

    ghost view = { λ _. no_sender_trail };
}

/// What a sender's seat shows beside that: the last length that it has stored, and its looks. No
/// value of it is made.
pub struct Notes {
    of: PhantomData<()>,
}

impl Model for Notes {
    ghost use Rattle.bus_pageslot.specs.Notes.{Notes, no_notes};

    ghost Value = { Notes };

    ghost view = { λ _. no_notes };
}

/// How large a bus is. No value of it is made.
pub struct TableLayout {
    of: PhantomData<()>,
}

impl Model for TableLayout {
    ghost use Rattle.bus_automaton.specs.Processes.{TableLayout, no_table_layout};

    ghost Value = { TableLayout };

    ghost view = { λ _. no_table_layout };
}

/// What a receiver knows of the log, what it has read of that, and what it was answered. No value
/// of it is made.
pub struct ReceiverView {
    of: PhantomData<()>,
}

impl Model for ReceiverView {
    ghost use Rattle.bus_pageslot.specs.ReceiverViews.{ReceiverView, new_receiver_view};

    ghost Value = { ReceiverView };

    ghost view = { λ _. new_receiver_view 0 };
}

/// What a seat shows, of a bus whose senders are of type C. No value of it is made.
pub enum View<C> {
    /// How many seats it has made, of a bus that is so large: first those of the senders, in their
    /// order, and then those of receivers.
    Maker(TableLayout, u64),
    /// A sender as it was after its last step, all that it did until then, and the last length
    /// that it has stored, with all its looks.
    Sender(C, SenderTrail, Notes),
    /// A receiver as it was after its last step, on a bus that is so large.
    Tap(TableLayout, ReceiverView),
    /// Two receivers, joined while they meet.
    Meeting(TableLayout, ReceiverView, TableLayout, ReceiverView),
    /// A sender and a receiver, joined while the one tells the other.
    Telling(C, SenderTrail, Notes, TableLayout, ReceiverView),
    /// A seat that went into another.
    Spent,
}

/// The rule: executions lead to the bus that the table is, with the actions that its seats show.
pub struct BusRule<Q> {
    of: PhantomData<Q>,
}

impl<Q: Ratifier> TableRule<Option<OwnedPage>, View<SenderCore<Q>>, Plan> for BusRule<Q> {
    ghost use Rattle.bus_automaton.specs.Buses.{process_with, automaton_with};
    ghost use Rattle.bus_pageslot.specs.declared.rule.View.TheVariants.{Maker};
    ghost use Rattle.bus_pageslot.specs.Rule.{TableInvariant};

    ghost holds = { λ key. TableInvariant (process_with Q.kind_of Q.op Q.fed Q.protocol)
        (automaton_with Q.kind_of Q.op Q.fed Q.protocol key) };

    ghost first = { λ key.
        Maker (automaton_with Q.kind_of Q.op Q.fed Q.protocol key).table_layout 0 };
}

/// Which bus it is: the table of one, which whoever makes it picks. A struct that is generic in it
/// can say of its senders and receivers that they are of one bus, whatever threads it goes through.
pub trait OfBus {
    ghost use Rattle.atomic_table.specs.Seated.{TableId};

    ghost table: { TableId };
}

impl OfBus for Brand {
    ghost use Rattle.bus_pageslot.specs.Seats.{nowhere};

    ghost table = { nowhere };
}

/// What a call of a step picks: the sender as its caller has it, and the random word.
pub trait Told<C> {
    ghost use Rattle.std.specs.Prelude.{ℕ, Option};

    ghost core: { Option C };

    ghost word: { ℕ };
}

impl<C> Told<C> for Brand {
    ghost use Rattle.std.specs.Prelude.{None};

    ghost core = { None };

    ghost word = { 0 };
}

/// The sender that a call picks for the seat that it makes, and the number of its first message.
pub trait Seated<C> {
    ghost use Rattle.std.specs.Prelude.{ℕ, Option};

    ghost core: { Option C };

    ghost first: { ℕ };
}

impl<C> Seated<C> for Brand {
    ghost use Rattle.std.specs.Prelude.{None};

    ghost core = { None };

    ghost first = { 0 };
}

/// The plan of the bus that a look is at, which the call picks.
pub trait Planned {
    ghost use Rattle.std.specs.Prelude.{Option};
    ghost use Rattle.bus_automaton.specs.declared.plans.Plan.{Plan};

    ghost plan: { Option Plan };
}

impl Planned for Brand {
    ghost use Rattle.std.specs.Prelude.{None};

    ghost plan = { None };
}

pub(crate) type BusSeat<Q> = Seat<Option<OwnedPage>, View<SenderCore<Q>>>;
