//! What a bus is made by.

ghost use Rattle.std.specs.Prelude.{◌≡◌, ◌≤◌, None, IfErr, IfOk, OnOk};
ghost use Rattle.std.specs.Option.{option_copied};
ghost use Rattle.bus_machine.specs.Playing.{IsBatch, MayGoOn, MayNotGoOn};
ghost use Rattle.bus_automaton.specs.Buses.{AreBasesOf, plan_after, plan_passers, new_plan};
ghost use Rattle.bus_automaton.specs.Buses.{cyclic_plan, ring_plan};

use bus_machine::shapes::first_numbers;
use bus_register::limits::MOST_SENDERS;
use bus_tenure::Page;
use bus_world::{MakeFault, Shape};

/// What a bus is made by: its shape, and how many rows of words are used again; none where each
/// tenure has a row of its own. Whether words of its log are used again too. And the numbers that
/// its sitting begins with.
#[derive(Clone, Copy, Debug, PartialEq, Eq)]
pub struct Plan {
    /// The sizes.
    pub shape: Shape,
    /// How many rows are used again.
    pub reuse: Option<u64>,
    /// Whether its log is a ring, with a passed place for each receiver. This counts only where
    /// rows are used again: with a row for each tenure the bus is no ring, whatever stands here.
    pub ring: bool,
    /// For each sender the number of its first message.
    pub bases: [u64; MOST_SENDERS],
}

impl Plan {
    /// Of a bus with a row for each tenure.
    pub fn new(shape: Shape) -> Plan
        ensures { result ≡ new_plan shape None }
    {
        Plan {
            shape,
            reuse: None,
            ring: false,
            bases: [0; MOST_SENDERS],
        }
    }

    /// Of a bus whose rows are used again.
    pub fn cyclic(shape: Shape) -> Plan
        ensures { result ≡ cyclic_plan shape None }
    {
        Plan {
            shape,
            reuse: Some(shape.rows),
            ring: false,
            bases: [0; MOST_SENDERS],
        }
    }

    /// Of a bus whose rows are used again, and whose log is a ring.
    pub fn ring(shape: Shape) -> Plan
        ensures { result ≡ ring_plan shape None }
    {
        Plan {
            ring: true,
            ..Plan::cyclic(shape)
        }
    }

    /// How many passed places it has: one for each receiver of a ring, and else none.
    pub fn passers(self) -> u64
        ensures is { result ≡ plan_passers self }
        ensures few { result ≤ self.shape.receivers }
    {
        match self.reuse {
            Some(_) if self.ring => self.shape.receivers,
            _ => 0,
        }
    }

    /// The same plan of the sitting that goes on after this page, of which nothing but its numbers
    /// is carried over; with no page of a first sitting. Gives Batch where a batch may not have as
    /// many messages as its shape says, NotEnded where the page says that its order has not ended,
    /// and Numbers where a sender's next number is 2^48 - 65,536 or more, or, of a ring with
    /// batches of B messages, 2^48 - B * (2^40 + 1) or more.
    pub fn after(self, page: Option<&Page>) -> Result<Plan, MakeFault>
        ensures batch { OnOk result (IsBatch (plan_passers self) self.shape.batch) }
        ensures plan { IfOk result (λ plan. plan ≡ plan_after self (option_copied page.entry)) }
        ensures bases { IfOk result (λ plan. AreBasesOf plan) }
        ensures follows { OnOk result (MayGoOn (plan_passers self) self.shape.batch
            (option_copied page.entry)) }
        ensures fault { IfErr result (MayNotGoOn (plan_passers self) self.shape.batch
            (option_copied page.entry)) }
    {
        let bases = first_numbers(page, self.passers(), self.shape.batch)?;
        Ok(Plan { bases, ..self })
    }
}
