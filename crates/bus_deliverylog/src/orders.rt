//! What a log says.

ghost use Rattle.std.specs.Prelude.{◌≡◌, ◌++◌, [], ◌∷◌, Some, OnOk, OnErr, false};
ghost use Rattle.bus_deliverylog.specs.Faults.{log_fault_text};

use bus_batch::Item;
use bus_register::SenderNo;
use std::alloc::{AllocError, Global};
use std::error::Error;
use std::fmt;

/// The items that were delivered, one after another, who left and after how many items, and whether
/// anything may follow.
#[derive(Debug, Drop)]
pub struct Order {
    pub items: Vec<Item>,
    /// The places rise, and none is past the items.
    pub left: Vec<(SenderNo, u64)>,
    pub ended: bool,
}

impl Order {
    ghost use Rattle.bus_batch.specs.Frames.{Says, Leaves};
    ghost use Rattle.bus_deliverylog.specs.Orders.{order_held, HasPlaces};

    /// An order of nothing.
    pub fn new(alloc: Global) -> Order
        ensures nothing { order_held result ≡ record { entries = []; ended = false } }
        ensures places { HasPlaces result }
    {
        Order {
            items: Vec::new(alloc),
            left: Vec::new(alloc),
            ended: false,
        }
    }

    /// Puts an item at the end.
    pub fn push(&mut self, item: Item) -> Result<(), AllocError>
        requires { HasPlaces self.old }
        ensures joins { OnOk result (order_held self.new
            ≡ record {
              entries = (order_held self.old).entries ++ Says item ∷ [];
              ended = self.old.ended;
            }) }
        ensures places { HasPlaces self.new }
        ensures refused { OnErr result ((self.new.items.items ≡ self.old.items.items)
            × (self.new.left.items ≡ self.old.left.items) × (self.new.ended ≡ self.old.ended)) }
    {
        self.items.push(item)?;
        Ok(())
    }

    /// Puts a leave mark at the end.
    pub fn leave(&mut self, sender: SenderNo) -> Result<(), AllocError>
        requires { HasPlaces self.old }
        ensures joins { OnOk result (order_held self.new
            ≡ record {
              entries = (order_held self.old).entries ++ Leaves sender ∷ [];
              ended = self.old.ended;
            }) }
        ensures places { HasPlaces self.new }
        ensures refused { OnErr result ((self.new.items.items ≡ self.old.items.items)
            × (self.new.left.items ≡ self.old.left.items) × (self.new.ended ≡ self.old.ended)) }
    {
        self.left.push((sender, self.items.len() as u64))?;
        Ok(())
    }
}

/// What a whole log says.
#[derive(Debug, Drop)]
pub struct LogRead {
    pub order: Order,
    /// The tenure and the owner of each frame.
    pub owners: Vec<(u64, SenderNo)>,
}

/// Why words are not read; of several causes the one that shows first.
#[derive(Clone, Copy, Debug, PartialEq, Eq)]
pub enum LogFault {
    /// No log goes on with the word at this place.
    BadWord { place: u64 },
    /// The words end within a frame.
    Torn,
    /// Memory was refused. No later word was looked at.
    NoMemory,
}

impl Error for LogFault {}

impl fmt::Display for LogFault {
    ghost output = { λ fault. Some (log_fault_text fault) };

    fn fmt<W: fmt::Write>(&self, f: &mut fmt::Formatter<W>) -> fmt::Result {
        match self {
            LogFault::BadWord { place } => write!(f, "bad word at {place}"),
            LogFault::Torn => f.write_str("the words end within a frame"),
            LogFault::NoMemory => f.write_str("no memory"),
        }
    }
}
