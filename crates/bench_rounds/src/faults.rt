//! Why a measurement fails.

use crate::needs::Shortage;
use crate::request::Refusal;
use bus_tenure::Turn;
use bus_world::MakeFault;
use std::alloc::{AllocError, AllocFailed};
use std::fmt;

/// Why a measurement fails.
#[derive(Clone, Copy, Debug, PartialEq, Eq)]
pub enum Fault {
    NoMemory,
    /// No bus was made.
    Make(MakeFault),
    /// A thread could not be started.
    Spawn,
    /// The clock could not be read.
    Clock,
    /// A result could not be printed.
    Print,
    /// A sender's message was not taken.
    Put { sender: u64 },
    /// A sender's batch was not delivered, but answered so.
    Answer { sender: u64, turn: Turn },
    /// A receiver was given what cannot come next.
    Heard { receiver: u64 },
    /// A receiver has more or fewer items of a sender than it sent.
    Count { receiver: u64, sender: u64 },
    /// The words of a receiver's items do not sum up to what was sent.
    Sum { receiver: u64 },
    /// A receiver has another order than the first.
    Order { receiver: u64 },
    /// The bus was not closed, or has more or fewer items of a sender than it sent.
    End,
    /// The input could not be read.
    Read,
    /// A line of the input asks for no measurement.
    Line(Refusal),
    /// What a line asks for does not fit a bus.
    Short(Shortage),
}

impl fmt::Display for Fault {
    fn fmt<W: fmt::Write>(&self, f: &mut fmt::Formatter<W>) -> fmt::Result {
        match self {
            Fault::NoMemory | Fault::Make(MakeFault::NoMemory) => write!(f, "no memory"),
            Fault::Make(fault) => write!(f, "shape refused: {fault:?}"),
            Fault::Spawn => write!(f, "thread not started"),
            Fault::Clock => write!(f, "clock not read"),
            Fault::Print => write!(f, "write failed"),
            Fault::Put { sender } => write!(f, "sender {sender}: message not taken"),
            Fault::Answer { sender, turn } => write!(f, "sender {sender}: answered {turn:?}"),
            Fault::Heard { receiver } => write!(
                f,
                "receiver {receiver}: given what cannot come next"
            ),
            Fault::Count { receiver, sender } => {
                write!(
                    f,
                    "receiver {receiver}: wrong number of items of sender {sender}"
                )
            }
            Fault::Sum { receiver } => write!(f, "receiver {receiver}: a wrong byte"),
            Fault::Order { receiver } => write!(
                f,
                "receiver {receiver}: another order than the first"
            ),
            Fault::End => write!(f, "bus not ended as it was to"),
            Fault::Read => write!(f, "read failed"),
            Fault::Line(refusal) => write!(f, "line: {refusal}"),
            Fault::Short(shortage) => write!(f, "line: {shortage}"),
        }
    }
}

impl From<AllocError> for Fault {
    fn from(_error: AllocError) -> Fault {
        Fault::NoMemory
    }
}

impl<T: Drop> From<AllocFailed<T>> for Fault {
    fn from(_error: AllocFailed<T>) -> Fault {
        Fault::NoMemory
    }
}

impl From<MakeFault> for Fault {
    fn from(fault: MakeFault) -> Fault {
        Fault::Make(fault)
    }
}
