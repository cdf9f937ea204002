//! Why an operation was not executed, or replicas not opened.

use bus_register::SenderNo;
use std::error::Error;
use std::fmt;

/// Why an operation was not executed, or a replica not finished.
#[derive(Clone, Copy, Debug, PartialEq, Eq)]
pub enum Fault {
    /// An operation has more than 56 bytes, or a long one more than 880. Nothing was given, applied
    /// or put.
    TooLong,
    /// The order has ended, or this worker has left it.
    Ended,
    /// The bus has no tenure left.
    Spent,
    /// The closure said to stop. What was put and not sent waits still.
    Stopped,
    /// The closure of `leave_while` or `finish_while` said to stop before this worker has left, and
    /// those before it have.
    MissingWorker(SenderNo),
}

impl Error for Fault {}

impl fmt::Display for Fault {
    fn fmt<W: fmt::Write>(&self, f: &mut fmt::Formatter<W>) -> fmt::Result {
        match self {
            Fault::TooLong => f.write_str("an operation that is too long"),
            Fault::Ended => f.write_str("the order has ended"),
            Fault::Spent => f.write_str("all tenures are spent"),
            Fault::Stopped => f.write_str("told to stop"),
            Fault::MissingWorker(worker) => write!(f, "worker {} has not left", worker.0),
        }
    }
}

/// Why no replicas were opened: the first of these that holds.
#[derive(Clone, Copy, Debug, PartialEq, Eq)]
pub enum OpenFault {
    /// There are 1 to 64 workers.
    Workers,
    /// The log has 513 to 65,536 words.
    LogWords,
    /// The page is of an order that has not ended.
    NotEnded,
    /// A number of the page leaves no room for those of a ring: it is 2^48 - 2^46 - 64 or more.
    Numbers,
    /// There is no memory for it.
    NoMemory,
}

impl Error for OpenFault {}

impl fmt::Display for OpenFault {
    fn fmt<W: fmt::Write>(&self, f: &mut fmt::Formatter<W>) -> fmt::Result {
        match self {
            OpenFault::Workers => f.write_str("not 1 to 64 workers"),
            OpenFault::LogWords => f.write_str("not a log of 513 to 65,536 words"),
            OpenFault::NotEnded => f.write_str("the page is of an order that has not ended"),
            OpenFault::Numbers => f.write_str("the page has a number that leaves no room"),
            OpenFault::NoMemory => f.write_str("no memory"),
        }
    }
}
