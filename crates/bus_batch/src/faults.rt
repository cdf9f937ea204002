//! Faults as readers see them.

ghost use Rattle.std.specs.Prelude.{Some};
ghost use Rattle.bus_batch.specs.Faults.{put_fault_text, close_fault_text};

use crate::batches::{CloseFault, PutFault};
use std::error::Error;
use std::fmt;

impl Error for PutFault {}

impl fmt::Display for PutFault {
    ghost output = { λ fault. Some (put_fault_text fault) };

    fn fmt<W: fmt::Write>(&self, f: &mut fmt::Formatter<W>) -> fmt::Result {
        f.write_str(match self {
            PutFault::Closed => "closed",
            PutFault::Busy => "the batch is on its way",
            PutFault::TooLong => "more than 56 bytes",
            PutFault::BatchFull => "the batch is full",
        })
    }
}

impl Error for CloseFault {}

impl fmt::Display for CloseFault {
    ghost output = { λ fault. Some (close_fault_text fault) };

    fn fmt<W: fmt::Write>(&self, f: &mut fmt::Formatter<W>) -> fmt::Result {
        f.write_str(match self {
            CloseFault::Closed => "closed",
            CloseFault::Busy => "the batch is on its way",
            CloseFault::Pending => "messages wait",
        })
    }
}
