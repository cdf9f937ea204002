//! Faults as readers see them.

ghost use Rattle.std.specs.Prelude.{Some};
ghost use Rattle.bus_world.specs.Faults.{make_fault_text, step_fault_text};

use crate::events::StepFault;
use crate::shapes::MakeFault;
use std::error::Error;
use std::fmt;

impl Error for MakeFault {}

impl fmt::Display for MakeFault {
    ghost output = { λ fault. Some (make_fault_text fault) };

    fn fmt<W: fmt::Write>(&self, f: &mut fmt::Formatter<W>) -> fmt::Result {
        f.write_str(match self {
            MakeFault::Senders => "not 1 to 64 senders",
            MakeFault::Receivers => "not 1 to 64 receivers",
            MakeFault::Rounds => "not 1 to 8 rounds",
            MakeFault::Rows => "not 1 to 256 rows, or 2 to 8 used again",
            MakeFault::LogWords => "not 16 to 65536 log words",
            MakeFault::Batch =>
                "not 1 to 64 messages in a batch, or not 16 in a log that is no ring",
            MakeFault::NotEnded => "earlier sitting not ended",
            MakeFault::Numbers => "numbers used up",
            MakeFault::NoMemory => "no memory",
        })
    }
}

impl Error for StepFault {}

impl fmt::Display for StepFault {
    ghost output = { λ fault. Some (step_fault_text fault) };

    fn fmt<W: fmt::Write>(&self, f: &mut fmt::Formatter<W>) -> fmt::Result {
        match self {
            StepFault::NoSuchSender => f.write_str("no such sender"),
            StepFault::NoSuchReceiver => f.write_str("no such receiver"),
            StepFault::Stopped => f.write_str("sender stopped"),
            StepFault::Put(why) => why.fmt(f),
            StepFault::Close(why) => why.fmt(f),
            StepFault::Gone => f.write_str("receiver gone"),
            StepFault::NotAbove => f.write_str("number not above"),
        }
    }
}
