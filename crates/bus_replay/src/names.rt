//! What refusals are called.

ghost use Rattle.std.specs.Prelude.{◌≡◌};
ghost use Rattle.bus_replay.specs.Text.{put_fault_name, close_fault_name, step_fault_name};
ghost use Rattle.bus_replay.specs.Text.{make_fault_name};
ghost use Rattle.bus_replay.specs.Told.{first_fault_name};

use crate::lines::FirstFault;
use bus_batch::{CloseFault, PutFault};
use bus_world::{MakeFault, StepFault};

fn put_fault_name(fault: PutFault) -> &'static str
    ensures { result.now ≡ put_fault_name fault }
{
    match fault {
        PutFault::Closed => "Closed",
        PutFault::Busy => "Busy",
        PutFault::TooLong => "TooLong",
        PutFault::BatchFull => "BatchFull",
    }
}

fn close_fault_name(fault: CloseFault) -> &'static str
    ensures { result.now ≡ close_fault_name fault }
{
    match fault {
        CloseFault::Closed => "Closed",
        CloseFault::Busy => "Busy",
        CloseFault::Pending => "Pending",
    }
}

/// Why an event was refused.
pub fn step_fault_name(fault: StepFault) -> &'static str
    ensures { result.now ≡ step_fault_name fault }
{
    match fault {
        StepFault::NoSuchSender => "NoSuchSender",
        StepFault::NoSuchReceiver => "NoSuchReceiver",
        StepFault::Stopped => "Stopped",
        StepFault::Put(why) => put_fault_name(why),
        StepFault::Close(why) => close_fault_name(why),
        StepFault::Gone => "Gone",
        StepFault::NotAbove => "NotAbove",
    }
}

/// Why the first line of a script gives no bus.
pub fn first_fault_name(fault: FirstFault) -> &'static str
    ensures { result.now ≡ first_fault_name fault }
{
    match fault {
        FirstFault::Make(why) => make_fault_name(why),
        FirstFault::Seats => "Seats",
    }
}

/// Why no bus was made.
pub fn make_fault_name(fault: MakeFault) -> &'static str
    ensures { result.now ≡ make_fault_name fault }
{
    match fault {
        MakeFault::Senders => "Senders",
        MakeFault::Receivers => "Receivers",
        MakeFault::Rounds => "Rounds",
        MakeFault::Rows => "Rows",
        MakeFault::LogWords => "LogWords",
        MakeFault::Batch => "Batch",
        MakeFault::NotEnded => "NotEnded",
        MakeFault::Numbers => "Numbers",
        MakeFault::NoMemory => "NoMemory",
    }
}
