//! Why a run did not end well, and why a command of the program could not do its work.

ghost use Rattle.std.specs.Prelude.{◌≡◌, Some};
ghost use Rattle.bus_run.specs.Printed.{fault_text};
ghost use Rattle.bus_run.specs.declared.faults.RunFault.TheVariants.{NoMemory as no_memory};
ghost use Rattle.bus_run.specs.declared.faults.RunFault.TheVariants.{Make as not_made};
ghost use Rattle.bus_run.specs.declared.faults.RunFault.TheVariants.{Audit as not_fair};

use crate::audits::AuditFault;
use bus_register::NoMemory;
use bus_world::MakeFault;
use std::alloc::AllocError;
use std::fmt;

/// Why a command could not do its work.
#[derive(Clone, Copy, Debug, PartialEq, Eq)]
pub enum RunFault {
    Read,
    Write,
    /// The input is longer than a script may be.
    TooMuch,
    NoMemory,
    /// No bus was made.
    Make(MakeFault),
    /// A thread could not be started.
    Spawn,
    /// A gate let a sender's worker not through.
    Gate,
    /// A sender could not send, or not close.
    Stopped { sender: u64 },
    /// A receiver was given something else than all.
    Audit(AuditFault),
}

/// What stopped a sender of a run.
#[derive(Clone, Copy, Debug, PartialEq, Eq)]
pub enum SenderFault {
    /// The gate let its worker not through.
    Gate,
    /// It could not put, send or close.
    Stopped,
}

impl fmt::Display for RunFault {
    ghost output = { λ fault. Some (fault_text fault) };

    fn fmt<W: fmt::Write>(&self, f: &mut fmt::Formatter<W>) -> fmt::Result {
        f.write_str(match self {
            RunFault::Read => "read failed",
            RunFault::Write => "write failed",
            RunFault::TooMuch => "input too long",
            RunFault::NoMemory | RunFault::Make(MakeFault::NoMemory) => "no memory",
            RunFault::Make(_) => "shape refused",
            RunFault::Spawn => "thread not started",
            RunFault::Gate => "gate",
            RunFault::Stopped { .. } => "sender stopped",
            RunFault::Audit(_) => "audit failed",
        })
    }
}

impl From<AllocError> for RunFault {
    ghost from_gives = { λ _ fault. fault ≡ no_memory };

    fn from(_error: AllocError) -> RunFault {
        RunFault::NoMemory
    }
}

impl From<NoMemory> for RunFault {
    ghost from_gives = { λ _ fault. fault ≡ no_memory };

    fn from(_error: NoMemory) -> RunFault {
        RunFault::NoMemory
    }
}

impl From<MakeFault> for RunFault {
    ghost from_gives = { λ why fault. fault ≡ not_made why };

    fn from(why: MakeFault) -> RunFault {
        RunFault::Make(why)
    }
}

impl From<AuditFault> for RunFault {
    ghost from_gives = { λ why fault. fault ≡ not_fair why };

    fn from(why: AuditFault) -> RunFault {
        RunFault::Audit(why)
    }
}
