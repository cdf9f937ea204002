//! Why a script of `ratify` is refused.

ghost use Rattle.std.specs.Prelude.{◌≡◌};
ghost use Rattle.bus_ratify.specs.declared.refusals.ReadingFault.TheVariants.{NoMemory};

use bus_script::LineNumber;
use std::alloc::{AllocError, AllocFailed};

/// What is wrong with a line.
#[derive(Clone, Copy, Debug, PartialEq, Eq)]
pub enum LineFault {
    /// The line breaks its form, or the line that is needed is not there.
    BadLine,
    /// A number of a well-formed line has no process.
    NoSuchProcess,
}

/// The first fault of a script, from its top.
#[derive(Clone, Copy, Debug, PartialEq, Eq)]
pub struct Refusal {
    pub line_number: LineNumber,
    pub fault: LineFault,
}

/// Why a script could not be read.
#[derive(Clone, Copy, Debug, PartialEq, Eq)]
pub enum ReadingFault {
    NoMemory,
    Refused(Refusal),
}

impl From<AllocError> for ReadingFault {
    ghost from_gives = { λ _ fault. fault ≡ NoMemory };

    fn from(_error: AllocError) -> ReadingFault {
        ReadingFault::NoMemory
    }
}

impl<T: Drop> From<AllocFailed<T>> for ReadingFault {
    ghost from_gives = { λ _ fault. fault ≡ NoMemory };

    fn from(_error: AllocFailed<T>) -> ReadingFault {
        ReadingFault::NoMemory
    }
}
