//! Why lines of words are refused.

ghost use Rattle.std.specs.Prelude.{◌≡◌};
ghost use Rattle.bus_logtext.specs.declared.faults.WordsFault.TheVariants.{NoMemory};

use std::alloc::{AllocError, AllocFailed};

/// What is wrong with a line.
#[derive(Clone, Copy, Debug, PartialEq, Eq)]
pub enum LineFault {
    /// It is not just 16 hexadecimal digits.
    BadLine,
    /// As many words as a log may have stand before it.
    TooManyWords,
}

/// The first fault of the lines, from their top.
#[derive(Clone, Copy, Debug, PartialEq, Eq)]
pub struct Refusal {
    /// The first line has number 1.
    pub line: u64,
    pub fault: LineFault,
}

/// Why the words of lines could not be read.
#[derive(Clone, Copy, Debug, PartialEq, Eq)]
pub enum WordsFault {
    NoMemory,
    Refused(Refusal),
}

impl From<AllocError> for WordsFault {
    ghost from_gives = { λ _ fault. fault ≡ NoMemory };

    fn from(_error: AllocError) -> WordsFault {
        WordsFault::NoMemory
    }
}

impl<T: Drop> From<AllocFailed<T>> for WordsFault {
    ghost from_gives = { λ _ fault. fault ≡ NoMemory };

    fn from(_error: AllocFailed<T>) -> WordsFault {
        WordsFault::NoMemory
    }
}
