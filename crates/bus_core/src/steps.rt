//! What a sender does next, in its tenure or beside it.

ghost use Rattle.std.specs.Prelude.{◌≡◌};
ghost use Rattle.bus_core.specs.Doings.{ending_of as spec_ending_of, rest_of as spec_rest_of};

use bus_tenure::{Doing, Reason, Turn};

/// What a sender does next.
#[derive(Clone, Copy, Debug, PartialEq, Eq)]
pub enum Step {
    /// In its tenure, or before it.
    Does(Doing),
    /// It stores its presence.
    Announces { tenure: u64 },
    /// It looks at the stage again.
    Validates { tenure: u64 },
    /// It is done with the tenure, and clears its presence.
    Unpins { tenure: u64 },
    /// It came too late, and clears its presence.
    Withdraws { tenure: u64 },
    /// As a holder it loads a presence.
    Scans,
    /// As a holder it clears a word of the next row.
    Clears,
    /// As a holder without room it loads a passed place.
    ReadsPassed,
}

/// The tenure whose page is given back next, and why.
#[derive(Clone, Copy, Debug, PartialEq, Eq)]
pub struct Ending {
    /// The tenure.
    pub tenure: u64,
    /// Why its page is given back.
    pub reason: Reason,
}

/// How a step that gives the page back ends its tenure.
#[inline(always)]
pub fn ending_of(step: Step) -> Option<Ending>
    ensures { result ≡ spec_ending_of step }
{
    match step {
        Step::Does(doing) => match doing {
            Doing::Back { tenure, reason } => Some(Ending { tenure, reason }),
            _ => None,
        },
        _ => None,
    }
}

/// The answer without a step of who does this; Going where one is due.
#[inline(always)]
pub(crate) fn rest_of(doing: Doing) -> Turn
    ensures { result ≡ spec_rest_of doing }
{
    match doing {
        Doing::Rests(turn) => turn,
        _ => Turn::Going,
    }
}
