//! Steps, as they are seen.

ghost use Rattle.std.specs.Prelude.{◌≡◌};
ghost use Rattle.bus_register.specs.Words.{register};

use bus_register::{Kind, Op, Reg};

/// A step on a word.
#[derive(Clone, Copy, Debug, PartialEq, Eq)]
pub struct Step {
    /// The tenure that was begun, if one was.
    pub tenure: Option<u64>,
    /// What it is for.
    pub kind: Kind,
    /// The word that it is on, and what it does to it.
    pub op: Op,
}

/// A step that was taken.
#[derive(Clone, Copy, Debug, PartialEq, Eq)]
pub struct Seen {
    pub step: Step,
    /// What stood in its word before it.
    pub found: u64,
    /// What stands there after it.
    pub left: u64,
}

/// The word that a fork was on.
#[derive(Clone, Copy, Debug, PartialEq, Eq)]
pub struct SeenWord {
    pub at: Reg,
    /// What stood there before it.
    pub found: u64,
    /// What stands there after it.
    pub left: u64,
}

/// The word that a step is on.
pub fn register_of(op: Op) -> Reg
    ensures { result.0 ≡ register op }
{
    match op {
        Op::Load(at) | Op::Store(at, _) | Op::Add(at, _) | Op::Cas(at, _, _) => at,
    }
}
