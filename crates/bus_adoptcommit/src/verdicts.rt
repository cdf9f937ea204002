//! What a process gets from an adopt-commit object.

/// A value, committed or adopted. A process that commits a value knows that every process has it.
#[derive(Clone, Copy, Debug, PartialEq, Eq)]
pub enum Verdict {
    Commit(bool),
    Adopt(bool),
}

impl Verdict {
    ghost use Rattle.std.specs.Prelude.{◌≡◌};
    ghost use Rattle.bus_adoptcommit.specs.Agreement.{value_of};

    /// The value, committed or adopted.
    pub fn value(self) -> bool
        ensures { result ≡ value_of self }
    {
        match self {
            Verdict::Commit(value) | Verdict::Adopt(value) => value,
        }
    }
}
