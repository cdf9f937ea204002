//! Where a process stands in two collects.

/// The next step. A number is that of the process whose word is loaded.
#[derive(Clone, Copy, Debug, PartialEq, Eq)]
pub enum Phase {
    WriteFirst,
    ReadFirst(u64),
    WriteSecond,
    ReadSecond(u64),
    Ended,
}
