//! Where the words of a bus lie, by what they are.

ghost use Rattle.std.specs.Prelude.{◌≤◌, ◌^◌};

/// The sizes by which the words of a bus are named.
#[derive(Clone, Copy)]
pub struct MemoryMap {
    /// How many senders the bus has.
    pub senders: u64,
    /// How many presences it has: none where each tenure has a row of its own.
    pub presences: u64,
    /// How many rounds one binary decision has.
    pub rounds: u64,
    /// How many words a ratifier has.
    pub ratifier: u64,
    /// How many words a binary decision has.
    pub decision: u64,
    /// How many words a row has.
    pub row: u64,
    /// The place of the first passed place; that of the log's first word where there is none.
    pub passed: u64,
    /// The place of the log's first word.
    pub log: u64,
    ghost ratifier_few: { ratifier ≤ 2 ^ 32 },
    ghost decision_some: { 1 ≤ decision },
    ghost decision_few: { decision ≤ 2 ^ 32 },
    ghost row_some: { 1 ≤ row },
}
