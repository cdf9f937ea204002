//! Where a process stands in its election.

/// Where a process stands in its election, with the decision of a bit as a `D`.
#[derive(Drop)]
pub enum Stage<D> {
    /// It stores its announcement next.
    Announce,
    /// It proposes its candidate's bit to the decision of a bit.
    Propose(D),
    /// It loads the announcement of this sender next, to find another candidate.
    Search(u64),
    /// It is the only sender, so that there is no bit.
    Alone,
}
