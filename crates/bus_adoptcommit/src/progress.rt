//! Where a process stands in three words.

/// The next step.
#[derive(Clone, Copy, Debug, PartialEq, Eq)]
pub enum Progress {
    /// It sets the word of its input.
    Bring,
    ReadFirst,
    /// There is no proposal: it proposes its own value.
    Propose,
    /// It reads the word of the value that it does not prefer.
    ReadOther,
    Ended,
}
