//! What a sender does next, without the page and the election that it does it with.

use super::phases::Reason;
use super::turns::Turn;

/// What a sender does next in its tenure, or before it.
#[derive(Clone, Copy, Debug, PartialEq, Eq)]
pub enum Doing {
    /// Nothing, and it answers this.
    Rests(Turn),
    /// It looks at the stage.
    Looks,
    /// It takes the next step of its election.
    Elects {
        tenure: u64,
    },
    /// It takes the page.
    Takes {
        tenure: u64,
    },
    /// It waits for the page that it has taken.
    Awaits {
        tenure: u64,
    },
    /// It stores the next word of its frame, behind so many words of the log and of the frame.
    Word {
        tenure: u64,
        words: u64,
        stored: u64,
    },
    /// It stores the length, behind so many words of the log.
    Length {
        tenure: u64,
        words: u64,
    },
    /// It gives the page back.
    Back {
        tenure: u64,
        reason: Reason,
    },
    /// It stores the next stage, with the page handed on.
    Handed {
        tenure: u64,
        reason: Reason,
    },
}
