//! How far a sender has come with a tenure.

use super::pages::OwnedPage;

/// Why a holder gives the page back.
#[derive(Clone, Copy, Debug, PartialEq, Eq)]
pub enum Reason {
    /// Its frame stands in the log.
    Sent,
    /// It found the order ended.
    FoundEnd,
    /// Its frame does not fit the log.
    NoRoom,
}

/// How far a sender has come with the tenure that it has begun; `E` is its part in the election.
#[derive(Drop)]
pub enum Phase<E> {
    /// No tenure is begun.
    Resting,
    /// The election runs, or has chosen this sender, which takes the page next.
    Electing {
        tenure: u64,
        election: E,
    },
    /// The page is taken and is to be laid before it.
    Taken {
        tenure: u64,
    },
    /// The page lies before it. So many words of its frame are stored, and the length is or is not.
    Holding {
        tenure: u64,
        page: OwnedPage,
        stored: u64,
        published: bool,
    },
    /// It has handed the page on and stores the stage next.
    Giving {
        tenure: u64,
        reason: Reason,
    },
}
