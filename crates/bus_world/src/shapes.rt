//! The sizes of a bus.

ghost use Rattle.std.specs.Prelude.{◌≡◌};

use bus_register::NoMemory;

/// The sizes of a bus. All others than those named here are refused.
#[derive(Clone, Copy, Debug, PartialEq, Eq)]
pub struct Shape {
    /// 1 to 64.
    pub senders: u64,
    /// 1 to 64.
    pub receivers: u64,
    /// The rounds of one binary decision: 1 to 8.
    pub rounds: u64,
    /// A row of words for each tenure of the sitting: 1 to 256. Where rows are used again they are
    /// 2 to 8, and the tenures many more.
    pub rows: u64,
    /// 16 to 65,536.
    pub log_words: u64,
    /// The most messages of one batch: 1 to 64 where the log is a ring, and else 16.
    pub batch: u64,
}

/// Why no bus is made: a size out of its range, a page that no sitting can go on with, or no
/// memory. Of several causes the first counts.
#[derive(Clone, Copy, Debug, PartialEq, Eq)]
pub enum MakeFault {
    Senders,
    Receivers,
    Rounds,
    Rows,
    LogWords,
    /// A batch has not 1 to 64 messages, or where the log is no ring not 16.
    Batch,
    /// The sitting that a bus is to go on with has not ended.
    NotEnded,
    /// A sender's next number is 2^48 - 65,536 or more, or where words of the log are used again,
    /// and a batch has B messages, 2^48 - B * (2^40 + 1) or more.
    Numbers,
    /// Memory was refused.
    NoMemory,
}

impl From<NoMemory> for MakeFault {
    ghost use Rattle.bus_world.specs.declared.shapes.MakeFault.TheVariants.{NoMemory as no_memory};

    ghost from_gives = { λ _ fault. fault ≡ no_memory };

    fn from(_error: NoMemory) -> MakeFault {
        MakeFault::NoMemory
    }
}
