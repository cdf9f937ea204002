//! Answers and refusals as numbers. No two of one call are the same.

/// What was asked for is done.
pub const OK: u32 = 0;

/// A sender: nothing was pending.
pub const IDLE: u32 = 1;
/// A sender: another holds the page, or no new tenure is open, or it came too late for one.
pub const WAITING: u32 = 2;
/// A step was taken, and more are to come.
pub const GOING: u32 = 3;
/// A sender: the election chose another one.
pub const LOST: u32 = 4;
/// A sender: it has taken the page.
pub const OWN: u32 = 5;
/// A sender: its messages stand in the order.
pub const DELIVERED: u32 = 6;
/// A sender: its frame does not fit the log; of a ring not by now.
pub const FULL: u32 = 7;
/// A sender: the order has ended, or this sender had left.
pub const CLOSED: u32 = 8;
/// A sender: no tenure is left to it.
pub const SPENT: u32 = 9;
/// A sender: the presence of another keeps the row that is to be used next.
pub const BEHIND: u32 = 10;

/// A receiver: it has read all up to the length that it found.
pub const EMPTY: u32 = 11;
/// A receiver: a frame begins.
pub const HEAD: u32 = 12;
/// A receiver: the next message of the order.
pub const ITEM: u32 = 13;
/// A receiver: the order has ended, and all of it was given.
pub const END: u32 = 14;

/// A sender: its leave mark stands in the order. It has left for good.
pub const LEFT: u32 = 15;
/// A receiver: a sender has left, and nothing of it follows.
pub const LEAVE: u32 = 16;

/// No bus: senders are not 1 to 64.
pub const BAD_SENDERS: u32 = 32;
/// No bus: receivers are not 1 to 64.
pub const BAD_RECEIVERS: u32 = 33;
/// No bus: rounds are not 1 to 8.
pub const BAD_ROUNDS: u32 = 34;
/// No bus: rows are not 1 to 256, or, used again, not 2 to 8.
pub const BAD_ROWS: u32 = 35;
/// No bus: words of the log are not 16 to 65,536.
pub const BAD_LOG_WORDS: u32 = 36;
/// Memory was refused.
pub const NO_MEMORY: u32 = 37;
/// No put: a close or a leave was accepted, or the order is known to have ended.
pub const PUT_CLOSED: u32 = 38;
/// No put: the batch is on its way.
pub const PUT_BUSY: u32 = 39;
/// No put: more than 56 bytes.
pub const PUT_TOO_LONG: u32 = 40;
/// No put: as many messages wait as a batch of the bus may have.
pub const PUT_BATCH_FULL: u32 = 41;
/// No close or leave: one was accepted, or the order is known to have ended.
pub const CLOSE_CLOSED: u32 = 42;
/// No close or leave: the batch is on its way.
pub const CLOSE_BUSY: u32 = 43;
/// No close or leave: messages wait.
pub const CLOSE_PENDING: u32 = 44;
/// No end: other handles have the bus still.
pub const IN_USE: u32 = 45;
/// No end: a sender has not given the page back.
pub const PAGE_OUT: u32 = 46;
/// The handle is empty.
pub const EMPTY_HANDLE: u32 = 47;
/// No bus: the order of the bus that it is to go on after has not ended. 48 is the header's own.
pub const NOT_ENDED: u32 = 49;
/// No bus: a sender's next number is 2^48 - 65,536 or more; of a ring with batches of B messages
/// 2^48 - B * (2^40 + 1) or more.
pub const NUMBERS_USED: u32 = 50;
/// Two handles are of two buses.
pub const OTHER_BUS: u32 = 51;
/// No page: a sender was not answered Closed or Left yet, or its handle is not at its place.
pub const UNANSWERED: u32 = 52;
/// No room, ever: the batch is longer than the log.
pub const NEVER_FITS: u32 = 53;
/// No fork: each number of the ring above the receiver's own was taken when it was tried.
pub const NO_SEAT: u32 = 54;
/// No fork: the handle that is to hold the new receiver holds one.
pub const USED_HANDLE: u32 = 55;
/// No bus: messages of a batch are not 1 to 64, or where the log is no ring not 16.
pub const BAD_BATCH: u32 = 56;
/// No bus: the log of a ring has fewer words than its longest frame, which is 1 + 8 B where a batch
/// has at most B messages.
pub const SHORT_RING: u32 = 57;
