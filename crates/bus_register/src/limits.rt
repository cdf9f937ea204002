//! The limits of the bus. Each stands here once; contracts and definitions take it from here.

/// Processes that share one object of a protocol, as an adopt-commit object or a coin: at most 64.
pub const MOST_PROCESSES: u64 = 64;

/// Senders of a bus: 1 to 64.
pub const MOST_SENDERS: usize = 64;

/// Receivers of a bus: 1 to 64.
pub const MOST_RECEIVERS: u64 = 64;

/// Rounds of one binary decision: 1 to 8.
pub const MOST_ROUNDS: u64 = 8;

/// Rows of a bus, one for each tenure: 1 to 256.
pub const MOST_ROWS: usize = 256;

/// Words of a bus's log: at least 16.
pub const LEAST_LOG_WORDS: u64 = 16;

/// Words of a bus's log: at most 65,536.
pub const MOST_LOG_WORDS: u64 = 65_536;

/// Messages of one batch, hence of one frame: at most 64.
pub const MOST_MESSAGES: usize = 64;

/// Messages of one batch of a bus whose log is no ring: at most 16.
pub const LOG_MESSAGES: usize = 16;

/// Bytes of one message: at most 56.
pub const MOST_BYTES: usize = 56;

/// Words of one message in a frame, that of its number and length and those of its bytes: at most
/// 8.
pub const MOST_MESSAGE_WORDS: u64 = 8;

/// Words of a frame behind its head: at most 512.
pub const MOST_BODY_WORDS: u64 = 512;

/// Words of a frame, its head included: at most 513.
pub const MOST_FRAME_WORDS: usize = 513;

/// Words of a frame of a bus whose log is no ring, its head included: at most 129.
pub const LOG_FRAME_WORDS: usize = 129;

/// The number of a message stays below 2^48.
pub const NUMBERS: u64 = 0x0001_0000_0000_0000;

/// A place in a log, counted from its first word ever, and a log's length stay below 2^50: so many
/// tenures as there are numbers of them with the longest frames leave it below that.
pub const PLACES: u64 = 0x0004_0000_0000_0000;

/// The number of a tenure stays below 2^40.
pub const TENURES: u64 = 0x0000_0100_0000_0000;

/// What a receiver that has left for good stores in its passed place: 2^64 - 1, the largest word.
pub const PASSED_ALL: u64 = 0xffff_ffff_ffff_ffff;
