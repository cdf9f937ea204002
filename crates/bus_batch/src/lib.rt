//! Messages of senders, the batch that a sender fills, and the frames that the log is made of, both
//! ways: a batch tells the words of its frame, and a reader of frames tells what words say.
//!
//! Two messages of sender 1, and the words of their frame in tenure 9:
//!
//! ```
//! use bus_batch::Batch;
//! use bus_register::SenderNo;
//!
//! let mut batch = Batch::new(SenderNo(1), 0, 16);
//! assert_eq!(rt; batch.put(b"a"), Ok(0));
//! assert_eq!(rt; batch.put(b""), Ok(1));
//! assert_eq!(rt; batch.frame_len(), 4);
//! assert_eq!(rt; batch.word(0, 9), 0x4040_0300_0000_0009);
//! assert_eq!(rt; batch.word(1, 9), 0x8040_0000_0000_0000);
//! assert_eq!(rt; batch.word(2, 9), 0x6100_0000_0000_0000);
//! assert_eq!(rt; batch.word(3, 9), 0x8000_0000_0000_0001);
//! ```
#![tactic(auto)]

pub mod batches;
mod faults;
pub mod laws;
pub mod messages;
pub mod readers;
mod words;

pub use batches::{Batch, CloseFault, PutFault};
pub use messages::{Item, Mark, Message, Piece};
pub use readers::{BadWord, FrameReader, Span};
