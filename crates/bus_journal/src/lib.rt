//! A log on disk, at the level of bytes: a header, and a record for each frame of the log.
//!
//! ```
//! use bus_journal::{Header, JournalEnd, push_header, push_record, read_journal};
//!
//! let mut bytes = Vec::new(rt.alloc());
//! let first = vec![in rt.alloc(); 0, 0]?;
//! push_header(&mut bytes, &Header { senders: 2, most: 16, place: 0, first })?;
//! let frame = [0x4000_0200_0000_0000, 0x8040_0000_0000_0000, 0x6100_0000_0000_0000];
//! push_record(&mut bytes, 0, &frame)?;
//! let read = read_journal(rt.alloc(), &bytes)?;
//! assert_eq!(rt; read.log.order.items[0].message.as_slice(), b"a".as_slice());
//! assert_eq!(rt; read.end, JournalEnd::Whole);
//! ```
#![tactic(auto)]

mod bytes;
pub mod ends;
pub mod headers;
mod hidden;
pub mod laws;
pub mod reading;
pub mod records;

pub use ends::JournalEnd;
pub use headers::{Header, JournalFault, push_header};
pub use reading::{JournalRead, read_journal};
pub use records::{push_frames, push_record};

#[cfg(test)]
mod tests;
