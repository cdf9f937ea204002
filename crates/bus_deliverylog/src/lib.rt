//! The two ends of the log: a sender's, which stores a frame and then the length, and a receiver's,
//! which loads the length and then the words; and the reading of a whole log.
//!
//! The log of one frame, in which sender 0 sent one message:
//!
//! ```
//! use bus_deliverylog::read_log;
//! use bus_register::SenderNo;
//!
//! let words = [0x4000_0200_0000_0000, 0x8040_0000_0000_0000, 0x6100_0000_0000_0000];
//! let read = read_log(rt.alloc(), &words, 2)?;
//! assert_eq!(rt; read.owners.as_slice(), [(0, SenderNo(0))].as_slice());
//! assert_eq!(rt; read.order.items[0].message.as_slice(), b"a".as_slice());
//! assert!(rt; !read.order.ended);
//! ```
#![tactic(auto)]

pub mod fronts;
pub mod laws;
pub mod orders;
pub mod reading;
pub mod receiving;
pub mod texts;
pub mod writing;

pub use fronts::read_front;
pub use orders::{LogFault, LogRead, Order};
pub use reading::read_log;
pub use receiving::{LogReader, Reader, RecvTurn};
pub use writing::Writer;
