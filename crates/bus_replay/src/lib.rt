//! A bus, moved line by line by a script.
//!
//! One sender delivers one message:
//!
//! ```
//! use bus_adoptcommit::ThreeWord;
//! use bus_replay::answer_to;
//!
//! let script = b"shape 1 1 1 4 16\nput 0 61\nturn 0 0 99\nturn 0 0 99\n";
//! let answer = answer_to::<ThreeWord>(rt.alloc(), script)?;
//! let mut lines = answer.text.as_str().lines();
//! assert_eq!(rt; lines.next(), Some("put 0: number 0"));
//! assert_eq!(rt; lines.next(), Some("turn 0: own 0"));
//! assert_eq!(rt; lines.next(), Some("turn 0: delivered 0 0 0"));
//! assert_eq!(rt; lines.next(), Some("owners 0"));
//! assert_eq!(rt; lines.next(), Some("order 0 0 61"));
//! ```
#![tactic(auto)]

pub mod answers;
pub mod closing;
pub mod commands;
pub mod hex;
pub mod histories;
pub mod laws;
pub mod lines;
pub mod names;
pub mod playing;
pub mod text;

pub use answers::answer_to;
