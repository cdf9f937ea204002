//! Why an input was refused, in a sentence for people: a hint, beside the exact answer that names
//! the refusal. What a hint says is tested, and no contract says it.
//!
//! A message as text, where pairs of hexadecimal digits are wanted:
//!
//! ```
//! use bus_reasons::{Reads, reason_of};
//!
//! let script = b"shape 1 1 1 4 16\nput 0 hi\n";
//! let refusal = b"line 2: BadLine";
//! let reason = reason_of(rt.alloc(), Reads::Replay, script, refusal)?.context("a reason")?;
//! assert!(rt; reason.as_str().starts_with("line 2: 'hi' is no message in hexadecimal digits"));
//! ```
#![tactic(auto)]

pub mod forms;
pub mod logs;
pub mod ratify;
pub mod reasons;
pub mod refusals;
pub mod replay;
pub mod telling;

pub use reasons::Reason;
pub use telling::{Reads, reason_of};
