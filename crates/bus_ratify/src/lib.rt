//! One adopt-commit object, played by the schedule of a script.
//!
//! Two processes with different inputs, of which the first ends before the second begins:
//!
//! ```
//! use bus_ratify::answer_to;
//!
//! let script = b"inputs 0 1\nsteps 0 0 0 0 0 0 1 1 1 1 1 1\n";
//! let answer = answer_to(rt.alloc(), script)?;
//! assert_eq!(rt; answer.text.as_str(), "0 commit 0\n1 adopt 0\n");
//! ```
#![tactic(auto)]

pub mod answers;
pub mod laws;
pub mod limits;
pub mod refusals;
pub mod scripts;
pub mod text;

pub use answers::answer_to;
