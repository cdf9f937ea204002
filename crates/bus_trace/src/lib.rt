//! The steps of a script of `replay`, one a line.
//!
//! Two lines of a script, and what is written of them behind the names of the columns:
//!
//! ```
//! use bus_adoptcommit::ThreeWord;
//! use bus_trace::trace_of;
//!
//! let script = b"shape 1 1 1 4 16\nput 0 61\nturn 0 0 1\n";
//! let answer = trace_of::<ThreeWord>(rt.alloc(), script)?;
//! let mut lines = answer.text.as_str().lines().skip(1);
//! assert_eq!(rt; lines.next(), Some("1\t2\tsender 0\t-\tput\t-\t-\t-\tnumber 0"));
//! assert_eq!(rt; lines.next(), Some("2\t3\tsender 0\t-\tLoadStage\tstage\t0\t0\tgoing"));
//! ```
#![tactic(auto)]

pub mod laws;
pub mod memory_maps;
pub mod playing;
pub mod rows;
pub mod seen;
pub mod sheets;
pub mod steps;
pub mod traces;
pub mod words;

pub use traces::trace_of;
