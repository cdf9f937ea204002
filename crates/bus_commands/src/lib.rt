//! The commands of the program `bus`, over a writer and, where they have input, a reader, and its
//! command line.
//!
//! A script of one adopt-commit object, in which process 0 takes all its steps alone:
//!
//! ```
//! use bus_commands::ratify::ratify;
//! use bus_script::Outcome;
//!
//! let mut script = b"inputs 1\nsteps 0 0 0 0\n".as_slice();
//! let mut written = Vec::new(rt.alloc());
//! let ended = ratify(rt.alloc(), &mut script, &mut written);
//! assert_eq!(rt; ended, Ok(Outcome::Done));
//! assert_eq!(rt; written.as_slice(), b"0 commit 1\n".as_slice());
//! ```
#![tactic(auto)]

pub mod answering;
pub mod command_line;
pub mod help;
pub mod journal;
pub mod laws;
pub mod log;
pub mod picture;
pub mod printing;
pub mod ratify;
pub mod replay;
pub mod streams;
pub mod trace;
pub mod webpage;
