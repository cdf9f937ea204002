//! What all scripts are made of, and how they are answered: numbered lines, words between single
//! spaces, numbers in digits; a text, or the line that names the first refusal.
//!
//! A script of a comment and a line of two numbers:
//!
//! ```
//! use bus_script::{Lines, number_of, words_behind};
//!
//! let mut lines = Lines::new(b"# a comment\n\nsteps 0 17");
//! let line = lines.next_line().context("a line")?;
//! assert_eq!(rt; line.number, 3);
//! let mut words = words_behind(line.bytes, b"steps").context("the keyword")?;
//! assert_eq!(rt; words.next_word().and_then(number_of), Some(0));
//! assert_eq!(rt; words.next_word().and_then(number_of), Some(17));
//! assert!(rt; words.next_word().is_none());
//! ```
#![tactic(auto)]

pub mod answers;
pub mod laws;
pub mod line_numbers;
pub mod lines;
pub mod numbers;
mod pieces;
pub mod words;

pub use answers::{Answer, Outcome};
pub use line_numbers::{LineNumber, refusal_line};
pub use lines::{Line, Lines};
pub use numbers::number_of;
pub use words::{Words, words_behind};
