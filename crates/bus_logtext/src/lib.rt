//! The words of a log as lines of text, and what is printed of such lines and of a journal.
//!
//! The log of one frame, in which sender 0 sent one message:
//!
//! ```
//! use bus_logtext::read_log_text;
//!
//! let lines = b"4000020000000000\n8040000000000000\n6100000000000000\n";
//! let answer = read_log_text(rt.alloc(), lines, 2, 16)?;
//! assert_eq!(rt; answer.text.as_str(), "frame 0 0\nitem 0 0 61\n");
//! ```
#![tactic(auto)]

pub mod answers;
pub mod faults;
pub mod journals;
pub mod laws;
pub mod text;
pub mod words;

pub use answers::read_log_text;
pub use faults::{LineFault, Refusal, WordsFault};
pub use journals::{mended_len, read_journal_text};
pub use text::log_text;
pub use words::{print_words, words_of};
