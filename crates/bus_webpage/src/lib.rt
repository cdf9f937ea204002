//! The web page of a trace, which steps through it in a browser, and on which one may play on.
//!
//! The web page of a trace without a step:
//!
//! ```
//! use bus_webpage::{Purpose, webpage_of};
//!
//! let trace = "number\tline\twho\ttenure\tkind\tword\tfound\tafter\tanswer\n";
//! let webpage = webpage_of(rt.alloc(), Purpose::Step, b"shape 1 1 1 1 16\n", trace)?;
//! assert!(rt; webpage.as_str().contains(trace));
//! ```
#![tactic(auto)]

pub mod heads;
pub mod interpreter;
pub mod meaning;
pub mod moving;
pub mod openings;
pub mod play_heads;
pub mod playing;
pub mod reading;
pub mod styles;
pub mod views;
pub mod webpages;

pub use webpages::{Purpose, script_of, webpage_of};
