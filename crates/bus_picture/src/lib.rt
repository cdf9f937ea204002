//! The picture of a trace.
//!
//! A trace of one step, whose kind, word and numbers stand beside its mark:
//!
//! ```
//! use bus_picture::picture_of;
//!
//! let trace = "number\tline\twho\ttenure\tkind\tword\tfound\tafter\tanswer\n\
//!     1\t2\tsender 0\t3\tStoreLength\tlength\t0\t5\tgoing\n";
//! let picture = picture_of(rt.alloc(), trace)?;
//! assert!(rt; picture.as_str().contains("StoreLength length: 0 to 5"));
//! ```
#![tactic(auto)]

pub mod columns;
pub mod drawing;
pub mod families;
pub mod finding;
pub mod laws;
pub mod pictures;
pub mod processes;
pub mod rows;
pub mod shapes;
pub mod values;

pub use pictures::picture_of;
