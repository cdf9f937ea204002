//! One sender, with a row of words for each tenure or with a few rows that are used again.
//!
//! One table has a line for each of its situations: the step, what it holds and answers afterwards,
//! and what becomes of the page. The only sender of a bus puts a message and finds tenure 0 open:
//!
//! ```
//! use bus_adoptcommit::ThreeWord;
//! use bus_core::SenderCore;
//! use bus_register::{Kind, SenderNo};
//!
//! let mut sender = SenderCore::<ThreeWord>::cyclic(1, SenderNo(0), 1, 2, 16, 0, 0, 16);
//! assert_eq!(rt; sender.put(b"a"), Ok(0));
//! let kinds = [Kind::LoadStage, Kind::Enter, Kind::LoadStageAgain, Kind::Announce];
//! for kind in kinds {
//!     assert_eq!(rt; sender.kind(), Some(kind));
//!     sender.feed(0, 0);
//! }
//! ```
#![tactic(auto)]

pub mod cores;
mod feeding;
pub mod laws;
pub mod limits;
pub mod refusals;
pub mod reuses;
pub mod steps;
pub mod tenure_rows;

pub use cores::SenderCore;
pub use reuses::{Passing, Reuse};
pub use steps::Step;
pub use tenure_rows::Row;
