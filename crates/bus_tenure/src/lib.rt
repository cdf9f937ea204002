//! One sender's part: the page that it may hold, and its turns.
//!
//! The only sender of a bus puts a message, and has to look at the stage. It finds tenure 0:
//!
//! ```
//! use bus_adoptcommit::ThreeWord;
//! use bus_register::SenderNo;
//! use bus_tenure::{Doing, Turn, Turns};
//!
//! let mut turns = Turns::<ThreeWord>::new(1, SenderNo(0), 1, 4, 16, 0, 0, 16);
//! assert_eq!(rt; turns.doing(), Doing::Rests(Turn::Idle));
//! assert_eq!(rt; turns.put(b"a"), Ok(0));
//! assert_eq!(rt; turns.doing(), Doing::Looks);
//! assert_eq!(rt; turns.see_stage(0), Turn::Going);
//! assert_eq!(rt; turns.doing(), Doing::Elects { tenure: 0 });
//! ```
#![tactic(auto)]

pub mod doings;
pub mod laws;
pub mod pages;
pub mod phases;
pub mod turning;
pub mod turns;

pub use doings::Doing;
pub use pages::{OwnedPage, Page};
pub use phases::{Phase, Reason};
pub use turning::Turns;
pub use turns::Turn;
