//! The random-walk coin of Aspnes and Herlihy (1990), over one counter word that all its processes
//! add their votes to.
//!
//! The only process of a coin, whose random words are odd, votes heads until the coin answers that.
//! Beside it a word with three heads and two tails, one vote more, and what two tallies come to:
//!
//! ```
//! use bus_register::{Cells, Machine, Reg, SenderNo};
//! use bus_walkcoin::{Tally, WalkCoin, total};
//!
//! let mut cells = Cells::new(rt.alloc(), WalkCoin::width(1))?;
//! let mut coin = WalkCoin::start(1, SenderNo(0), Reg(0));
//! for word in [1, 1, 1, 1] {
//!     let Some(op) = coin.next(word) else { break };
//!     let found = cells.apply(op);
//!     coin.feed(found, word);
//! }
//! assert_eq!(rt; coin.answer(), Some(true));
//!
//! let tally = Tally::of_word(0x0000_0003_0000_0002);
//! assert_eq!(rt; (tally.heads, tally.tails), (3, 2));
//! assert_eq!(rt; tally.vote(true).word(), 0x0000_0004_0000_0002);
//! assert_eq!(rt; total(&[tally, Tally { heads: 0, tails: 4 }]), -3);
//! ```
#![tactic(auto)]

pub mod coins;
pub mod laws;
pub mod tallies;

pub use coins::WalkCoin;
pub use tallies::{Tally, total};
