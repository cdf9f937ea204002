//! What `bus_bench` does: rounds of a bus that threads share, with times for each item, and checks
//! of what the receivers were given.
//!
//! Three senders of 100 messages each, of 8 bytes, fit a bus:
//!
//! ```
//! use bench_rounds::request::Request;
//!
//! let request = Request::new(3, 2, 100, 8, 1, 4).ok().context("in range")?;
//! let load = request.load().ok().context("it fits")?;
//! assert_eq!(rt; load.items(), 300);
//! ```
#![tactic(auto)]

pub mod checks;
pub mod faults;
pub mod gates;
pub mod needs;
pub mod report;
pub mod request;
pub mod rounds;
pub mod spawning;
pub mod workers;
