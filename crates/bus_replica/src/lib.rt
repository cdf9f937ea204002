//! A state that workers replicate over a bus. One call opens a bus for so many workers and gives
//! each of them a replica; a worker's operations go to all replicas in one order.
//!
//!     let replicas = open_replicas::<Counters>(rt.alloc(), 3)?;
//!
//! Each worker takes one:
//!
//!     replica.submit(&rt, &op)?;
//!     let answer = replica.execute(&rt, &op)?;
//!     replica.catch_up(&rt);
//!     let count = replica.state().count(7);
//!     let state = replica.finish(&rt)?;
//!
//! The crate `example_counters` is a whole program of that form.
#![tactic(auto)]

mod faults;
mod hearers;
pub mod histories;
pub mod laws;
mod long_calls;
pub mod long_laws;
mod longs;
mod opening;
mod pages;
mod pasts;
pub mod recorded_laws;
mod replaying;
mod replicas;
mod states;
mod workers;

pub use bus_handles::SenderNo;
pub use faults::{Fault, OpenFault};
pub use longs::Long;
pub use opening::{LOG_WORDS, open_recorded, open_replicas, open_replicas_in};
pub use pages::{GoOnFault, page_after};
pub use replaying::{append, replay};
pub use replicas::Replica;
pub use states::State;
