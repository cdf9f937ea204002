//! What happens to a bus and what is promised of it: shapes, events, answers, faults, and the page
//! of promises.
#![tactic(auto)]

pub mod events;
mod faults;
pub mod laws;
pub mod limits;
pub mod shapes;
pub mod starts;
pub mod turns;

pub use events::{Answer, Event, PlayFault, StepFault};
pub use shapes::{MakeFault, Shape};
