//! One process and one automaton for threads, of both kinds of rows.
#![tactic(auto)]

pub mod laws;
pub mod plans;

pub use plans::Plan;
