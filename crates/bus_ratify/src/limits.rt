//! The limit of a script of `ratify`. Contracts and definitions take it from here.

/// Inputs of a script, one of each process: 1 to 8.
pub const MOST_INPUTS: usize = 8;
