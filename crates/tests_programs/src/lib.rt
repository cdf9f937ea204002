//! Tests of the commands of `bus` and of the rounds that `bus_bench` times. They stand above the
//! crates that they test, so that none of those is proved once more for its tests.
#![tactic(auto)]

#[cfg(test)]
mod commands;
#[cfg(test)]
mod rounds;
#[cfg(test)]
mod same;
