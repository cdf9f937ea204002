//! Tests of the machine: senders by themselves, the world with both kinds of rows, and replays.
//! They stand above the crates that they test, so that none of those is proved once
//! more for its tests.
#![tactic(auto)]

#[cfg(test)]
mod cyclic;
#[cfg(test)]
mod dice;
#[cfg(test)]
mod forks;
#[cfg(test)]
mod games;
#[cfg(test)]
mod replays;
#[cfg(test)]
mod rings;
#[cfg(test)]
mod senders;
#[cfg(test)]
mod worlds;
