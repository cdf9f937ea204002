//! Tests of the parts that a bus is made of: words, ratifiers, coins, elections, pins, batches,
//! the log, a sender, and texts. They stand above the crates that they test, so that none of those
//! is proved once more for its tests.
#![tactic(auto)]

#[cfg(test)]
mod batches;
#[cfg(test)]
mod cells;
#[cfg(test)]
mod conciliators;
#[cfg(test)]
mod cores;
#[cfg(test)]
mod elections;
#[cfg(test)]
mod log_texts;
#[cfg(test)]
mod logs;
#[cfg(test)]
mod pictures;
#[cfg(test)]
mod presences;
#[cfg(test)]
mod ratifiers;
#[cfg(test)]
mod scripts;
#[cfg(test)]
mod steps;
