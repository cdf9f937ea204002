//! Tests of the bus for threads: its turns beside a machine's, its seats, its receivers and their
//! forks, its replicas, those that go on from a journal, their long operations and whole runs. They
//! stand above the crates that they test, so that none of those is proved once more for its tests.
#![tactic(auto)]

#[cfg(test)]
mod batches;
#[cfg(test)]
mod both;
#[cfg(test)]
mod forks;
#[cfg(test)]
mod games;
#[cfg(test)]
mod handle_forks;
#[cfg(test)]
mod long;
#[cfg(test)]
mod receivers;
#[cfg(test)]
mod recorded;
#[cfg(test)]
mod replicas;
#[cfg(test)]
mod runs;
#[cfg(test)]
mod schedules;
#[cfg(test)]
mod scripts;
#[cfg(test)]
mod seats;
#[cfg(test)]
mod timeouts;
