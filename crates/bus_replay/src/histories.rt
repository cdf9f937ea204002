//! What a bus has published and given, also where its own words are used again.

ghost use Rattle.std.specs.Prelude.{◌≡◌, ◌-◌, ◌<◌, ◌≤◌, ◌++◌, [], IfOk, OnOk, length, map};
ghost use Rattle.std.specs.Prelude.{false, nat_lt, slice_index};
ghost use Rattle.std.specs.List.{range_with_len};
ghost use Rattle.bus_world.specs.Log.{words_in_ring};
ghost use Rattle.bus_world.specs.Playing.{event_told};
ghost use Rattle.bus_replay.specs.Histories.{given_with, kept_after, kept_forked, AsksOne};

use bus_deliverylog::RecvTurn;
use bus_register::{NoMemory, cell};
use bus_world::{Answer, Event};
use std::alloc::Global;
use std::marker::Model;

/// What the last receiver of a seat was given: how many items, and whether the end.
#[derive(Clone, Copy, Debug)]
pub struct Given {
    /// Whether the seat has or had a receiver.
    pub taken: bool,
    pub items: u64,
    pub ended: bool,
}

/// All words that a bus has published, and what the receiver of each of its seats was given.
#[derive(Drop)]
pub struct History {
    /// How many words the log of the bus has.
    capacity: u64,
    log: Vec<u64>,
    given: Vec<Given>,
}

impl Model for History {
    ghost use Rattle.bus_replay.specs.Histories.{Kept};

    ghost Value = { Kept };

    ghost view = { λ h. record {
      capacity = h.capacity;
      log = h.log.items;
      given = h.given.items;
    } };
}

/// That a receiver was given this, with one answer more. More items than a number counts are want
/// of memory.
fn given_with(turn: &RecvTurn, given: Given) -> Result<Given, NoMemory>
    ensures { IfOk result (λ more. more ≡ given_with turn.now given) }
{
    match turn {
        RecvTurn::Item(_) => match given.items.checked_add(1) {
            Some(items) => Ok(Given { items, ..given }),
            None => Err(NoMemory),
        },
        RecvTurn::End => Ok(Given {
            ended: true,
            ..given
        }),
        RecvTurn::Going | RecvTurn::Empty | RecvTurn::Head { .. } | RecvTurn::Leave(_) => Ok(given),
    }
}

impl History {
    /// That of a new bus of so many log words and seats, of which the first so many have a
    /// receiver.
    pub fn new(
        alloc: Global,
        capacity: u64,
        seats: u64,
        receivers: u64,
    ) -> Result<History, NoMemory>
        ensures { IfOk result (λ history. history ≡ record {
          capacity = capacity;
          log = [];
          given = map (λ seat. record { taken = nat_lt seat receivers; items = 0; ended = false })
              (range_with_len 0 seats);
        }) }
    {
        let mut given = Vec::new(alloc);
        for seat in 0..seats {
            given.push(Given {
                taken: seat < receivers,
                items: 0,
                ended: false,
            })?;
        }
        Ok(History {
            capacity,
            log: Vec::new(alloc),
            given,
        })
    }

    /// All words that were published.
    pub fn log(&self) -> &[u64]
        ensures { result.now ≡ self.now.log }
    {
        &self.log
    }

    /// What the receiver of each seat was given.
    pub fn given(&self) -> &[Given]
        ensures { result.now ≡ self.now.given }
    {
        &self.given
    }

    /// Copies what a bus of these words has published since: one frame at most, whose words stand.
    pub fn copy_published(&mut self, words: &[u64]) -> Result<(), NoMemory>
        requires some { 0 < self.old.capacity }
        requires within { self.old.capacity < length words.now }
        ensures { OnOk result (self.new ≡ record self.old {
          log = self.old.log ++ words_in_ring (slice_index words.now)
              (length words.now - self.old.capacity) self.old.capacity (length self.old.log)
              (slice_index words.now 0 - length self.old.log);
        }) }
    {
        let log = words.len() as u64 - self.capacity;
        for place in self.log.len() as u64..words[0] {
            let word = words[(log + cell(place, self.capacity)) as usize];
            self.log.push(word)?;
        }
        Ok(())
    }

    /// Notes what an event with this answer has left in these words of the bus.
    pub fn note(&mut self, words: &[u64], event: &Event, answer: &Answer) -> Result<(), NoMemory>
        requires some { 0 < self.old.capacity }
        requires within { self.old.capacity < length words.now }
        requires there { AsksOne (event_told event.now) (length self.old.given) }
        ensures { OnOk result
            (self.new ≡ kept_after words.now (event_told event.now) answer.now self.old) }
    {
        match (event, answer) {
            (Event::Recv(receiver), Answer::Recv(turn)) => {
                let at = *receiver as usize;
                self.given[at] = given_with(turn, self.given[at])?;
                Ok(())
            }
            (Event::Turn { .. }, _) => self.copy_published(words),
            _ => Ok(()),
        }
    }

    /// Notes that a receiver has forked to this number: what it was given counts as given to the
    /// new one.
    pub fn note_fork(&mut self, receiver: u64, number: u64)
        requires maker { receiver < length self.old.given }
        requires there { number < length self.old.given }
        ensures { self.new ≡ kept_forked receiver number self.old }
    {
        let given = self.given[receiver as usize];
        self.given[number as usize] = Given {
            taken: true,
            ..given
        };
    }
}
