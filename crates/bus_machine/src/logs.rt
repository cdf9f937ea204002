//! What the words of a log show whose words are used again.

ghost use Rattle.std.specs.Prelude.{◌≡◌, ◌+◌, ◌-◌, ◌*◌, ◌<◌, ◌≤◌, IfOk, length, slice_index};
ghost use Rattle.bus_core.specs.declared.limits.TheConstants.{PASSED_APART};
ghost use Rattle.bus_tenure.specs.Situations.{lesser as spec_lesser};
ghost use Rattle.bus_machine.specs.Playing.{first_passed as spec_first_passed};
ghost use Rattle.bus_world.specs.Log.{least_passed as spec_least_passed, words_in_ring};

use bus_core::limits::PASSED_APART;
use bus_register::{NoMemory, cell};
use std::alloc::Global;

/// The lesser one of two numbers.
fn lesser(one: u64, other: u64) -> u64
    ensures { result ≡ spec_lesser one other }
{
    if one < other { one } else { other }
}

/// How far a place lies behind a floor; 0 before it.
pub fn behind(place: u64, floor: u64) -> u64
    ensures { result ≡ place - floor }
{
    if floor < place { place - floor } else { 0 }
}

/// Where the first passed place stands, if there are any.
pub fn first_passed(at: u64, passers: u64) -> Option<u64>
    ensures { result ≡ spec_first_passed at passers }
{
    match passers {
        0 => None,
        _ => Some(at),
    }
}

/// The least of the length and of so many passed places, the first of which stands here.
pub fn least_passed(words: &[u64], first: u64, many: u64) -> u64
    requires some { 0 < length words.now }
    requires within { first + PASSED_APART * many ≤ length words.now }
    ensures { result ≡ spec_least_passed (slice_index words.now) first many
        (slice_index words.now 0) }
{
    let mut least = words[0];
    for r in 0..many {
        least = lesser(words[(first + PASSED_APART * r) as usize], least);
    }
    least
}

/// The words of a log from one place up to another, each from its cell. The log begins at this word
/// and has so many cells.
pub fn copy_ring(
    alloc: Global,
    words: &[u64],
    log: u64,
    capacity: u64,
    from: u64,
    to: u64,
) -> Result<Vec<u64>, NoMemory>
    requires some { 0 < capacity }
    requires within { log + capacity ≤ length words.now }
    requires rising { from ≤ to }
    ensures { IfOk result (λ copy. copy.items
        ≡ words_in_ring (slice_index words.now) log capacity from (to - from)) }
{
    let mut copy = Vec::new(alloc);
    for place in from..to {
        copy.push(words[(log + cell(place, capacity)) as usize])?;
    }
    Ok(copy)
}
