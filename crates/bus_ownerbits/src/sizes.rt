//! How many bits an owner's number has, and how many turns an election takes at most.

ghost use Rattle.std.specs.Prelude.{◌≡◌, ℕ, ◌+◌, ◌*◌, ◌-◌, ◌<◌, ◌≤◌};
ghost use Rattle.std.specs.Prelude.{◌^◌};
ghost use Rattle.bus_ownerbits.specs.Sizes.{IsBits, bits_of, election_bound};

use bus_adoptcommit::Ratifier;
use bus_register::limits::{MOST_PROCESSES, MOST_ROUNDS};
use bus_walkcoin::tallies::MOST_VOTES;

/// How many bits the numbers below `n` have: the least count of bits that spell `n` numbers.
pub fn bits(n: u64) -> u64
    requires some { 1 ≤ n }
    requires few { n ≤ MOST_PROCESSES }
    ensures least { IsBits n result }
    ensures value { result ≡ bits_of n }
{
    let mut bits = 0;
    let mut reach = 1;
    while reach < n {
        reach *= 2;
        bits += 1;
    }
    bits
}

/// How many of its own turns an election over this ratifier takes at most, with one more for its
/// owner, in so many rounds for each bit.
pub fn bound<Q: Ratifier>(n: u64, rounds: u64) -> u64
    requires some { 1 ≤ n }
    requires few { n ≤ MOST_PROCESSES }
    requires rounds_some { 1 ≤ rounds }
    requires rounds_few { rounds ≤ MOST_ROUNDS }
    ensures { result ≡ election_bound Q.protocol.steps n rounds }
{
    let ratifiers = rounds * Q::steps(n);
    let conciliators = (rounds - 1) * (2 + MOST_VOTES as u64 * 2);
    2 + bits(n) * (ratifiers + conciliators + 1 + n)
}
