//! Counts of heads and tails.

ghost use Rattle.std.specs.Prelude.{◌≡◌, ℕ, ◌+◌, ◌<◌, ◌≤◌, length};
ghost use Rattle.bus_walkcoin.specs.declared.tallies.Tally.{Tally};
ghost use Rattle.bus_walkcoin.specs.Tally.{tally_of, word_of, tally_with, add_word_of, total_of};

/// The votes of one process in one coin: at most 64.
pub const MOST_VOTES: u32 = 64;

/// Tallies that `total` sums: at most 64. The one counter of a coin is one tally.
pub const MOST_TALLIES: usize = 64;

/// How many heads and how many tails were voted in one coin, by one process or by all.
#[derive(Clone, Copy, Debug, PartialEq, Eq)]
pub struct Tally {
    pub heads: u32,
    pub tails: u32,
}

impl Tally {
    /// The counts that a word holds: heads in its high half, tails in its low half.
    pub fn of_word(word: u64) -> Tally
        ensures counts { result ≡ tally_of word }
        ensures back { word_of result ≡ word }
    {
        Tally {
            heads: (word / 0x1_0000_0000) as u32,
            tails: (word % 0x1_0000_0000) as u32,
        }
    }

    /// The word that holds these counts.
    pub fn word(self) -> u64
        ensures word { result ≡ word_of self }
        ensures back { tally_of result ≡ self }
    {
        u64::from(self.heads) * 0x1_0000_0000 + u64::from(self.tails)
    }

    /// One vote more.
    pub fn vote(self, head: bool) -> Tally
        requires { self.heads + self.tails < MOST_VOTES }
        ensures { result ≡ tally_with self head }
    {
        if head {
            Tally {
                heads: self.heads + 1,
                tails: self.tails,
            }
        } else {
            Tally {
                heads: self.heads,
                tails: self.tails + 1,
            }
        }
    }

    /// What a vote adds to a word that holds counts: the counts with the vote stand there then.
    pub fn add_word(head: bool) -> u64
        ensures value { result ≡ add_word_of head }
        ensures adds { (t : Tally) → word_of t + result ≡ word_of (tally_with t head) }
    {
        if head { 0x1_0000_0000 } else { 1 }
    }
}

/// All heads minus all tails.
pub fn total(tallies: &[Tally]) -> i64
    requires { length tallies.now ≤ MOST_TALLIES }
    ensures { result ≡ total_of tallies.now }
{
    let mut heads: u64 = 0;
    let mut tails: u64 = 0;
    for tally in tallies {
        let Tally {
            heads: up,
            tails: down,
        } = *tally;
        heads += u64::from(up);
        tails += u64::from(down);
    }
    heads as i64 - tails as i64
}
