//! The words of a frame that follow one another.

ghost use Rattle.std.specs.Prelude.{◌≡◌, ℕ, ◌+◌, ◌≤◌};
ghost use Rattle.bus_tenure.specs.Core.{frame_len};
ghost use Rattle.bus_tenure.specs.Doings.{doing_of, IsWord, FitsBehind, AreWords};
ghost use Rattle.bus_tenure.specs.Doings.{words_of_messages, left_behind, with_stored};
ghost use Rattle.bus_tenure.specs.Elections.{election_of};
ghost use Rattle.bus_tenure.specs.Situations.{situation_of};
ghost use Rattle.bus_tenure.specs.declared.doings.Doing.TheVariants as doing;

use crate::phases::Phase;
use crate::turning::Turns;
use bus_adoptcommit::Ratifier;

impl<Q: Ratifier + Drop> Turns<Q> {
    /// The words of its messages that it stores one behind another, from its next step on. None
    /// where that stores the head of its frame, or a mark.
    #[inline(always)]
    pub fn words_left(&self) -> &[u64]
        requires { let X = election_of Q.Ratifier in IsWord (doing_of (situation_of X self.now)) }
        ensures exact { let X = election_of Q.Ratifier in (tenure : ℕ) (words : ℕ) (stored : ℕ)
            → doing_of (situation_of X self.now) ≡ doing.Word tenure words stored
            → result.now ≡ left_behind stored (words_of_messages self.now) }
        ensures next { let X = election_of Q.Ratifier in (tenure : ℕ) (words : ℕ) (stored : ℕ)
            → doing_of (situation_of X self.now) ≡ doing.Word tenure words stored
            → AreWords self.now tenure stored result.now }
        ensures room { let X = election_of Q.Ratifier in (tenure : ℕ) (words : ℕ) (stored : ℕ)
            → doing_of (situation_of X self.now) ≡ doing.Word tenure words stored
            → FitsBehind self.now words }
    {
        let body = self.batch.body();
        let Phase::Holding { stored, .. } = &self.phase else {
            return &body[..0];
        };
        if *stored == 0 {
            return &body[..0];
        }
        &body[(*stored - 1) as usize..]
    }

    /// So many words of its frame are stored, one behind another.
    #[inline(always)]
    pub fn words_stored(&mut self, many: u64)
        requires word { let X = election_of Q.Ratifier in
            IsWord (doing_of (situation_of X self.old)) }
        requires within { let X = election_of Q.Ratifier in
            (tenure : ℕ) (words : ℕ) (stored : ℕ)
            → doing_of (situation_of X self.old) ≡ doing.Word tenure words stored
            → stored + many ≤ frame_len self.old }
        ensures { self.new ≡ with_stored self.old many }
    {
        if let Phase::Holding { stored, .. } = &mut self.phase {
            *stored += many;
        }
    }
}
