//! The plain stores of a sender: words of its frame, and words of the next row that it clears.

ghost use Rattle.std.specs.Prelude.{◌≡◌, ℕ, ◌+◌, ◌-◌, ◌<◌, ◌≤◌, ◌^◌, Option, Some, IsTrue};
ghost use Rattle.std.specs.Prelude.{List, [], length, slice_index, take};
ghost use Rattle.bus_tenure.specs.Core.{cell_of};
ghost use Rattle.bus_tenure.specs.Elections.{election_of};
ghost use Rattle.bus_tenure.specs.Situations.{situation_of, StoresWord, Stays};
ghost use Rattle.bus_tenure.specs.Doings.{doing_of, IsWord, words_of_messages, left_behind};
ghost use Rattle.bus_tenure.specs.declared.pages.Page.{Page};
ghost use Rattle.bus_tenure.specs.declared.turns.Turn.TheVariants as turn;
ghost use Rattle.bus_presence.specs.Reclaimers.{Reclaiming, IsClearing, reclaim_fed};
ghost use Rattle.bus_presence.specs.Reclaimers.{clears_left, with_cleared};
ghost use Rattle.bus_core.specs.Keeping.{IsAway, reclaimer_in};
ghost use Rattle.bus_core.specs.Plain.{IsPlain, StoresPlain, StoresRow, stored_on, clears_from};
ghost use Rattle.bus_core.specs.Plain.{StoresWords};
ghost use Rattle.bus_core.specs.Senders.{Does, log_start, situation, words_all};
ghost use Rattle.bus_core.specs.Table.{line_now, reuse_reclaiming};
ghost use Rattle.bus_core.specs.Telling.{FeedTells};

use crate::cores::SenderCore;
use crate::reuses::Reuse;
use bus_adoptcommit::Ratifier;

impl<Q: Ratifier + Drop> SenderCore<Q> {
    /// The answer to a plain store tells that no other is due.
    fn tells_going(&self)
        requires { let X = election_of Q.Ratifier in IsPlain X self.now }
        ensures { let X = election_of Q.Ratifier in
            (got : ℕ) (word : ℕ) → FeedTells X self.now got word turn.Going }
    {
        self.turns.is_kept();
    }

    /// Whose next step is a plain store pins no tenure.
    fn plain_is_away(&self)
        ensures { IsPlain (election_of Q.Ratifier) self.now → IsAway self.now.reuse }
    {
        self.turns.is_kept();
    }

    /// Whether the next step is a plain store; then it stores `value` in the word at `at`.
    #[inline(always)]
    pub fn plain(&self, at: &mut u64, value: &mut u64) -> bool
        ensures stores { IsTrue result
            → StoresPlain (election_of Q.Ratifier) self.now at.new value.new }
        ensures exact { IsPlain (election_of Q.Ratifier) self.now → IsTrue result }
    {
        self.plain_is_away();
        if !self.is_away() {
            return false;
        }
        if self.turns.has_published() {
            return clears(&self.reuse, at, value);
        }
        self.stores_word(at, value)
    }

    /// Whether it stores a word of its frame next, where it has no pin; then `value` in the word
    /// at `at`.
    #[inline(always)]
    fn stores_word(&self, at: &mut u64, value: &mut u64) -> bool
        requires { IsAway self.now.reuse }
        ensures stores { IsTrue result
            → StoresPlain (election_of Q.Ratifier) self.now at.new value.new }
        ensures exact { let X = election_of Q.Ratifier in
            IsWord (doing_of (situation_of X self.now.core)) → IsTrue result }
    {
        let (mut tenure, mut words, mut stored) = (0, 0, 0);
        if !self.turns.stores_word(&mut tenure, &mut words, &mut stored) {
            return false;
        }
        *value = self.turns.frame_word(tenure, words, stored);
        *at = self.log_word(words + stored);
        true
    }

    /// The plain store was taken that `plain` told. Its answer is Going, whatever it found. Says
    /// whether the next step is a plain store too; then it stores `value` in the word at `at`.
    #[inline(always)]
    pub fn plain_done(&mut self, at: &mut u64, value: &mut u64) -> bool
        requires { StoresPlain (election_of Q.Ratifier) self.old at.old value.old }
        ensures state { let X = election_of Q.Ratifier in
            (got : ℕ) (word : ℕ) → self.new ≡ (line_now X self.old).fed got word }
        ensures tells { let X = election_of Q.Ratifier in
            (got : ℕ) (word : ℕ) → FeedTells X self.old got word turn.Going }
        ensures answer { let X = election_of Q.Ratifier in
            (got : ℕ) (word : ℕ) → (line_now X self.old).answer got word ≡ turn.Going }
        ensures page { let X = election_of Q.Ratifier in
            (line_now X self.old).move ≡ Stays }
        ensures stores { IsTrue result
            → StoresPlain (election_of Q.Ratifier) self.new at.new value.new }
        ensures exact { IsPlain (election_of Q.Ratifier) self.new → IsTrue result }
    {
        self.tells_going();
        if self.turns.has_published() {
            clear(&mut self.reuse);
            return clears(&self.reuse, at, value);
        }
        let mut place = 0;
        if !self.turns.next_word(&mut place, value) {
            return false;
        }
        *at = self.log_word_behind(*at, place);
        true
    }

    /// How many words of the next row it clears one behind another, from its next step on; 0 where
    /// it stores a word of its frame next.
    #[inline(always)]
    pub fn clears_left(&self) -> u64
        requires { IsPlain (election_of Q.Ratifier) self.now }
        ensures exact { result ≡ clears_from (situation (election_of Q.Ratifier) self.now) }
        ensures row { let X = election_of Q.Ratifier in (at : ℕ) (value : ℕ)
            → StoresPlain X self.now at value → StoresRow X self.now at (λ n. 0) result }
        ensures room { let X = election_of Q.Ratifier in (at : ℕ) (value : ℕ)
            → StoresPlain X self.now at value → at + result ≤ 2 ^ 63 }
    {
        self.is_small();
        if !self.turns.has_published() {
            return 0;
        }
        clears_of(&self.reuse)
    }

    /// So many of these words are cleared.
    #[inline(always)]
    pub fn clears_done(&mut self, many: u64)
        requires plain { IsPlain (election_of Q.Ratifier) self.old }
        requires some { 0 < many }
        requires left { many ≤ clears_from (situation (election_of Q.Ratifier) self.old) }
        ensures { self.new ≡ stored_on (election_of Q.Ratifier) self.old many }
    {
        clear_many(&mut self.reuse, many);
    }

    /// The words of its frame that it stores one behind another from its next step on, which is a
    /// plain store in the word at `at`; at most so many. None where that is of the head of its
    /// frame, of a mark, or of the next row.
    #[inline(always)]
    pub fn words_left(&self, at: u64, most: u64) -> &[u64]
        requires { (value : ℕ) × StoresPlain (election_of Q.Ratifier) self.now at value }
        ensures exact { let X = election_of Q.Ratifier in
            (tenure : ℕ) (page : Page) (stored : ℕ)
            → situation X self.now ≡ Does (StoresWord tenure page stored)
            → result.now ≡ take most (take (words_all self.now - at)
            (left_behind stored (words_of_messages self.now.core))) }
        ensures some { let X = election_of Q.Ratifier in
            0 < length result.now → StoresWords X self.now (length result.now) }
        ensures row { let X = election_of Q.Ratifier in
            StoresRow X self.now at (λ n. slice_index result.now n) (length result.now) }
        ensures room { at + length result.now ≤ 2 ^ 63 }
        ensures few { length result.now ≤ most }
    {
        self.is_small();
        if self.turns.has_published() {
            return &[];
        }
        let room = self.log_start() + self.turns.capacity() - at;
        at_most(at_most(self.turns.words_left(), room), most)
    }

    /// So many words of its frame are stored, one behind another.
    #[inline(always)]
    pub fn words_done(&mut self, many: u64)
        requires { StoresWords (election_of Q.Ratifier) self.old many }
        ensures { self.new ≡ stored_on (election_of Q.Ratifier) self.old many }
    {
        self.turns.words_stored(many);
    }

    /// The word of the log in which this place lives, where the place before it lives at `at`.
    #[inline(always)]
    fn log_word_behind(&self, at: u64, place: u64) -> u64
        requires some { 0 < self.now.core.layout.capacity }
        requires behind { (before : ℕ) × (place ≡ before + 1)
            × (at ≡ log_start self.now.core.layout self.now.reuse
            + cell_of self.now.core.layout before) }
        ensures { result ≡ log_start self.now.core.layout self.now.reuse
            + cell_of self.now.core.layout place }
    {
        self.is_small();
        if place < self.turns.capacity() {
            return at + 1;
        }
        self.log_word(place)
    }
}

/// Whether a reclamation clears a word next; then that is the word at `at`, and `value` is 0.
#[inline(always)]
fn clears(reuse: &Option<Reuse>, at: &mut u64, value: &mut u64) -> bool
    ensures clears { IsTrue result → (s : Reclaiming) × (reclaimer_in reuse.now ≡ Some s)
        × IsClearing s × (at.new ≡ s.row + s.cleared) × (value.new ≡ 0) }
    ensures exact { (s : Reclaiming) → reclaimer_in reuse.now ≡ Some s → IsClearing s
        → IsTrue result }
{
    *value = 0;
    match reuse {
        None => false,
        Some(reuse) => match &reuse.reclaimer {
            None => false,
            Some(reclaimer) => reclaimer.clears(at),
        },
    }
}

/// That word is cleared.
#[inline(always)]
fn clear(reuse: &mut Option<Reuse>)
    requires { (s : Reclaiming) → reclaimer_in reuse.old ≡ Some s → IsClearing s }
    ensures { (s : Reclaiming) (got : ℕ) → reclaimer_in reuse.old ≡ Some s
        → reuse.new ≡ reuse_reclaiming reuse.old (reclaim_fed s got) }
{
    if let Some(reuse) = reuse {
        if let Some(reclaimer) = &mut reuse.reclaimer {
            reclaimer.clear();
        }
    }
}

/// How many words a reclamation clears one behind another, from its next step on.
#[inline(always)]
fn clears_of(reuse: &Option<Reuse>) -> u64
    ensures { (s : Reclaiming) → reclaimer_in reuse.now ≡ Some s → result ≡ clears_left s }
{
    match reuse {
        None => 0,
        Some(reuse) => match &reuse.reclaimer {
            None => 0,
            Some(reclaimer) => reclaimer.clears_left(),
        },
    }
}

/// So many of these words are cleared.
#[inline(always)]
fn clear_many(reuse: &mut Option<Reuse>, many: u64)
    requires { (s : Reclaiming) → reclaimer_in reuse.old ≡ Some s → s.cleared + many ≤ s.width }
    ensures { (s : Reclaiming) → reclaimer_in reuse.old ≡ Some s
        → reuse.new ≡ reuse_reclaiming reuse.old (with_cleared s many) }
{
    if let Some(reuse) = reuse {
        if let Some(reclaimer) = &mut reuse.reclaimer {
            reclaimer.clear_many(many);
        }
    }
}

/// The first so many of these words.
#[inline(always)]
fn at_most(words: &[u64], many: u64) -> &[u64]
    ensures first { result.now ≡ take many words.now }
    ensures few { length result.now ≤ many }
    ensures short { length result.now ≤ length words.now }
{
    if many < words.len() as u64 {
        &words[..many as usize]
    } else {
        words
    }
}
