//! The steps of an election that follow one another. Where its row lies is asked once.

ghost use Rattle.std.specs.Prelude.{◌≡◌, ℕ, ◌<◌, ◌≤◌, None, IfSome, IsSome, is_some, unwrap_or};
ghost use Rattle.bus_register.specs.Words.{register};
ghost use Rattle.bus_tenure.specs.Doings.{doing_of};
ghost use Rattle.bus_tenure.specs.Elections.{election_of};
ghost use Rattle.bus_tenure.specs.Situations.{situation_of};
ghost use Rattle.bus_tenure.specs.declared.doings.Doing.TheVariants as doing;
ghost use Rattle.bus_tenure.specs.declared.turns.Turn.TheVariants as turn;
ghost use Rattle.bus_core.specs.Doings.{step_of};
ghost use Rattle.bus_core.specs.TenureRows.{row_told};
ghost use Rattle.bus_core.specs.Senders.{Does, situation, words_all};
ghost use Rattle.bus_core.specs.Table.{line, line_now};
ghost use Rattle.bus_core.specs.Telling.{FeedTells};
ghost use Rattle.bus_core.specs.declared.steps.Step.TheVariants as step;

use crate::cores::SenderCore;
use crate::feeding::elected;
use crate::tenure_rows::{Row, on_row};
use bus_adoptcommit::Ratifier;
use bus_register::Op;
use bus_tenure::Turn;

impl<Q: Ratifier + Drop> SenderCore<Q> {
    /// Where the row of the tenure begins whose election runs.
    #[inline(always)]
    pub fn election_row(&self, tenure: u64) -> Row
        requires { let X = election_of Q.Ratifier in
            doing_of (situation_of X self.now.core) ≡ doing.Elects tenure }
        ensures { result ≡ row_told self.now.core.layout self.now.reuse tenure }
    {
        self.turns.is_kept();
        let width = self.turns.width();
        let apart = 2 + tenure * width;
        let at = match &self.reuse {
            None => apart,
            Some(reuse) => 2 + self.turns.senders() + tenure % reuse.rows * width,
        };
        Row { apart, at }
    }

    /// A step of its election, on the row that its tenure uses.
    #[inline(always)]
    pub(super) fn election_step_on(&self, tenure: u64, row: Row, word: u32) -> Option<Op>
        requires elects { let X = election_of Q.Ratifier in
            doing_of (situation_of X self.now.core) ≡ doing.Elects tenure }
        requires row { row ≡ row_told self.now.core.layout self.now.reuse tenure }
        ensures step { let X = election_of Q.Ratifier in
            result ≡ (line X self.now (Does (situation_of X self.now.core))).op word }
        ensures behind { IfSome result (λ o. 2 ≤ register o) }
        ensures below { IfSome result (λ o. register o < words_all self.now) }
    {
        self.is_small();
        let op = self.turns.election_next(tenure, word)?;
        Some(on_row(op, row))
    }

    /// The next step, which is one of its election, on the row that `election_row` told.
    #[inline(always)]
    pub fn election_next(&self, tenure: u64, row: Row, word: u32) -> Option<Op>
        requires elects { let X = election_of Q.Ratifier in
            step_of (situation X self.now) ≡ step.Does (doing.Elects tenure) }
        requires row { row ≡ row_told self.now.core.layout self.now.reuse tenure }
        ensures step { let X = election_of Q.Ratifier in
            result ≡ (line_now X self.now).op word }
        ensures behind { IfSome result (λ o. 2 ≤ register o) }
        ensures below { IfSome result (λ o. register o < words_all self.now) }
    {
        self.election_step_on(tenure, row, word)
    }

    /// The next step, which is one of its election, asks for a random word.
    #[inline(always)]
    pub fn election_wants_word(&self, tenure: u64) -> bool
        requires { let X = election_of Q.Ratifier in
            step_of (situation X self.now) ≡ step.Does (doing.Elects tenure) }
        ensures { let X = election_of Q.Ratifier in
            result ≡ (line_now X self.now).wants_word }
    {
        self.turns.election_wants_word(tenure)
    }

    /// The step that `election_next` told for the same random word was taken, and found `got`.
    ///
    /// None says that the election goes on, and the answer is Going. Else it has ended, with this
    /// answer.
    #[inline(always)]
    pub fn elect_on(&mut self, tenure: u64, got: u64, word: u32) -> Option<Turn>
        requires elects { let X = election_of Q.Ratifier in
            step_of (situation X self.old) ≡ step.Does (doing.Elects tenure) }
        requires due { let X = election_of Q.Ratifier in
            IsSome ((line_now X self.old).op word) }
        ensures state { let X = election_of Q.Ratifier in
            self.new ≡ (line_now X self.old).fed got word }
        ensures answer { let X = election_of Q.Ratifier in
            unwrap_or result turn.Going ≡ (line_now X self.old).answer got word }
        ensures tells { let X = election_of Q.Ratifier in
            FeedTells X self.old got word (unwrap_or result turn.Going) }
        ensures ended { let X = election_of Q.Ratifier in
            is_some result ≡ is_some ((line_now X self.old).chosen got word) }
        ensures goes { let X = election_of Q.Ratifier in
            result ≡ None → step_of (situation X self.new) ≡ step.Does (doing.Elects tenure) }
        ensures row { (t : ℕ) → row_told self.new.core.layout self.new.reuse t
            ≡ row_told self.old.core.layout self.old.reuse t }
    {
        self.tells(got, word);
        let Some(turn) = self.turns.elect_on(tenure, got, word) else {
            return None;
        };
        Some(elected(&mut self.reuse, tenure, turn))
    }
}
