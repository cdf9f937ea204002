//! The steps of an election that follow one another.

ghost use Rattle.std.specs.Prelude.{◌≡◌, Some, None, IsSome, is_some, unwrap_or};
ghost use Rattle.bus_tenure.specs.Doings.{doing_of};
ghost use Rattle.bus_tenure.specs.Elections.{election_of};
ghost use Rattle.bus_tenure.specs.Situations.{situation_of, op_at, fed_at, answer_at};
ghost use Rattle.bus_tenure.specs.Situations.{wants_at, line_of};
ghost use Rattle.bus_tenure.specs.declared.doings.Doing.TheVariants as doing;
ghost use Rattle.bus_tenure.specs.declared.turns.Turn.TheVariants as turn;

use crate::phases::Phase;
use crate::turning::Turns;
use crate::turns::Turn;
use bus_adoptcommit::Ratifier;
use bus_register::Machine;

impl<Q: Ratifier + Drop> Turns<Q> {
    /// The next step of its election asks for a random word.
    #[inline(always)]
    pub fn election_wants_word(&self, tenure: u64) -> bool
        requires { let X = election_of Q.Ratifier in
            doing_of (situation_of X self.now) ≡ doing.Elects tenure }
        ensures { let X = election_of Q.Ratifier in
            result ≡ wants_at X self.now (situation_of X self.now) }
    {
        let Phase::Electing { election, .. } = &self.phase else {
            unreachable!()
        };
        election.wants_word()
    }

    /// Takes the next step of its election. None says that the election goes on, and the answer is
    /// Going; else it has ended, with this answer, which tells the owner where that is another
    /// sender.
    #[inline(always)]
    pub fn elect_on(&mut self, started: u64, got: u64, word: u32) -> Option<Turn>
        requires elects { let X = election_of Q.Ratifier in
            doing_of (situation_of X self.old) ≡ doing.Elects started }
        requires steps { let X = election_of Q.Ratifier in
            IsSome (op_at X self.old (situation_of X self.old) word) }
        ensures state { let X = election_of Q.Ratifier in
            self.new ≡ fed_at X self.old (situation_of X self.old) got word }
        ensures answer { let X = election_of Q.Ratifier in
            unwrap_or result turn.Going ≡ answer_at X self.old (situation_of X self.old) got word }
        ensures ended { let X = election_of Q.Ratifier in
            is_some result
            ≡ is_some ((line_of X self.old (situation_of X self.old)).chosen got word) }
        ensures goes { let X = election_of Q.Ratifier in
            result ≡ None → doing_of (situation_of X self.new) ≡ doing.Elects started }
    {
        let Phase::Electing { tenure, election } = &mut self.phase else {
            unreachable!()
        };
        let tenure = *tenure;
        election.feed(got, word);
        let Some(owner) = election.owner() else {
            return None;
        };
        if owner.0 == self.me.0 {
            return Some(Turn::Going);
        }
        self.batch.back();
        self.least = tenure + 1;
        self.phase = Phase::Resting;
        Some(Turn::Lost { tenure, owner })
    }
}
