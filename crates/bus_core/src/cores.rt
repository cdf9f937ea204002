//! A sender and its turns.

ghost use Rattle.std.specs.Prelude.{◌≡◌, ℕ, ◌+◌, ◌*◌, ◌-◌, ◌<◌, ◌≤◌, ◌^◌, ◌↔◌};
ghost use Rattle.std.specs.Prelude.{Option, Some, None, IfSome, IsSome, IsTrue, false};
ghost use Rattle.bus_register.specs.Words.{register};
ghost use Rattle.bus_register.specs.declared.kinds.Kind.TheVariants as kind;
ghost use Rattle.bus_tenure.specs.Core.{words_of, cell_of};
ghost use Rattle.bus_tenure.specs.Elections.{election_of, elections, layout_with};
ghost use Rattle.bus_tenure.specs.Seen.{AwaitsItsPage, turns_of, HasElection, is_holding};
ghost use Rattle.bus_tenure.specs.Situations.{situation_of, tenure_begun as tenure_by_stage};
ghost use Rattle.bus_tenure.specs.declared.phases.Phase.TheVariants as phase;
ghost use Rattle.bus_tenure.specs.Doings.{doing_of};
ghost use Rattle.bus_tenure.specs.declared.doings.Doing.TheVariants as doing;
ghost use Rattle.bus_core.specs.Causes.{HasCause, IsCaused};
ghost use Rattle.bus_core.specs.Doings.{step_of, asks_first};
ghost use Rattle.bus_core.specs.Keeping.{ReuseKeeps, reclaimer_op_of, sender, IsAway};
ghost use Rattle.bus_core.specs.Keeping.{page_out, core_without, new_sender};
ghost use Rattle.bus_core.specs.Loading.{KeepsFloor, HasLoadedAll};
ghost use Rattle.bus_core.specs.Places.{LiesAt};
ghost use Rattle.bus_core.specs.Seen.{pin_of, tenure_begun};
ghost use Rattle.bus_core.specs.Senders.{Does, ReadsPassed, situation, log_start, passed_start};
ghost use Rattle.bus_core.specs.Senders.{at_home, words_all};
ghost use Rattle.bus_core.specs.declared.limits.TheConstants.{PASSED_APART};
ghost use Rattle.bus_core.specs.declared.reuses.Passing.{Passing};
ghost use Rattle.bus_core.specs.declared.steps.Step.TheVariants as step;
ghost use Rattle.bus_core.specs.Table.{line, line_now, rest_at};
ghost use Rattle.bus_core.specs.Telling.{FeedTells, RestIsTold};

mod filling;
mod running;
mod storing;

use super::feeding::feed_parts;
use super::reuses::{Passing, Reuse};
use super::steps::{Ending, Step, ending_of, rest_of};
use crate::limits::{LEAST_ROWS_AGAIN, MOST_ROWS_AGAIN, PASSED_APART};
use bus_adoptcommit::Ratifier;
use bus_ownerbits::Election;
use bus_presence::Pin;
use bus_register::limits::{
    MOST_MESSAGES, MOST_RECEIVERS, MOST_ROUNDS, MOST_SENDERS, NUMBERS, TENURES,
};
use bus_register::{Kind, Op, Reg, SenderNo, cell};
use bus_tenure::{Doing, OwnedPage, Reason, Turn, Turns};
use std::marker::Model;

/// The word of the length.
const LENGTH: Reg = Reg(0);

/// The word of the stage: twice the tenure that is open, and one more while its owner has the page.
const STAGE: Reg = Reg(1);

/// A sender. It takes one step a turn, which `next` tells and whose finding `feed` takes in. Each
/// tenure has a row of words of its own, or a few rows are used again.
///
/// A turn that looks at the situation once asks `step`, gives what that told to `take_out_of`, and
/// then to `wants_word_of`, `next_of` and `feed_of`, or to `rest_of`.
///
/// The words are the length, the stage, where rows are used again a presence for each sender, the
/// rows, the passed places that there are, and the log, in this order.
#[derive(Drop)]
pub struct SenderCore<Q: Ratifier> {
    turns: Turns<Q>,
    reuse: Option<Reuse>,
}

impl<Q: Ratifier> Model for SenderCore<Q> {
    ghost use Rattle.bus_tenure.specs.Elections.{Elector, elections};
    ghost use Rattle.bus_core.specs.Keeping.{ReuseKeeps};
    ghost use Rattle.bus_core.specs.Senders.{Sender};

    ghost Value = { Sender (Elector Q) };

    ghost view = { λ c. record { core = c.turns; reuse = c.reuse } };

    ghost invariant = { λ c. ReuseKeeps
        ((elections Q.protocol c.turns.layout.rounds).width c.turns.layout.senders)
        ((elections Q.protocol c.turns.layout.rounds).Belongs c.turns.layout.senders c.turns.me)
        c.turns c.reuse };
}

impl<Q: Ratifier + Drop> SenderCore<Q> {
    /// Sender `me` of so many, with nothing pending and no tenure begun, of a bus of so many rounds
    /// for each bit, rows, one for each tenure, log words and messages of a batch. Its messages
    /// count from `first` on.
    pub fn new(
        senders: u64,
        me: SenderNo,
        rounds: u64,
        rows: u64,
        log_words: u64,
        first: u64,
        batch: u64,
    ) -> SenderCore<Q>
        requires me_below { me.0 < senders }
        requires few { senders ≤ MOST_SENDERS }
        requires rounds_some { 1 ≤ rounds }
        requires rounds_few { rounds ≤ MOST_ROUNDS }
        requires rows_few { rows ≤ TENURES }
        requires log_few { log_words ≤ 2 ^ 20 }
        requires room { words_of (layout_with Q.protocol senders rounds rows log_words 0 batch)
            ≤ 2 ^ 63 }
        requires numbers { first ≤ NUMBERS }
        requires batch { (1 ≤ batch) × (batch ≤ MOST_MESSAGES) }
        ensures { result ≡ new_sender
            (layout_with Q.protocol senders rounds rows log_words 0 batch) me.0 None first }
    {
        SenderCore {
            turns: Turns::new(senders, me, rounds, rows, log_words, first, 0, batch),
            reuse: None,
        }
    }

    /// The same where rows are used again, 2 to 8, of a bus of so many passed places: one for each
    /// receiver where the log is used again too, else none.
    pub fn cyclic(
        senders: u64,
        me: SenderNo,
        rounds: u64,
        rows: u64,
        log_words: u64,
        first: u64,
        passers: u64,
        batch: u64,
    ) -> SenderCore<Q>
        requires me_below { me.0 < senders }
        requires few { senders ≤ MOST_SENDERS }
        requires rounds_some { 1 ≤ rounds }
        requires rounds_few { rounds ≤ MOST_ROUNDS }
        requires rows_some { LEAST_ROWS_AGAIN ≤ rows }
        requires rows_few { rows ≤ MOST_ROWS_AGAIN }
        requires log_few { log_words ≤ 2 ^ 20 }
        requires numbers { first ≤ NUMBERS }
        requires passers_few { passers ≤ MOST_RECEIVERS }
        requires batch { (1 ≤ batch) × (batch ≤ MOST_MESSAGES) }
        ensures { result ≡ new_sender
            (layout_with Q.protocol senders rounds TENURES log_words passers batch) me.0
            (Some rows) first }
    {
        let width = Election::<Q>::width(senders, rounds);
        let _ = width;
        SenderCore {
            turns: Turns::new(
                senders, me, rounds, TENURES, log_words, first, passers, batch,
            ),
            reuse: Some(Reuse {
                pin: Pin::Away,
                reclaimer: None,
                passed: Passing {
                    loaded: 0,
                    least: u64::MAX,
                },
                lost: None,
                rows,
            }),
        }
    }

    /// The sender's number.
    pub fn number(&self) -> SenderNo
        ensures { result.0 ≡ self.now.core.me }
    {
        self.turns.number()
    }

    /// How many words the log of its bus has, by its own layout.
    pub fn log_words(&self) -> u64
        ensures { result ≡ self.now.core.layout.capacity }
    {
        self.turns.capacity()
    }

    /// How many senders its bus has, by its own layout.
    pub fn senders(&self) -> u64
        ensures { result ≡ self.now.core.layout.senders }
    {
        self.turns.senders()
    }

    /// How far its pin of a tenure has come; none where each tenure has a row of its own.
    pub fn pin(&self) -> Option<Pin>
        ensures { result ≡ pin_of self.now.reuse }
    {
        match &self.reuse {
            None => None,
            Some(reuse) => Some(reuse.pin),
        }
    }

    /// The tenure that it has begun, or whose page it has.
    pub fn tenure(&self) -> Option<u64>
        ensures { result ≡ tenure_begun self.now }
    {
        match self.pin() {
            None | Some(Pin::Away) => self.turns.tenure(),
            Some(Pin::Announcing { tenure })
            | Some(Pin::Validating { tenure })
            | Some(Pin::Pinned { tenure })
            | Some(Pin::Unpinning { tenure })
            | Some(Pin::Invalidated { tenure }) => Some(tenure),
        }
    }

    /// How many turns the election takes at most, with the one that takes the page; 0 where none is
    /// begun. Those of its pin are not among them.
    pub fn turns_left(&self) -> u64
        ensures turns { let X = election_of Q.Ratifier in result ≡ turns_of X self.now.core.phase }
        ensures running { HasElection self.now.core.phase → 1 ≤ result }
    {
        self.turns.turns_left()
    }

    /// The tenure that it may begin where the stage is this.
    pub fn may_begin(&self, stage: u64) -> Option<u64>
        ensures { result ≡ tenure_by_stage self.now.core stage }
    {
        self.turns.may_begin(stage)
    }

    /// What it does next.
    #[inline(always)]
    pub fn step(&self) -> Step
        ensures { let X = election_of Q.Ratifier in result ≡ step_of (situation X self.now) }
    {
        let Some(reuse) = &self.reuse else {
            return Step::Does(self.turns.doing());
        };
        match reuse.pin {
            Pin::Announcing { tenure } => Step::Announces { tenure },
            Pin::Validating { tenure } => Step::Validates { tenure },
            Pin::Unpinning { tenure } => Step::Unpins { tenure },
            Pin::Invalidated { tenure } => Step::Withdraws { tenure },
            Pin::Away | Pin::Pinned { .. } => {
                let doing = self.turns.doing();
                if self.asks_passed(reuse, doing) {
                    return Step::ReadsPassed;
                }
                self.home_step(reuse, doing)
            }
        }
    }

    /// What it does next where no step of its pin is due, and no passed place is loaded.
    #[inline(always)]
    fn home_step(&self, reuse: &Reuse, doing: Doing) -> Step
        requires { let X = election_of Q.Ratifier in
            doing_of (situation_of X self.now.core) ≡ doing }
        ensures { let X = election_of Q.Ratifier in
            result ≡ step_of (at_home None reuse.now.reclaimer (situation_of X self.now.core)) }
    {
        match (doing, &reuse.reclaimer) {
            (Doing::Back { .. }, Some(reclaimer)) => match reclaimer.next() {
                Some(Op::Load(_)) => Step::Scans,
                Some(_) => Step::Clears,
                None => Step::Does(doing),
            },
            _ => Step::Does(doing),
        }
    }

    /// What is done next with the page waits for a passed place that is left to load.
    #[inline(always)]
    fn asks_passed(&self, reuse: &Reuse, doing: Doing) -> bool
        ensures { result ≡ asks_first self.now.core.layout.passers reuse.now.passed doing }
    {
        match doing {
            Doing::Back { reason, .. } => {
                reason == Reason::NoRoom && reuse.passed.loaded < self.turns.passers()
            }
            _ => false,
        }
    }

    /// Where its presence stands.
    #[inline(always)]
    fn presence(&self) -> Reg
        ensures { result.0 ≡ 2 + self.now.core.me }
    {
        Reg(2 + u64::from(self.turns.number().0))
    }

    /// Where the passed places begin.
    #[inline(always)]
    fn passed_start(&self) -> u64
        ensures at { result ≡ passed_start self.now.core.layout self.now.reuse }
        ensures few { IsSome self.now.reuse → result ≤ 2 ^ 27 }
    {
        match &self.reuse {
            None => self.turns.log_apart(),
            Some(reuse) => 2 + self.turns.senders() + reuse.rows * self.turns.width(),
        }
    }

    /// Where the log begins.
    #[inline(always)]
    fn log_start(&self) -> u64
        ensures at { result ≡ log_start self.now.core.layout self.now.reuse }
        ensures room { result + self.now.core.layout.capacity ≤ 2 ^ 63 }
    {
        match &self.reuse {
            None => self.turns.log_apart(),
            Some(_) => self.passed_start() + PASSED_APART * self.turns.passers(),
        }
    }

    /// Where the passed place stands that it loads next.
    fn passed_place(&self) -> u64
        requires { let X = election_of Q.Ratifier in
            step_of (situation X self.now) ≡ step.ReadsPassed }
        ensures at { let X = election_of Q.Ratifier in
            (t : ℕ) (p : Passing) → situation X self.now ≡ ReadsPassed t p
            → result ≡ passed_start self.now.core.layout self.now.reuse + PASSED_APART * p.loaded }
        ensures below { result < words_all self.now }
    {
        match &self.reuse {
            None => 0,
            Some(reuse) => self.passed_start() + PASSED_APART * reuse.passed.loaded,
        }
    }

    /// The word of the log in which this place lives.
    #[inline(always)]
    fn log_word(&self, place: u64) -> u64
        requires { 0 < self.now.core.layout.capacity }
        ensures at { result ≡ log_start self.now.core.layout self.now.reuse
            + cell_of self.now.core.layout place }
        ensures below { result < words_all self.now }
    {
        self.log_start() + cell(place, self.turns.capacity())
    }

    /// The bus has few words.
    fn is_small(&self)
        ensures { words_all self.now ≤ 2 ^ 63 }
    {
        self.turns.is_kept();
    }

    /// A step of its election, on the row that its tenure uses.
    #[inline(always)]
    fn election_step(&self, tenure: u64, word: u32) -> Option<Op>
        requires { let X = election_of Q.Ratifier in
            doing_of (situation_of X self.now.core) ≡ doing.Elects tenure }
        ensures step { let X = election_of Q.Ratifier in
            result ≡ (line X self.now (Does (situation_of X self.now.core))).op word }
        ensures below { IfSome result (λ o. register o < words_all self.now) }
    {
        self.election_step_on(tenure, self.election_row(tenure), word)
    }

    /// The step of a sender in its tenure, or before it.
    #[inline(always)]
    fn own_step(&self, doing: Doing, word: u32) -> Option<Op>
        requires { let X = election_of Q.Ratifier in
            doing_of (situation_of X self.now.core) ≡ doing }
        ensures step { let X = election_of Q.Ratifier in
            result ≡ (line X self.now (Does (situation_of X self.now.core))).op word }
        ensures below { IfSome result (λ o. register o < words_all self.now) }
    {
        match doing {
            Doing::Rests(_) | Doing::Awaits { .. } => None,
            Doing::Looks => Some(Op::Load(STAGE)),
            Doing::Elects { tenure } => self.election_step(tenure, word),
            Doing::Takes { tenure } => Some(Op::Store(STAGE, self.turns.stage_taken(tenure))),
            Doing::Word {
                tenure,
                words,
                stored,
            } => {
                let number = self.turns.frame_word(tenure, words, stored);
                Some(Op::Store(Reg(self.log_word(words + stored)), number))
            }
            Doing::Length { tenure, words } => {
                Some(Op::Store(LENGTH, self.turns.length_after(tenure, words)))
            }
            Doing::Back { .. } | Doing::Handed { .. } => {
                Some(Op::Store(STAGE, self.turns.stage_given()))
            }
        }
    }

    /// What the step of a sender in its tenure, or before it, is for.
    fn own_kind(&self, doing: Doing) -> Option<Kind>
        requires { let X = election_of Q.Ratifier in
            doing_of (situation_of X self.now.core) ≡ doing }
        ensures { let X = election_of Q.Ratifier in
            result ≡ (line X self.now (Does (situation_of X self.now.core))).kind }
    {
        match doing {
            Doing::Rests(_) | Doing::Awaits { .. } => None,
            Doing::Looks => Some(Kind::LoadStage),
            Doing::Elects { tenure } => self.turns.election_kind(tenure),
            Doing::Takes { .. } => Some(Kind::TakePage),
            Doing::Word { .. } => Some(Kind::StoreLogWord),
            Doing::Length { .. } => Some(Kind::StoreLength),
            Doing::Back { .. } | Doing::Handed { .. } => Some(Kind::GivePageBack),
        }
    }

    /// Each kind of step has its cause in what the sender holds before it.
    pub fn has_causes(&self)
        ensures { let X = election_of Q.Ratifier in IsCaused X Q.protocol self.now }
    {
        self.turns.is_kept();
    }

    /// The next step lies where its situation has it.
    fn lies(&self, word: u32)
        ensures { let X = election_of Q.Ratifier in
            IfSome ((line_now X self.now).op word)
            (λ o. LiesAt self.now (situation X self.now) (register o)) }
    {
        self.turns.is_kept();
        let _ = word;
    }

    /// What the answer to the next step tells.
    fn tells(&self, got: u64, word: u32)
        requires { let X = election_of Q.Ratifier in
            IsSome ((line_now X self.now).op word) }
        ensures { let X = election_of Q.Ratifier in
            FeedTells X self.now got word ((line_now X self.now).answer got word) }
    {
        self.turns.is_kept();
        let _ = (got, word);
    }

    /// It answers Full only once it has loaded all passed places.
    fn loads_first(&self, got: u64, word: u32)
        requires { let X = election_of Q.Ratifier in
            IsSome ((line_now X self.now).op word) }
        ensures { let X = election_of Q.Ratifier in
            (line_now X self.now).answer got word ≡ Turn.Full → HasLoadedAll self.now }
    {
        self.tells(got, word);
        let _ = &self.turns;
    }

    /// The floor of its page does not fall where none of the passed places so far lies before it.
    fn keeps_floor(&self, got: u64, word: u32)
        ensures { let X = election_of Q.Ratifier in
            KeepsFloor X self.now got ((line_now X self.now).fed got word) }
    {
        self.turns.is_kept();
        let _ = (got, word);
    }

    /// What the answer tells where no step is due.
    fn rest_tells(&self)
        ensures { let X = election_of Q.Ratifier in
            RestIsTold X self.now (rest_at (line_now X self.now)) }
    {
        self.turns.is_kept();
    }

    /// What the next step is for; none where none is due.
    pub fn kind(&self) -> Option<Kind>
        ensures kind { let X = election_of Q.Ratifier in result ≡ (line_now X self.now).kind }
        ensures cause { IfSome result (λ k. HasCause Q.protocol self.now k) }
    {
        self.kind_of(self.step())
    }

    /// The same of the step that `step` told.
    pub fn kind_of(&self, step: Step) -> Option<Kind>
        requires { let X = election_of Q.Ratifier in step_of (situation X self.now) ≡ step }
        ensures kind { let X = election_of Q.Ratifier in result ≡ (line_now X self.now).kind }
        ensures cause { IfSome result (λ k. HasCause Q.protocol self.now k) }
    {
        self.has_causes();
        self.kind_in(step)
    }

    /// What the step is for that `step` told.
    fn kind_in(&self, step: Step) -> Option<Kind>
        requires { let X = election_of Q.Ratifier in step_of (situation X self.now) ≡ step }
        ensures { let X = election_of Q.Ratifier in result ≡ (line_now X self.now).kind }
    {
        match step {
            Step::Does(doing) => self.own_kind(doing),
            Step::Announces { .. } => Some(Kind::Enter),
            Step::Validates { .. } => Some(Kind::LoadStageAgain),
            Step::Unpins { .. } | Step::Withdraws { .. } => Some(Kind::Withdraw),
            Step::Scans => Some(Kind::ReadPresence),
            Step::Clears => Some(Kind::ClearRow),
            Step::ReadsPassed => Some(Kind::ReadPassed),
        }
    }

    /// The answer where no step is due, with what it tells; Going where one is, or a page is to
    /// be laid.
    pub fn rest(&self) -> Turn
        ensures answer { let X = election_of Q.Ratifier in result ≡ rest_at (line_now X self.now) }
        ensures tells { let X = election_of Q.Ratifier in RestIsTold X self.now result }
    {
        self.rest_of(self.step())
    }

    /// The same of the step that `step` told.
    #[inline(always)]
    pub fn rest_of(&self, step: Step) -> Turn
        requires { let X = election_of Q.Ratifier in step_of (situation X self.now) ≡ step }
        ensures answer { let X = election_of Q.Ratifier in result ≡ rest_at (line_now X self.now) }
        ensures tells { let X = election_of Q.Ratifier in RestIsTold X self.now result }
    {
        self.rest_tells();
        self.rest_in(step)
    }

    /// The answer where `step` told that no step is due.
    #[inline(always)]
    fn rest_in(&self, step: Step) -> Turn
        requires { let X = election_of Q.Ratifier in step_of (situation X self.now) ≡ step }
        ensures { let X = election_of Q.Ratifier in result ≡ rest_at (line_now X self.now) }
    {
        match step {
            Step::Does(doing) => rest_of(doing),
            Step::Announces { .. } | Step::Validates { .. } => Turn::Going,
            Step::Unpins { .. } | Step::Withdraws { .. } => Turn::Going,
            Step::Scans | Step::Clears => Turn::Going,
            Step::ReadsPassed => Turn::Going,
        }
    }

    /// A random word is asked for exactly where the next step is a vote.
    fn asks_for_votes(&self)
        ensures { let X = election_of Q.Ratifier in
            IsTrue (line_now X self.now).wants_word
            ↔ ((line_now X self.now).kind ≡ Some kind.Vote) }
    {}

    /// The next step asks for a random word: it is a vote.
    #[inline(always)]
    pub fn wants_word(&self) -> bool
        ensures word { let X = election_of Q.Ratifier in
            result ≡ (line_now X self.now).wants_word }
        ensures vote { let X = election_of Q.Ratifier in
            IsTrue result ↔ ((line_now X self.now).kind ≡ Some kind.Vote) }
    {
        self.wants_word_of(self.step())
    }

    /// The same of the step that `step` told.
    #[inline(always)]
    pub fn wants_word_of(&self, step: Step) -> bool
        requires { let X = election_of Q.Ratifier in step_of (situation X self.now) ≡ step }
        ensures word { let X = election_of Q.Ratifier in
            result ≡ (line_now X self.now).wants_word }
        ensures vote { let X = election_of Q.Ratifier in
            IsTrue result ↔ ((line_now X self.now).kind ≡ Some kind.Vote) }
    {
        self.asks_for_votes();
        self.wants_word_in(step)
    }

    /// Whether the step asks for a random word that `step` told.
    #[inline(always)]
    fn wants_word_in(&self, step: Step) -> bool
        requires { let X = election_of Q.Ratifier in step_of (situation X self.now) ≡ step }
        ensures { let X = election_of Q.Ratifier in result ≡ (line_now X self.now).wants_word }
    {
        match step {
            Step::Does(_) => self.turns.wants_word(),
            Step::Announces { .. } | Step::Validates { .. } => false,
            Step::Unpins { .. } | Step::Withdraws { .. } => false,
            Step::Scans | Step::Clears => false,
            Step::ReadsPassed => false,
        }
    }

    /// It pins no tenure.
    fn is_away(&self) -> bool
        ensures { IsTrue result ↔ IsAway self.now.reuse }
    {
        match &self.reuse {
            None => true,
            Some(reuse) => reuse.pin == Pin::Away,
        }
    }

    /// The page lies before it.
    pub fn holds_page(&self) -> bool
        ensures { result ≡ is_holding self.now.core.phase }
    {
        self.turns.holds_page()
    }

    /// The page is taken and is to be laid.
    #[inline(always)]
    pub fn awaits_page(&self) -> bool
        ensures { IsTrue result ↔ AwaitsItsPage self.now.core.phase }
    {
        self.turns.awaits_page()
    }

    /// Lays the page before it, which it has taken.
    pub fn lay(&mut self, page: OwnedPage)
        requires { AwaitsItsPage self.old.core.phase }
        ensures { (t : ℕ) → self.old.core.phase ≡ phase.Taken t
            → self.new ≡ record self.old {
              core = record self.old.core { phase = phase.Holding t page 0 false };
            } }
    {
        self.turns.lay(page);
    }

    /// Takes the page from it, where it is to be given back.
    pub fn take_out(&mut self) -> Option<OwnedPage>
        ensures page { let X = election_of Q.Ratifier in
            result ≡ page_out (line_now X self.old).move }
        ensures state { let X = election_of Q.Ratifier in
            self.new ≡ record self.old {
              core = core_without (line_now X self.old).move self.old.core;
            } }
    {
        let mut step = self.step();
        self.take_out_of(&mut step)
    }

    /// The same of the step that `step` told, which becomes the one that is due afterwards.
    #[inline(always)]
    pub fn take_out_of(&mut self, step: &mut Step) -> Option<OwnedPage>
        requires { let X = election_of Q.Ratifier in step_of (situation X self.old) ≡ step.old }
        ensures page { let X = election_of Q.Ratifier in
            result ≡ page_out (line_now X self.old).move }
        ensures state { let X = election_of Q.Ratifier in
            self.new ≡ record self.old {
              core = core_without (line_now X self.old).move self.old.core;
            } }
        ensures due { let X = election_of Q.Ratifier in step_of (situation X self.new) ≡ step.new }
    {
        match ending_of(*step) {
            None => None,
            Some(Ending { tenure, reason }) => {
                *step = Step::Does(Doing::Handed { tenure, reason });
                Some(self.turns.hand(tenure, reason))
            }
        }
    }

    /// The next step; none where none is due. Takes nothing and changes nothing.
    pub fn next(&self, word: u32) -> Option<Op>
        ensures step { let X = election_of Q.Ratifier in
            result ≡ (line_now X self.now).op word }
        ensures lies { let X = election_of Q.Ratifier in
            IfSome result (λ o. LiesAt self.now (situation X self.now) (register o)) }
        ensures below { IfSome result (λ o. register o < words_all self.now) }
    {
        self.next_of(self.step(), word)
    }

    /// The same of the step that `step` told.
    #[inline(always)]
    pub fn next_of(&self, step: Step, word: u32) -> Option<Op>
        requires { let X = election_of Q.Ratifier in step_of (situation X self.now) ≡ step }
        ensures step { let X = election_of Q.Ratifier in
            result ≡ (line_now X self.now).op word }
        ensures lies { let X = election_of Q.Ratifier in
            IfSome result (λ o. LiesAt self.now (situation X self.now) (register o)) }
        ensures below { IfSome result (λ o. register o < words_all self.now) }
    {
        self.lies(word);
        self.step_in(step, word)
    }

    /// The step that `step` told.
    #[inline(always)]
    fn step_in(&self, step: Step, word: u32) -> Option<Op>
        requires { let X = election_of Q.Ratifier in step_of (situation X self.now) ≡ step }
        ensures step { let X = election_of Q.Ratifier in
            result ≡ (line_now X self.now).op word }
        ensures below { IfSome result (λ o. register o < words_all self.now) }
    {
        match step {
            Step::Does(doing) => self.own_step(doing, word),
            Step::Announces { tenure } => Some(Op::Store(self.presence(), 1 + tenure)),
            Step::Validates { .. } => Some(Op::Load(STAGE)),
            Step::Unpins { .. } | Step::Withdraws { .. } => Some(Op::Store(self.presence(), 0)),
            Step::Scans | Step::Clears => reclaimer_step(&self.reuse),
            Step::ReadsPassed => Some(Op::Load(Reg(self.passed_place()))),
        }
    }

    /// The step that `next` told for the same random word was taken, and found `got`.
    pub fn feed(&mut self, got: u64, word: u32) -> Turn
        requires { let X = election_of Q.Ratifier in
            IsSome ((line_now X self.old).op word) }
        ensures state { let X = election_of Q.Ratifier in
            self.new ≡ (line_now X self.old).fed got word }
        ensures answer { let X = election_of Q.Ratifier in
            result ≡ (line_now X self.old).answer got word }
        ensures tells { let X = election_of Q.Ratifier in FeedTells X self.old got word result }
        ensures floor { let X = election_of Q.Ratifier in KeepsFloor X self.old got self.new }
        ensures full { result ≡ Turn.Full → HasLoadedAll self.old }
    {
        let step = self.step();
        self.feed_of(step, got, word)
    }

    /// The same of the step that `step` told.
    #[inline(always)]
    pub fn feed_of(&mut self, step: Step, got: u64, word: u32) -> Turn
        requires step { let X = election_of Q.Ratifier in
            step_of (situation X self.old) ≡ step }
        requires due { let X = election_of Q.Ratifier in
            IsSome ((line_now X self.old).op word) }
        ensures state { let X = election_of Q.Ratifier in
            self.new ≡ (line_now X self.old).fed got word }
        ensures answer { let X = election_of Q.Ratifier in
            result ≡ (line_now X self.old).answer got word }
        ensures tells { let X = election_of Q.Ratifier in FeedTells X self.old got word result }
        ensures floor { let X = election_of Q.Ratifier in KeepsFloor X self.old got self.new }
        ensures full { result ≡ Turn.Full → HasLoadedAll self.old }
    {
        self.tells(got, word);
        self.keeps_floor(got, word);
        self.loads_first(got, word);
        feed_parts(&mut self.turns, &mut self.reuse, step, got, word)
    }
}

/// The next step of a reclamation.
#[inline(always)]
fn reclaimer_step(reuse: &Option<Reuse>) -> Option<Op>
    ensures { result ≡ reclaimer_op_of reuse.now }
{
    match reuse {
        None => None,
        Some(reuse) => match &reuse.reclaimer {
            None => None,
            Some(reclaimer) => reclaimer.next(),
        },
    }
}
