//! What a sender does in its tenures, whatever rows there are.

ghost use Rattle.std.specs.Prelude.{◌≡◌, ℕ, ◌+◌, ◌*◌, ◌-◌, ◌<◌, ◌≤◌, ◌^◌, []};
ghost use Rattle.std.specs.Prelude.{slice_index, IfSome, IsSome, IsTrue, ◌↔◌, false, true, Some};
ghost use Rattle.bus_register.specs.Words.{register};
ghost use Rattle.bus_batch.specs.Batches.{frame_of, HasSomething};
ghost use Rattle.bus_batch.specs.Frames.{frame_words};
ghost use Rattle.bus_batch.specs.declared.batches.Phase.TheVariants as queue_phase;
ghost use Rattle.bus_tenure.specs.Core.{log_at, Core, row_at, words_of, is_marking, frame_len};
ghost use Rattle.bus_tenure.specs.Core.{has_room, page_after};
ghost use Rattle.bus_tenure.specs.Elections.{election_of, elections, layout_with, ElectorKeeps};
ghost use Rattle.bus_tenure.specs.Keeping.{SenderInvariant, IsInTenure};
ghost use Rattle.bus_tenure.specs.Seen.{turns_of, tenure_of, HasElection, AwaitsItsPage};
ghost use Rattle.bus_tenure.specs.Seen.{HoldsPublished, is_holding};
ghost use Rattle.bus_tenure.specs.Situations.{core_begun, LooksAtStage, GivesBack, resting};
ghost use Rattle.bus_tenure.specs.Situations.{holding, situation_of, kind_at, op_at, core_at_rest};
ghost use Rattle.bus_tenure.specs.Situations.{core_after_stage, tenure_begun, fed_at};
ghost use Rattle.bus_tenure.specs.Situations.{answer_of_stage, answer_of_return, answer_at};
ghost use Rattle.bus_tenure.specs.Situations.{wants_at, answer_sent};
ghost use Rattle.bus_tenure.specs.declared.pages.Page.{Page};
ghost use Rattle.bus_tenure.specs.declared.phases.Phase.TheVariants as phase;
ghost use Rattle.bus_tenure.specs.Doings.{doing_of, Ends, IsWord, FitsBehind, StoresNext};
ghost use Rattle.bus_tenure.specs.declared.doings.Doing.TheVariants as doing;

mod filling;
mod flooring;
mod running;
mod storing;

use super::doings::Doing;
use super::pages::OwnedPage;
use super::phases::{Phase, Reason};
use super::turns::Turn;
use bus_adoptcommit::Ratifier;
use bus_batch::Batch;
use bus_ownerbits::Election;
use bus_register::limits::{
    MOST_BODY_WORDS, MOST_MESSAGES, MOST_RECEIVERS, MOST_ROUNDS, MOST_SENDERS, NUMBERS, TENURES,
};
use bus_register::{Kind, Machine, Op, Reg, SenderNo};
use std::marker::Model;
use std::mem;

/// The sizes of a bus, with how many words each row has.
#[derive(Clone, Copy)]
struct Sizes {
    senders: u64,
    rounds: u64,
    rows: u64,
    width: u64,
    capacity: u64,
    passers: u64,
}

/// What a sender holds in its tenures: the batch that it fills, the tenure that it has begun, and
/// the first that it may begin. `doing` tells what it does next, and there is one call for each.
///
/// Rows are counted and lie as on a bus with a row for each tenure.
#[derive(Drop)]
pub struct Turns<Q: Ratifier> {
    sizes: Sizes,
    me: SenderNo,
    batch: Batch,
    least: u64,
    phase: Phase<Election<Q>>,
}

impl<Q: Ratifier> Model for Turns<Q> {
    ghost use Rattle.bus_tenure.specs.Core.{Core};
    ghost use Rattle.bus_tenure.specs.Elections.{Elector, ElectorKeeps, elections};
    ghost use Rattle.bus_tenure.specs.Keeping.{SenderInvariant};

    ghost Value = { Core (Elector Q) };

    ghost view = { λ c. record {
      layout = record {
        senders = c.sizes.senders;
        rounds = c.sizes.rounds;
        rows = c.sizes.rows;
        width = c.sizes.width;
        capacity = c.sizes.capacity;
        passers = c.sizes.passers;
        batch = c.batch.limit;
      };
      me = c.me.0;
      queue = c.batch;
      least = c.least;
      phase = c.phase;
    } };

    ghost invariant = { λ c. SenderInvariant
        ((elections Q.protocol c.sizes.rounds).width c.sizes.senders)
        (ElectorKeeps Q.protocol c.sizes.rounds c.sizes.senders c.me.0)
        (record {
          layout = record {
            senders = c.sizes.senders;
            rounds = c.sizes.rounds;
            rows = c.sizes.rows;
            width = c.sizes.width;
            capacity = c.sizes.capacity;
            passers = c.sizes.passers;
            batch = c.batch.limit;
          };
          me = c.me.0;
          queue = c.batch;
          least = c.least;
          phase = c.phase;
        }) };
}

impl<Q: Ratifier + Drop> Turns<Q> {
    /// Sender `me` of so many, with nothing pending, of a bus of so many rounds for each bit, rows,
    /// log words, passed places and messages of a batch. Its first message gets the number `first`.
    pub fn new(
        senders: u64,
        me: SenderNo,
        rounds: u64,
        rows: u64,
        log_words: u64,
        first: u64,
        passers: u64,
        batch: u64,
    ) -> Turns<Q>
        requires me_below { me.0 < senders }
        requires few { senders ≤ MOST_SENDERS }
        requires rounds_some { 1 ≤ rounds }
        requires rounds_few { rounds ≤ MOST_ROUNDS }
        requires rows_few { rows ≤ TENURES }
        requires log_few { log_words ≤ 2 ^ 20 }
        requires passers_few { passers ≤ MOST_RECEIVERS }
        requires batch { (1 ≤ batch) × (batch ≤ MOST_MESSAGES) }
        requires room { words_of (layout_with Q.protocol senders rounds rows log_words passers
            batch) ≤ 2 ^ 63 }
        requires numbers { first ≤ NUMBERS }
        ensures { result ≡ record {
          layout = layout_with Q.protocol senders rounds rows log_words passers batch;
          me = me.0;
          queue = record {
            sender = me;
            limit = batch;
            first = first;
            messages = [];
            phase = queue_phase.Open;
            busy = false;
          };
          least = 0;
          phase = phase.Resting;
        } }
    {
        Turns {
            sizes: Sizes {
                senders,
                rounds,
                rows,
                width: Election::<Q>::width(senders, rounds),
                capacity: log_words,
                passers,
            },
            me,
            batch: Batch::new(me, first, batch),
            least: 0,
            phase: Phase::Resting,
        }
    }

    /// The sender's number.
    pub fn number(&self) -> SenderNo
        ensures { result.0 ≡ self.now.me }
    {
        self.me
    }

    /// The tenure that it has begun.
    pub fn tenure(&self) -> Option<u64>
        ensures is { result ≡ tenure_of self.now.phase }
        ensures below { IfSome result (λ t. t < self.now.layout.rows) }
        ensures few { self.now.layout.rows ≤ TENURES }
    {
        match &self.phase {
            Phase::Resting => None,
            Phase::Electing { tenure, .. }
            | Phase::Taken { tenure }
            | Phase::Holding { tenure, .. }
            | Phase::Giving { tenure, .. } => Some(*tenure),
        }
    }

    /// A mark waits in place of messages.
    fn is_marking(&self) -> bool
        ensures { result ≡ is_marking self.now.queue.phase }
    {
        self.is_closing() || self.is_leaving()
    }

    /// Nothing is pending, and no mark waits.
    fn has_nothing(&self) -> bool
        ensures { IsTrue result
            ↔ ((self.now.queue.messages ≡ []) × (is_marking self.now.queue.phase ≡ false)) }
    {
        self.batch.is_empty() && !self.is_marking()
    }

    /// What it does where no tenure is begun.
    fn at_rest(&self) -> Doing
        ensures { result ≡ doing_of (resting self.now) }
    {
        if self.is_closed() {
            Doing::Rests(Turn::Closed)
        } else if self.has_nothing() {
            Doing::Rests(Turn::Idle)
        } else if self.least >= self.sizes.rows {
            Doing::Rests(Turn::Spent)
        } else {
            Doing::Looks
        }
    }

    /// The tenure that it may begin where the stage is this.
    pub fn may_begin(&self, stage: u64) -> Option<u64>
        ensures { result ≡ tenure_begun self.now stage }
    {
        let tenure = stage / 2;
        if stage % 2 == 1 || tenure < self.least || tenure >= self.sizes.rows {
            None
        } else {
            Some(tenure)
        }
    }

    /// How many words its frame has, the head included: 2 to 513.
    pub fn frame_len(&self) -> u64
        requires { HasSomething self.now.queue }
        ensures len { result ≡ frame_len self.now }
        ensures most { result ≤ 1 + MOST_BODY_WORDS }
    {
        self.batch.frame_len()
    }

    /// The frame fits the log, on the page.
    fn has_room(&self, page: &OwnedPage) -> bool
        requires { HasSomething self.now.queue }
        ensures { result ≡ has_room self.now page.now }
    {
        page.is_kept();
        let page = page.get();
        let most = self.sizes.capacity + page.floor;
        let len = self.frame_len();
        len <= most && page.words <= most - len
    }

    /// What it does next with a page before it.
    #[inline(always)]
    fn hold(&self, tenure: u64, held: &OwnedPage, stored: u64, published: bool) -> Doing
        requires { HasSomething self.now.queue }
        ensures { result ≡ doing_of (holding self.now tenure held.now stored published) }
    {
        let page = held.get();
        if published {
            Doing::Back {
                tenure,
                reason: Reason::Sent,
            }
        } else if page.ended {
            Doing::Back {
                tenure,
                reason: Reason::FoundEnd,
            }
        } else if !self.has_room(held) {
            Doing::Back {
                tenure,
                reason: Reason::NoRoom,
            }
        } else if stored < self.frame_len() {
            Doing::Word {
                tenure,
                words: page.words,
                stored,
            }
        } else {
            Doing::Length {
                tenure,
                words: page.words,
            }
        }
    }

    /// What it does next.
    #[inline(always)]
    pub fn doing(&self) -> Doing
        ensures { let X = election_of Q.Ratifier in result ≡ doing_of (situation_of X self.now) }
    {
        match &self.phase {
            Phase::Resting => self.at_rest(),
            Phase::Electing { tenure, election } => match election.owner() {
                Some(_) => Doing::Takes { tenure: *tenure },
                None => Doing::Elects { tenure: *tenure },
            },
            Phase::Taken { tenure } => Doing::Awaits { tenure: *tenure },
            Phase::Holding {
                tenure,
                page,
                stored,
                published,
            } => self.hold(*tenure, page, *stored, *published),
            Phase::Giving { tenure, reason } => Doing::Handed {
                tenure: *tenure,
                reason: *reason,
            },
        }
    }

    /// Whether it stores a word of its frame next; then it is the one behind so many words of the
    /// log and of the frame.
    #[inline(always)]
    pub fn stores_word(&self, begun: &mut u64, below: &mut u64, behind: &mut u64) -> bool
        ensures word { let X = election_of Q.Ratifier in IsTrue result
            → doing_of (situation_of X self.now) ≡ doing.Word begun.new below.new behind.new }
        ensures exact { let X = election_of Q.Ratifier in
            IsWord (doing_of (situation_of X self.now)) → IsTrue result }
    {
        let Phase::Holding {
            tenure,
            page,
            stored,
            published,
        } = &self.phase
        else {
            return false;
        };
        match self.hold(*tenure, page, *stored, *published) {
            Doing::Word {
                tenure,
                words,
                stored,
            } => {
                *begun = tenure;
                *below = words;
                *behind = stored;
                true
            }
            _ => false,
        }
    }

    /// The page lies before it.
    pub fn holds_page(&self) -> bool
        ensures { result ≡ is_holding self.now.phase }
    {
        match &self.phase {
            Phase::Holding { .. } => true,
            _ => false,
        }
    }

    /// Its frame stands below the length, and it has the page still.
    #[inline(always)]
    pub fn has_published(&self) -> bool
        ensures { IsTrue result ↔ HoldsPublished self.now.phase }
    {
        match &self.phase {
            Phase::Holding { published, .. } => *published,
            _ => false,
        }
    }

    /// How many senders there are.
    pub fn senders(&self) -> u64
        ensures is { result ≡ self.now.layout.senders }
        ensures few { result ≤ MOST_SENDERS }
    {
        self.sizes.senders
    }

    /// How many tenures there are.
    pub fn tenures(&self) -> u64
        ensures { result ≡ self.now.layout.rows }
    {
        self.sizes.rows
    }

    /// How many words a row has.
    pub fn width(&self) -> u64
        ensures is { result ≡ self.now.layout.width }
        ensures room { 2 + self.now.layout.rows * result ≤ 2 ^ 63 }
    {
        self.sizes.width
    }

    /// How many passed places there are.
    pub fn passers(&self) -> u64
        ensures is { result ≡ self.now.layout.passers }
        ensures few { result ≤ MOST_RECEIVERS }
    {
        self.sizes.passers
    }

    /// How many words the log has.
    pub fn capacity(&self) -> u64
        ensures is { result ≡ self.now.layout.capacity }
        ensures few { result ≤ 2 ^ 20 }
    {
        self.sizes.capacity
    }

    /// The next step of its election.
    #[inline(always)]
    pub fn election_next(&self, tenure: u64, word: u32) -> Option<Op>
        requires { let X = election_of Q.Ratifier in
            doing_of (situation_of X self.now) ≡ doing.Elects tenure }
        ensures step { let X = election_of Q.Ratifier in
            result ≡ op_at X self.now (situation_of X self.now) word }
        ensures above { IfSome result (λ o. row_at self.now.layout tenure ≤ register o) }
        ensures below { IfSome result (λ o.
            register o < row_at self.now.layout tenure + self.now.layout.width) }
        ensures tenure { tenure < self.now.layout.rows }
    {
        let Phase::Electing { election, .. } = &self.phase else {
            unreachable!()
        };
        election.next(word)
    }

    /// What that step is for.
    pub fn election_kind(&self, tenure: u64) -> Option<Kind>
        requires { let X = election_of Q.Ratifier in
            doing_of (situation_of X self.now) ≡ doing.Elects tenure }
        ensures { let X = election_of Q.Ratifier in
            result ≡ kind_at X self.now (situation_of X self.now) }
    {
        let Phase::Electing { election, .. } = &self.phase else {
            unreachable!()
        };
        election.kind()
    }

    /// The next step asks for a random word.
    pub fn wants_word(&self) -> bool
        ensures { let X = election_of Q.Ratifier in
            result ≡ wants_at X self.now (situation_of X self.now) }
    {
        match &self.phase {
            Phase::Electing { election, .. } => match election.owner() {
                Some(_) => false,
                None => election.wants_word(),
            },
            _ => false,
        }
    }

    /// How many turns the election takes at most, with the one that takes the page; 0 where none is
    /// begun.
    pub fn turns_left(&self) -> u64
        ensures turns { let X = election_of Q.Ratifier in result ≡ turns_of X self.now.phase }
        ensures running { HasElection self.now.phase → 1 ≤ result }
    {
        match &self.phase {
            Phase::Electing { election, .. } => election.turns_left(),
            _ => 0,
        }
    }

    /// What it keeps in its tenures.
    pub fn is_kept(&self)
        ensures { SenderInvariant
            ((elections Q.protocol self.now.layout.rounds).width self.now.layout.senders)
            (ElectorKeeps Q.protocol self.now.layout.rounds self.now.layout.senders self.now.me)
            self.now }
    {
        let _ = &self.phase;
    }

    /// The word of its frame that it stores next.
    pub fn frame_word(&self, tenure: u64, words: u64, stored: u64) -> u64
        requires { let X = election_of Q.Ratifier in
            doing_of (situation_of X self.now) ≡ doing.Word tenure words stored }
        ensures word { result
            ≡ slice_index (frame_words (frame_of self.now.queue tenure)) stored }
        ensures room { FitsBehind self.now words }
        ensures log { 0 < self.now.layout.capacity }
        ensures number { words + frame_len self.now < 2 ^ 64 }
        ensures below { stored < frame_len self.now }
    {
        self.batch.word(stored, tenure)
    }

    /// The length behind its frame.
    pub fn length_after(&self, tenure: u64, words: u64) -> u64
        requires { let X = election_of Q.Ratifier in
            doing_of (situation_of X self.now) ≡ doing.Length tenure words }
        ensures { result ≡ words + frame_len self.now }
    {
        words + self.batch.frame_len()
    }

    /// Begins a tenure.
    pub fn begin(&mut self, tenure: u64)
        requires rests { self.old.phase ≡ phase.Resting }
        requires looks { resting self.old ≡ LooksAtStage }
        requires below { tenure < self.old.layout.rows }
        ensures { let X = election_of Q.Ratifier in self.new ≡ core_begun X self.old tenure }
    {
        let sizes = self.sizes;
        let row = Reg(2 + tenure * sizes.width);
        self.batch.begin();
        // With the phase that it leaves no page is to be freed.
        let Phase::Resting = &self.phase else {
            unreachable!()
        };
        self.phase = Phase::Electing {
            tenure,
            election: Election::start(sizes.senders, self.me, sizes.rounds, row),
        };
    }

    /// Takes in what the stage is, and begins the tenure that it may begin.
    pub fn see_stage(&mut self, got: u64) -> Turn
        requires rests { self.old.phase ≡ phase.Resting }
        requires looks { resting self.old ≡ LooksAtStage }
        ensures state { let X = election_of Q.Ratifier in
            self.new ≡ core_after_stage X self.old got }
        ensures answer { result ≡ answer_of_stage self.old got }
    {
        let tenure = got / 2;
        if got % 2 == 1 || tenure < self.least {
            return Turn::Waiting;
        }
        if tenure >= self.sizes.rows {
            self.least = tenure;
            return Turn::Spent;
        }
        self.begin(tenure);
        Turn::Going
    }

    /// Takes the next step of its election. It answers the owner, where that is another sender.
    pub fn elect(&mut self, started: u64, got: u64, word: u32) -> Turn
        requires elects { let X = election_of Q.Ratifier in
            doing_of (situation_of X self.old) ≡ doing.Elects started }
        requires steps { let X = election_of Q.Ratifier in
            IsSome (op_at X self.old (situation_of X self.old) word) }
        ensures state { let X = election_of Q.Ratifier in
            self.new ≡ fed_at X self.old (situation_of X self.old) got word }
        ensures answer { let X = election_of Q.Ratifier in
            result ≡ answer_at X self.old (situation_of X self.old) got word }
    {
        match self.elect_on(started, got, word) {
            None => Turn::Going,
            Some(answer) => answer,
        }
    }

    /// Takes the page.
    pub fn take_page(&mut self, tenure: u64)
        requires { let X = election_of Q.Ratifier in
            doing_of (situation_of X self.old) ≡ doing.Takes tenure }
        ensures { self.new ≡ record self.old { phase = phase.Taken tenure } }
    {
        self.phase = Phase::Taken { tenure };
    }

    /// A word of its frame is stored.
    pub fn word_stored(&mut self, tenure: u64, words: u64, at: u64)
        requires { let X = election_of Q.Ratifier in
            doing_of (situation_of X self.old) ≡ doing.Word tenure words at }
        ensures { let X = election_of Q.Ratifier in
            (got : ℕ) (word : ℕ)
            → self.new ≡ fed_at X self.old (situation_of X self.old) got word }
    {
        if let Phase::Holding { stored, .. } = &mut self.phase {
            *stored += 1;
        }
    }

    /// The word of its frame is stored that `stores_word` told. Says whether it stores the word
    /// behind that one next; then that is `value`, and goes to this place.
    #[inline(always)]
    pub fn next_word(&mut self, place: &mut u64, value: &mut u64) -> bool
        requires { let X = election_of Q.Ratifier in IsWord (doing_of (situation_of X self.old)) }
        ensures state { let X = election_of Q.Ratifier in
            (got : ℕ) (word : ℕ)
            → self.new ≡ fed_at X self.old (situation_of X self.old) got word }
        ensures next { let X = election_of Q.Ratifier in IsTrue result
            → (tenure words stored : ℕ)
            → doing_of (situation_of X self.old) ≡ doing.Word tenure words stored
            → StoresNext X self.new tenure words (stored + 1) value.new }
        ensures place { let X = election_of Q.Ratifier in IsTrue result
            → (tenure words stored : ℕ)
            → doing_of (situation_of X self.old) ≡ doing.Word tenure words stored
            → place.new ≡ words + (stored + 1) }
        ensures exact { let X = election_of Q.Ratifier in
            IsWord (doing_of (situation_of X self.new)) → IsTrue result }
    {
        let Phase::Holding {
            tenure,
            page,
            stored,
            ..
        } = &mut self.phase
        else {
            return false;
        };
        *stored += 1;
        let (tenure, words, stored) = (*tenure, page.get().words, *stored);
        if stored >= self.frame_len() {
            return false;
        }
        *value = self.frame_word(tenure, words, stored);
        *place = words + stored;
        true
    }

    /// The length is stored.
    pub fn length_stored(&mut self, tenure: u64, words: u64)
        requires { let X = election_of Q.Ratifier in
            doing_of (situation_of X self.old) ≡ doing.Length tenure words }
        ensures { let X = election_of Q.Ratifier in
            (got : ℕ) (word : ℕ)
            → self.new ≡ fed_at X self.old (situation_of X self.old) got word }
    {
        if let Phase::Holding { published, .. } = &mut self.phase {
            *published = true;
        }
    }

    /// The answer once its frame stands in the log.
    fn sent(&self, tenure: u64) -> Turn
        requires { HasSomething self.now.queue }
        ensures { result ≡ answer_sent self.now.queue tenure self.now.queue.phase }
    {
        if self.is_closing() {
            return Turn::Closed;
        }
        if self.is_leaving() {
            return Turn::Left { tenure };
        }
        let next = self.next_number();
        Turn::Delivered {
            tenure,
            first: next - self.pending(),
            last: next - 1,
        }
    }

    /// Ends the tenure: the contents are sent, or come back, or are never sent.
    fn finish(&mut self, tenure: u64, reason: Reason) -> Turn
        requires { IsInTenure self.old tenure }
        ensures state { self.new ≡ core_at_rest self.old reason tenure }
        ensures answer { result ≡ answer_of_return self.old.queue tenure reason }
    {
        let sent = self.sent(tenure);
        self.least = tenure + 1;
        self.phase = Phase::Resting;
        match reason {
            Reason::Sent => {
                self.batch.done();
                sent
            }
            Reason::FoundEnd => {
                self.batch.ended();
                Turn::Closed
            }
            Reason::NoRoom => {
                self.batch.back();
                Turn::Full
            }
        }
    }

    /// The page is taken and is to be laid.
    pub fn awaits_page(&self) -> bool
        ensures { IsTrue result ↔ AwaitsItsPage self.now.phase }
    {
        match &self.phase {
            Phase::Taken { .. } => true,
            _ => false,
        }
    }

    /// Lays the page before it, which it has taken.
    pub fn lay(&mut self, page: OwnedPage)
        requires { AwaitsItsPage self.old.phase }
        ensures { (t : ℕ) → self.old.phase ≡ phase.Taken t
            → self.new ≡ record self.old { phase = phase.Holding t page 0 false } }
    {
        page.is_kept();
        if let Phase::Taken { tenure } = self.phase {
            self.phase = Phase::Holding {
                tenure,
                page,
                stored: 0,
                published: false,
            };
        }
    }

    /// Brings the page up to date for the next owner: the tenures, and after a frame the sender's
    /// number, whether it has left, the end mark and the words.
    fn update(&self, tenure: u64, page: &mut OwnedPage, reason: Reason)
        requires below { tenure < 2 ^ 63 }
        requires room { reason ≡ Reason.Sent → page.old.words + frame_len self.now < 2 ^ 64 }
        requires something { HasSomething self.now.queue }
        ensures { page.new ≡ page_after self.now tenure page.old reason }
    {
        let tenures = tenure + 1;
        page.end_tenure(tenures);
        match reason {
            Reason::Sent => {
                let words = page.get().words + self.frame_len();
                let (left, ended) = (self.is_leaving(), self.is_closing());
                page.take_frame(self.me, self.next_number(), left, ended, words);
            }
            Reason::FoundEnd | Reason::NoRoom => {}
        }
    }

    /// Takes the page from it, brought up to date, to be given back.
    pub fn hand(&mut self, tenure: u64, reason: Reason) -> OwnedPage
        requires { let X = election_of Q.Ratifier in
            doing_of (situation_of X self.old) ≡ doing.Back tenure reason }
        ensures page { let X = election_of Q.Ratifier in
            (page : Page) → situation_of X self.old ≡ GivesBack tenure page reason
            → result ≡ page_after self.old tenure page reason }
        ensures state { self.new ≡ record self.old { phase = phase.Giving tenure reason } }
    {
        let held = mem::replace(&mut self.phase, Phase::Giving { tenure, reason });
        let Phase::Holding { mut page, .. } = held else {
            unreachable!()
        };
        self.update(tenure, &mut page, reason);
        page
    }

    /// Where the log begins with a row for each tenure.
    pub fn log_apart(&self) -> u64
        ensures at { result ≡ log_at self.now.layout }
        ensures room { result + self.now.layout.capacity ≤ 2 ^ 63 }
    {
        2 + self.sizes.rows * self.sizes.width
    }

    /// The stage of its tenure with the page taken.
    pub fn stage_taken(&self, tenure: u64) -> u64
        requires { let X = election_of Q.Ratifier in
            doing_of (situation_of X self.now) ≡ doing.Takes tenure }
        ensures is { result ≡ 2 * tenure + 1 }
        ensures below { tenure < self.now.layout.rows }
    {
        let Phase::Electing { tenure, .. } = &self.phase else {
            unreachable!()
        };
        2 * *tenure + 1
    }

    /// The stage of the next tenure.
    pub fn stage_given(&self) -> u64
        ensures { (t : ℕ) → tenure_of self.now.phase ≡ Some t → result ≡ 2 * t + 2 }
    {
        match self.tenure() {
            None => 0,
            Some(tenure) => 2 * tenure + 2,
        }
    }

    /// Gives the page back and ends the tenure.
    pub fn end(&mut self, tenure: u64, reason: Reason) -> Turn
        requires { let X = election_of Q.Ratifier in
            Ends (doing_of (situation_of X self.old)) tenure reason }
        ensures state { self.new ≡ core_at_rest self.old reason tenure }
        ensures answer { result ≡ answer_of_return self.old.queue tenure reason }
    {
        let _ = &self.phase;
        self.finish(tenure, reason)
    }
}
