//! A bus that plays events, with a row of words for each tenure or with rows that are used again.

ghost use Rattle.std.specs.Prelude.{◌≡◌, ◌⊎◌, ℕ, ◌<◌, ◌≤◌, true, false, length, map, slice_get};
ghost use Rattle.std.specs.Prelude.{List, Some, None};
ghost use Rattle.std.specs.Prelude.{IfOk, IfErr, OnOk, OnErr};
ghost use Rattle.std.specs.Option.{option_copied};
ghost use Rattle.bus_register.specs.declared.registers.SenderNo.{SenderNo as Number};
ghost use Rattle.bus_batch.specs.Frames.{Spells};
ghost use Rattle.bus_deliverylog.specs.Orders.{order_held, HasPlaces};
ghost use Rattle.bus_deliverylog.specs.Receiving.{Receiving};
ghost use Rattle.bus_tenure.specs.Elections.{election_of};
ghost use Rattle.bus_world.specs.declared.events.Answer.TheVariants as answer;
ghost use Rattle.bus_world.specs.Headline.{order_given};
ghost use Rattle.bus_batch.specs.declared.messages.Mark.TheVariants.{End, Leave};
ghost use Rattle.bus_world.specs.Playing.{event_told, asked_answer, ForkRefused};
ghost use Rattle.bus_world.specs.World.{no_bases, Put, Ask, Turn as SenderTurn, Recv, Stop};
ghost use Rattle.bus_world.specs.World.{Gone};
ghost use Rattle.bus_ownerbits.specs.Sizes.{election_bound};
ghost use Rattle.bus_machine.specs.Bounding.{AreBounded, PinsAreBounded};
ghost use Rattle.bus_machine.specs.Forking.{KeepsForked};
ghost use Rattle.bus_machine.specs.Giving.{StillGiven};
ghost use Rattle.bus_machine.specs.Machine.{Trails, Reached, Happens, has_stopped, log_of};
ghost use Rattle.bus_machine.specs.Machine.{Forks, floor_of};
ghost use Rattle.bus_machine.specs.Playing.{IsMade, IsMadeWith, MakeRefused, ShapeOf, Answers};
ghost use Rattle.bus_machine.specs.Playing.{MayGoOn, Refused, RefusedWith};
ghost use Rattle.bus_machine.specs.Playing.{AfterRefused, IsFollowed, MakeRefusedAfter, MayFollow};
ghost use Rattle.bus_machine.specs.Playing.{bases_after};
ghost use Rattle.bus_machine.specs.Playing.{Refuses, Played, Stops};
ghost use Rattle.bus_machine.specs.Promise.{IsPromised, TakersTold};
ghost use Rattle.bus_machine.specs.Telling.{Causes, Says, LossesAreSeen};

use crate::logs::{behind, copy_ring, first_passed, least_passed};
use crate::shapes::{fault_of, first_numbers, log_word};
use crate::starts::new_senders;
use crate::turns::{join_in_place, leave_for_good, mark_to, note_owner, put_to, turn_sender};
use arrayvec::ArrayVec;
use bus_adoptcommit::Ratifier;
use bus_batch::Mark;
use bus_core::SenderCore;
use bus_core::limits::PASSED_APART;
use bus_deliverylog::{Order, Reader, read_front, read_log};
use bus_ownerbits::Election;
use bus_ownerbits::laws::election_is_lawful;
use bus_register::limits::{MOST_ROWS, MOST_SENDERS};
use bus_register::{Cells, NoMemory, Reg, SenderNo};
use bus_tenure::{OwnedPage, Page};
use bus_world::starts::{first_page, new_receivers};
use bus_world::turns::turn_receiver;
use bus_world::{Answer, Event, MakeFault, PlayFault, Shape, StepFault};
use std::alloc::Global;
use std::marker::Model;

/// A bus, which one caller moves by events: its words, its page, its senders and its receivers.
///
/// Each tenure has a row of words of its own, or a few rows are used again: tenure t uses row t mod
/// rows, and there are up to 2^40 tenures. A sender then shows in a word of its own, its presence,
/// which tenure it pins. Who holds the page clears the row of the next tenure before it gives the
/// page back, once it has asked each presence and found that it does not name the tenure that used
/// the row before; where one does, its turns answer Behind, until that has changed. So a sender
/// that stops while its presence names a tenure may make a holder wait for good.
#[derive(Drop)]
pub struct World<Q: Ratifier> {
    shape: Shape,
    /// How many rows are used again.
    reuse: Option<u64>,
    /// How many passed places there are: one of each receiver where words of the log are used
    /// again, and none else.
    passers: u64,
    /// The numbers that the sitting began with, by sender.
    bases: [u64; MOST_SENDERS],
    cells: Cells,
    home: Option<OwnedPage>,
    senders: Vec<SenderCore<Q>>,
    receivers: Vec<Reader>,
    /// Who took the pages, by tenure; where rows are used again the last, as many as there are
    /// rows.
    owners: ArrayVec<SenderNo, MOST_ROWS>,
    /// Whether a sender has stopped, by its number.
    stopped: [bool; MOST_SENDERS],
}

impl<Q: Ratifier> Model for World<Q> {
    ghost use Rattle.std.specs.Prelude.{map};
    ghost use Rattle.bus_tenure.specs.Elections.{Elector, election_with};
    ghost use Rattle.bus_machine.specs.Machine.{Machine};
    ghost use Rattle.bus_machine.specs.Playing.{IsHeld, machine_of};

    ghost Value = { Machine (Elector Q) };

    ghost view = { λ w. machine_of Q.protocol w.shape w.reuse w.passers w.bases w.cells w.home
        w.senders.items w.receivers.items w.stopped (map (λ s. s.0) w.owners.items) };

    ghost invariant = { λ w. IsHeld (election_with Q.kind_of Q.op Q.fed Q.protocol)
        (machine_of Q.protocol w.shape w.reuse w.passers w.bases w.cells w.home w.senders.items
        w.receivers.items w.stopped (map (λ s. s.0) w.owners.items)) };
}

impl<Q: Ratifier + Drop> World<Q> {
    /// A new bus with a row of words for each tenure, its words at zero and its page at home.
    pub fn new(alloc: Global, shape: Shape) -> Result<World<Q>, MakeFault>
        ensures made { let X = election_of Q.Ratifier in
            IfOk result (IsMade X Q.protocol shape None no_bases) }
        ensures fault { IfErr result (MakeRefused shape None) }
    {
        World::make(alloc, shape, None, 0, None)
    }

    /// The next sitting: a new bus with a row of words for each tenure, whose senders go on with
    /// the numbers of this page. That is the page of a sitting that has ended. Nothing else of it
    /// is carried over.
    pub fn after(alloc: Global, shape: Shape, page: &Page) -> Result<World<Q>, MakeFault>
        ensures made { let X = election_of Q.Ratifier in
            IfOk result (IsMade X Q.protocol shape None page.now.next) }
        ensures follows { OnOk result (IsFollowed page.now) }
        ensures fault { IfErr result (AfterRefused shape None page.now) }
    {
        World::make(alloc, shape, None, 0, Some(page))
    }

    /// A new bus whose rows of words are used again: `rows` of its shape, 2 to 8. With a page it is
    /// the next sitting, as `after`.
    pub fn cyclic(alloc: Global, shape: Shape, page: Option<&Page>) -> Result<World<Q>, MakeFault>
        ensures made { let X = election_of Q.Ratifier in
            IfOk result (IsMade X Q.protocol shape (Some shape.rows)
            (bases_after (option_copied page.entry))) }
        ensures follows { OnOk result (MayFollow (option_copied page.entry)) }
        ensures fault { IfErr result
            (MakeRefusedAfter shape (Some shape.rows) (option_copied page.entry)) }
    {
        World::make(alloc, shape, Some(shape.rows), 0, page)
    }

    /// A new bus whose rows are used again, as `cyclic`, and whose log is: a ring of words that go
    /// on without an end. Each receiver has a passed place, in which it says behind each frame how
    /// far it has come, and where no frame fits any more before the least of them a sender answers
    /// Full. With a page it is the next sitting, as `after`, where each next number is below 2^48
    /// - B * (2^40 + 1), of batches of B messages.
    pub fn ring(alloc: Global, shape: Shape, page: Option<&Page>) -> Result<World<Q>, MakeFault>
        ensures made { let X = election_of Q.Ratifier in
            IfOk result (IsMadeWith X Q.protocol shape (Some shape.rows) shape.receivers
            (bases_after (option_copied page.entry))) }
        ensures follows { OnOk result
            (MayGoOn shape.receivers shape.batch (option_copied page.entry)) }
        ensures fault { IfErr result (RefusedWith shape.receivers shape (Some shape.rows)
            (option_copied page.entry)) }
    {
        World::make(alloc, shape, Some(shape.rows), shape.receivers, page)
    }

    /// A new bus of any kind.
    fn make(
        alloc: Global,
        shape: Shape,
        reuse: Option<u64>,
        passers: u64,
        page: Option<&Page>,
    ) -> Result<World<Q>, MakeFault>
        requires rows { ShapeOf shape reuse }
        requires apart { reuse ≡ None → passers ≡ 0 }
        requires each { (passers ≡ 0) ⊎ (passers ≡ shape.receivers) }
        ensures made { let X = election_of Q.Ratifier in
            IfOk result (IsMadeWith X Q.protocol shape reuse passers
            (bases_after (option_copied page.entry))) }
        ensures follows { OnOk result (MayGoOn passers shape.batch (option_copied page.entry)) }
        ensures fault { IfErr result
            (RefusedWith passers shape reuse (option_copied page.entry)) }
    {
        if let Some(fault) = fault_of(shape, reuse) {
            return Err(fault);
        }
        let bases = first_numbers(page, passers, shape.batch)?;
        let width = Election::<Q>::width(shape.senders, shape.rounds);
        let first = log_word(shape, reuse, width);
        let log = first + PASSED_APART * passers;
        let cells = Cells::new(alloc, log + shape.log_words)?;
        let home = first_page(alloc, bases)?;
        let senders = new_senders(alloc, shape, reuse, passers, &bases)?;
        let passed = first_passed(first, passers);
        let receivers = new_receivers(alloc, shape, Reg(log), passed)?;
        Ok(World {
            shape,
            reuse,
            passers,
            bases,
            cells,
            home: Some(home),
            senders,
            receivers,
            owners: ArrayVec::new(),
            stopped: [false; MOST_SENDERS],
        })
    }

    /// Wants a sender that there is and that has not stopped.
    fn goes_on(&self, sender: u64) -> Result<(), StepFault>
        ensures there { OnOk result (sender < length self.now.senders) }
        ensures goes { OnOk result (has_stopped self.now sender ≡ false) }
        ensures fault { IfErr result (Refused self.now (Stop sender)) }
    {
        if sender >= self.senders.len() as u64 {
            return Err(StepFault::NoSuchSender);
        }
        if self.stopped[sender as usize] {
            return Err(StepFault::Stopped);
        }
        Ok(())
    }

    /// Wants a receiver that there is and that has not left for good.
    fn listens(&self, receiver: u64) -> Result<(), StepFault>
        ensures there { OnOk result (receiver < length self.now.receivers) }
        ensures stays { OnOk result ((reader : Receiving)
            → slice_get self.now.receivers receiver ≡ Some reader → reader.gone ≡ false) }
        ensures fault { IfErr result (Refused self.now (Recv receiver)) }
    {
        if receiver >= self.receivers.len() as u64 {
            return Err(StepFault::NoSuchReceiver);
        }
        if self.receivers[receiver as usize].has_left() {
            return Err(StepFault::Gone);
        }
        Ok(())
    }

    /// Wants two receivers, the second of which has the higher number, and the first of which has
    /// not left for good.
    fn may_fork(&self, receiver: u64, number: u64) -> Result<(), StepFault>
        ensures there { OnOk result (number < length self.now.receivers) }
        ensures up { OnOk result (receiver < number) }
        ensures stays { OnOk result ((reader : Receiving)
            → slice_get self.now.receivers receiver ≡ Some reader → reader.gone ≡ false) }
        ensures fault { IfErr result (ForkRefused (slice_get self.now.receivers receiver)
            (slice_get self.now.receivers number) receiver number) }
    {
        let many = self.receivers.len() as u64;
        if receiver >= many || number >= many {
            return Err(StepFault::NoSuchReceiver);
        }
        if number <= receiver {
            return Err(StepFault::NotAbove);
        }
        self.listens(receiver)
    }

    /// A message is put into the batch of a sender.
    fn put_at(&mut self, sender: u64, bytes: &[u8]) -> Result<u64, StepFault>
        ensures happens { let X = election_of Q.Ratifier in
            IfOk result (λ number. Happens X self.old (Put sender bytes.now)
            (answer.Number number) self.new) }
        ensures refused { IfErr result
            (λ why. Refuses self.old (Put sender bytes.now) why self.new) }
    {
        election_is_lawful::<Q>();
        self.goes_on(sender)?;
        put_to(&mut self.senders[sender as usize], bytes)
    }

    /// A mark waits at a sender.
    fn mark_at(&mut self, sender: u64, mark: Mark) -> Result<(), StepFault>
        ensures happens { let X = election_of Q.Ratifier in
            OnOk result (Happens X self.old (Ask sender mark) (asked_answer mark) self.new) }
        ensures refused { IfErr result (λ why. Refuses self.old (Ask sender mark) why self.new) }
    {
        election_is_lawful::<Q>();
        self.goes_on(sender)?;
        mark_to(&mut self.senders[sender as usize], mark)
    }

    /// A sender takes a turn.
    fn turn_at(&mut self, sender: u64, word: u32) -> Result<Answer, StepFault>
        ensures happens { let X = election_of Q.Ratifier in
            IfOk result (λ a. Happens X self.old (SenderTurn sender word) a self.new) }
        ensures causes { let X = election_of Q.Ratifier in
            OnOk result (Causes X Q.protocol self.old (SenderTurn sender word)) }
        ensures says { let X = election_of Q.Ratifier in
            IfOk result (λ a. Says X self.old (SenderTurn sender word) a) }
        ensures refused { IfErr result
            (λ why. Refuses self.old (SenderTurn sender word) why self.new) }
    {
        election_is_lawful::<Q>();
        self.goes_on(sender)?;
        let core = &mut self.senders[sender as usize];
        core.has_causes();
        let turn = turn_sender(&mut self.cells, &mut self.home, core, word);
        note_owner(&mut self.owners, self.reuse, SenderNo(sender as u8), turn);
        Ok(Answer::Turn(turn))
    }

    /// A receiver takes a turn.
    fn recv_at(&mut self, receiver: u64) -> Result<Answer, StepFault>
        ensures happens { let X = election_of Q.Ratifier in
            IfOk result (λ a. Happens X self.old (Recv receiver) a self.new) }
        ensures refused { IfErr result
            (λ why. Refuses self.old (Recv receiver) why self.new) }
    {
        election_is_lawful::<Q>();
        self.listens(receiver)?;
        let reader = &mut self.receivers[receiver as usize];
        Ok(Answer::Recv(turn_receiver(&mut self.cells, reader)))
    }

    /// A sender stops.
    fn stop_at(&mut self, sender: u64) -> Result<(), StepFault>
        ensures happens { let X = election_of Q.Ratifier in
            OnOk result (Happens X self.old (Stop sender) answer.Stopped self.new) }
        ensures refused { IfErr result (λ why. Refuses self.old (Stop sender) why self.new) }
    {
        self.goes_on(sender)?;
        self.stopped[sender as usize] = true;
        Ok(())
    }

    /// A receiver leaves for good.
    fn gone_at(&mut self, receiver: u64) -> Result<(), StepFault>
        ensures happens { let X = election_of Q.Ratifier in
            OnOk result (Happens X self.old (Gone receiver) answer.Gone self.new) }
        ensures refused { IfErr result (λ why. Refuses self.old (Gone receiver) why self.new) }
    {
        election_is_lawful::<Q>();
        self.listens(receiver)?;
        let reader = &mut self.receivers[receiver as usize];
        leave_for_good(&mut self.cells, reader);
        Ok(())
    }

    /// A receiver forks to a higher number, where that is free.
    fn fork_at(&mut self, receiver: u64, number: u64) -> Result<bool, StepFault>
        ensures forked { IfOk result (λ did. Forks self.old receiver number did self.new) }
        ensures refused { IfErr result (λ why. ForkRefused (slice_get self.old.receivers receiver)
            (slice_get self.old.receivers number) receiver number why
            × (self.new ≡ self.old)) }
    {
        election_is_lawful::<Q>();
        self.may_fork(receiver, number)?;
        let last = &self.receivers[number as usize];
        let made = self.receivers[receiver as usize].forked(last);
        if join_in_place(&mut self.cells, &made, last) {
            self.receivers[number as usize] = made;
            Ok(true)
        } else {
            Ok(false)
        }
    }

    /// A message is put into the batch of a sender, and gets this number. While the sender pins a
    /// tenure of rows that are used again this is refused as Busy, or as Closed once it has closed
    /// or left. Takes no memory.
    pub fn put(&mut self, sender: SenderNo, bytes: &[u8]) -> Result<u64, StepFault>
        ensures answered { let X = election_of Q.Ratifier in
            IfOk result (λ number. Answers X Q.protocol self.old (Put sender.0 bytes.now)
            (answer.Number number) self.new) }
        ensures refused { IfErr result
            (λ why. Refuses self.old (Put sender.0 bytes.now) why self.new) }
    {
        election_is_lawful::<Q>();
        let _ = &self.shape;
        self.put_at(u64::from(sender.0), bytes)
    }

    /// A sender is to close the order: an end mark waits at it from then on. While the sender
    /// pins a tenure of rows that are used again this is refused as Busy, or as Closed once it has
    /// closed or left. Takes no memory.
    pub fn close(&mut self, sender: SenderNo) -> Result<(), StepFault>
        ensures answered { let X = election_of Q.Ratifier in
            OnOk result (Answers X Q.protocol self.old (Ask sender.0 End) answer.Closing self.new) }
        ensures refused { IfErr result (λ why. Refuses self.old (Ask sender.0 End) why self.new) }
    {
        election_is_lawful::<Q>();
        let _ = &self.shape;
        self.mark_at(u64::from(sender.0), Mark::End)
    }

    /// A sender is to leave for good: a leave mark waits at it from then on, and it takes no
    /// message any more. While the sender pins a tenure of rows that are used again this is
    /// refused as Busy, or as Closed once it has closed or left. Takes no memory.
    pub fn leave(&mut self, sender: SenderNo) -> Result<(), StepFault>
        ensures answered { let X = election_of Q.Ratifier in
            OnOk result (Answers X Q.protocol self.old (Ask sender.0 Leave)
            answer.Leaving self.new) }
        ensures refused { IfErr result
            (λ why. Refuses self.old (Ask sender.0 Leave) why self.new) }
    {
        election_is_lawful::<Q>();
        let _ = &self.shape;
        self.mark_at(u64::from(sender.0), Mark::Leave)
    }

    /// A sender stops: from now on it does nothing any more. A page that it has stays out, and a
    /// holder may wait for its presence for good. Takes no step and no memory.
    pub fn stop(&mut self, sender: SenderNo) -> Result<(), StepFault>
        ensures answered { let X = election_of Q.Ratifier in
            OnOk result (Answers X Q.protocol self.old (Stop sender.0) answer.Stopped self.new) }
        ensures refused { IfErr result (λ why. Refuses self.old (Stop sender.0) why self.new) }
    {
        election_is_lawful::<Q>();
        let _ = &self.shape;
        self.stop_at(u64::from(sender.0))
    }

    /// A receiver leaves for good: from now on it is asked nothing, and what it was given stays.
    /// Where words of the log are used again it stores 2^64 - 1 in its passed place, and nobody
    /// waits for it any more; else this is no step, and nobody waits for a receiver. Takes no
    /// memory.
    pub fn gone(&mut self, receiver: u64) -> Result<(), StepFault>
        ensures answered { let X = election_of Q.Ratifier in
            OnOk result (Answers X Q.protocol self.old (Gone receiver) answer.Gone self.new) }
        ensures refused { IfErr result (λ why. Refuses self.old (Gone receiver) why self.new) }
    {
        election_is_lawful::<Q>();
        let _ = &self.shape;
        self.gone_at(receiver)
    }

    /// Receiver `receiver` forks to a higher number, and the answer says whether it has: it has
    /// exactly where the last receiver of that number has left. Then one stands there that is just
    /// what its maker is, but for its passed place, and what the maker was given counts as given to
    /// it. Else nothing has changed. Where words of the log are used again it is one step, a
    /// compare_exchange on the passed place of that number, and else none. Takes no memory.
    pub fn fork(&mut self, receiver: u64, number: u64) -> Result<bool, StepFault>
        ensures forked { IfOk result (λ did. Forks self.old receiver number did self.new) }
        ensures taken { result ≡ Ok false → self.new ≡ self.old }
        ensures keeps { let X = election_of Q.Ratifier in
            result ≡ Ok true → (T : Trails) → Reached X self.old T
            → KeepsForked X self.old T receiver number self.new }
        ensures refused { IfErr result (λ why. ForkRefused (slice_get self.old.receivers receiver)
            (slice_get self.old.receivers number) receiver number why
            × (self.new ≡ self.old)) }
    {
        election_is_lawful::<Q>();
        let _ = &self.shape;
        self.fork_at(receiver, number)
    }

    /// What happens next, and its answer.
    fn take_in(&mut self, event: &Event) -> Result<Answer, StepFault>
        ensures happens { let X = election_of Q.Ratifier in
            IfOk result (λ a. Happens X self.old (event_told event.now) a self.new) }
        ensures causes { let X = election_of Q.Ratifier in
            OnOk result (Causes X Q.protocol self.old (event_told event.now)) }
        ensures says { let X = election_of Q.Ratifier in
            IfOk result (λ a. Says X self.old (event_told event.now) a) }
        ensures refused { IfErr result
            (λ why. Refuses self.old (event_told event.now) why self.new) }
    {
        match event {
            Event::Put { sender, bytes } => Ok(Answer::Number(self.put_at(*sender, bytes)?)),
            Event::Close(sender) => {
                self.mark_at(*sender, Mark::End)?;
                Ok(Answer::Closing)
            }
            Event::Leave(sender) => {
                self.mark_at(*sender, Mark::Leave)?;
                Ok(Answer::Leaving)
            }
            Event::Turn { sender, word } => self.turn_at(*sender, *word),
            Event::Recv(receiver) => self.recv_at(*receiver),
            Event::Stop(sender) => {
                self.stop_at(*sender)?;
                Ok(Answer::Stopped)
            }
            Event::Gone(receiver) => {
                self.gone_at(*receiver)?;
                Ok(Answer::Gone)
            }
        }
    }

    /// What happens next, and its answer. A refused event changes nothing. Takes no memory.
    ///
    /// By the actions of all trails that lead here, with this turn: a sender that answers Lost saw
    /// the election of that tenure end with the owner that it names, which is another sender; one
    /// that answers Own is elected and took the page; what is Delivered is the last frame of the
    /// order, and where one has Left that frame is its leave mark; and Full is answered only where
    /// the frame does not fit behind the log, counted from the floor of the page. No turn is an
    /// action in a tenure whose row had gone on before: what was elected there stays as it is. The
    /// log gets the frame of a sender whose turn stores a length, with that turn, and no word else.
    pub fn step(&mut self, event: &Event) -> Result<Answer, StepFault>
        ensures answered { let X = election_of Q.Ratifier in
            IfOk result (λ a. Answers X Q.protocol self.old (event_told event.now) a self.new) }
        ensures refused { IfErr result
            (λ why. Refuses self.old (event_told event.now) why self.new) }
    {
        election_is_lawful::<Q>();
        let _ = &self.shape;
        self.take_in(event)
    }

    /// Events, one after another, up to the first that is refused. Of each that happened all is so
    /// that `step` says of it. Takes no memory.
    pub fn play(&mut self, events: &[Event]) -> Result<(), PlayFault>
        ensures played { let X = election_of Q.Ratifier in
            OnOk result (Played X Q.protocol self.old (map event_told events.now) self.new) }
        ensures stopped { let X = election_of Q.Ratifier in
            IfErr result (λ fault. Stops X Q.protocol self.old (map event_told events.now)
            fault.place fault.why self.new) }
    {
        election_is_lawful::<Q>();
        let _ = &self.shape;
        for (place, event) in events.iter().enumerate() {
            if let Err(why) = self.step(event) {
                return Err(PlayFault { place, why });
            }
        }
        Ok(())
    }

    /// Who took the pages, by tenure; where rows are used again the last, at most as many as there
    /// are rows, the oldest first.
    pub fn owners(&self) -> &[SenderNo]
        ensures state { map (λ s. s.0) result.now ≡ self.now.owners }
        ensures took { let X = election_of Q.Ratifier in
            (trails : Trails) → Reached X self.now trails
            → TakersTold self.now.reuse (map (λ s. s.0) result.now) trails.actions }
    {
        election_is_lawful::<Q>();
        let _ = &self.shape;
        self.owners.as_slice()
    }

    /// The page, where it is at home; none where a sender has it.
    pub fn page(&self) -> Option<&Page>
        ensures { option_copied result ≡ self.now.home }
    {
        match &self.home {
            None => None,
            Some(home) => Some(home.get()),
        }
    }

    /// A sender, where there is one of this number.
    pub fn sender(&self, sender: SenderNo) -> Option<&SenderCore<Q>>
        ensures { option_copied result ≡ slice_get self.now.senders sender.0 }
    {
        let number = usize::from(sender.0);
        if number < self.senders.len() {
            Some(&self.senders[number])
        } else {
            None
        }
    }

    /// How many senders there are.
    pub fn senders(&self) -> u64
        ensures count { result ≡ length self.now.senders }
        ensures few { result ≤ MOST_SENDERS }
    {
        self.senders.len() as u64
    }

    /// The words of the bus. Takes no step.
    pub fn words(&self) -> &[u64]
        ensures { result.now ≡ self.now.words }
    {
        self.cells.as_slice()
    }

    /// What stands in a word, where there is such a word. Takes no step.
    pub fn word(&self, at: Reg) -> Option<u64>
        ensures { result ≡ slice_get self.now.words at.0 }
    {
        if at.0 < self.cells.len() {
            Some(self.cells.get(at))
        } else {
            None
        }
    }

    /// A receiver, where there is one of this number.
    pub fn reader(&self, receiver: u64) -> Option<&Reader>
        ensures { option_copied result ≡ slice_get self.now.receivers receiver }
    {
        let number = receiver as usize;
        if number < self.receivers.len() {
            Some(&self.receivers[number])
        } else {
            None
        }
    }

    /// How many receivers there are.
    pub fn receivers(&self) -> u64
        ensures { result ≡ length self.now.receivers }
    {
        self.receivers.len() as u64
    }

    /// From this place on all words of the log stand. It is the least that a receiver has passed,
    /// and the length where all have left; where no word of the log is used again it is 0.
    pub fn floor(&self) -> u64
        ensures { result ≡ floor_of self.now }
    {
        election_is_lawful::<Q>();
        if self.passers == 0 {
            return 0;
        }
        let words = self.cells.as_slice();
        let log = words.len() as u64 - self.shape.log_words;
        least_passed(words, log - PASSED_APART * self.passers, self.passers)
    }

    /// The words of the log that stand, from its floor up to the length: all of them where none is
    /// used again.
    pub fn log(&self, alloc: Global) -> Result<Vec<u64>, NoMemory>
        ensures { IfOk result (λ log. log.items ≡ log_of self.now) }
    {
        election_is_lawful::<Q>();
        let words = self.cells.as_slice();
        let log = words.len() as u64 - self.shape.log_words;
        copy_ring(
            alloc,
            words,
            log,
            self.shape.log_words,
            self.floor(),
            words[0],
        )
    }

    /// The order: what the words spell that stand, all of them where none is used again, and else
    /// those of the last frames, as is promised of the floor. Each leave mark has its place, which
    /// is how many items stand before it. Memory is its only refusal.
    pub fn order(&self, alloc: Global) -> Result<Order, NoMemory>
        ensures spells { IfOk result (λ order. (owners : List (ℕ × Number))
            × Spells self.now.layout.senders (log_of self.now) (order_held order) owners) }
        ensures places { IfOk result HasPlaces }
    {
        election_is_lawful::<Q>();
        let log = self.log(alloc)?;
        match read_log(alloc, &log, self.shape.senders) {
            Ok(read) => Ok(read.order),
            Err(_) => Err(NoMemory),
        }
    }

    /// What the receiver of this number was given: the items, leave marks and the end that it was
    /// answered, each leave mark behind as many items as stood before it. Of one that joined its
    /// maker's up to then are the first. Where words of the log are used again it is what still
    /// stands of the items and leave marks, and the end. There must be such a receiver. Memory is
    /// its only refusal.
    pub fn given(&self, alloc: Global, receiver: u64) -> Result<Order, NoMemory>
        requires { receiver < length self.now.receivers }
        ensures answered { let X = election_of Q.Ratifier in
            IfOk result (λ order. self.now.layout.passers ≡ 0
            → (trails : Trails) → Reached X self.now trails
            → order_held order ≡ order_given (trails.heard receiver)) }
        ensures stands { let X = election_of Q.Ratifier in
            IfOk result (λ order. (trails : Trails) → Reached X self.now trails
            → StillGiven self.now trails receiver (order_held order)) }
        ensures places { IfOk result HasPlaces }
    {
        election_is_lawful::<Q>();
        let log = self.log(alloc)?;
        let reader = &self.receivers[receiver as usize];
        let place = reader.place();
        let ended = reader.has_ended();
        let until = behind(place, self.floor());
        match read_front(alloc, &log[..until as usize], self.shape.senders) {
            Ok(mut front) => {
                front.order.ended = ended;
                Ok(front.order)
            }
            Err(_) => Err(NoMemory),
        }
    }

    /// What a bus promises: some trails lead to it, and of all trails that do the promise holds.
    /// And by all of them each sender that remembers to whom it lost its tenure has seen the
    /// election of that tenure end so, and no sender takes more steps towards a page than an
    /// election has turns, or, where rows are used again, more than three of its pin.
    pub fn promises(&self)
        ensures happened { let X = election_of Q.Ratifier in
            (trails : Trails) × Reached X self.now trails }
        ensures promised { let X = election_of Q.Ratifier in
            (trails : Trails) → Reached X self.now trails → IsPromised X self.now trails }
        ensures losses { let X = election_of Q.Ratifier in
            (trails : Trails) → Reached X self.now trails
            → LossesAreSeen self.now trails.actions }
        ensures bounded { let X = election_of Q.Ratifier in let x = self.now.layout in
            (trails : Trails) → Reached X self.now trails
            → AreBounded X (election_bound Q.protocol.steps x.senders x.rounds) self.now trails
            × PinsAreBounded trails }
    {
        election_is_lawful::<Q>();
        let _ = &self.shape;
    }
}
