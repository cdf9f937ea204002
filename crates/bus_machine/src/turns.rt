//! One turn of one sender on what all share.

ghost use Rattle.std.specs.Prelude.{◌≡◌, ◌≤◌, ◌<◌, ◌==◌, ℕ, length, map, slice_index};
ghost use Rattle.std.specs.Prelude.{IfSome, IsSome, Some, None, IfOk, IfErr, OnOk, OnErr};
ghost use Rattle.bus_register.specs.declared.registers.Op.{Op};
ghost use Rattle.bus_register.specs.Words.{register, SumFits};
ghost use Rattle.bus_batch.specs.Batches.{next_of};
ghost use Rattle.bus_tenure.specs.Elections.{Elector, election_of};
ghost use Rattle.bus_tenure.specs.Seen.{AwaitsItsPage};
ghost use Rattle.bus_tenure.specs.Situations.{Elects, situation_of};
ghost use Rattle.bus_core.specs.Keeping.{core_without};
ghost use Rattle.bus_core.specs.Senders.{words_all};
ghost use Rattle.bus_core.specs.Table.{line_now};
ghost use Rattle.bus_deliverylog.specs.Receiving.{leaving_op, joining_op, with_leave};
ghost use Rattle.bus_world.specs.Turning.{home_moved, before_step, laying, owners_by};
ghost use Rattle.bus_world.specs.Turning.{words_after};
ghost use Rattle.bus_machine.specs.Machine.{moved, owners_told, last_of};
ghost use Rattle.bus_machine.specs.Playing.{PutRefused, CloseRefused};
ghost use Rattle.bus_machine.specs.Telling.{StepTells};
ghost use Rattle.bus_machine.specs.Turning.{HasStepped, HasTurned, HasTaken, HasShut};

use arrayvec::ArrayVec;
use bus_adoptcommit::Ratifier;
use bus_batch::Mark;
use bus_core::SenderCore;
use bus_deliverylog::Reader;
use bus_register::limits::{MOST_ROWS, NUMBERS, PASSED_ALL};
use bus_register::{Cells, SenderNo};
use bus_tenure::{OwnedPage, Turn};
use bus_world::StepFault;

/// The page comes home from a sender that is to give it back.
fn hand_home<Q: Ratifier + Drop>(home: &mut Option<OwnedPage>, core: &mut SenderCore<Q>)
    ensures home { let X = election_of Q.Ratifier in
        home.new ≡ home_moved (before_step (line_now X core.old).move) home.old }
    ensures core { let X = election_of Q.Ratifier in
        core.new ≡ record core.old {
          core = core_without (line_now X core.old).move core.old.core;
        } }
{
    if let Some(page) = core.take_out() {
        *home = Some(page);
    }
}

/// The step that is due, where one is, and the sender's answer.
fn take_step<Q: Ratifier + Drop>(cells: &mut Cells, core: &mut SenderCore<Q>, word: u32) -> Turn
    requires room { length cells.old ≡ words_all core.old }
    requires sums { let X = election_of Q.Ratifier in
        (o : Op) → (line_now X core.old).op word ≡ Some o
        → SumFits o (slice_index cells.old (register o)) }
    requires goes { let X = election_of Q.Ratifier in
        (t : ℕ) (e : Elector Q) → situation_of X core.old.core ≡ Elects t e
        → IsSome (X.op e word) }
    requires laid { ¬ AwaitsItsPage core.old.core.phase }
    ensures stepped { let X = election_of Q.Ratifier in
        HasStepped (line_now X core.old) cells.old word result cells.new core.new }
    ensures tells { let X = election_of Q.Ratifier in
        StepTells X cells.old core.old ((line_now X core.old).op word) word result }
{
    let step = core.step();
    let Some(op) = core.next_of(step, word) else {
        return core.rest();
    };
    let got = cells.apply(op);
    core.feed_of(step, got, word)
}

/// The page is laid before a sender that has taken it.
fn lay_page<Q: Ratifier + Drop>(home: &mut Option<OwnedPage>, core: &mut SenderCore<Q>)
    ensures core { core.new ≡ moved (laying core.old.core.phase) home.old core.old }
    ensures home { home.new ≡ home_moved (laying core.old.core.phase) home.old }
{
    if core.awaits_page() {
        if let Some(page) = home.take() {
            core.lay(page);
        }
    }
}

/// One turn of a sender: at most one step on the words, with which the page comes to it or goes
/// home.
pub fn turn_sender<Q: Ratifier + Drop>(
    cells: &mut Cells,
    home: &mut Option<OwnedPage>,
    core: &mut SenderCore<Q>,
    word: u32,
) -> Turn
    requires room { length cells.old ≡ words_all core.old }
    requires sums { let X = election_of Q.Ratifier in
        (o : Op) → (line_now X core.old).op word ≡ Some o
        → SumFits o (slice_index cells.old (register o)) }
    requires goes { let X = election_of Q.Ratifier in
        (t : ℕ) (e : Elector Q) → situation_of X core.old.core ≡ Elects t e
        → IsSome (X.op e word) }
    requires laid { ¬ AwaitsItsPage core.old.core.phase }
    ensures turned { let X = election_of Q.Ratifier in
        HasTurned (line_now X core.old) cells.old home.old word result
        cells.new home.new core.new }
    ensures tells { let X = election_of Q.Ratifier in
        StepTells X cells.old core.old ((line_now X core.old).op word) word result }
{
    hand_home(home, core);
    let turn = take_step(cells, core, word);
    lay_page(home, core);
    turn
}

/// A receiver leaves for good, and stores that in its passed place, if it has one.
pub fn leave_for_good(cells: &mut Cells, reader: &mut Reader)
    requires within { IfSome (leaving_op reader.old) (λ o. register o < length cells.old) }
    ensures words { cells.new ≡ words_after cells.old (leaving_op reader.old) }
    ensures left { reader.new ≡ with_leave reader.old }
{
    if let Some(op) = reader.leaving() {
        let _ = cells.apply(op);
    }
    reader.leave();
}

/// The step with which a receiver joins that was made, if it has one, and whether it has joined:
/// where its passed place showed 2^64 - 1, and without one where the last of its number has left.
pub fn join_in_place(cells: &mut Cells, made: &Reader, last: &Reader) -> bool
    requires within { IfSome (joining_op made.now) (λ o. register o < length cells.old) }
    ensures words { cells.new ≡ words_after cells.old (joining_op made.now) }
    ensures found { (o : Op) → joining_op made.now ≡ Some o
        → result ≡ (slice_index cells.old (register o) == PASSED_ALL) }
    ensures alone { joining_op made.now ≡ None → result ≡ last.now.gone }
{
    match made.joining() {
        None => last.has_left(),
        Some(op) => cells.apply(op) == PASSED_ALL,
    }
}

/// A message goes into the batch of a sender, or is refused.
pub fn put_to<Q: Ratifier + Drop>(core: &mut SenderCore<Q>, bytes: &[u8]) -> Result<u64, StepFault>
    requires { next_of core.old.core.queue < NUMBERS }
    ensures taken { IfOk result (λ number. HasTaken core.old bytes.now number core.new) }
    ensures fault { IfErr result (λ why. PutRefused (length bytes.now) why core.old) }
    ensures refused { OnErr result (core.new ≡ core.old) }
{
    match core.put(bytes) {
        Ok(number) => Ok(number),
        Err(fault) => Err(StepFault::Put(fault)),
    }
}

/// A mark waits at a sender, or is refused.
pub fn mark_to<Q: Ratifier + Drop>(core: &mut SenderCore<Q>, mark: Mark) -> Result<(), StepFault>
    ensures taken { OnOk result (HasShut core.old mark core.new) }
    ensures fault { IfErr result (λ why. CloseRefused why core.old) }
    ensures refused { OnErr result (core.new ≡ core.old) }
{
    let marked = match mark {
        Mark::End => core.close(),
        Mark::Leave => core.leave(),
    };
    match marked {
        Ok(()) => Ok(()),
        Err(fault) => Err(StepFault::Close(fault)),
    }
}

/// Who took the pages, by tenure, after this answer of a sender.
fn note_all(owners: &mut ArrayVec<SenderNo, MOST_ROWS>, sender: SenderNo, turn: Turn)
    requires { (t : ℕ) → turn ≡ Turn.Own t → length owners.old.items < MOST_ROWS }
    ensures { map (λ s. s.0) owners.new.items
        ≡ owners_by turn sender.0 (map (λ s. s.0) owners.old.items) }
{
    if let Turn::Own { .. } = turn {
        owners.push(sender);
    }
}

/// Who took the last pages, at most as many as there are rows, after this answer of a sender.
fn note_last(owners: &mut ArrayVec<SenderNo, MOST_ROWS>, rows: u64, sender: SenderNo, turn: Turn)
    requires some { 1 ≤ rows }
    requires few { rows ≤ MOST_ROWS }
    requires room { length owners.old.items ≤ rows }
    ensures { map (λ s. s.0) owners.new.items ≡ last_of rows
        (owners_by turn sender.0 (map (λ s. s.0) owners.old.items)) }
{
    if let Turn::Own { .. } = turn {
        if owners.len() as u64 == rows {
            owners.remove(0);
        }
        owners.push(sender);
    }
}

/// Who took the pages, after this answer of a sender: all, or the last where rows are used again.
pub fn note_owner(
    owners: &mut ArrayVec<SenderNo, MOST_ROWS>,
    reuse: Option<u64>,
    sender: SenderNo,
    turn: Turn,
)
    requires some { (rows : ℕ) → reuse ≡ Some rows → 1 ≤ rows }
    requires few { (rows : ℕ) → reuse ≡ Some rows → rows ≤ MOST_ROWS }
    requires most { (rows : ℕ) → reuse ≡ Some rows → length owners.old.items ≤ rows }
    requires room { (t : ℕ) → turn ≡ Turn.Own t
        → length owners.old.items < MOST_ROWS }
    ensures { map (λ s. s.0) owners.new.items ≡ owners_told reuse
        (owners_by turn sender.0 (map (λ s. s.0) owners.old.items)) }
{
    match reuse {
        None => note_all(owners, sender, turn),
        Some(rows) => note_last(owners, rows, sender, turn),
    }
}
