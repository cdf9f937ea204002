//! What a step of a sender leaves and answers, over the parts of it.

ghost use Rattle.std.specs.Prelude.{◌≡◌, ◌+◌, ◌*◌, ◌-◌, ◌<◌, ◌≤◌, ◌^◌, Option, Some, None, IsSome};
ghost use Rattle.std.specs.Prelude.{◌%◌};
ghost use Rattle.bus_presence.specs.Reclamation.{reclaimer_after as spec_reclaimer_after};
ghost use Rattle.bus_presence.specs.Reclaimers.{Reclaiming, reclaim_fed, behind_of};
ghost use Rattle.bus_tenure.specs.Elections.{election_of, elections};
ghost use Rattle.bus_tenure.specs.Situations.{situation_of, resting, LooksAtStage};
ghost use Rattle.bus_tenure.specs.Situations.{answer_of_stage};
ghost use Rattle.bus_tenure.specs.declared.phases.Phase.TheVariants as phase;
ghost use Rattle.bus_core.specs.Reusing.Turns.{answer_of_reclaim, answer_of_loss};
ghost use Rattle.bus_tenure.specs.Causes.{HoldsUnfitting};
ghost use Rattle.bus_tenure.specs.Doings.{doing_of};
ghost use Rattle.bus_tenure.specs.declared.doings.Doing.TheVariants as doing;
ghost use Rattle.bus_core.specs.Doings.{step_of};
ghost use Rattle.bus_core.specs.Keeping.{ReuseKeeps, sender, reclaimer_in, reuse_answered};
ghost use Rattle.bus_core.specs.Keeping.{turn_answered};
ghost use Rattle.bus_core.specs.Senders.{Does, situation};
ghost use Rattle.bus_core.specs.Table.{line, line_now, seen, reuse_pinning, lost_of};
ghost use Rattle.bus_core.specs.Reusing.Passing.{core_passed, passing_fed};
ghost use Rattle.bus_core.specs.Table.{reuse_reclaiming, reuse_passed, reuse_taken, reuse_given};

use super::reuses::{Passing, Reuse};
use super::steps::Step;
use crate::limits::{LEAST_ROWS_AGAIN, MOST_ROWS_AGAIN};
use bus_adoptcommit::Ratifier;
use bus_presence::{Behind, Pin, Reclaimer};
use bus_register::limits::{MOST_SENDERS, TENURES};
use bus_register::{Reg, SenderNo};
use bus_tenure::{Doing, Turn, Turns};

/// Goes on after the step that `step` told.
#[inline(always)]
pub fn feed_parts<Q: Ratifier + Drop>(
    turns: &mut Turns<Q>,
    reuse: &mut Option<Reuse>,
    step: Step,
    got: u64,
    word: u32,
) -> Turn
    requires step { let X = election_of Q.Ratifier in
        step_of (situation X (sender turns.old reuse.old)) ≡ step }
    requires due { let X = election_of Q.Ratifier in
        IsSome ((line_now X (sender turns.old reuse.old)).op word) }
    requires keeps { ReuseKeeps
        ((elections Q.protocol turns.old.layout.rounds).width turns.old.layout.senders)
        ((elections Q.protocol turns.old.layout.rounds).Belongs turns.old.layout.senders
        turns.old.me)
        turns.old reuse.old }
    ensures state { let X = election_of Q.Ratifier in
        sender turns.new reuse.new ≡ (line_now X (sender turns.old reuse.old)).fed got word }
    ensures answer { let X = election_of Q.Ratifier in
        result ≡ (line_now X (sender turns.old reuse.old)).answer got word }
{
    match step {
        Step::Does(doing) => own_feed(turns, reuse, doing, got, word),
        Step::Announces { tenure } => {
            show(reuse, Pin::Validating { tenure });
            Turn::Going
        }
        Step::Validates { tenure } => {
            if got / 2 == tenure {
                turns.begin(tenure);
                show(reuse, Pin::Pinned { tenure });
            } else {
                show(reuse, Pin::Invalidated { tenure });
            }
            Turn::Going
        }
        Step::Unpins { tenure } => {
            let turn = loss(reuse, tenure);
            show(reuse, Pin::Away);
            turn
        }
        Step::Withdraws { .. } => {
            show(reuse, Pin::Away);
            Turn::Waiting
        }
        Step::Scans | Step::Clears => reclaim_on(reuse, got),
        Step::ReadsPassed => {
            pass(turns, reuse, got);
            Turn::Going
        }
    }
}

/// The pin has come so far.
#[inline(always)]
fn show(reuse: &mut Option<Reuse>, pin: Pin)
    ensures { reuse.new ≡ reuse_pinning reuse.old pin }
{
    if let Some(reuse) = reuse {
        reuse.pin = pin;
        reuse.lost = None;
    }
}

/// The answer of a sender that parts from a tenure.
#[inline(always)]
fn loss(reuse: &Option<Reuse>, tenure: u64) -> Turn
    ensures { result ≡ answer_of_loss tenure (lost_of reuse.now) }
{
    match reuse {
        None => Turn::Going,
        Some(reuse) => match reuse.lost {
            None => Turn::Going,
            Some(owner) => Turn::Lost { tenure, owner },
        },
    }
}

/// Takes in a passed place. With the last one the page gets its floor.
fn pass<Q: Ratifier + Drop>(turns: &mut Turns<Q>, reuse: &mut Option<Reuse>, got: u64)
    requires lacks { HoldsUnfitting turns.old }
    requires left { (r : Reuse) → reuse.old ≡ Some r
        → r.passed.loaded < turns.old.layout.passers }
    ensures core { (r : Reuse) → reuse.old ≡ Some r
        → turns.new ≡ core_passed turns.old (passing_fed r.passed got) }
    ensures reuse { (r : Reuse) → reuse.old ≡ Some r
        → reuse.new ≡ reuse_passed reuse.old (passing_fed r.passed got) }
{
    let passers = turns.passers();
    let Some(reuse) = reuse else {
        return;
    };
    reuse.passed.loaded += 1;
    if got < reuse.passed.least {
        reuse.passed.least = got;
    }
    if reuse.passed.loaded == passers {
        turns.set_floor(reuse.passed.least);
    }
}

/// Takes the next step of a reclamation.
#[inline(always)]
fn reclaim_on(reuse: &mut Option<Reuse>, got: u64) -> Turn
    requires few { (s : Reclaiming) → reclaimer_in reuse.old ≡ Some s → s.senders ≤ MOST_SENDERS }
    ensures state { (s : Reclaiming) → reclaimer_in reuse.old ≡ Some s
        → reuse.new ≡ reuse_reclaiming reuse.old (reclaim_fed s got) }
    ensures answer { (s : Reclaiming) → reclaimer_in reuse.old ≡ Some s
        → result ≡ answer_of_reclaim (behind_of s got) }
{
    match reuse {
        None => Turn::Going,
        Some(reuse) => feed_reclaimer(&mut reuse.reclaimer, got),
    }
}

/// The same of the reclamation.
#[inline(always)]
fn feed_reclaimer(reclaimer: &mut Option<Reclaimer>, got: u64) -> Turn
    requires few { (s : Reclaiming) → reclaimer.old ≡ Some s → s.senders ≤ MOST_SENDERS }
    ensures state { (s : Reclaiming) → reclaimer.old ≡ Some s
        → reclaimer.new ≡ Some (reclaim_fed s got) }
    ensures answer { (s : Reclaiming) → reclaimer.old ≡ Some s
        → result ≡ answer_of_reclaim (behind_of s got) }
{
    let Some(reclaimer) = reclaimer else {
        return Turn::Going;
    };
    match reclaimer.feed(got) {
        Some(Behind { tenure, sender }) => Turn::Behind {
            tenure,
            sender: SenderNo(sender as u8),
        },
        None => Turn::Going,
    }
}

/// Goes on as a sender in its tenure, or before it.
#[inline(always)]
fn own_feed<Q: Ratifier + Drop>(
    turns: &mut Turns<Q>,
    reuse: &mut Option<Reuse>,
    doing: Doing,
    got: u64,
    word: u32,
) -> Turn
    requires doing { let X = election_of Q.Ratifier in
        doing_of (situation_of X turns.old) ≡ doing }
    requires due { let X = election_of Q.Ratifier in
        IsSome ((line X (sender turns.old reuse.old) (Does (situation_of X turns.old))).op word) }
    requires keeps { ReuseKeeps
        ((elections Q.protocol turns.old.layout.rounds).width turns.old.layout.senders)
        ((elections Q.protocol turns.old.layout.rounds).Belongs turns.old.layout.senders
        turns.old.me)
        turns.old reuse.old }
    ensures state { let X = election_of Q.Ratifier in
        sender turns.new reuse.new
        ≡ (line X (sender turns.old reuse.old) (Does (situation_of X turns.old))).fed got word }
    ensures answer { let X = election_of Q.Ratifier in
        result
        ≡ (line X (sender turns.old reuse.old) (Does (situation_of X turns.old))).answer got word }
{
    match doing {
        Doing::Rests(turn) => turn,
        Doing::Awaits { .. } => Turn::Going,
        Doing::Looks => see_stage(turns, reuse, got),
        Doing::Elects { tenure } => {
            let turn = turns.elect(tenure, got, word);
            elected(reuse, tenure, turn)
        }
        Doing::Takes { tenure } => {
            take(turns, reuse, tenure);
            Turn::Own { tenure }
        }
        Doing::Word {
            tenure,
            words,
            stored,
        } => {
            turns.word_stored(tenure, words, stored);
            Turn::Going
        }
        Doing::Length { tenure, words } => {
            turns.length_stored(tenure, words);
            Turn::Going
        }
        Doing::Back { tenure, reason } | Doing::Handed { tenure, reason } => {
            done(reuse);
            turns.end(tenure, reason)
        }
    }
}

/// Takes in what the stage is, and begins or enters the tenure that it may begin.
#[inline(always)]
fn see_stage<Q: Ratifier + Drop>(turns: &mut Turns<Q>, reuse: &mut Option<Reuse>, got: u64) -> Turn
    requires rests { turns.old.phase ≡ phase.Resting }
    requires looks { resting turns.old ≡ LooksAtStage }
    ensures state { let X = election_of Q.Ratifier in
        sender turns.new reuse.new ≡ seen X turns.old reuse.old got }
    ensures answer { result ≡ answer_of_stage turns.old got }
{
    let Some(reuse) = reuse else {
        return turns.see_stage(got);
    };
    match turns.may_begin(got) {
        Some(tenure) => {
            reuse.pin = Pin::Announcing { tenure };
            Turn::Going
        }
        None => {
            reuse.pin = Pin::Away;
            turns.see_stage(got)
        }
    }
}

/// The election of this tenure has gone on, or is over, and its sender answers this.
#[inline(always)]
pub(crate) fn elected(reuse: &mut Option<Reuse>, tenure: u64, turn: Turn) -> Turn
    ensures state { reuse.new ≡ reuse_answered turn tenure reuse.old }
    ensures answer { result ≡ turn_answered turn reuse.old }
{
    let Some(reuse) = reuse else {
        return turn;
    };
    if let Turn::Lost { owner, .. } = turn {
        reuse.pin = Pin::Unpinning { tenure };
        reuse.lost = Some(owner);
    } else {
        reuse.pin = Pin::Pinned { tenure };
    }
    Turn::Going
}

/// Takes the page.
#[inline(always)]
fn take<Q: Ratifier + Drop>(turns: &mut Turns<Q>, reuse: &mut Option<Reuse>, tenure: u64)
    requires doing { let X = election_of Q.Ratifier in
        doing_of (situation_of X turns.old) ≡ doing.Takes tenure }
    requires keeps { ReuseKeeps
        ((elections Q.protocol turns.old.layout.rounds).width turns.old.layout.senders)
        ((elections Q.protocol turns.old.layout.rounds).Belongs turns.old.layout.senders
        turns.old.me)
        turns.old reuse.old }
    ensures core { turns.new ≡ record turns.old { phase = phase.Taken tenure } }
    ensures reuse { reuse.new ≡ reuse_taken turns.old.layout reuse.old tenure }
{
    turns.stage_taken(tenure);
    if let Some(reuse) = reuse {
        let senders = turns.senders();
        reuse.pin = Pin::Unpinning { tenure };
        reuse.reclaimer = reclaimer_after(tenure, senders, reuse.rows, turns.width());
        reuse.passed = Passing {
            loaded: 0,
            least: u64::MAX,
        };
    }
    turns.take_page(tenure);
}

/// The reclamation is over with the page that is given back.
#[inline(always)]
fn done(reuse: &mut Option<Reuse>)
    ensures { reuse.new ≡ reuse_given reuse.old }
{
    if let Some(reuse) = reuse {
        reuse.reclaimer = None;
    }
}

/// The reclaimer of a holder of this tenure: none where the row of the next one was never used.
#[inline(always)]
fn reclaimer_after(tenure: u64, senders: u64, rows: u64, width: u64) -> Option<Reclaimer>
    requires tenure { tenure < TENURES }
    requires senders { senders ≤ MOST_SENDERS }
    requires rows_some { LEAST_ROWS_AGAIN ≤ rows }
    requires rows_few { rows ≤ MOST_ROWS_AGAIN }
    requires width { width ≤ 2 ^ 23 }
    ensures { result ≡ spec_reclaimer_after
        (record { at = 1; senders = senders; rows = rows; width = width }) tenure }
{
    let next = tenure + 1;
    if next < rows {
        return None;
    }
    let row = Reg(2 + senders + next % rows * width);
    Some(Reclaimer::new(next - rows, senders, Reg(2), row, width))
}
