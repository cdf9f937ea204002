//! What holds of replicas that go on from a journal.

ghost use Rattle.std.specs.Prelude.{◌≡◌, ℕ, ◌≤◌, ◌<◌, ◌-◌, ◌^◌, List, ◌++◌, length, true, Option};
ghost use Rattle.std.specs.Prelude.{Some, slice_get, slice_index};
ghost use mathlib.Core.Option.{some};
ghost use lib.ListN.{get_elem?};
ghost use Rattle.bus_register.specs.declared.limits.TheConstants.{MOST_SENDERS};
ghost use Rattle.bus_batch.specs.declared.messages.Item.{Item};
ghost use Rattle.bus_batch.specs.Frames.{AreFrames, Frame, Order, items_in, log_words, order_of};
ghost use Rattle.bus_world.specs.Headline.{IsPrefix};
ghost use Rattle.bus_automaton.specs.ThreeWordBuses.{Held, automaton, process};
ghost use Rattle.bus_automaton.specs.declared.plans.Plan.{Plan};
ghost use Rattle.bus_journal.specs.Format.{Heading, IsHeading, journal_bytes};
ghost use Rattle.bus_journal.specs.Reading.{Answer, AreFew, Reads};
ghost use Rattle.bus_journal.specs.declared.reading.JournalRead.{JournalRead};
ghost use Rattle.bus_pageslot.specs.Lasting.{RuledTable, published};
ghost use Rattle.bus_pageslot.specs.Rule.{receiver_view_in};
ghost use Rattle.bus_pageslot.specs.declared.rule.View.{View};
ghost use Rattle.bus_replica.specs.Linearized.{IsLinearized, IsRead};
ghost use Rattle.bus_replica.specs.OneOrder.{AreFunctions};
ghost use Rattle.bus_replica.specs.Pages.{FollowsPage, IsPageBehind};
ghost use Rattle.bus_replica.specs.Replicas.{LeadTo, has_view, items_heard};
ghost use Rattle.bus_replica.specs.Sittings.{RecoveriesRefuse, behind};
ghost use Rattle.bus_tenure.specs.declared.pages.Page.{Page};

use crate::states::State;
use bus_journal::laws::written_journals_are_read;

/// Where frames that begin what was published have as many words as a replica's `words` says, all
/// that it has applied of its sitting is among their operations. So once a journal has these frames
/// on disk, so are these operations.
pub fn words_hold_what_was_applied()
    ensures { (plan : Plan) (t : RuledTable process (automaton plan)) (j : ℕ) (v : View Held)
        (frames : List Frame) → get_elem? t.table.views j ≡ some v → has_view v ≡ true
        → AreFrames plan.shape.senders frames → IsPrefix (log_words frames) (published t)
        → (receiver_view_in v).place ≤ length (log_words frames)
        → IsPrefix (items_heard v) (items_in (order_of frames).entries) }
{}

/// A sitting and what was replayed before it are one object: a state that its operations led to,
/// from one that the replayed operations led to, is one that all of them led to from a first one.
/// An execution stands behind all that was replayed, and a read shows all of that. Where an
/// operation has one outcome, and there is one first state, one state is led to by what was
/// replayed, at most.
pub fn sittings_are_one<S: State>()
    ensures states { (replayed items : List Item) (state : S)
        → LeadTo (LeadTo S.is_first S.applies replayed) S.applies items state
        → LeadTo S.is_first S.applies (replayed ++ items) state }
    ensures executes { (replayed : List Item) (earlier later : Order) (worker number : ℕ)
        (bytes : List ℕ) (answer : S.Answer) (state : S)
        → IsLinearized (LeadTo S.is_first S.applies replayed) S.applies earlier later worker number
        bytes answer state → IsLinearized S.is_first S.applies (behind replayed earlier)
        (behind replayed later) worker number bytes answer state }
    ensures reads { (replayed : List Item) (earlier later : Order) (state : S)
        → IsRead (LeadTo S.is_first S.applies replayed) S.applies earlier later state
        → IsRead S.is_first S.applies (behind replayed earlier) (behind replayed later) state }
    ensures functions { (replayed : List Item) → AreFunctions S.is_first S.applies
        → AreFunctions (LeadTo S.is_first S.applies replayed) S.applies }
{}

/// What was on disk before a crash stands before all that is executed after it. Of the journal of a
/// sitting, in which these frames were written, whatever bytes follow them, and of whatever
/// `read_journal` may answer of it, behind what was replayed of the sittings before: what these
/// frames say is among what is replayed then (`told`). Each execution of a sitting that goes on
/// from all that stands in the order of all sittings: behind all that was replayed before and that
/// the frames say, and behind all that stood in its own sitting when it began. Each read shows all
/// of both.
pub fn what_was_recorded_stands_before<S: State>()
    ensures told { (h : Heading) (frames : List Frame) (tail bytes : List ℕ) (told : List Frame)
        (a : Answer) → IsHeading h → AreFrames h.senders frames → AreFew h.most frames
        → bytes ≡ journal_bytes h frames ++ tail → Reads bytes told a
        → IsPrefix (items_in (order_of frames).entries) (items_in a.order.entries) }
    ensures executes { (before : List Item) (h : Heading) (frames : List Frame)
        (tail bytes : List ℕ) (told : List Frame) (a : Answer) → IsHeading h
        → AreFrames h.senders frames → AreFew h.most frames
        → bytes ≡ journal_bytes h frames ++ tail → Reads bytes told a → (earlier later : Order)
        (worker number : ℕ) (operation : List ℕ) (answer : S.Answer) (state : S)
        → let replayed = before ++ items_in a.order.entries in
        IsLinearized (LeadTo S.is_first S.applies replayed) S.applies earlier later worker number
        operation answer state
        → IsLinearized S.is_first S.applies (behind before (order_of frames))
        (behind replayed later) worker number operation answer state
        × IsLinearized S.is_first S.applies (behind replayed earlier)
        (behind replayed later) worker number operation answer state }
    ensures reads { (before : List Item) (h : Heading) (frames : List Frame)
        (tail bytes : List ℕ) (told : List Frame) (a : Answer) → IsHeading h
        → AreFrames h.senders frames → AreFew h.most frames
        → bytes ≡ journal_bytes h frames ++ tail → Reads bytes told a → (earlier later : Order)
        (state : S) → let replayed = before ++ items_in a.order.entries in
        IsRead (LeadTo S.is_first S.applies replayed) S.applies earlier later state
        → IsRead S.is_first S.applies (behind before (order_of frames)) (behind replayed later)
        state
        × IsRead S.is_first S.applies (behind replayed earlier) (behind replayed later) state }
{
    written_journals_are_read();
}

/// No number that a journal told is given again by the page behind it, but the greatest number that
/// a word has, which no log has. And where the journal goes on from a page, no next number is less
/// than it was there.
pub fn told_numbers_are_behind()
    ensures told { (before : Option Page) (read : JournalRead) (page : Page) (k : ℕ) (item : Item)
        → IsPageBehind before read page → slice_get read.log.order.items.items k ≡ Some item
        → item.sender.0 < MOST_SENDERS → item.number < 2 ^ 64 - 1
        → item.number < slice_index page.next item.sender.0 }
    ensures earlier { (before page : Page) (read : JournalRead) (sender : ℕ)
        → IsPageBehind (Some before) read page → FollowsPage (Some before) read
        → sender < MOST_SENDERS → slice_index before.next sender ≤ slice_index page.next sender }
{}

/// Of a state that keeps what was applied to it, in order, with the sender of each: what a recovery
/// must not lead to.
pub fn wrong_recoveries_are_refused()
    ensures { (a b : Item) → RecoveriesRefuse a b }
{}
