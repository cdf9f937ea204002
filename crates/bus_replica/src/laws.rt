//! What holds of all replicas of a bus, between any two steps of any threads.

ghost use Rattle.std.specs.Prelude.{◌≡◌, ℕ, ◌+◌, ◌≤◌, List, Option, Some, length, slice_get, true};
ghost use Rattle.std.specs.Prelude.{slice_index};
ghost use mathlib.Core.Option.{some};
ghost use lib.ListN.{get_elem?};
ghost use Rattle.atomic_table.specs.Table.{State as Table};
ghost use Rattle.bus_tenure.specs.declared.pages.Page.{Page};
ghost use Rattle.bus_batch.specs.Frames.{items_in};
ghost use Rattle.bus_batch.specs.declared.messages.Item.{Item};
ghost use Rattle.bus_world.specs.Headline.{IsPrefix, puts};
ghost use Rattle.bus_automaton.specs.Processes.{TableLayout, log_in};
ghost use Rattle.bus_automaton.specs.ThreeWordBuses.{Held, automaton, process};
ghost use Rattle.bus_automaton.specs.declared.plans.Plan.{Plan};
ghost use Rattle.bus_pageslot.specs.Promised.{IsPromised};
ghost use Rattle.bus_pageslot.specs.Rule.{TableInvariant, receiver_view_in};
ghost use Rattle.bus_pageslot.specs.declared.rule.View.{View};
ghost use Rattle.bus_automaton.specs.SenderTrails.{SenderTrail};
ghost use Rattle.bus_pageslot.specs.Lasting.{RuledTable, published};
ghost use Rattle.bus_pageslot.specs.Notes.{Notes};
ghost use Rattle.bus_pageslot.specs.Seats.{SenderSeat, first_number_of};
ghost use Rattle.bus_pageslot.specs.declared.rule.View.TheVariants.{Sender};
ghost use Rattle.bus_tenure.specs.Core.{length_at};
ghost use Rattle.bus_replica.specs.Causes.{tells};
ghost use Rattle.bus_replica.specs.Replicas.{PutsMore, IsFold, StandsLast, items_heard, has_view};
ghost use Rattle.bus_replica.specs.Replicas.{Folds, LeadTo};
ghost use Rattle.bus_replica.specs.Replicas.{HasCaughtUp, HaveAllLeft, Replicated};
ghost use Rattle.bus_replica.specs.OneOrder.{AreFunctions, FollowsOrder, IsLater};
ghost use Rattle.bus_replica.specs.Linearized.{PageOf, SitsAt, IsLinearized, IsRead};

use crate::states::State;
use bus_automaton::laws::threads_may_go_by;
use bus_handles::ThreeWord;
use bus_pageslot::laws::seats_keep_promises;

/// The state of each replica is the fold of the operations over a beginning of the one order, which
/// is the order of the page of promises, behind what was replayed.
pub fn replicas_follow_one_order<S: State>()
    ensures { (x : TableLayout) (base : ℕ → ℕ) (log : List ℕ)
        (s : Table (Option Page) (View Held)) (h : IsPromised process x base log s) (j : ℕ)
        (v : View Held) (state : S) (replayed : List Item) → get_elem? s.views j ≡ some v
        → IsFold (LeadTo S.is_first S.applies replayed) S.applies v state
        → FollowsOrder (LeadTo S.is_first S.applies replayed) S.applies h.order state }
{}

/// The operation that `execute` answered is the one that it was given: of the worker whose sender
/// shows in a seat, the item that stands last by the number of a put has the bytes of that put.
pub fn own_operation_is_what_was_put<S: State>()
    ensures { (x : TableLayout) (base : ℕ → ℕ) (log : List ℕ)
        (s : Table (Option Page) (View Held)) (h : IsPromised process x base log s) (i j : ℕ)
        (v : View Held) (old seat : SenderSeat Held) (c : Held) (trail : SenderTrail)
        (notes : Notes) (state : S) (number : ℕ) (bytes : List ℕ) (answer : S.Answer)
        (replayed : List Item) → get_elem? s.views i ≡ some v → has_view v ≡ true
        → get_elem? s.views j ≡ some seat.seat.me.0 → seat.seat.me.0 ≡ Sender c trail notes
        → first_number_of process seat ≡ base (process.me c)
        → PutsMore process tells old seat number bytes
        → (last : StandsLast (LeadTo S.is_first S.applies replayed) S.applies v state (process.me c)
        number answer) → last.item.message ≡ bytes }
{}

/// Real time. Whatever a replica had applied at one moment, in which the log was so long, each
/// replica has applied that has read so far by a later moment: and at the same places. A call of
/// `catch_up` that begins after the first moment loads a length that is no smaller, and reads so
/// far.
pub fn latest_is_latest()
    ensures { (plan : Plan) (s t : Table (Option Page) (View Held))
        (r : TableInvariant process (automaton plan) s)
        (q : TableInvariant process (automaton plan) t)
        → IsLater process (automaton plan) s r t q → (i j : ℕ) (v w : View Held)
        → get_elem? s.views i ≡ some v → get_elem? t.views j ≡ some w → has_view v ≡ true
        → has_view w ≡ true
        → length (log_in (automaton plan) r.state) ≤ (receiver_view_in w).place
        → IsPrefix (items_heard v) (items_heard w) }
{}

/// Real time of operations. Of two moments, an operation whose sender had not put it at the first
/// one stands behind all that stood in the order then: so behind each operation that any replica
/// had applied. A call of `execute` that begins after the first moment puts its operation later.
pub fn what_is_put_later_stands_behind()
    ensures { (x : TableLayout) (base : ℕ → ℕ) (log later : List ℕ)
        (s t : Table (Option Page) (View Held)) (h : IsPromised process x base log s)
        (k : IsPromised process x base later t) → IsPrefix log later → (p place : ℕ) (item : Item)
        → slice_get (items_in k.order.entries) place ≡ Some item → item.sender.0 ≡ p
        → base p + length (puts (h.actions p)) ≤ item.number
        → length (items_in h.order.entries) ≤ place }
{}

/// Where an operation has one outcome, and there is one first state, the same operations lead to
/// the same state, behind the same ones that were replayed.
pub fn equal_operations_give_equal_states<S: State>()
    ensures { (replayed items : List Item) (first other state state' : S)
        → AreFunctions S.is_first S.applies → LeadTo S.is_first S.applies replayed first
        → LeadTo S.is_first S.applies replayed other
        → Folds S.applies first items state → Folds S.applies other items state'
        → state ≡ state' }
{}

/// The end. Two replicas that were answered that all workers have left, be it at two moments, were
/// given the same operations: those of the whole order. So their states are equal where `apply` is
/// a function (`equal_operations_give_equal_states`).
pub fn finished_replicas_are_equal()
    ensures { (x : TableLayout) (base : ℕ → ℕ) (log later : List ℕ)
        (s t : Table (Option Page) (View Held)) (h : IsPromised process x base log s)
        (k : IsPromised process x base later t) → IsPrefix log later → (i j : ℕ) (v w : View Held)
        → get_elem? s.views i ≡ some v → get_elem? t.views j ≡ some w → has_view v ≡ true
        → has_view w ≡ true → HaveAllLeft v x.senders → HaveAllLeft w x.senders
        → (items_heard v ≡ items_heard w) × (items_heard v ≡ items_in h.order.entries) }
{}

/// Replicas are linearizable (Herlihy and Wing 1990). A moment is a table on which the rule of the
/// bus holds, with its page of promises; a later one has all that was published at the earlier one.
///
/// Of a call of `execute` between two moments: its operation stands at one place of the one order,
/// behind all that stood there when the call began, and the answer is what it answers there. At
/// both moments a seat shows the worker's sender, and at the second one its receiver. `PutsMore`
/// and `StandsLast` are what the call ensures. Orders of two moments are beginnings of one another
/// (`orders`). So what had returned before the call began stands before its operation.
///
/// Of a call of `catch_up` between two moments, whose load of the length was at a third one: what
/// `state` shows then is the fold over a beginning of the one order, with all that stood there when
/// the call began. `HasCaughtUp` is what it ensures, and `IsFold` what `state` does.
///
/// A fold begins with a state that the replayed operations lead to, if any were replayed
/// (`sittings_are_one`).
pub fn replicas_are_linearizable<S: State>()
    ensures executes { (plan : Plan) (s t : RuledTable process (automaton plan)) (h : PageOf s)
        (k : PageOf t) → IsPrefix (published s) (published t) → (old new : Replicated Held S)
        (number : ℕ) (bytes : List ℕ) (answer : S.Answer) (j : ℕ) (replayed : List Item)
        → SitsAt process s.table old.sender → SitsAt process t.table new.sender
        → get_elem? t.table.views j ≡ some new.me.0
        → PutsMore process tells old.sender new.sender number bytes
        → StandsLast (LeadTo S.is_first S.applies replayed) S.applies new.me.0 new.state
        (process.me old.sender.core) number answer
        → IsLinearized (LeadTo S.is_first S.applies replayed) S.applies h.order k.order
        (process.me old.sender.core) number bytes answer new.state }
    ensures orders { (plan : Plan) (s t : RuledTable process (automaton plan)) (h : PageOf s)
        (k : PageOf t) → IsPrefix (published s) (published t)
        → IsPrefix (items_in h.order.entries) (items_in k.order.entries) }
    ensures reads { (plan : Plan) (s m t : RuledTable process (automaton plan)) (h : PageOf s)
        (k : PageOf t) → IsPrefix (published s) (published m)
        → IsPrefix (published m) (published t) → (old new : Replicated Held S) (j : ℕ)
        (replayed : List Item) → get_elem? t.table.views j ≡ some new.me.0
        → (caught : HasCaughtUp old.me new.me) → caught.got ≡ slice_index m.table.words length_at
        → IsFold (LeadTo S.is_first S.applies replayed) S.applies new.me.0 new.state
        → IsRead (LeadTo S.is_first S.applies replayed) S.applies h.order k.order new.state }
{
    threads_may_go_by::<ThreeWord>();
    seats_keep_promises::<ThreeWord>();
}
