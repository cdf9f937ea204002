//! What a turn of a receiver adds, what its loads find, and what these and the seats that are made,
//! joined and cut apart leave of a table.

ghost use Rattle.std.specs.Prelude.{◌≡◌, ◌≢◌, ◌⊎◌, ℕ, ◌+◌, ◌<◌, ◌≤◌, Option, Some, List, []};
ghost use Rattle.std.specs.Prelude.{◌∷◌, ◌++◌, true, false, length, slice_index, slice_set};
ghost use mathlib.Core.Option.{some};
ghost use lib.ListN.{get_elem?};
ghost use Rattle.atomic_table.specs.Table.{State};
ghost use Rattle.bus_automaton.specs.Buses.{process_by, automaton_by};
ghost use Rattle.bus_automaton.specs.Processes.{TableLayout, base_in, log_cell, log_in};
ghost use Rattle.bus_automaton.specs.Processes.{passed_word};
ghost use Rattle.bus_automaton.specs.declared.plans.Plan.{Plan};
ghost use Rattle.bus_core.specs.Senders.{Sender};
ghost use Rattle.bus_deliverylog.specs.declared.receiving.RecvTurn.{RecvTurn};
ghost use Rattle.bus_deliverylog.specs.declared.receiving.RecvTurn.TheVariants as turn;
ghost use Rattle.bus_pageslot.specs.Lasting.{LeavesOthers, LeavesViews, RuledTable, StepsOn};
ghost use Rattle.bus_pageslot.specs.Lasting.{IsByOthers, StepsTo, published};
ghost use Rattle.bus_pageslot.specs.Listening.{FindsLength, FindsWord, Hears};
ghost use Rattle.bus_pageslot.specs.OneAnswer.{AddsAnswer};
ghost use Rattle.bus_pageslot.specs.ReceiverViews.{ReceiverView, heard_length, length_turn};
ghost use Rattle.bus_pageslot.specs.ReceiverViews.{receiver_tried, receiver_view_after_load};
ghost use Rattle.bus_pageslot.specs.ReceiverViews.{receiver_view_knowing};
ghost use Rattle.bus_pageslot.specs.Rings.{LeavesAll, ShowsReceiver, StoresApart};
ghost use Rattle.bus_pageslot.specs.Rule.{IsFirst, MayRead, Sat, TableInvariant, all_knowing};
ghost use Rattle.bus_pageslot.specs.Rule.{cut_left, cut_right, first_of, known_in, second_of};
ghost use Rattle.bus_pageslot.specs.Rule.{tap_left, tap_right, views_joined, with_look};
ghost use Rattle.bus_pageslot.specs.Steps.{Learns, Meets, Reads, copy_of, view_forked};
ghost use Rattle.bus_pageslot.specs.declared.rule.View.{View};
ghost use Rattle.bus_pageslot.specs.declared.rule.View.TheVariants as view;
ghost use Rattle.bus_register.specs.declared.limits.TheConstants.{PASSED_ALL};
ghost use Rattle.bus_tenure.specs.Core.{length_at};
ghost use Rattle.bus_tenure.specs.Elections.{Elector};
ghost use Rattle.bus_tenure.specs.declared.pages.Page.{Page};
ghost use Rattle.bus_world.specs.Headline.{IsPrefix};

use bus_adoptcommit::Ratifier;
use bus_automaton::laws::threads_may_go_by;

/// Each turn of a receiver that has not ended adds one answer to what its seat shows, which is what
/// the turn told. The seat is that of the same receiver, on a bus that is as large, and carries
/// nothing. It knows what it knew, and maybe more; and it has read no more than it knows. It has
/// ended where the answer is the end, and nowhere else. After the end each turn answers so, and
/// leaves the seat as it was.
pub fn each_turn_adds_one_answer<Q: Ratifier>()
    ensures adds { (x : TableLayout) (e : ReceiverView) (answer : RecvTurn)
        (m : Sat (Sender (Elector Q))) → e.ended ≡ false → e.place ≤ length e.known
        → Hears (view.Tap x e, []) answer m
        → (f : ReceiverView) × (m ≡ (view.Tap x f, [])) × AddsAnswer e answer f }
    ensures ended { (x : TableLayout) (e : ReceiverView) (answer : RecvTurn)
        (m : Sat (Sender (Elector Q))) → e.ended ≡ true → Hears (view.Tap x e, []) answer m
        → (answer ≡ turn.End) × (m ≡ (view.Tap x e, [])) }
{}

/// A receiver that loads the length knows all that was published, by a turn or beside its turns.
/// Such a load is always allowed: the rule holds after it, with the same words and page, and the
/// same was published. And whatever the load is said to have found, on a table of which the rule
/// holds after it the receiver knows just what was published there. So does any receiver that knows
/// as many words as the length says.
pub fn loads_find_all_that_is_published<Q: Ratifier>()
    ensures finds { let P = process_by Q.Ratifier in let A = automaton_by Q.Ratifier in
        (plan : Plan) (s : State (Option Page) (View (Sender (Elector Q)))) (seat : ℕ)
        (x : TableLayout) (e : ReceiverView) (r : TableInvariant P (A plan) s)
        → get_elem? s.views seat ≡ some (view.Tap x e)
        → let now = view.Tap x (receiver_view_knowing e (log_in (A plan) r.state)) in
        LeavesOthers P (A plan) s r seat now
        × Learns {C = Sender (Elector Q)} (view.Tap x e, []) (slice_index s.words length_at)
        (now, []) }
    ensures turns { let P = process_by Q.Ratifier in let A = automaton_by Q.Ratifier in
        (plan : Plan) (s : State (Option Page) (View (Sender (Elector Q)))) (seat : ℕ)
        (x : TableLayout) (e : ReceiverView) (r : TableInvariant P (A plan) s)
        → get_elem? s.views seat ≡ some (view.Tap x e) → e.ended ≡ false
        → let now = view.Tap x (heard_length e (log_in (A plan) r.state)
        (length_turn e.place (slice_index s.words length_at))) in
        LeavesOthers P (A plan) s r seat now
        × FindsLength {C = Sender (Elector Q)} (view.Tap x e, []) (slice_index s.words length_at)
        (now, []) }
    ensures learns { let P = process_by Q.Ratifier in let A = automaton_by Q.Ratifier in
        (plan : Plan) (t : State (Option Page) (View (Sender (Elector Q)))) (seat : ℕ)
        (x : TableLayout) (e : ReceiverView) (m : Sat (Sender (Elector Q)))
        (q : TableInvariant P (A plan) t) → get_elem? t.views seat ≡ some m.0
        → Learns (view.Tap x e, []) (slice_index t.words length_at) m
        → known_in m.0 ≡ log_in (A plan) q.state }
    ensures hears { let P = process_by Q.Ratifier in let A = automaton_by Q.Ratifier in
        (plan : Plan) (t : State (Option Page) (View (Sender (Elector Q)))) (seat : ℕ)
        (x : TableLayout) (e : ReceiverView) (m : Sat (Sender (Elector Q)))
        (q : TableInvariant P (A plan) t) → get_elem? t.views seat ≡ some m.0
        → FindsLength (view.Tap x e, []) (slice_index t.words length_at) m
        → known_in m.0 ≡ log_in (A plan) q.state }
    ensures knows { let P = process_by Q.Ratifier in let A = automaton_by Q.Ratifier in
        (plan : Plan) (s : State (Option Page) (View (Sender (Elector Q)))) (seat : ℕ)
        (v : View (Sender (Elector Q))) (e : ReceiverView) (r : TableInvariant P (A plan) s)
        → get_elem? s.views seat ≡ some v → ShowsReceiver e v
        → length e.known ≡ slice_index s.words length_at → e.known ≡ log_in (A plan) r.state }
{
    threads_may_go_by::<Q>();
}

/// A receiver that loads a word of the log leaves all words, the page and what was published, by a
/// turn or beside its turns. So do joined seats that load the length: they know all that was
/// published then. So does a look of a sender, at whatever word. The rule holds after each such
/// load.
pub fn loads_leave_what_was_published<Q: Ratifier>()
    ensures word { let P = process_by Q.Ratifier in let A = automaton_by Q.Ratifier in
        (plan : Plan) (s : State (Option Page) (View (Sender (Elector Q)))) (seat : ℕ)
        (x : TableLayout) (e : ReceiverView) (place : ℕ) (r : TableInvariant P (A plan) s)
        → get_elem? s.views seat ≡ some (view.Tap x e) → MayRead x e place
        → place < length e.known
        → let now = view.Tap x (receiver_view_after_load e (log_cell x place)) in
        LeavesOthers P (A plan) s r seat now
        × Reads {C = Sender (Elector Q)} (view.Tap x e, []) (log_cell x place)
        (slice_index s.words (log_cell x place)) (now, []) }
    ensures turns { let P = process_by Q.Ratifier in let A = automaton_by Q.Ratifier in
        (plan : Plan) (s : State (Option Page) (View (Sender (Elector Q)))) (seat : ℕ)
        (x : TableLayout) (e : ReceiverView) (r : TableInvariant P (A plan) s)
        → get_elem? s.views seat ≡ some (view.Tap x e) → e.ended ≡ false → MayRead x e e.place
        → e.place < length e.known
        → (now : View (Sender (Elector Q))) × LeavesOthers P (A plan) s r seat now
        × FindsWord (view.Tap x e, []) (slice_index s.words (log_cell x e.place)) (now, []) }
    ensures looks { let P = process_by Q.Ratifier in let A = automaton_by Q.Ratifier in
        (plan : Plan) (s : State (Option Page) (View (Sender (Elector Q)))) (seat at : ℕ)
        (v : View (Sender (Elector Q))) (r : TableInvariant P (A plan) s)
        → get_elem? s.views seat ≡ some v → LeavesOthers P (A plan) s r seat
        (with_look v (record { word = at; found = slice_index s.words at })) }
    ensures joined { let P = process_by Q.Ratifier in let A = automaton_by Q.Ratifier in
        (plan : Plan) (s : State (Option Page) (View (Sender (Elector Q)))) (seat : ℕ)
        (v : View (Sender (Elector Q))) (y : TableLayout) (e : ReceiverView)
        (carried : List (ℕ × Option Page)) (r : TableInvariant P (A plan) s) → IsFirst v
        → let both = views_joined v (view.Tap y e) in
        let now = all_knowing both (log_in (A plan) r.state) in
        get_elem? s.views seat ≡ some both → LeavesOthers P (A plan) s r seat now
        × Meets P (both, carried) (slice_index s.words length_at) (now, carried) }
{
    threads_may_go_by::<Q>();
}

/// Seats that are joined, cut apart or made leave all words, the page and what was published, and
/// the rule holds after each of these: where a receiver's seat goes into that of a sender or of
/// another receiver; where these are cut apart again; and where the maker of seats makes the next
/// one of a sender or of a receiver.
pub fn seats_leave_what_was_published<Q: Ratifier>()
    ensures joins { let P = process_by Q.Ratifier in let A = automaton_by Q.Ratifier in
        (plan : Plan) (s : State (Option Page) (View (Sender (Elector Q)))) (seat other : ℕ)
        (v : View (Sender (Elector Q))) (y : TableLayout) (e : ReceiverView)
        (r : TableInvariant P (A plan) s) → get_elem? s.views seat ≡ some v → IsFirst v
        → get_elem? s.views other ≡ some (view.Tap y e) → seat ≢ other
        → LeavesViews P (A plan) s r
        (slice_set (slice_set s.views seat (views_joined v (view.Tap y e))) other view.Spent) }
    ensures parts { let P = process_by Q.Ratifier in let A = automaton_by Q.Ratifier in
        (plan : Plan) (s : State (Option Page) (View (Sender (Elector Q)))) (seat : ℕ)
        (v : View (Sender (Elector Q))) (y : TableLayout) (e : ReceiverView)
        (r : TableInvariant P (A plan) s) → IsFirst v
        → let both = views_joined v (view.Tap y e) in get_elem? s.views seat ≡ some both
        → LeavesViews P (A plan) s r
        (slice_set s.views seat (first_of both) ++ second_of both ∷ []) }
    ensures senders { let P = process_by Q.Ratifier in let A = automaton_by Q.Ratifier in
        (plan : Plan) (s : State (Option Page) (View (Sender (Elector Q)))) (seat : ℕ)
        (x : TableLayout) (made : ℕ) (r : TableInvariant P (A plan) s)
        → get_elem? s.views seat ≡ some (view.Maker x made)
        → made < (A plan).table_layout.senders
        → LeavesViews P (A plan) s r (slice_set s.views seat (cut_left (view.Maker x made))
        ++ cut_right (Some ((A plan).started made)) (base_in (A plan) made) ∷ []) }
    ensures receivers { let P = process_by Q.Ratifier in let A = automaton_by Q.Ratifier in
        (plan : Plan) (s : State (Option Page) (View (Sender (Elector Q)))) (seat : ℕ)
        (x : TableLayout) (made : ℕ) (r : TableInvariant P (A plan) s)
        → get_elem? s.views seat ≡ some (view.Maker x made) → x.senders ≤ made
        → (x.passers ≡ 0) ⊎ (made < x.senders + x.passers)
        → LeavesViews P (A plan) s r (slice_set s.views seat (tap_left (view.Maker x made))
        ++ tap_right (view.Maker x made) ∷ []) }
{
    threads_may_go_by::<Q>();
}

/// A receiver that has not left forks to a higher number, by a compare_exchange on the passed place
/// of that: from the number past all places, to what the receiver has passed itself. Where it finds
/// that number the seat is from then on two, one of each number, and else no word has changed. So
/// the rule holds after it, with the same page, and the same was published. So it does where a copy
/// of a seat is cut off it, of a log in which no receiver has a passed place.
pub fn forks_leave_what_was_published<Q: Ratifier>()
    ensures forks { let P = process_by Q.Ratifier in let A = automaton_by Q.Ratifier in
        (plan : Plan) (s : State (Option Page) (View (Sender (Elector Q)))) (seat : ℕ)
        (x : TableLayout) (e : ReceiverView) (number : ℕ) (r : TableInvariant P (A plan) s)
        → get_elem? s.views seat ≡ some (view.Tap x e) → e.gone ≡ false → e.me < number
        → number < x.passers → slice_index s.words (passed_word x number) ≡ PASSED_ALL
        → LeavesAll P (A plan) s r seat (passed_word x number) e.passed
        (view_forked (view.Tap x e) (passed_word x number) number) }
    ensures tries { let P = process_by Q.Ratifier in let A = automaton_by Q.Ratifier in
        (plan : Plan) (s : State (Option Page) (View (Sender (Elector Q)))) (seat : ℕ)
        (x : TableLayout) (e : ReceiverView) (number : ℕ) (r : TableInvariant P (A plan) s)
        → get_elem? s.views seat ≡ some (view.Tap x e) → LeavesOthers P (A plan) s r seat
        (view.Tap x (receiver_tried e (passed_word x number)
        (slice_index s.words (passed_word x number)))) }
    ensures apart { let P = process_by Q.Ratifier in let A = automaton_by Q.Ratifier in
        (plan : Plan) (s : State (Option Page) (View (Sender (Elector Q)))) (number value : ℕ)
        → TableInvariant P (A plan) s → number < (A plan).table_layout.passers
        → StoresApart (A plan).table_layout s.words number value }
    ensures copies { let P = process_by Q.Ratifier in let A = automaton_by Q.Ratifier in
        (plan : Plan) (s : State (Option Page) (View (Sender (Elector Q)))) (seat : ℕ)
        (x : TableLayout) (e : ReceiverView) (r : TableInvariant P (A plan) s)
        → get_elem? s.views seat ≡ some (view.Tap x e) → x.passers ≡ 0
        → let v : View (Sender (Elector Q)) = view.Tap x e in
        LeavesViews P (A plan) s r (slice_set s.views seat v ++ copy_of v ∷ []) }
{
    threads_may_go_by::<Q>();
}

/// On one table only one list was published, by whichever proof of the rule: where no word of the
/// log is used again, or where a seat shows a receiver that has not left.
pub fn one_list_is_published<Q: Ratifier>()
    ensures { let P = process_by Q.Ratifier in let A = automaton_by Q.Ratifier in
        (plan : Plan) (s : State (Option Page) (View (Sender (Elector Q))))
        (r q : TableInvariant P (A plan) s)
        → ((A plan).table_layout.passers ≡ 0) ⊎ ((j : ℕ) × (v : View (Sender (Elector Q)))
        × (e : ReceiverView) × (get_elem? s.views j ≡ some v) × ShowsReceiver e v
        × (e.gone ≡ false))
        → log_in (A plan) r.state ≡ log_in (A plan) q.state }
{
    threads_may_go_by::<Q>();
}

/// What was published begins what is published after any number of steps, of whatever kind: of
/// senders, their looks, stores, loads and forks of receivers, and seats that are made, joined and
/// cut apart. And it is the same after each step but that of a sender that was due. Each step of
/// `StepsTo` carries what its law gives of it; this law only puts them together.
pub fn what_was_published_stays<Q: Ratifier>()
    ensures steps { let P = process_by Q.Ratifier in let A = automaton_by Q.Ratifier in
        (plan : Plan) (s t : RuledTable P (A plan)) → StepsOn P (A plan) s t
        → IsPrefix (published s) (published t) }
    ensures step { let P = process_by Q.Ratifier in let A = automaton_by Q.Ratifier in
        (plan : Plan) (s t : RuledTable P (A plan)) → StepsTo P (A plan) s t
        → IsPrefix (published s) (published t) }
    ensures same { let P = process_by Q.Ratifier in let A = automaton_by Q.Ratifier in
        (plan : Plan) (s t : RuledTable P (A plan)) (step : StepsTo P (A plan) s t)
        → IsByOthers P (A plan) s t step → published t ≡ published s }
{}
