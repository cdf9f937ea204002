//! What holds of long operations: each stands whole at the place of its last piece.

ghost use Rattle.std.specs.Prelude.{◌≡◌, ℕ, ◌≤◌, List, [], All, ◌++◌, Option, Some, length};
ghost use Rattle.std.specs.Prelude.{flat_map, slice_index};
ghost use mathlib.Core.Option.{some};
ghost use lib.ListN.{get_elem?};
ghost use Rattle.bus_batch.specs.Frames.{items_in};
ghost use Rattle.bus_register.specs.declared.limits.TheConstants.{MOST_SENDERS};
ghost use Rattle.bus_tenure.specs.Core.{length_at};
ghost use Rattle.bus_world.specs.Headline.{IsPrefix, puts};
ghost use Rattle.bus_automaton.specs.ThreeWordBuses.{Held, automaton, process};
ghost use Rattle.bus_automaton.specs.declared.plans.Plan.{Plan};
ghost use Rattle.bus_long.specs.Joined.{long_order, sent_by};
ghost use Rattle.bus_long.specs.Pieces.{pieces};
ghost use Rattle.bus_long.specs.declared.pieces.TheConstants.{MOST_LONG_BYTES};
ghost use Rattle.bus_pageslot.specs.Lasting.{RuledTable, published};
ghost use Rattle.bus_pageslot.specs.Seats.{actions_of};
ghost use Rattle.bus_replica.specs.Causes.{tells};
ghost use Rattle.bus_replica.specs.Linearized.{IsLinearized, IsRead, PageOf, SitsAt};
ghost use Rattle.bus_replica.specs.Longs.{AppliesLong, ArePiecesOf, IsFirstLong, LongState};
ghost use Rattle.bus_replica.specs.OneOrder.{AreFunctions};
ghost use Rattle.bus_replica.specs.Replicas.{HasCaughtUp, IsFold, LeadTo, PutsAll, Replicated};
ghost use Rattle.bus_replica.specs.Replicas.{StandsLast};

use crate::states::State;
use bus_automaton::laws::threads_may_go_by;
use bus_handles::ThreeWord;
use bus_long::laws::{long_messages_are_whole, pieces_are_joined};
use bus_pageslot::laws::seats_keep_promises;

/// Replicas of long operations are linearizable, in the order of these: of each item of the one
/// order the operation that is whole with it (`long_order`), on a bus of at most 64 workers.
///
/// Of a call of `execute_long` between two moments, whose worker had put long operations alone: it
/// stands whole at one place of that order, behind all that stood there when the call began, and
/// the answer is Some, what it answers there. Of a call of `catch_up`: what `state` shows then is
/// the fold over a beginning of that order, with all that stood there when the call began. The
/// order of an earlier moment begins that of a later one. And of a worker that has put long
/// operations alone, those that stand in that order are the first that it put, whole and in its
/// order. Where an operation has one outcome, a message of `Long` has one too. Of calls of a
/// sitting that goes on from what was replayed nothing is said.
pub fn long_operations_are_linearizable<S: State>()
    ensures executes { (plan : Plan) (s t : RuledTable process (automaton plan)) (h : PageOf s)
        (k : PageOf t) → plan.shape.senders ≤ MOST_SENDERS → IsPrefix (published s) (published t)
        → (old new : Replicated Held (LongState S)) (before : List (List ℕ)) (number : ℕ)
        (bytes : List ℕ) (answer : Option S.Answer) (j : ℕ)
        → SitsAt process s.table old.sender → SitsAt process t.table new.sender
        → get_elem? t.table.views j ≡ some new.me.0
        → ArePiecesOf before (puts (actions_of process old.sender))
        → length bytes ≤ MOST_LONG_BYTES
        → PutsAll process tells old.sender new.sender number (pieces bytes)
        → StandsLast (LeadTo (IsFirstLong S.is_first) (AppliesLong S.applies) [])
        (AppliesLong S.applies) new.me.0 new.state (process.me old.sender.core) number answer
        → (own : S.Answer) × (answer ≡ Some own)
        × IsLinearized S.is_first S.applies (long_order h.order) (long_order k.order)
        (process.me old.sender.core) number bytes own new.state.state }
    ensures orders { (plan : Plan) (s t : RuledTable process (automaton plan)) (h : PageOf s)
        (k : PageOf t) → IsPrefix (published s) (published t)
        → IsPrefix (items_in (long_order h.order).entries)
        (items_in (long_order k.order).entries) }
    ensures reads { (plan : Plan) (s m t : RuledTable process (automaton plan)) (h : PageOf s)
        (k : PageOf t) → plan.shape.senders ≤ MOST_SENDERS → IsPrefix (published s) (published m)
        → IsPrefix (published m) (published t) → (old new : Replicated Held (LongState S)) (j : ℕ)
        → get_elem? t.table.views j ≡ some new.me.0 → (caught : HasCaughtUp old.me new.me)
        → caught.got ≡ slice_index m.table.words length_at
        → IsFold (LeadTo (IsFirstLong S.is_first) (AppliesLong S.applies) [])
        (AppliesLong S.applies) new.me.0 new.state
        → IsRead S.is_first S.applies (long_order h.order) (long_order k.order) new.state.state }
    ensures whole { (plan : Plan) (t : RuledTable process (automaton plan)) (k : PageOf t)
        (worker : ℕ) (operations : List (List ℕ)) → ArePiecesOf operations (puts (k.actions worker))
        → IsPrefix (sent_by worker (items_in (long_order k.order).entries)) operations }
    ensures functions { AreFunctions S.is_first S.applies
        → AreFunctions (IsFirstLong S.is_first) (AppliesLong S.applies) }
{
    pieces_are_joined();
    long_messages_are_whole();
    threads_may_go_by::<ThreeWord>();
    seats_keep_promises::<ThreeWord>();
}
