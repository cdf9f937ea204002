//! What finishing does not allow, nor waiting for room, a look, a receiver's turn, a fork, or the
//! table's rule.

ghost use Rattle.std.specs.Prelude.{◌≡◌, ℕ, ◌<◌, Option, false};
ghost use Rattle.atomic_table.specs.Table.{State};
ghost use Rattle.bus_automaton.specs.Buses.{automaton_by, process_by};
ghost use Rattle.bus_automaton.specs.Processes.{TableLayout};
ghost use Rattle.bus_automaton.specs.declared.plans.Plan.{Plan};
ghost use Rattle.bus_core.specs.Senders.{Sender};
ghost use Rattle.bus_pageslot.specs.Finishing.{FinishingRefuses};
ghost use Rattle.bus_pageslot.specs.Listening.{HearingRefuses};
ghost use Rattle.bus_automaton.specs.SenderTrails.{SenderTrail};
ghost use Rattle.bus_pageslot.specs.Looks.{LookingRefuses};
ghost use Rattle.bus_pageslot.specs.Notes.{Notes};
ghost use Rattle.bus_pageslot.specs.ReceiverViews.{ReceiverView};
ghost use Rattle.bus_pageslot.specs.Rings.{RuleRefuses};
ghost use Rattle.bus_pageslot.specs.Room.{RoomRefuses};
ghost use Rattle.bus_pageslot.specs.Seats.{SenderSeat};
ghost use Rattle.bus_pageslot.specs.Steps.{ForkingRefuses};
ghost use Rattle.bus_pageslot.specs.Turns.{tells_by};
ghost use Rattle.bus_pageslot.specs.declared.rule.View.{View};
ghost use Rattle.bus_tenure.specs.Elections.{Elector, election_of};
ghost use Rattle.bus_tenure.specs.declared.pages.Page.{Page};

use bus_adoptcommit::Ratifier;
use bus_automaton::laws::threads_may_go_by;

/// Nobody goes through turns of two tenures, nor through any who has begun none: so a sender that
/// begins a tenure more, once its own is over, has not finished. Nor has one that is answered so
/// that its tenure goes on or that keeps the page, unless another sender is in its way; nor one
/// that is in another tenure then.
pub fn finishing_refuses<Q: Ratifier>()
    ensures { (first new : SenderSeat (Sender (Elector Q)))
        → FinishingRefuses (election_of Q.Ratifier) (process_by Q.Ratifier) (tells_by Q.Ratifier)
        first new }
{}

/// Nobody who sends when there is room ends with Full, or goes on once a call of the function has
/// told to stop, be it called behind a turn or before a look. And the batch that waits is the same
/// all the while, and where it stops.
pub fn room_refuses<Q: Ratifier, F: FnMut() -> bool>()
    ensures { (plan : Plan) (first new : SenderSeat (Sender (Elector Q))) (given f : F)
        → RoomRefuses (process_by Q.Ratifier) (automaton_by Q.Ratifier plan) (tells_by Q.Ratifier)
        F.step first new given f }
{}

/// No look says yes of a frame that is longer than the log, nor, of a log that is no ring, of one
/// that ends behind it even after what the sender itself has stored. None answers by loads that
/// leave out the length or the passed place of a receiver, or by more loads than one of each.
pub fn looking_refuses<Q: Ratifier>()
    ensures { (plan : Plan) (v : Sender (Elector Q)) (sender_trail : SenderTrail) (notes : Notes)
        (many : ℕ)
        → LookingRefuses (process_by Q.Ratifier) (automaton_by Q.Ratifier plan) v sender_trail
        notes many }
{}

/// No turn of a receiver that has not ended loads where its passed place is due, nor stores the
/// length that it knows in the place of its own, nor stores within a frame or without a passed
/// place. And of a ring none leaves without a store.
pub fn hearing_refuses<Q: Ratifier>()
    ensures { (x : TableLayout) (e : ReceiverView) → e.ended ≡ false
        → HearingRefuses (Sender (Elector Q)) x e }
{}

/// Of a ring no fork has what its maker has read for what that had passed, nor another number than
/// was asked for, nor has it read nothing where its maker has read a word. No call of `fork` is
/// without a step that the seat shows. And none is answered None whose step found 2^64 - 1, nor
/// gives a receiver where it found another number.
pub fn forking_refuses<Q: Ratifier>()
    ensures { (x : TableLayout) (e : ReceiverView) (number : ℕ) → 0 < x.passers
        → ForkingRefuses (Sender (Elector Q)) x e number }
{}

/// The rule holds of no table of a ring with one of these faults. A word was overwritten that a
/// receiver knows and has not passed. More than a whole log lies behind what one has passed. A
/// passed place does not show what its receiver has passed, or, where no other one has taken its
/// number, that it has left. A receiver has passed what it has not read, or a place within a frame.
/// Two seats show one number, and neither receiver has left. A passed place holds the ring up for
/// nobody. A receiver shows in no seat, and none is yet to be made for it.
pub fn rule_refuses<Q: Ratifier>()
    ensures { let A = automaton_by Q.Ratifier in
        (plan : Plan) (s : State (Option Page) (View (Sender (Elector Q))))
        → 0 < (A plan).table_layout.passers
        → RuleRefuses (process_by Q.Ratifier) (A plan) s }
{
    threads_may_go_by::<Q>();
}
