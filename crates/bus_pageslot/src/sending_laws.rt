//! A sender stays who it is, by turns, puts and marks.

ghost use Rattle.std.specs.Prelude.{◌≡◌, ℕ, List, Bool};
ghost use Rattle.bus_automaton.specs.Buses.{process_by, automaton_by};
ghost use Rattle.bus_automaton.specs.declared.plans.Plan.{Plan};
ghost use Rattle.bus_batch.specs.declared.messages.Mark.{Mark};
ghost use Rattle.bus_core.specs.Senders.{Sender};
ghost use Rattle.bus_pageslot.specs.Finishing.{Finishes, GoesThrough};
ghost use Rattle.bus_pageslot.specs.Looks.{LooksForRoom};
ghost use Rattle.bus_pageslot.specs.Room.{SendsForRoom, StopsForRoom};
ghost use Rattle.bus_pageslot.specs.Seats.{SenderSeat};
ghost use Rattle.bus_pageslot.specs.Staying.{IsSameSender};
ghost use Rattle.bus_pageslot.specs.Turns.{DrawsOn, Sends, SendsAsking, StopsWaiting};
ghost use Rattle.bus_pageslot.specs.Turns.{TakesUpTo, Turned, tells_by};
ghost use Rattle.bus_tenure.specs.Elections.{Elector, election_of};
ghost use Rattle.bus_tenure.specs.declared.turns.Turn.{Turn};
ghost use Rattle.rand_core.specs.Stream.{Stream};

use bus_adoptcommit::Ratifier;
use bus_automaton::laws::threads_may_go_by;

/// Neither a turn changes the number of a sender, nor from which number on its messages are
/// counted. Nor do several turns, as calls state them: those up to a last one, those between which
/// a function is asked, those that wait for room, and those that finish a tenure. Nor does a
/// look, or a message or a mark that it takes.
pub fn senders_stay_who_they_are<Q: Ratifier, F: FnMut() -> bool>()
    ensures turn { let P = process_by Q.Ratifier in
        (old new : SenderSeat (Sender (Elector Q))) (word : ℕ) (answer : Turn)
        → Turned P (tells_by Q.Ratifier) old word answer new → IsSameSender P old new }
    ensures sends { let P = process_by Q.Ratifier in
        (old new : SenderSeat (Sender (Elector Q))) (answer : Turn)
        → Sends P (tells_by Q.Ratifier) old answer new → IsSameSender P old new }
    ensures takes { let P = process_by Q.Ratifier in
        (old new : SenderSeat (Sender (Elector Q))) (word more : ℕ) (answer : Turn)
        → TakesUpTo P (tells_by Q.Ratifier) old word more answer new → IsSameSender P old new }
    ensures draws { let P = process_by Q.Ratifier in
        (old new : SenderSeat (Sender (Elector Q))) (words left : Stream)
        → DrawsOn P (tells_by Q.Ratifier) old words new left → IsSameSender P old new }
    ensures asks { let P = process_by Q.Ratifier in
        (old new : SenderSeat (Sender (Elector Q))) (given : F) (answer : Turn)
        → SendsAsking P (tells_by Q.Ratifier) F.step old given answer new
        → IsSameSender P old new }
    ensures stops { let P = process_by Q.Ratifier in
        (old new : SenderSeat (Sender (Elector Q))) (given : F)
        → StopsWaiting P (tells_by Q.Ratifier) F.step old given new → IsSameSender P old new }
    ensures room { let P = process_by Q.Ratifier in (plan : Plan)
        (old new : SenderSeat (Sender (Elector Q))) (given : F) (answer : Turn)
        → SendsForRoom P (automaton_by Q.Ratifier plan) (tells_by Q.Ratifier) F.step old given
        answer new → IsSameSender P old new }
    ensures stops_for_room { let P = process_by Q.Ratifier in (plan : Plan)
        (old new : SenderSeat (Sender (Elector Q))) (given : F)
        → StopsForRoom P (automaton_by Q.Ratifier plan) (tells_by Q.Ratifier) F.step old given new
        → IsSameSender P old new }
    ensures looks { let P = process_by Q.Ratifier in (plan : Plan)
        (old new : SenderSeat (Sender (Elector Q))) (fits : Bool)
        → LooksForRoom P (automaton_by Q.Ratifier plan) old fits new → IsSameSender P old new }
    ensures through { let P = process_by Q.Ratifier in
        (old new : SenderSeat (Sender (Elector Q))) (tenure count : ℕ)
        → GoesThrough P (tells_by Q.Ratifier) tenure old count new → IsSameSender P old new }
    ensures finishes { let P = process_by Q.Ratifier in
        (old new : SenderSeat (Sender (Elector Q))) (answer : Turn)
        → Finishes (election_of Q.Ratifier) P (tells_by Q.Ratifier) old answer new
        → IsSameSender P old new }
    ensures puts { let P = process_by Q.Ratifier in
        (old new : SenderSeat (Sender (Elector Q))) (bytes : List ℕ)
        → new.core ≡ P.with_message old.core bytes → new.seat ≡ old.seat
        → IsSameSender P old new }
    ensures marks { let P = process_by Q.Ratifier in
        (old new : SenderSeat (Sender (Elector Q))) (mark : Mark)
        → new.core ≡ P.with_mark old.core mark → new.seat ≡ old.seat → IsSameSender P old new }
{
    threads_may_go_by::<Q>();
}
