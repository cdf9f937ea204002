//! Whole histories of calls are linearizable: of threads and of machines that play events.

ghost use Rattle.std.specs.Prelude.{ℕ, ◌≤◌, List, length};
ghost use Rattle.bus_batch.specs.declared.messages.Item.{Item};
ghost use Rattle.bus_batch.specs.Frames.{Order, items_in};
ghost use Rattle.bus_deliverylog.specs.declared.receiving.RecvTurn.{RecvTurn};
ghost use Rattle.bus_register.specs.declared.registers.SenderNo.{SenderNo};
ghost use Rattle.bus_tenure.specs.Elections.{Elector, election_of};
ghost use Rattle.bus_world.specs.Headline.{Action, IsPrefix, Promises};
ghost use Rattle.bus_world.specs.World.{Event};
ghost use Rattle.bus_automaton.specs.ThreeWordBuses.{automaton, process};
ghost use Rattle.bus_automaton.specs.declared.plans.Plan.{Plan};
ghost use Rattle.bus_machine.specs.Machine.{Machine, Trails};
ghost use Rattle.bus_machine.specs.Playing.{Played, trails_after};
ghost use Rattle.bus_replica.specs.OneOrder.{AreFunctions};
ghost use Rattle.bus_replica.specs.Linearized.{IsLinearized, IsRead};
ghost use Rattle.bus_replica.specs.Causes.{tells};
ghost use Rattle.bus_replica.specs.Histories.{AreDoneBy, AreInTurn, AreMoments, Call};
ghost use Rattle.bus_replica.specs.Histories.{HistoriesAccept, HistoriesRefuse, IsLinearizable};
ghost use Rattle.bus_replica.specs.Moments.{AreDoneOnMachines, AreDoneOnTables, EndsWith};
ghost use Rattle.bus_replica.specs.Moments.{HasExecutedOn, HasReadOn, IsLaterMachine};
ghost use Rattle.bus_replica.specs.Moments.{MachineMoment, PublishesMore, PutsSince, TableMoment};
ghost use Rattle.bus_replica.specs.Moments.{operations_in};
ghost use Rattle.bus_replica.specs.Replicas.{LeadTo};

use crate::states::State;
use bus_adoptcommit::Ratifier;
use bus_automaton::laws::threads_may_go_by;
use bus_handles::ThreeWord;
use bus_pageslot::laws::seats_keep_promises;

/// Histories of calls are linearizable (Herlihy and Wing 1990), where an operation has one outcome
/// and there is one first state; they begin with one that the replayed operations lead to, if any
/// were replayed. Of any list of calls between any moments: each execution stands in
/// the orders of its two moments as `replicas_are_linearizable` says (`IsLinearized`), each read
/// shows what it says (`IsRead`), and no worker had two executions on the way at once. Then there
/// is one sequential history of the object, of operations that stand in the order of the last
/// moment, in which each call takes effect at one point; and calls keep their order in time.
pub fn histories_are_linearizable<S: State>()
    ensures { (replayed : List Item) (first : S) (orders : ℕ → Order) (last : ℕ)
        (calls : List (Call S S.Answer)) → AreFunctions S.is_first S.applies
        → LeadTo S.is_first S.applies replayed first → AreMoments orders
        → AreDoneBy (LeadTo S.is_first S.applies replayed) S.applies orders last calls
        → AreInTurn calls → IsLinearizable (LeadTo S.is_first S.applies replayed) S.applies
        (items_in (orders last).entries) calls }
{}

/// So histories of replicas are linearizable. Of any list of calls of `execute` and `catch_up`
/// between moments of one bus: tables on which its rule holds, at each later one of which more was
/// published, or the same. Of each call this asks for what it ensures, for the seats that show the
/// replica at its moments, and that `catch_up` found the length of a table between them.
pub fn replicas_have_linearizable_histories<S: State>()
    ensures { (plan : Plan) (replayed : List Item) (first : S)
        (moments : ℕ → TableMoment process (automaton plan)) (last : ℕ)
        (calls : List (Call S S.Answer)) → AreFunctions S.is_first S.applies
        → LeadTo S.is_first S.applies replayed first → AreDoneOnTables tells
        (LeadTo S.is_first S.applies replayed) S.applies moments last calls
        → AreInTurn calls → IsLinearizable (LeadTo S.is_first S.applies replayed) S.applies
        (items_in (moments last).page.order.entries) calls }
{
    threads_may_go_by::<ThreeWord>();
    seats_keep_promises::<ThreeWord>();
}

/// Of a counter no history is linearizable in which a read is stale, or ahead of its time, or goes
/// back; in which two executions have the same answer, as if one operation had been lost, or an
/// execution that began after another had returned is answered as if it stood before that; or in
/// which a read shows an operation from nowhere, or one that was applied twice; or in which one is
/// executed that nobody sent. Right histories are linearizable: of an execution of the only
/// operation, and a read behind it that shows one, or beside it that shows one or none.
pub fn wrong_histories_are_refused()
    ensures refuses { (operations : List Item) (calls : List (Call ℕ ℕ))
        → HistoriesRefuse operations calls }
    ensures accepts { (item : Item) (reader : ℕ) → HistoriesAccept item reader }
{}

/// Of two pages of promises, where the order of the one begins the order of the other. What a
/// sender put behind all that it had done by the first, and a receiver was given last of all by the
/// second, is executed between the two. Where a receiver was given as many operations as the order
/// had at the first, the state that they lead to is a read between the two.
pub fn promises_are_linearizable<S: State>()
    ensures executes { (base base' : ℕ → ℕ) (actions actions' : ℕ → List Action)
        (heard heard' : ℕ → List RecvTurn) (order order' : Order)
        (owners owners' : List (ℕ × SenderNo)) → Promises base actions heard order owners
        → Promises base' actions' heard' order' owners'
        → IsPrefix (items_in order.entries) (items_in order'.entries)
        → (worker receiver number : ℕ) (bytes : List ℕ) (state : S) (answer : S.Answer)
        → PutsSince (actions worker) (actions' worker) number bytes
        → EndsWith S.is_first S.applies (operations_in (heard' receiver)) state worker number
        answer
        → IsLinearized S.is_first S.applies order order' worker number bytes answer state }
    ensures reads { (base : ℕ → ℕ) (actions : ℕ → List Action) (heard : ℕ → List RecvTurn)
        (order order' : Order) (owners : List (ℕ × SenderNo))
        → Promises base actions heard order' owners
        → IsPrefix (items_in order.entries) (items_in order'.entries) → (receiver : ℕ) (state : S)
        → length (items_in order.entries) ≤ length (operations_in (heard receiver))
        → LeadTo S.is_first S.applies (operations_in (heard receiver)) state
        → IsRead S.is_first S.applies order order' state }
{}

/// The same of machines that play events. A moment is a machine of which the promise holds, with
/// its trails; at a later one the words that were published at the earlier one begin all that were.
///
/// What a worker put behind all that it had done at the first moment, and a receiver was given last
/// of all at the second, is executed between the two. Where a receiver has come at the second as
/// far as the length was at the first, the state that it was led to is a read between the two. The
/// order of the first moment begins that of the second. Events that are played lead to a machine at
/// which more is published, and each worker has done more. So each history of such executions and
/// reads is linearizable, where an operation has one outcome and there is one first state.
pub fn machines_are_linearizable<S: State, Q: Ratifier>()
    ensures executes { let X = election_of Q.Ratifier in
        (s t : MachineMoment X) → IsLaterMachine s t → (worker receiver number : ℕ) (bytes : List ℕ)
        (answer : S.Answer) (state : S)
        → HasExecutedOn S.is_first S.applies s t worker receiver number bytes answer state
        → IsLinearized S.is_first S.applies s.page.order t.page.order worker number bytes answer
        state }
    ensures reads { let X = election_of Q.Ratifier in
        (s t : MachineMoment X) → IsLaterMachine s t → (receiver : ℕ) (shown : S)
        → HasReadOn S.is_first S.applies s t receiver shown
        → IsRead S.is_first S.applies s.page.order t.page.order shown }
    ensures orders { let X = election_of Q.Ratifier in
        (s t : MachineMoment X) → IsLaterMachine s t
        → IsPrefix (items_in s.page.order.entries) (items_in t.page.order.entries) }
    ensures plays { let X = election_of Q.Ratifier in
        (old new : Machine (Elector Q)) (T : Trails) (events : List Event)
        (run : Played X Q.protocol old events new)
        → let T' = trails_after X Q.protocol old events new run.answered T in
        PublishesMore old T new T' × ((s : ℕ) → IsPrefix (T.actions s) (T'.actions s)) }
    ensures histories { let X = election_of Q.Ratifier in
        (first : S) (moments : ℕ → MachineMoment X) (last : ℕ) (calls : List (Call S S.Answer))
        → AreFunctions S.is_first S.applies → S.is_first first
        → AreDoneOnMachines S.is_first S.applies moments last calls → AreInTurn calls
        → IsLinearizable S.is_first S.applies (items_in (moments last).page.order.entries) calls }
{}
