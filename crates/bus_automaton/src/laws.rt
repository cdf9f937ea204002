//! What threads may go by holds of the one process and of the one automaton.

ghost use Rattle.std.specs.Prelude.{◌≡◌, ◌≢◌, ℕ, ◌<◌, ◌≤◌, Option, None, false, List, slice_index};
ghost use Rattle.bus_register.specs.declared.limits.TheConstants.{MOST_SENDERS};
ghost use Rattle.bus_core.specs.Senders.{Sender};
ghost use Rattle.bus_core.specs.Telling.{FeedTells};
ghost use Rattle.bus_tenure.specs.Elections.{Elector, election_of, layout_with};
ghost use Rattle.bus_tenure.specs.declared.turns.Turn.{Turn};
ghost use Rattle.bus_tenure.specs.declared.turns.Turn.TheVariants as turn;
ghost use Rattle.bus_tenure.specs.declared.pages.Page.{Page};
ghost use Rattle.bus_world.specs.World.{IsLayout};
ghost use Rattle.bus_world.specs.World.{AreBases};
ghost use Rattle.bus_world.specs.Log.{first_numbers};
ghost use Rattle.bus_world.specs.declared.limits.TheConstants.{FIRST_NUMBERS};
ghost use Rattle.bus_world.specs.declared.shapes.MakeFault.{MakeFault};
ghost use Rattle.bus_world.specs.declared.shapes.MakeFault.TheVariants.{NoMemory};
ghost use Rattle.bus_machine.specs.Playing.{ShapeOf, MayGoOn};
ghost use Rattle.bus_machine.specs.Promise.{HasRows};
ghost use Rattle.bus_automaton.specs.Lawful.{ProcessLaws, AutomatonLaws, Opens};
ghost use Rattle.bus_automaton.specs.OneProcess.{process_of};
ghost use Rattle.bus_automaton.specs.OneAutomaton.{bus_of};
ghost use Rattle.bus_automaton.specs.Buses.{process_by, automaton_by, plan_passers, AreBasesOf};
ghost use Rattle.bus_automaton.specs.Buses.{Serves, Refuses};
ghost use Rattle.bus_automaton.specs.declared.plans.Plan.{Plan};

use bus_adoptcommit::Ratifier;
use bus_ownerbits::laws::election_is_lawful;

/// A sender of either kind of rows is a process that threads may go by.
pub fn process_is_lawful<Q: Ratifier>()
    ensures { ProcessLaws (process_of (election_of Q.Ratifier)) }
{
    election_is_lawful::<Q>();
}

/// A bus of any sizes, with a row for each tenure or with so many rows that are used again, and
/// then also one whose log is a ring, with so many passed places, is an automaton that threads may
/// go by, whatever numbers its sitting begins with. A receiver finds at its passed place, and at
/// each place after it, the word that was published there. Where a frame begins it may pass.
pub fn automaton_is_lawful<Q: Ratifier>()
    ensures { let X = election_of Q.Ratifier in
        (senders rounds rows capacity passers batch : ℕ) (reuse : Option ℕ) (bases : List ℕ)
        → (reuse ≡ None → passers ≡ 0) → AutomatonLaws (process_of X)
        (bus_of X (layout_with Q.protocol senders rounds rows capacity passers batch) reuse bases) }
{
    election_is_lawful::<Q>();
}

/// Of sizes and numbers that are served it begins with words of zero, its page at home, its senders
/// at their starts, and nothing passed.
pub fn automaton_opens<Q: Ratifier>()
    ensures { let X = election_of Q.Ratifier in
        (senders rounds rows capacity passers batch : ℕ) (reuse : Option ℕ) (bases : List ℕ)
        → IsLayout (layout_with Q.protocol senders rounds rows capacity passers batch)
        → (reuse ≡ None → passers ≡ 0) → HasRows reuse → AreBases bases
        → ((s : ℕ) → slice_index bases s < first_numbers passers batch) → Opens (process_of X)
        (bus_of X (layout_with Q.protocol senders rounds rows capacity passers batch) reuse bases) }
{}

/// Threads may go by a sender of any ratifier, and by a bus of any plan. What an answer tells once
/// the page is out of the sender's hands, it tells of the sender before that; and where no step is
/// due, and no page is under way, the answer is not Going. No plan is refused for two causes, and
/// for want of memory each that is served and no other: so with another fault none is that is
/// served. A number of its senders fits a byte, and its numbers leave room for a whole log, or
/// where that is a ring for all tenures; with the numbers of its plan the bus begins. It has a
/// passed place for each receiver where its log is a ring, and else none, and its shape says how
/// many messages a batch may have.
pub fn threads_may_go_by<Q: Ratifier>()
    ensures process { ProcessLaws (process_by Q.Ratifier) }
    ensures tells { let X = election_of Q.Ratifier in
        (v : Sender (Elector Q)) (got word : ℕ) (answer : Turn)
        → FeedTells X ((process_by Q.Ratifier).handed v) got word answer
        → FeedTells X v got word answer }
    ensures rests { let P = process_by Q.Ratifier in
        (v : Sender (Elector Q)) (word : ℕ) → P.awaits v ≡ false → P.op v word ≡ None
        → P.rest v ≢ turn.Going }
    ensures one_cause { (plan : Plan) (page : Option Page) (why other : MakeFault)
        → Refuses plan page why → Refuses plan page other → why ≡ other }
    ensures memory { (plan : Plan) (page : Option Page) → ShapeOf plan.shape plan.reuse
        → AreBasesOf plan → Refuses plan page NoMemory
        → Serves plan × MayGoOn (plan_passers plan) plan.shape.batch page }
    ensures no_memory { (plan : Plan) (page : Option Page) → Serves plan
        → MayGoOn (plan_passers plan) plan.shape.batch page → Refuses plan page NoMemory }
    ensures few_senders { (plan : Plan) → Serves plan → plan.shape.senders ≤ MOST_SENDERS }
    ensures numbers { (plan : Plan) (s : ℕ) → Serves plan
        → slice_index plan.bases s < first_numbers (plan_passers plan) plan.shape.batch }
    ensures passers { (plan : Plan)
        → (automaton_by Q.Ratifier plan).table_layout.passers ≡ plan_passers plan }
    ensures batch { (plan : Plan)
        → (automaton_by Q.Ratifier plan).table_layout.batch ≡ plan.shape.batch }
    ensures bases { (plan : Plan) → (automaton_by Q.Ratifier plan).bases ≡ plan.bases }
    ensures automaton { (plan : Plan)
        → AutomatonLaws (process_by Q.Ratifier) (automaton_by Q.Ratifier plan) }
    ensures opens { (plan : Plan) → Serves plan
        → Opens (process_by Q.Ratifier) (automaton_by Q.Ratifier plan) }
{
    election_is_lawful::<Q>();
}
