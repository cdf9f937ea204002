//! What holds of presences and rows, whatever happens, as contracts of functions without a body.

ghost use Rattle.std.specs.Prelude.{◌≡◌, ℕ, ◌≤◌};
ghost use Rattle.bus_coinconc.specs.Conciliator.{conciliator_op, conciliator_fed};
ghost use Rattle.bus_coinconc.specs.ConciliatorProtocol.{conciliator_protocol};
ghost use Rattle.bus_binconsensus.specs.Objects.{decide_op, decide_fed};
ghost use Rattle.bus_binconsensus.specs.Decisions.{decisions};
ghost use Rattle.bus_ownerbits.specs.Election.{election_op, election_fed};
ghost use Rattle.bus_ownerbits.specs.Electors.{Elector, elections};
ghost use Rattle.bus_ownerbits.specs.OneOwner.{OneOwner};
ghost use Rattle.bus_presence.specs.Reclamation.{ReclamationSizes, Reclamation, Trails, Moves};
ghost use Rattle.bus_presence.specs.Reclamation.{Reached, tenure_of};
ghost use Rattle.bus_presence.specs.Standing.{IsSafe};
ghost use Rattle.bus_presence.specs.Refused.{SafetyRefuses};
ghost use Rattle.bus_presence.specs.Rows.{Locals, Played, AreApart};

use bus_adoptcommit::Ratifier;
use bus_ownerbits::laws::election_is_lawful;
use bus_register::limits::MOST_PROCESSES;

/// Whatever senders and holders that go by pins and reclamations do one after another, over at
/// least two rows: who may store in a tenure's row stands in that tenure, by what it did; who
/// stands in one, stands in one that was opened and whose row has not gone on; all who stand in
/// tenures of one row stand in one tenure. A holder clears words of the next row alone, once all
/// presences have passed and nobody stands in a tenure of that row. It waits for a sender only
/// where it finds in its presence the tenure that used the row before; and where it may give the
/// page back, all words of the next row are 0.
pub fn rows_are_safe()
    ensures { (x : ReclamationSizes) → 2 ≤ x.rows → (reclamation : Reclamation) (trails : Trails)
        → Reached x reclamation trails → IsSafe x reclamation trails }
{}

/// No move leads back to an earlier tenure: so whose row has gone on, in that tenure nobody stands
/// any more.
pub fn tenures_only_rise()
    ensures { (x : ReclamationSizes) → 2 ≤ x.rows → (old new : Reclamation) (before after : Trails)
        → Reached x old before → Moves x old before new after
        → tenure_of x old ≤ tenure_of x new }
{}

/// No reclamation is safe where a sender may step in a tenure whose stage it loaded before it
/// stored its presence, or though its look afterwards found another tenure's stage; where one is
/// away and its presence names a tenure still; where one stands in a tenure whose row has gone on,
/// or that was not opened, where two stand in two tenures of one row, where one stands in the row
/// that a holder clears, where a holder clears before all presences have passed, or waits without
/// that cause, or where a page may be given back while a word of the next row is not 0.
pub fn safety_refuses()
    ensures { SafetyRefuses }
{}

/// In rows used again each tenure has its own election, over any ratifier: all owners that it chose
/// are equal, and the owner had announced itself, also of a tenure whose row has gone on to others.
/// Only a sender that stands in a tenure takes a step of its election, and the reclamation is safe.
pub fn elections_are_apart<Q: Ratifier>()
    ensures { let op = election_op (decide_op Q.op conciliator_op) in
        let fed = election_fed (decisions Q.protocol)
        (decide_fed Q.protocol conciliator_protocol Q.fed conciliator_fed) in
        (rounds : ℕ) (x : ReclamationSizes) → 2 ≤ x.rows → x.senders ≤ MOST_PROCESSES
        → x.width ≡ (elections Q.protocol rounds).width x.senders
        → (reclamation : Reclamation) (trails : Trails) (locals : Locals (Elector Q))
        → Played op fed (elections Q.protocol rounds) x reclamation trails locals
        → AreApart op (elections Q.protocol rounds) OneOwner x reclamation trails locals }
{
    election_is_lawful::<Q>();
}
