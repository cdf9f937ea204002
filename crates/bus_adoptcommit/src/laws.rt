//! What holds of every play, and what adopt-commit and a play do not allow.

ghost use Rattle.std.specs.Prelude.{◌≡◌, ℕ, ◌≤◌, Bool, true, false, Option, Some};
ghost use Rattle.std.specs.Prelude.{List, [], ◌∷◌, length};
ghost use Rattle.bus_adoptcommit.specs.declared.verdicts.Verdict.{Verdict};
ghost use Rattle.bus_adoptcommit.specs.declared.verdicts.Verdict.TheVariants.{Commit, Adopt};
ghost use Rattle.bus_adoptcommit.specs.Agreement.{IsValid, IsConvergent, IsCoherent, Legal};
ghost use Rattle.bus_adoptcommit.specs.Plays.{IsPlay};
ghost use Rattle.bus_adoptcommit.specs.Schedule.{entered_input, table_of};
ghost use Rattle.bus_adoptcommit.specs.Refused.{of_two, taking_turns};
ghost use Rattle.bus_adoptcommit.specs.Refused.{one_after_another, RefusesNames, RefusesOrders};
ghost use Rattle.bus_adoptcommit.specs.Refused.{PlaysThreeWords, PlaysIncoherently};
ghost use Rattle.bus_adoptcommit.specs.Refused.{PlaysUnconverged, keeping_own, adopting};
ghost use Rattle.bus_adoptcommit.specs.Refused.{proposing_nothing, committing_in_spite};
ghost use Rattle.bus_adoptcommit.specs.Refused.{reading_own};
ghost use Rattle.bus_adoptcommit.specs.ThreeWord.{op_of, fed_of};
ghost use Rattle.bus_adoptcommit.specs.ThreeWordKeeps.{three_word};
ghost use Rattle.bus_adoptcommit.specs.TwoCollect.{op_of as two_collect_op};
ghost use Rattle.bus_adoptcommit.specs.TwoCollect.{fed_of as two_collect_fed};
ghost use Rattle.bus_adoptcommit.specs.TwoCollectKeeps.{two_collect};

use super::ratifiers::Ratifier;
use bus_register::limits::MOST_PROCESSES;

/// What is not adopt-commit: an own value beside another's commit, an adopted value where all
/// inputs are that value, and a value that nobody brought.
pub fn adopt_commit_refuses()
    ensures own_value { ¬ IsCoherent (of_two (Commit false) (Adopt true)) }
    ensures no_commit { ¬ IsConvergent (of_two true true) (of_two (Commit true) (Adopt true)) }
    ensures unbrought { ¬ IsValid (of_two true true) (of_two (Adopt false) (Adopt false)) }
{}

/// A schedule has one play, from the same inputs.
pub fn plays_are_one<Q: Ratifier>()
    ensures { (given : List Bool) (schedule : List ℕ) (outs others : List (Option Verdict))
        → IsPlay Q.op Q.fed Q.protocol given schedule outs
        → IsPlay Q.op Q.fed Q.protocol given schedule others → outs ≡ others }
{}

/// What stands after a schedule is legal for the inputs of the processes with entries: wherever the
/// schedule ends, whichever processes have stopped, and after however few of their own steps.
pub fn plays_are_legal<Q: Ratifier>()
    ensures { (given : List Bool) (schedule : List ℕ) (outs : List (Option Verdict))
        → length given ≤ MOST_PROCESSES → IsPlay Q.op Q.fed Q.protocol given schedule outs
        → Legal (entered_input given schedule) (table_of outs) }
{}

/// Two processes of different inputs that take turns adopt their own: a commit of the first one's
/// by both is legal, and not what the words give.
pub fn plays_are_more_than_legal()
    ensures legal { Legal (of_two false true) (of_two (Commit false) (Commit false)) }
    ensures refused { ¬ IsPlay (λ s word. two_collect_op s) (λ s got word. two_collect_fed s got)
        two_collect (false ∷ true ∷ []) taking_turns
        (Some (Commit false) ∷ Some (Commit false) ∷ []) }
{}

/// Two processes of different inputs over three words. Where the second comes after the first has
/// ended, the first commits its input, and the second adopts it; where they take turns, each adopts
/// its own. What wrong processes play is refused. Not coherent: a late process that goes on
/// preferring its own input, a first one that proposes nothing, and two that take turns and commit
/// in spite of the other value. Not convergent, of one input: processes that load their own word in
/// place of the other one's, and processes that always adopt.
pub fn three_words_refuse()
    ensures late { PlaysThreeWords op_of fed_of three_word (false ∷ true ∷ []) one_after_another
        (Some (Commit false) ∷ Some (Adopt false) ∷ []) }
    ensures in_turn { PlaysThreeWords op_of fed_of three_word (false ∷ true ∷ []) taking_turns
        (Some (Adopt false) ∷ Some (Adopt true) ∷ []) }
    ensures own_value { PlaysIncoherently op_of keeping_own three_word (false ∷ true ∷ [])
        one_after_another (Some (Commit false) ∷ Some (Adopt true) ∷ []) }
    ensures unproposed { PlaysIncoherently op_of proposing_nothing three_word (false ∷ true ∷ [])
        one_after_another (Some (Commit false) ∷ Some (Adopt true) ∷ []) }
    ensures in_spite { PlaysIncoherently op_of committing_in_spite three_word (false ∷ true ∷ [])
        taking_turns (Some (Commit false) ∷ Some (Commit true) ∷ []) }
    ensures own_word { PlaysUnconverged reading_own fed_of three_word (true ∷ true ∷ [])
        one_after_another (Some (Adopt true) ∷ Some (Adopt true) ∷ []) }
    ensures no_commit { PlaysUnconverged op_of fed_of adopting (true ∷ true ∷ [])
        one_after_another (Some (Adopt true) ∷ Some (Adopt true) ∷ []) }
{}

/// No step of a ratifier is named as a read and adds, exchanges or stores, or as a store and loads;
/// and only its first step stores a proposal.
pub fn names_refuse()
    ensures { RefusesNames }
{}

/// No ratifier stores or reads a verdict before it has read a proposal, stores one twice or once it
/// has read verdicts, or reads a proposal after either.
pub fn orders_refuse()
    ensures { RefusesOrders }
{}
