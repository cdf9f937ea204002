//! What a conciliator keeps, as contracts of functions without a body.

ghost use Rattle.std.specs.Prelude.{◌≡◌, ◌↔◌, ℕ, Bool, not, IsSome, Some, None, List};
ghost use Rattle.bus_register.specs.Protocol.{Laws};
ghost use Rattle.bus_register.specs.declared.kinds.Kind.{Kind};
ghost use Rattle.bus_register.specs.declared.registers.Op.{Op};
ghost use Rattle.bus_walkcoin.specs.CoinRule.{Entry};
ghost use Rattle.bus_walkcoin.specs.CoinAnswer.{Took};
ghost use Rattle.bus_coinconc.specs.Conciliation.{Conciles};
ghost use Rattle.bus_coinconc.specs.Conciliator.{ConciliatorState, conciliator_kind};
ghost use Rattle.bus_coinconc.specs.Conciliator.{conciliator_started, conciliator_op};
ghost use Rattle.bus_coinconc.specs.Conciliator.{conciliator_fed};
ghost use Rattle.bus_coinconc.specs.ConciliatorAnswer.{ConciliatorAnswer};
ghost use Rattle.bus_coinconc.specs.ConciliatorAnswer.{conciliator_answer, step_due, kind_due};
ghost use Rattle.bus_coinconc.specs.ConciliatorRefused.{RefusesTrails, RefusesSteps, only};
ghost use Rattle.bus_coinconc.specs.ConciliatorKinds.{IsOfConciliator};
ghost use Rattle.bus_coinconc.specs.ConciliatorProtocol.{conciliator_protocol};

/// Any processes that step through a conciliator keep the laws of a protocol: each has an output
/// after at most `2 + 64 * 2` own steps, each output is the input of a process that has
/// begun, and where all these have one input, it is the only output.
pub fn conciliator_is_lawful()
    ensures { Laws conciliator_op conciliator_fed conciliator_protocol Conciles }
{}

/// A conciliator's steps are of its four kinds.
pub fn conciliator_names_its_kinds()
    ensures { (s : ConciliatorState) (k : Kind) → conciliator_kind s ≡ Some k
        → IsOfConciliator k }
{}

/// A process's first step sets its own mark, and its second loads the other one. Its output is its
/// own input where the other mark was not set, and else what the coin answers by the steps since.
pub fn conciliator_answers_by_its_trail()
    ensures { (n at : ℕ) (input : Bool) (trail : List Entry) (s : ConciliatorState)
        → Took conciliator_op conciliator_fed (conciliator_started n input at) trail s
        → ConciliatorAnswer n at input trail s }
{}

/// A process has a next step exactly as long as the definition gives no output.
pub fn conciliator_goes_on_until_answered()
    ensures { (n at word : ℕ) (input : Bool) (trail : List Entry) (s : ConciliatorState)
        → Took conciliator_op conciliator_fed (conciliator_started n input at) trail s
        → IsSome (conciliator_op s word) ↔ (conciliator_answer n at input trail ≡ None) }
{}

/// A process's next step is the one that the definition says is due, and is named for what it is:
/// it sets its own mark, then loads the other one, and then takes the steps of the coin over the
/// third word.
pub fn conciliator_steps_as_due()
    ensures step { (n at word : ℕ) (input : Bool) (trail : List Entry) (s : ConciliatorState)
        (o : Op) → Took conciliator_op conciliator_fed (conciliator_started n input at) trail s
        → conciliator_op s word ≡ Some o → o ≡ step_due n at input trail word }
    ensures kind { (n at : ℕ) (input : Bool) (trail : List Entry) (s : ConciliatorState) (k : Kind)
        → Took conciliator_op conciliator_fed (conciliator_started n input at) trail s
        → conciliator_kind s ≡ Some k → k ≡ kind_due n at input trail }
{}

/// What is no conciliator. Its outputs: another value than that of a process alone, another value
/// where all inputs that count are one, and a value where no input counts.
pub fn conciliations_refuse()
    ensures other_value { (p : ℕ) (v : Bool) → ¬ Conciles (only p v) (only p (not v)) }
    ensures disagrees { (p : ℕ) (v : Bool) → ¬ Conciles (λ _. Some v) (only p (not v)) }
    ensures unbrought { (p : ℕ) (v : Bool) → ¬ Conciles (λ _. None) (only p v) }
{}

/// What no process of a conciliator does: leave its own mark unset, look elsewhere than at the
/// other mark, have an output before it has looked, give another value than its own where it saw no
/// other mark, or none at all, and give an output where it saw one and has not asked the coin, or
/// another than the coin's.
pub fn conciliator_refuses()
    ensures { RefusesTrails }
{}

/// What is not due of a process of a conciliator: to look before it has set its mark, to set it
/// twice, or the other one, to look at its own mark, and to vote before it has looked, or to look
/// again in place of a vote; nor is such a step named for another kind.
pub fn conciliator_steps_refuse()
    ensures { RefusesSteps }
{}
