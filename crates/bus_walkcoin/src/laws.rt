//! What a coin keeps, as contracts of functions without a body.

ghost use Rattle.std.specs.Prelude.{◌≡◌, ◌↔◌, ℕ, IsSome, Some, None, List};
ghost use Rattle.bus_register.specs.Protocol.{Laws};
ghost use Rattle.bus_register.specs.declared.kinds.Kind.{Kind};
ghost use Rattle.bus_register.specs.declared.registers.Op.{Op};
ghost use Rattle.bus_walkcoin.specs.Coin.{CoinState, coin_started, coin_kind, coin_op, coin_fed};
ghost use Rattle.bus_walkcoin.specs.CoinRule.{Entry, coin_answer, step_due, kind_due};
ghost use Rattle.bus_walkcoin.specs.CoinAnswer.{Took, CoinAnswer, RefusesEarlyAnswers};
ghost use Rattle.bus_walkcoin.specs.CoinAnswer.{RefusesSteps};
ghost use Rattle.bus_walkcoin.specs.CoinProtocol.{coin_protocol, AnyAnswers};

/// Any processes that step through a coin keep the laws of a protocol: the counter holds exactly
/// the votes of all of them, at most 64 of each, so that no vote passes the word's range; and each
/// answer comes after at most `64 * 2` own steps. Nothing is claimed of what the answers are
/// together.
pub fn coin_is_lawful()
    ensures { Laws coin_op coin_fed coin_protocol AnyAnswers }
{}

/// Whatever numbers a process is fed and whatever random words, its own votes and its answer are
/// those that the definition reads off its steps.
pub fn coin_answers_by_its_trail()
    ensures { (n at : ℕ) (trail : List Entry) (s : CoinState)
        → Took coin_op coin_fed (coin_started n at) trail s
        → CoinAnswer n at trail s }
{}

/// A process has a next step exactly as long as the definition gives no answer.
pub fn coin_goes_on_until_answered()
    ensures { (n at word : ℕ) (trail : List Entry) (s : CoinState)
        → Took coin_op coin_fed (coin_started n at) trail s
        → IsSome (coin_op s word) ↔ (coin_answer n at trail ≡ None) }
{}

/// A process's next step is the one that the definition says is due, and is named for what it is:
/// a vote at first and after each load that gave no answer, and after a vote a load of the counter.
pub fn coin_steps_as_due()
    ensures step { (n at word : ℕ) (trail : List Entry) (s : CoinState) (o : Op)
        → Took coin_op coin_fed (coin_started n at) trail s → coin_op s word ≡ Some o
        → o ≡ step_due n at trail word }
    ensures kind { (n at : ℕ) (trail : List Entry) (s : CoinState) (k : Kind)
        → Took coin_op coin_fed (coin_started n at) trail s → coin_kind s ≡ Some k
        → k ≡ kind_due n at trail }
{}

/// No process is due to look before it has voted, to vote twice or to look twice in a row, to vote
/// against its random word, by a store or by an exchange, or to look at another word; nor is such a
/// step named for the other kind.
pub fn coin_steps_refuse()
    ensures { RefusesSteps }
{}

/// No process answers without a vote, without a load of the counter as its last step, on a load
/// that follows no vote, or below the barrier while votes are left.
pub fn coin_refuses()
    ensures { RefusesEarlyAnswers }
{}
