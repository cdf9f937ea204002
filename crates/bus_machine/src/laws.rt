//! What holds of the machine.

ghost use Rattle.std.specs.Prelude.{◌≡◌, ℕ, List};
ghost use Rattle.bus_batch.specs.Frames.{Frame};
ghost use Rattle.bus_ownerbits.specs.Sizes.{election_bound};
ghost use Rattle.bus_tenure.specs.Elections.{Elector, election_of, layout_with};
ghost use Rattle.bus_world.specs.World.{IsLayout};
ghost use Rattle.bus_core.specs.Senders.{Sender};
ghost use Rattle.bus_world.specs.Headline.{Action};
ghost use Rattle.bus_world.specs.World.{Event};
ghost use Rattle.bus_world.specs.declared.events.Answer.{Answer};
ghost use Rattle.bus_machine.specs.Forking.{ForkRefuses};
ghost use Rattle.bus_machine.specs.Giving.{AreGivenAlike, GivenRefuse};
ghost use Rattle.bus_machine.specs.Leaves.{LeavesAreForGood, LeaveRefuses};
ghost use Rattle.bus_machine.specs.LogRefusals.{LogsRefuse, PublishedRefuse};
ghost use Rattle.bus_machine.specs.Machine.{Machine, Trails, Reached, Happens, ShowsLog};
ghost use Rattle.bus_machine.specs.Machine.{FindsWords, StandsBelow, ShowsPublished, trails_grown};
ghost use Rattle.bus_machine.specs.Bounding.{AreBounded, PinsAreBounded};
ghost use Rattle.bus_machine.specs.Promise.{IsPromised, HasRows, Follows};
ghost use Rattle.bus_machine.specs.Promise.{actions_in};
ghost use Rattle.bus_machine.specs.PromiseRefusals.{PromiseRefuses};
ghost use Rattle.bus_machine.specs.Refusals.{LossesRefuse, AnswersRefuse, SaysNoMore};
ghost use Rattle.bus_machine.specs.Refusals.{SaysMore, NumbersRefuse, FollowsRefuse};
ghost use Rattle.bus_machine.specs.Refusals.{PagesRefuse, MemoriesRefuse, WordsRefuse, MarksRefuse};
ghost use Rattle.bus_machine.specs.Refusals.{BoundsRefuse};
ghost use Rattle.bus_machine.specs.Stopping.{StopsAreForGood, StopRefuses};
ghost use Rattle.bus_machine.specs.Telling.{Tells, OpensOnly, LossesAreSeen};

use bus_adoptcommit::Ratifier;
use bus_ownerbits::laws::election_is_lawful;

/// Whatever trails lead to it, the headline's promise holds of them, with a row for each tenure
/// and with two rows or more; and by all of them each sender that remembers to whom it lost its
/// tenure has seen the election of that tenure end so.
pub fn machine_keeps_promise<Q: Ratifier>()
    ensures { let X = election_of Q.Ratifier in
        (senders rounds rows capacity passers batch : ℕ)
        → IsLayout (layout_with Q.protocol senders rounds rows capacity passers batch)
        → (machine : Machine (Elector Q)) (trails : Trails)
        → machine.layout ≡ layout_with Q.protocol senders rounds rows capacity passers batch
        → HasRows machine.reuse → Reached X machine trails
        → IsPromised X machine trails × LossesAreSeen machine trails.actions }
{
    election_is_lawful::<Q>();
}

/// And whatever happens to such a machine, with any answer: what is left follows it, what the
/// answer tells is so, and the stage leaves that of an open tenure only by who takes its page.
pub fn events_keep_promise<Q: Ratifier>()
    ensures { let X = election_of Q.Ratifier in
        (senders rounds rows capacity passers batch : ℕ)
        → IsLayout (layout_with Q.protocol senders rounds rows capacity passers batch)
        → (old : Machine (Elector Q)) (trails : Trails)
        → old.layout ≡ layout_with Q.protocol senders rounds rows capacity passers batch
        → HasRows old.reuse → Reached X old trails
        → (event : Event) (given : Answer) (new : Machine (Elector Q))
        → Happens X old event given new
        → Follows X old event given new × Tells X old event given
        × OpensOnly X old event given new }
{
    election_is_lawful::<Q>();
}

/// The length and the cells of the log show all that was ever published, by all that led to the
/// machine: from its floor on it stands in the cells. A receiver that has not left finds at its
/// place the word that was published there. Where no word of the log is used again all of it
/// stands in the words below the length. What is said of answers, of what senders remember and of
/// what joins goes by what was published, and this says where that stands.
pub fn history_stands<Q: Ratifier>()
    ensures { let X = election_of Q.Ratifier in
        (senders rounds rows capacity passers batch : ℕ)
        → IsLayout (layout_with Q.protocol senders rounds rows capacity passers batch)
        → (machine : Machine (Elector Q)) (trails : Trails)
        → machine.layout ≡ layout_with Q.protocol senders rounds rows capacity passers batch
        → HasRows machine.reuse → Reached X machine trails
        → ShowsLog machine trails.log × FindsWords machine trails.log
        × StandsBelow machine trails.log }
{
    election_is_lawful::<Q>();
}

/// Each receiver was given, of the order, just what the words say that stand before its place, of
/// all that was published. So of any two who has read less was given a beginning of what the other
/// was given, and from a fork on its maker and the new one were given the same, as far as both have
/// read. None is so that has read no word, and was given an item or a leave mark; nor are two that
/// have read as many words, and were given two orders.
pub fn receivers_are_given_alike<Q: Ratifier>()
    ensures given { let X = election_of Q.Ratifier in
        (senders rounds rows capacity passers batch : ℕ)
        → IsLayout (layout_with Q.protocol senders rounds rows capacity passers batch)
        → (machine : Machine (Elector Q)) (trails : Trails)
        → machine.layout ≡ layout_with Q.protocol senders rounds rows capacity passers batch
        → HasRows machine.reuse → Reached X machine trails → AreGivenAlike machine trails }
    ensures refuses { (machine : Machine (Elector Q)) (trails : Trails)
        → GivenRefuse machine trails }
{
    election_is_lawful::<Q>();
}

/// And whatever happens to such a machine: what that publishes, if it publishes anything, stands in
/// its cells just behind what was published before, also where no receiver is left for whom it has
/// to stand; and the length counts all that is published then.
pub fn published_words_stand<Q: Ratifier>()
    ensures { let X = election_of Q.Ratifier in
        (senders rounds rows capacity passers batch : ℕ)
        → IsLayout (layout_with Q.protocol senders rounds rows capacity passers batch)
        → (old : Machine (Elector Q)) (trails : Trails)
        → old.layout ≡ layout_with Q.protocol senders rounds rows capacity passers batch
        → HasRows old.reuse → Reached X old trails
        → (event : Event) (given : Answer) (new : Machine (Elector Q))
        → Happens X old event given new
        → ShowsPublished new trails.log (trails_grown X old event given trails).log }
{
    election_is_lawful::<Q>();
}

/// A sender takes no more steps towards the page of a tenure than an election of so many senders
/// and rounds has turns: those of its election, and the one that takes the page. While its
/// election runs, or has chosen it, one turn at least is left, and those that are left and those
/// that it took are no more. Where rows are used again three steps more, at most, are of its pin
/// of that tenure.
pub fn steps_are_bounded<Q: Ratifier>()
    ensures { let X = election_of Q.Ratifier in
        (senders rounds rows capacity passers batch : ℕ)
        → IsLayout (layout_with Q.protocol senders rounds rows capacity passers batch)
        → (machine : Machine (Elector Q)) (trails : Trails)
        → machine.layout ≡ layout_with Q.protocol senders rounds rows capacity passers batch
        → HasRows machine.reuse → Reached X machine trails
        → AreBounded X (election_bound Q.protocol.steps senders rounds) machine trails
        × PinsAreBounded trails }
{
    election_is_lawful::<Q>();
}

/// A stop that is answered changes who has stopped, and nothing else: what is no event of that
/// sender does what it did before, and is answered and refused alike. Whoever has stopped does
/// nothing any more, whatever events happen next: none of it is answered, it holds what it held,
/// and it has no action more and no step of a pin or of a reclamation; whatever else is wrong with
/// an event of it, it is refused as Stopped. A stop that does nothing is none. Nothing is refused
/// as Stopped of one that goes on, or that there is not, or of a receiver. One that goes on may
/// stop, and nobody stops but by a stop of its own.
pub fn stops_are_for_good<Q: Ratifier>()
    ensures stops { StopsAreForGood (election_of Q.Ratifier) Q.protocol }
    ensures refuses { StopRefuses (election_of Q.Ratifier) }
{}

/// A leave of a receiver that is answered changes that it has left, and its passed place, which
/// shows 2^64 - 1 then, if it has one; and nothing else. Whoever has left stays so, whatever events
/// happen next, which forks are none of: it holds what it held, it is answered nothing more, and
/// each event of it is refused as Gone, and as nothing else. A leave that does nothing, or after
/// which the passed place shows another number, is none. Nothing is refused as Gone of a receiver
/// that has not left, or that there is not. One that has not left may leave at any time, and nobody
/// leaves but by a leave of its own.
pub fn leaves_are_for_good<Q: Ratifier>()
    ensures leaves { LeavesAreForGood (election_of Q.Ratifier) Q.protocol }
    ensures refuses { LeaveRefuses (election_of Q.Ratifier) }
{}

/// No fork is one to a number that is not above that of its maker, or of a receiver that has left;
/// one that is done though the last receiver of that number has not left, or is not done though it
/// has; one that is done and changes nothing, or that changes its maker or any other receiver; one
/// after which the new receiver is at another place of the log than its maker, or has another part
/// of a frame that is under way; or one that shows another number than what its maker has passed.
pub fn fork_refuses<Q: Ratifier>()
    ensures { ForkRefuses (Elector Q) }
{}

/// Of no machine the promise holds in which senders saw the election of one tenure end with two
/// owners, or, with a row for each tenure, an owner that it tells did not take the page of that
/// tenure. Where rows are used again: in which an election runs of a sender that has taken no step
/// of a pin, or elections of two tenures of one row, or takes a step past the row of its tenure; or
/// a page is held and the row of the next tenure, which was used before, is not reclaimed. And of
/// none whose log has a frame with more messages than a batch of the bus may have.
pub fn promise_refuses<Q: Ratifier>()
    ensures { let X = election_of Q.Ratifier in
        (machine : Machine (Elector Q)) (trails : Trails) → PromiseRefuses X machine trails }
{}

/// No sender remembers an owner that has done nothing, or itself, or another owner than that with
/// which it saw the election of its tenure end.
pub fn losses_refuse<Q: Ratifier>()
    ensures { (machine : Machine (Elector Q)) → LossesRefuse machine }
{}

/// No answer is true that accepts a message with another number than its sender's first one and how
/// many that had put before it; or that is Lost to an owner whose election the sender did not see,
/// or to itself; Own of a tenure whose page it did not take; Delivered or Closed where nothing was
/// published; Delivered of another tenure, sender or first number than those of the last frame that
/// was; Left of one whose leave mark was not published, or is not the last frame; Closed while the
/// order goes on, of one that has not left in it or whose batch was not closed; Full where the
/// frame fits, or by a floor that is not the least of all passed places, which it has loaded in
/// that tenure, and of what was published; Spent in the first of two tenures, or in the only one
/// before its election has ended; Behind where each tenure has a row.
pub fn answers_refuse<Q: Ratifier>()
    ensures turns { (machine : Machine (Elector Q)) (log : List ℕ) (number : ℕ)
        (sender : Sender (Elector Q)) (actions : List Action)
        → AnswersRefuse machine log number sender actions }
    ensures numbers { NumbersRefuse }
{}

/// A sender whose actions in a tenure are the same as before has announced itself there, has seen
/// its election end with an owner, and has taken its page, only where it had done so before. So
/// what was elected in a tenure stays as it is, once its row has gone on. Actions with which a
/// sender has seen the election end since, or has taken the page, are not the same.
pub fn same_actions_say_no_more()
    ensures same { (t : ℕ) (before after : List Action) → actions_in t after ≡ actions_in t before
        → SaysNoMore t before after }
    ensures more { (t : ℕ) (before after : List Action) → SaysMore t before after }
{}

/// No close is answered Leaving and no leave Closing, and neither lets the mark of the other wait.
/// No machine follows another to which nothing led; or by an event with which the stage, the floor
/// of the page or a passed place falls; or with which the cells of the log show other words than
/// were published though no length was stored, or what they showed though one was, or another frame
/// than that of who stored it, or other words before that frame, or a log of which no word is used
/// again has wrapped. None is promised whose page is at home while the stage is odd, or out while
/// it is even, or knows another number of tenures, of words of the log or of items, or others that
/// have left, or is out while nobody holds it, or counts a tenure that nobody took, or that two
/// senders hold, or one that did not take it, or whose floor is past the length or what a receiver
/// has passed; nor one of which a sender goes by another number, layout or count of rows, is to put
/// its second message first, is closed while the order goes on in which it has not left, has left
/// in it and is open or at rest with its mark, has asked for a mark and is open, passes over a
/// tenure that is open, has begun one that is not opened yet, or has its batch on its way at rest,
/// or not in a tenure; nor one of which a sender stores a word of the log next in the cell of one
/// that stands, loads the passed place of another receiver than the next one, or clears a word of a
/// row in which somebody stands. None is bounded of which a sender took more steps towards a page,
/// or has no turn left while its election runs.
pub fn machines_refuse<Q: Ratifier>()
    ensures follows { let X = election_of Q.Ratifier in
        (old : Machine (Elector Q)) (event : Event) (given : Answer) (new : Machine (Elector Q))
        → FollowsRefuse X old event given new }
    ensures marks { let X = election_of Q.Ratifier in
        (old new : Machine (Elector Q)) → MarksRefuse X old new }
    ensures pages { let X = election_of Q.Ratifier in
        (machine : Machine (Elector Q)) (trails : Trails) → PagesRefuse X machine trails }
    ensures memories { let X = election_of Q.Ratifier in
        (machine : Machine (Elector Q)) (trails : Trails) → MemoriesRefuse X machine trails }
    ensures words { let X = election_of Q.Ratifier in
        (machine : Machine (Elector Q)) (trails : Trails) → WordsRefuse X machine trails }
    ensures bounds { let X = election_of Q.Ratifier in
        (bound : ℕ) (machine : Machine (Elector Q)) (trails : Trails)
        → BoundsRefuse X bound machine trails }
{}

/// Of no machine the promise holds whose cells show another log than was published, or another word
/// from the floor of a page on, or, where no word of the log is used again, below the length; or
/// one whose first word that stands is zero, or whose floor is within a frame, or past the place of
/// a receiver that has not left; or in which the passed place of such a receiver shows another
/// number than the place that it has passed, a place that it has not come to, or one within a
/// frame, or that of one that has left another than 2^64 - 1. Nor of one in which what a sender has
/// put is not what was published of it and then what waits. No frame stands in its cells behind
/// what was published before where one of these holds another word than the frame has there, or the
/// length lacks a word of it or counts one more, or what was published before has changed; nor does
/// nothing with a length that counts more, or one that counts less.
pub fn logs_refuse<Q: Ratifier>()
    ensures logs { let X = election_of Q.Ratifier in
        (machine : Machine (Elector Q)) (trails : Trails) → LogsRefuse X machine trails }
    ensures published { (machine : Machine (Elector Q)) (before : List ℕ) (frame : Frame)
        → PublishedRefuse machine before frame }
{}
