//! What no step of a sender may answer, and what is no cause of one.

ghost use Rattle.std.specs.Prelude.{ℕ};
ghost use Rattle.bus_tenure.specs.Elections.{Elector, election_of};
ghost use Rattle.bus_core.specs.CausesRefuse.{RefusesCauses};
ghost use Rattle.bus_core.specs.Refused.{AnswersRefuse, RestsRefuse, PlacesRefuse};
ghost use Rattle.bus_core.specs.Senders.{Sender};

use bus_adoptcommit::Ratifier;

/// No answer of a step is true that is Idle; Delivered before the length takes the frame in, with
/// other numbers than those of the batch, or of a mark; Left before the length takes the mark in,
/// of another tenure, or of anything but a leave mark; Full where the frame fits; Closed while the
/// order goes on, of one that is not to close, or before the length takes its end mark in; Closed
/// once the leave mark stands in the log; any of these four without a page; Spent while a tenure is
/// left; Lost to itself; with a row for each tenure, Lost at rest, or by a step that left its
/// election without an owner; where rows are used again, Lost where it remembers no owner or
/// another one, and Lost or Own while it pins no tenure; Own of another tenure, or of one whose
/// election chose another; Waiting of a sender that goes through its election, in the tenure that
/// it stands in where rows are used again; Behind with a row for each tenure, where the step loaded
/// no presence, found another number than that of the tenure, or was taken without a page; or Going
/// where one of these is due, where it begins another tenure than the one whose stage it looked at,
/// or where after a second look an election runs of another tenure than the one that its presence
/// names, one runs though the stage was another tenure's, or none runs though it was that one's.
///
/// None is true without a step that is Idle where a message or a mark waits, or the batch is
/// closed; Closed while the batch is open or its mark waits; Spent while a tenure is left, or
/// with nothing to send; or any of these in an election, with a page, or while it pins a tenure.
/// With a row for each tenure no step of an election lies on a word of the log. None of who has
/// nothing to do lies on any word.
pub fn answers_refuse<Q: Ratifier>()
    ensures steps { let X = election_of Q.Ratifier in
        (sender : Sender (Elector Q)) (got word : ℕ) → AnswersRefuse X sender got word }
    ensures rests { (sender : Sender (Elector Q)) → RestsRefuse sender }
    ensures places { (sender : Sender (Elector Q)) → PlacesRefuse sender }
{}

/// None looks at the stage with nothing to send, once its batch is closed, with no tenure left to
/// enter, or in an election. No sender that rests takes a page, stores a word of a log or a
/// length, gives a page back, or falls back. None stores a word or a length past the end of the
/// order, or where its frame does not fit the log. None stores a word past its frame, or the
/// length before all words of its frame, or twice. None before which the page lies gives it back
/// before the length is stored, while the order goes on and its frame fits the log. Of one that
/// has handed the page on this is not said, since it remembers only for which reason it did. None
/// takes a page before it was chosen.
///
/// None announces itself once its election has begun. None goes on in a ratifier before it has
/// brought its bit, or brings it twice. None in a conciliator takes a step of a ratifier, none in
/// a ratifier one of a conciliator, and none at the fallback word one of either. None loads a mark
/// before it has set its own, or once it asks the coin, or sets its own twice. None votes out of
/// turn, or loads the votes before it has voted. None goes to the fallback word while an object is
/// left before it. None searches for another candidate before a bit is decided, after the last
/// one, while the bits so far fit its own, or past the last sender. Once its election has an
/// owner, none takes another step of it than the one that takes the page.
///
/// With a row for each tenure none shows a presence, asks for one, clears a row, or loads a passed
/// place. With rows that are used again none takes a step of an election while it pins no tenure,
/// has not stored its presence, has not looked at the stage again, stands in another tenure or is
/// to clear its presence. None looks at the stage, or stores a length, while its presence is to be
/// cleared.
///
/// With such rows none enters a tenure, or looks at its stage again, that is past for it, or with
/// nothing to send. None clears its presence while it pins no tenure, while it stands in one, or
/// of one that it neither lost nor has the page of. None that rests asks for a presence, and none
/// asks once all have passed. None clears a word of a row before they have, of another row than
/// that of the tenure after its own, or once all are cleared. None asks or clears while it is to
/// store the length still. None gives a page back before that row is ready. None loads a passed
/// place at rest, while its presence is to be cleared, once the order has ended, once the length is
/// stored, where its frame fits the log by the page's floor, or once all are loaded.
pub fn causes_refuse<Q: Ratifier>()
    ensures { (sender : Sender (Elector Q)) → RefusesCauses Q.protocol sender }
{}
