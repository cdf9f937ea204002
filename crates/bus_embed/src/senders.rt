//! The calls of a sender.

ghost use Rattle.std.specs.Prelude.{◌≡◌};
ghost use Rattle.bus_batch.specs.declared.messages.Mark.TheVariants as mark;
ghost use Rattle.bus_embed.specs.Answers.{close_code, put_fault_code, turn_code, turn_answer};
ghost use Rattle.bus_embed.specs.Calls.{PutAnswered, CloseAnswered, TurnAnswered, ShowsSender};
ghost use Rattle.bus_embed.specs.Calls.{CarryAnswered, TurnsAnswered, RoomAnswered};

use crate::answers::{TurnAnswer, turn_told};
use crate::codes;
use bus_handles::{CloseFault, PutFault, SenderHandle, ThreeWord, Turn};

/// What a sender shows, at no step.
#[repr(C)]
#[derive(Clone, Copy, Debug)]
pub struct SenderShown {
    /// How many messages wait in its batch.
    pub pending: u64,
    /// The number that its next message gets.
    pub next_number: u64,
    /// The last length of the log that it has stored, in words.
    pub words: u64,
    /// How many turns its election takes at most.
    pub turns_left: u64,
    /// Its number.
    pub number: u8,
    /// It sends nothing more.
    pub is_closed: bool,
    /// Its next step asks for a random word.
    pub wants_word: bool,
}

/// Appends a message to the batch, as `SenderHandle::put`: OK with its number in `number`, or the
/// code of the fault, and `number` as it was.
pub fn put_message(sender: &mut SenderHandle<ThreeWord>, bytes: &[u8], number: &mut u64) -> u32
    ensures { PutAnswered sender.old bytes.now result number.old number.new sender.new }
{
    match sender.put(bytes) {
        Ok(put) => {
            *number = put;
            codes::OK
        }
        Err(fault) => put_refused(fault),
    }
}

/// The code of what refused a put.
fn put_refused(fault: PutFault) -> u32
    ensures { result ≡ put_fault_code fault }
{
    match fault {
        PutFault::Closed => codes::PUT_CLOSED,
        PutFault::Busy => codes::PUT_BUSY,
        PutFault::TooLong => codes::PUT_TOO_LONG,
        PutFault::BatchFull => codes::PUT_BATCH_FULL,
    }
}

/// Puts what waits with a sender into the batch of another, as `SenderHandle::carry_to`: OK, or
/// the code of the fault, PUT_BUSY where the first one has begun a tenure. It keeps them too.
pub fn carry_messages(sender: &SenderHandle<ThreeWord>, next: &mut SenderHandle<ThreeWord>) -> u32
    ensures { CarryAnswered sender.now next.old result next.new }
{
    match sender.carry_to(next) {
        Ok(()) => codes::OK,
        Err(fault) => put_refused(fault),
    }
}

/// Lets an end mark wait, as `SenderHandle::close`: OK, or the code of the fault.
pub fn close_sender(sender: &mut SenderHandle<ThreeWord>) -> u32
    ensures { CloseAnswered mark.End sender.old result sender.new }
{
    closed_code(sender.close())
}

/// Lets a leave mark wait, as `SenderHandle::leave`: OK, or the code of the fault.
pub fn leave_sender(sender: &mut SenderHandle<ThreeWord>) -> u32
    ensures { CloseAnswered mark.Leave sender.old result sender.new }
{
    closed_code(sender.leave())
}

/// The code of what a close or a leave came to.
fn closed_code(given: Result<(), CloseFault>) -> u32
    ensures { result ≡ close_code given }
{
    match given {
        Ok(()) => codes::OK,
        Err(CloseFault::Closed) => codes::CLOSE_CLOSED,
        Err(CloseFault::Busy) => codes::CLOSE_BUSY,
        Err(CloseFault::Pending) => codes::CLOSE_PENDING,
    }
}

/// One turn with this random word, as `SenderHandle::turn`: the code of its answer, and what that
/// says in `answer`.
pub fn take_turn(sender: &mut SenderHandle<ThreeWord>, word: u32, answer: &mut TurnAnswer) -> u32
    ensures { TurnAnswered sender.old word result answer.new sender.new }
{
    let turn = sender.turn(word);
    told_in(turn, answer)
}

/// The code of an answer, and what that says in `answer`.
fn told_in(turn: Turn, answer: &mut TurnAnswer) -> u32
    ensures code { result ≡ turn_code turn }
    ensures answer { answer.new ≡ turn_answer turn }
{
    let (code, told) = turn_told(turn);
    *answer = told;
    code
}

/// One turn with this random word, and as long as the last one is answered Going up to so many
/// more that ask for no word, as `SenderHandle::turns`: the code of the last answer, and what that
/// says in `answer`.
pub fn take_turns(
    sender: &mut SenderHandle<ThreeWord>,
    word: u32,
    more: u64,
    answer: &mut TurnAnswer,
) -> u32
    ensures { TurnsAnswered sender.old word more result answer.new sender.new }
{
    let turn = sender.turns(word, more);
    told_in(turn, answer)
}

/// Looks whether the sender's batch has room, as `SenderHandle::fits` and `SenderHandle::has_room`:
/// OK where it had room by the words that were found, FULL where it had none, and NEVER_FITS where
/// it is longer than the log. It is no turn.
pub fn look_for_room(sender: &mut SenderHandle<ThreeWord>) -> u32
    ensures { RoomAnswered sender.old result sender.new }
{
    if !sender.fits() {
        return codes::NEVER_FITS;
    }
    if sender.has_room() {
        codes::OK
    } else {
        codes::FULL
    }
}

/// What a sender shows. Takes no step.
pub fn show_sender(sender: &SenderHandle<ThreeWord>) -> SenderShown
    ensures { ShowsSender sender.now result }
{
    SenderShown {
        pending: sender.pending(),
        next_number: sender.next_number(),
        words: sender.words(),
        turns_left: sender.turns_left(),
        number: sender.number().0,
        is_closed: sender.is_closed(),
        wants_word: sender.wants_word(),
    }
}
