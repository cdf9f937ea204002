//! What is left of a tenure that a sender has begun.

ghost use Rattle.bus_embed.specs.Finishing.{FinishAnswered, finish_code, finish_told};

use crate::answers::{TurnAnswer, turn_told};
use crate::codes;
use bus_handles::{SenderHandle, ThreeWord};

/// The turns that are left of the tenure that it has begun, as `SenderHandle::finish`: the code of
/// the last one's answer, and what that says in `answer`. OK where it had begun none, and then
/// `answer` stays as it was.
pub fn finish_sender(sender: &mut SenderHandle<ThreeWord>, answer: &mut TurnAnswer) -> u32
    ensures { FinishAnswered sender.old result answer.old answer.new sender.new }
{
    match sender.finish() {
        None => codes::OK,
        Some(turn) => {
            let (code, told) = turn_told(turn);
            *answer = told;
            code
        }
    }
}
