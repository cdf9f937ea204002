//! What `replay` prints of an answer.

ghost use Rattle.std.specs.Prelude.{◌≡◌, ◌++◌, OnOk, string_bytes};
ghost use Rattle.bus_world.specs.Playing.{event_told};
ghost use Rattle.bus_replay.specs.Text.{answer_text, event_text, answer_line};
ghost use Rattle.bus_replay.specs.Text.{fork_text, fork_line};

use bus_world::{Answer, Event};
use std::alloc::AllocError;

/// Puts an answer at the end of a text.
pub fn push_answer(text: &mut String, answer: &Answer) -> Result<(), AllocError>
    ensures { OnOk result
        (string_bytes text.new ≡ string_bytes text.old ++ answer_text answer.now) }
{
    match answer {
        Answer::Number(number) => write!(text, "number {number}"),
        Answer::Closing => text.push_str("closing"),
        Answer::Leaving => text.push_str("leaving"),
        Answer::Turn(turn) => write!(text, "{turn}"),
        Answer::Recv(turn) => write!(text, "{turn}"),
        Answer::Stopped => text.push_str("stopped"),
        Answer::Gone => text.push_str("gone"),
    }
}

/// Puts whom an event asks at the end of a text.
fn push_event(text: &mut String, event: &Event) -> Result<(), AllocError>
    ensures { OnOk result
        (string_bytes text.new ≡ string_bytes text.old ++ event_text (event_told event.now)) }
{
    match event {
        Event::Put { sender, bytes: _ } => write!(text, "put {sender}"),
        Event::Close(sender) => write!(text, "close {sender}"),
        Event::Leave(sender) => write!(text, "leave {sender}"),
        Event::Turn { sender, word: _ } => write!(text, "turn {sender}"),
        Event::Recv(receiver) => write!(text, "recv {receiver}"),
        Event::Stop(sender) => write!(text, "stop {sender}"),
        Event::Gone(receiver) => write!(text, "gone {receiver}"),
    }
}

/// Puts the line of an event that was answered at the end of a text.
pub fn push_answer_line(text: &mut String, event: &Event, answer: &Answer) -> Result<(), AllocError>
    ensures { OnOk result
        (string_bytes text.new ≡ string_bytes text.old
        ++ answer_line (event_told event.now) answer.now) }
{
    push_event(text, event)?;
    text.push_str(": ")?;
    push_answer(text, answer)?;
    text.push_str("\n")
}

/// Whether a receiver has forked.
pub fn fork_text(did: bool) -> &'static str
    ensures { result.now ≡ fork_text did }
{
    if did { "forked" } else { "no seat" }
}

/// Puts the line of a fork that was answered at the end of a text.
pub fn push_fork_line(
    text: &mut String,
    receiver: u64,
    number: u64,
    did: bool,
) -> Result<(), AllocError>
    ensures { OnOk result
        (string_bytes text.new ≡ string_bytes text.old ++ fork_line receiver number did) }
{
    write!(text, "fork {receiver} {number}: ")?;
    text.push_str(fork_text(did))?;
    text.push_str("\n")
}
