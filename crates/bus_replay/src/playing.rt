//! How the lines of a script move the bus.

ghost use Rattle.std.specs.Prelude.{◌≡◌, ◌++◌, ◌-◌, ℕ, ◌<◌, ◌≤◌, Bool, List, [], IfOk, IfErr};
ghost use Rattle.std.specs.Prelude.{OnOk, length, slice_get, string_bytes};
ghost use Rattle.bus_tenure.specs.Elections.{election_of};
ghost use Rattle.bus_world.specs.Playing.{event_told, ForkRefused};
ghost use Rattle.bus_machine.specs.Playing.{Answers, Refused};
ghost use Rattle.bus_script.specs.declared.line_numbers.LineNumber.TheVariants.{AtLine};
ghost use Rattle.bus_script.specs.LineNumbers.{refusal_line};
ghost use Rattle.bus_machine.specs.Machine.{Forks, Trails, trails_grown};
ghost use Rattle.bus_replay.specs.Answers.{fork_seats, fork_trails};
ghost use Rattle.bus_replay.specs.GoingOn.{goes_on};
ghost use Rattle.bus_replay.specs.Histories.{IsHistoryOf, AreNobodys};
ghost use Rattle.bus_deliverylog.specs.Receiving.{recv_goes_on};
ghost use Rattle.bus_tenure.specs.Classes.{still_goes};
ghost use Rattle.bus_replay.specs.Told.{IsRepeated, IsObeyed, ArePlayed};

use crate::commands::Command;
use crate::histories::History;
use crate::lines::command_of;
use crate::names::step_fault_name;
use crate::text::{push_answer_line, push_fork_line};
use bus_adoptcommit::Ratifier;
use bus_deliverylog::RecvTurn;
use bus_machine::World;
use bus_machine::laws::published_words_stand;
use bus_register::NoMemory;
use bus_script::{Line, LineNumber, Lines, Outcome, refusal_line};
use bus_tenure::Turn;
use bus_world::{Answer, Event, StepFault};
use std::alloc::{AllocError, Global};

fn turn_goes_on(turn: Turn) -> bool
    ensures { result ≡ still_goes turn }
{
    matches!(turn, Turn::Going)
}

fn recv_goes_on(turn: &RecvTurn) -> bool
    ensures { result ≡ recv_goes_on turn.now }
{
    match turn {
        RecvTurn::Going | RecvTurn::Head { .. } | RecvTurn::Item(_) | RecvTurn::Leave(_) => true,
        RecvTurn::Empty | RecvTurn::End => false,
    }
}

/// A sender's turns go on while it is going, a receiver's until it finds nothing or the end.
pub fn goes_on(answer: &Answer) -> bool
    ensures { result ≡ goes_on answer.now }
{
    match answer {
        Answer::Number(_) | Answer::Closing | Answer::Leaving | Answer::Stopped | Answer::Gone =>
            false,
        Answer::Turn(turn) => turn_goes_on(*turn),
        Answer::Recv(turn) => recv_goes_on(turn),
    }
}

/// What happens next, and its answer, which the history notes.
fn step_noted<Q: Ratifier + Drop>(
    bus: &mut World<Q>,
    history: &mut History,
    event: &Event,
) -> Result<Result<Answer, StepFault>, NoMemory>
    requires { let X = election_of Q.Ratifier in
        (trails : Trails) × (taken : ℕ → Bool)
        × IsHistoryOf X Q.protocol bus.old history.old trails taken }
    ensures answered { let X = election_of Q.Ratifier in
        IfOk result (λ told. IfOk told (λ answer. Answers X Q.protocol bus.old
        (event_told event.now) answer bus.new)) }
    ensures noted { let X = election_of Q.Ratifier in
        IfOk result (λ told. IfOk told (λ answer. (trails : Trails) (taken : ℕ → Bool)
        → IsHistoryOf X Q.protocol bus.old history.old trails taken
        → IsHistoryOf X Q.protocol bus.new history.new
        (trails_grown X bus.old (event_told event.now) answer trails) taken)) }
    ensures fault { IfOk result (λ told. IfErr told (Refused bus.old (event_told event.now))) }
{
    published_words_stand::<Q>();
    let answer = match bus.step(event) {
        Ok(answer) => answer,
        Err(fault) => return Ok(Err(fault)),
    };
    history.note(bus.words(), event, &answer)?;
    Ok(Ok(answer))
}

/// An event once, and more while it goes on, up to so many times. The answer is the last one.
fn repeat<Q: Ratifier + Drop>(
    bus: &mut World<Q>,
    history: &mut History,
    event: &Event,
    times: u64,
) -> Result<Result<Answer, StepFault>, NoMemory>
    requires some { 0 < times }
    requires held { let X = election_of Q.Ratifier in
        (trails : Trails) × (taken : ℕ → Bool)
        × IsHistoryOf X Q.protocol bus.old history.old trails taken }
    ensures last { let X = election_of Q.Ratifier in
        IfOk result (λ told. IfOk told (λ last. IsRepeated X Q.protocol bus.old history.old
        (event_told event.now) (times - 1) last bus.new history.new)) }
    ensures fault { IfOk result (λ told. IfErr told (Refused bus.old (event_told event.now))) }
{
    let mut last = match step_noted(bus, history, event)? {
        Ok(answer) => answer,
        Err(fault) => return Ok(Err(fault)),
    };
    let mut more = times - 1;
    while more > 0 && goes_on(&last) {
        last = match step_noted(bus, history, event)? {
            Ok(answer) => answer,
            Err(fault) => return Ok(Err(fault)),
        };
        more -= 1;
    }
    Ok(Ok(last))
}

/// A receiver forks to a higher number, and the history notes it where that is done.
fn fork_noted<Q: Ratifier + Drop>(
    bus: &mut World<Q>,
    history: &mut History,
    receiver: u64,
    number: u64,
) -> Result<bool, StepFault>
    requires { let X = election_of Q.Ratifier in
        (trails : Trails) × (taken : ℕ → Bool)
        × IsHistoryOf X Q.protocol bus.old history.old trails taken }
    ensures forked { IfOk result (λ did. Forks bus.old receiver number did bus.new) }
    ensures noted { let X = election_of Q.Ratifier in
        IfOk result (λ did. (n : ℕ) (trails : Trails) (taken : ℕ → Bool)
        → IsHistoryOf X Q.protocol bus.old history.old trails taken
        → length bus.old.receivers ≤ n → trails.heard n ≡ []
        → IsHistoryOf X Q.protocol bus.new history.new (fork_trails receiver number n did trails)
        (fork_seats number did taken)) }
    ensures fault { IfErr result (ForkRefused (slice_get bus.old.receivers receiver)
        (slice_get bus.old.receivers number) receiver number) }
{
    let did = bus.fork(receiver, number)?;
    if did {
        history.note_fork(receiver, number);
    }
    Ok(did)
}

/// Puts the line of a refusal at the end of a text.
pub fn push_refusal(
    alloc: Global,
    number: u64,
    name: &str,
    text: &mut String,
) -> Result<(), AllocError>
    ensures { OnOk result
        (string_bytes text.new ≡ string_bytes text.old ++ refusal_line (AtLine number) name.now) }
{
    let line = refusal_line(alloc, LineNumber::AtLine(number), name)?;
    text.push_str(&line)
}

/// Puts the line of a refusal at the end of a text: no line behind it is obeyed.
fn refuse(alloc: Global, number: u64, name: &str, text: &mut String) -> Result<Outcome, NoMemory>
    ensures outcome { IfOk result (λ outcome. outcome ≡ Outcome.Refused) }
    ensures text { OnOk result
        (string_bytes text.new ≡ string_bytes text.old ++ refusal_line (AtLine number) name.now) }
{
    push_refusal(alloc, number, name, text)?;
    Ok(Outcome::Refused)
}

/// Does what a line asks for, and puts its answer or its refusal at the end of a text.
fn obey<Q: Ratifier + Drop>(
    alloc: Global,
    bus: &mut World<Q>,
    history: &mut History,
    line: Line<'_>,
    text: &mut String,
) -> Result<Outcome, NoMemory>
    requires { let X = election_of Q.Ratifier in
        (trails : Trails) × (taken : ℕ → Bool)
        × IsHistoryOf X Q.protocol bus.old history.old trails taken }
    ensures { let X = election_of Q.Ratifier in
        IfOk result (λ outcome. (added : List ℕ)
        × IsObeyed X Q.protocol bus.old history.old (line.entry.number, line.entry.bytes.now)
        outcome added bus.new history.new
        × (string_bytes text.new ≡ string_bytes text.old ++ added)) }
{
    let Some(command) = command_of(alloc, line.bytes)? else {
        return refuse(alloc, line.number, "BadLine", text);
    };
    match command {
        Command::Play { event, times } => match repeat(bus, history, &event, times)? {
            Ok(answer) => {
                push_answer_line(text, &event, &answer)?;
                Ok(Outcome::Done)
            }
            Err(fault) => refuse(alloc, line.number, step_fault_name(fault), text),
        },
        Command::Fork { receiver, number } => match fork_noted(bus, history, receiver, number) {
            Ok(did) => {
                push_fork_line(text, receiver, number, did)?;
                Ok(Outcome::Done)
            }
            Err(fault) => refuse(alloc, line.number, step_fault_name(fault), text),
        },
    }
}

/// Obeys lines, and puts the answers at the end of a text, up to the first refusal.
pub fn play<Q: Ratifier + Drop>(
    alloc: Global,
    bus: &mut World<Q>,
    history: &mut History,
    mut lines: Lines<'_>,
    text: &mut String,
) -> Result<Outcome, NoMemory>
    requires { let X = election_of Q.Ratifier in
        (trails : Trails) × (taken : ℕ → Bool)
        × IsHistoryOf X Q.protocol bus.old history.old trails taken
        × AreNobodys (length bus.old.receivers) (length lines) trails }
    ensures { let X = election_of Q.Ratifier in
        IfOk result (λ outcome. (added : List ℕ)
        × ArePlayed X Q.protocol bus.old history.old lines.entry outcome added bus.new
        history.new
        × (string_bytes text.new ≡ string_bytes text.old ++ added)) }
{
    while let Some(line) = lines.next_line() {
        match obey(alloc, bus, history, line, text)? {
            Outcome::Done => {}
            Outcome::Refused => return Ok(Outcome::Refused),
        }
    }
    Ok(Outcome::Done)
}
