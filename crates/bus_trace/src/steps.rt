//! The step that an event takes on a word, and what is seen of it.

ghost use Rattle.std.specs.Prelude.{◌≡◌, slice_get, slice_index, IfOk, IfErr};
ghost use Rattle.bus_tenure.specs.Elections.{election_of};
ghost use Rattle.bus_world.specs.Playing.{event_told, ForkRefused};
ghost use Rattle.bus_machine.specs.Machine.{Forks};
ghost use Rattle.bus_machine.specs.Playing.{Answers, Refuses};
ghost use Rattle.bus_trace.specs.Rows.{fork_op};
ghost use Rattle.bus_trace.specs.Steps.{sender_due, receiver_due, leaver_due};
ghost use Rattle.bus_trace.specs.Steps.{due_by, seen_in, word_in};

use crate::seen::{Seen, SeenWord, Step, register_of};
use bus_adoptcommit::Ratifier;
use bus_machine::World;
use bus_register::{Kind, Reg, SenderNo};
use bus_world::{Answer, Event, StepFault};

/// The step that a sender is to take with this random word, if it takes one.
fn due_of_sender<Q: Ratifier + Drop>(bus: &World<Q>, sender: u64, word: u32) -> Option<Step>
    ensures { let X = election_of Q.Ratifier in
        result ≡ sender_due X (slice_get bus.now.senders sender) word }
{
    if sender >= bus.senders() {
        return None;
    }
    let Some(core) = bus.sender(SenderNo(sender as u8)) else {
        return None;
    };
    let Some(kind) = core.kind() else {
        return None;
    };
    let Some(op) = core.next(word) else {
        return None;
    };
    Some(Step {
        tenure: core.tenure(),
        kind,
        op,
    })
}

/// The step that a receiver is to take, if it takes one.
fn due_of_reader<Q: Ratifier + Drop>(bus: &World<Q>, receiver: u64) -> Option<Step>
    ensures { result ≡ receiver_due (slice_get bus.now.receivers receiver) }
{
    let Some(reader) = bus.reader(receiver) else {
        return None;
    };
    let Some(kind) = reader.kind() else {
        return None;
    };
    let Some(op) = reader.next() else {
        return None;
    };
    Some(Step {
        tenure: None,
        kind,
        op,
    })
}

/// The store that a receiver is to make with which it leaves for good, if it makes one.
fn due_of_leaver<Q: Ratifier + Drop>(bus: &World<Q>, receiver: u64) -> Option<Step>
    ensures { result ≡ leaver_due (slice_get bus.now.receivers receiver) }
{
    let Some(reader) = bus.reader(receiver) else {
        return None;
    };
    let Some(op) = reader.leaving() else {
        return None;
    };
    Some(Step {
        tenure: None,
        kind: Kind::StorePassed,
        op,
    })
}

/// The step that an event is to take on a word, if it takes one.
fn due_of<Q: Ratifier + Drop>(bus: &World<Q>, event: &Event) -> Option<Step>
    ensures { let X = election_of Q.Ratifier in
        result ≡ due_by X bus.now (event_told event.now) }
{
    match event {
        Event::Put { .. } | Event::Close(_) | Event::Leave(_) | Event::Stop(_) => None,
        Event::Gone(receiver) => due_of_leaver(bus, *receiver),
        Event::Turn { sender, word } => due_of_sender(bus, *sender, *word),
        Event::Recv(receiver) => due_of_reader(bus, *receiver),
    }
}

/// What stands in a word, and 0 where there is no such word.
fn standing<Q: Ratifier + Drop>(bus: &World<Q>, at: Reg) -> u64
    ensures { result ≡ slice_index bus.now.words at.0 }
{
    match bus.word(at) {
        Some(number) => number,
        None => 0,
    }
}

/// What happens next, the step that it took on a word, if it took one, and its answer. A refused
/// event changes nothing.
pub fn step_shown<Q: Ratifier + Drop>(
    bus: &mut World<Q>,
    event: &Event,
) -> Result<(Option<Seen>, Answer), StepFault>
    ensures answered { let X = election_of Q.Ratifier in
        IfOk result (λ told. Answers X Q.protocol bus.old (event_told event.now) told.1 bus.new) }
    ensures seen { let X = election_of Q.Ratifier in
        IfOk result (λ told. told.0 ≡ seen_in (slice_index bus.old.words)
        (due_by X bus.old (event_told event.now))) }
    ensures refused { IfErr result
        (λ why. Refuses bus.old (event_told event.now) why bus.new) }
{
    let Some(step) = due_of(bus, event) else {
        let answer = bus.step(event)?;
        return Ok((None, answer));
    };
    let at = register_of(step.op);
    let found = standing(bus, at);
    let answer = bus.step(event)?;
    let left = standing(bus, at);
    Ok((Some(Seen { step, found, left }), answer))
}

/// A receiver forks to a higher number, where that is free, and the answer says whether it has;
/// before it stands the word that the step is on, if it takes one, with what stood there and what
/// stands there now: that in which the last receiver of that number would say that it leaves. A
/// refused fork changes nothing.
pub fn fork_shown<Q: Ratifier + Drop>(
    bus: &mut World<Q>,
    receiver: u64,
    number: u64,
) -> Result<(Option<SeenWord>, bool), StepFault>
    ensures forked { IfOk result (λ told. Forks bus.old receiver number told.1 bus.new) }
    ensures seen { IfOk result (λ told. told.0 ≡ word_in (slice_index bus.old.words)
        (fork_op bus.old number (slice_get bus.old.receivers receiver))) }
    ensures refused { IfErr result (λ why. ForkRefused (slice_get bus.old.receivers receiver)
        (slice_get bus.old.receivers number) receiver number why × (bus.new ≡ bus.old)) }
{
    bus.promises();
    let Some(step) = due_of_leaver(bus, number) else {
        let did = bus.fork(receiver, number)?;
        return Ok((None, did));
    };
    let at = register_of(step.op);
    let found = standing(bus, at);
    let did = bus.fork(receiver, number)?;
    let left = standing(bus, at);
    Ok((Some(SeenWord { at, found, left }), did))
}
