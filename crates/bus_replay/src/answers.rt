//! What a script of `replay` is answered with.

ghost use Rattle.std.specs.Prelude.{◌≡◌, ℕ, ◌-◌, List, Some, IfOk, IfErr, false, length};
ghost use Rattle.std.specs.Prelude.{slice_get, string_bytes};
ghost use Rattle.bus_deliverylog.specs.Receiving.{Receiving};
ghost use Rattle.bus_tenure.specs.Elections.{Elector, election_of};
ghost use Rattle.bus_machine.specs.Machine.{no_machine_trails};
ghost use Rattle.bus_script.specs.LineNumbers.{refusal_line};
ghost use Rattle.bus_replay.specs.Answers.{End, Prints, Ends, Begins, IsReplay, Empties, IsOpened};
ghost use Rattle.bus_replay.specs.Answers.{printed_trails, printed_seats, seats_at_first};
ghost use Rattle.bus_replay.specs.Told.{FirstRefused};

use crate::closing::push_closing;
use crate::histories::History;
use crate::lines::{FirstFault, FirstLine, first_of};
use crate::names::first_fault_name;
use crate::playing::play;
use bus_adoptcommit::Ratifier;
use bus_machine::World;
use bus_machine::shapes::fault_of;
use bus_register::NoMemory;
use bus_register::limits::MOST_RECEIVERS;
use bus_script::{Answer, LineNumber, Lines, Outcome, refusal_line};
use bus_world::{MakeFault, Shape};
use std::alloc::Global;

/// The receivers from this number on leave, one after another.
fn empty_seats<Q: Ratifier + Drop>(bus: &mut World<Q>, receivers: u64)
    requires { (r : ℕ) (reader : Receiving) → slice_get bus.old.receivers r ≡ Some reader
        → reader.gone ≡ false }
    ensures { let X = election_of Q.Ratifier in
        Empties X Q.protocol bus.old receivers (length bus.old.receivers - receivers) bus.new }
{
    for seat in receivers..bus.receivers() {
        match bus.gone(seat) {
            Ok(()) => {}
            Err(_) => unreachable!(),
        }
    }
}

/// A new ring of so many seats, of which those past its receivers are free.
fn new_ring<Q: Ratifier + Drop>(
    alloc: Global,
    shape: Shape,
    seats: u64,
) -> Result<World<Q>, FirstFault>
    ensures made { let X = election_of Q.Ratifier in
        IfOk result (IsOpened X Q.protocol (FirstLine.Ring shape seats)) }
    ensures fault { IfErr result (FirstRefused (FirstLine.Ring shape seats)) }
{
    if let Some(fault) = fault_of(shape, Some(shape.rows)) {
        return Err(FirstFault::Make(fault));
    }
    if seats < shape.receivers || seats > MOST_RECEIVERS {
        return Err(FirstFault::Seats);
    }
    let with_all = Shape {
        receivers: seats,
        ..shape
    };
    match World::ring(alloc, with_all, None) {
        Ok(mut bus) => {
            empty_seats(&mut bus, shape.receivers);
            Ok(bus)
        }
        Err(fault) => Err(FirstFault::Make(fault)),
    }
}

/// A new bus, such as the first line of a script asks for.
pub fn new_bus<Q: Ratifier + Drop>(alloc: Global, first: FirstLine) -> Result<World<Q>, FirstFault>
    ensures made { let X = election_of Q.Ratifier in
        IfOk result (IsOpened X Q.protocol first) }
    ensures fault { IfErr result (FirstRefused first) }
{
    let made = match first {
        FirstLine::Shape(shape) => World::new(alloc, shape),
        FirstLine::Cycle(shape) => World::cyclic(alloc, shape, None),
        FirstLine::Ring { shape, seats } => return new_ring(alloc, shape, seats),
    };
    match made {
        Ok(bus) => Ok(bus),
        Err(fault) => Err(FirstFault::Make(fault)),
    }
}

/// The answer to a script that was refused before there was a bus.
fn refused(alloc: Global, line_number: LineNumber, name: &str) -> Result<Answer, NoMemory>
    ensures outcome { IfOk result (λ answer. answer.outcome ≡ Outcome.Refused) }
    ensures text { IfOk result
        (λ answer. string_bytes answer.text ≡ refusal_line line_number name.now) }
{
    Ok(Answer {
        outcome: Outcome::Refused,
        text: refusal_line(alloc, line_number, name)?,
    })
}

/// The answer to the lines behind the first one, which move a new bus.
fn answer_from<Q: Ratifier + Drop>(
    alloc: Global,
    mut bus: World<Q>,
    first: FirstLine,
    lines: Lines<'_>,
) -> Result<Answer, NoMemory>
    requires { let X = election_of Q.Ratifier in IsOpened X Q.protocol first bus }
    ensures { let X = election_of Q.Ratifier in
        IfOk result (λ answer. (text : List ℕ) × (end : End (Elector Q))
        × (run : Prints X Q.protocol bus lines.entry text end)
        × Ends X Q.protocol end (printed_trails X Q.protocol bus lines.entry text end run
        no_machine_trails) (printed_seats X Q.protocol bus lines.entry text end run
        (seats_at_first first)) text answer.outcome (string_bytes answer.text)) }
{
    let mut text = String::new(alloc);
    let shape = first.shape();
    let mut history = History::new(alloc, shape.log_words, first.seats(), shape.receivers)?;
    match play(alloc, &mut bus, &mut history, lines, &mut text)? {
        Outcome::Done => {
            push_closing(alloc, &bus, &history, &mut text)?;
            Ok(Answer {
                outcome: Outcome::Done,
                text,
            })
        }
        Outcome::Refused => Ok(Answer {
            outcome: Outcome::Refused,
            text,
        }),
    }
}

/// The answer to the lines behind a first one that asks for a bus.
fn answer_behind<Q: Ratifier + Drop>(
    alloc: Global,
    first: FirstLine,
    number: u64,
    lines: Lines<'_>,
) -> Result<Answer, NoMemory>
    ensures { let X = election_of Q.Ratifier in
        IfOk result (λ answer. Begins X Q.protocol number (Some first) lines.entry answer.outcome
        (string_bytes answer.text)) }
{
    match new_bus::<Q>(alloc, first) {
        Ok(bus) => answer_from(alloc, bus, first, lines),
        Err(FirstFault::Make(MakeFault::NoMemory)) => Err(NoMemory),
        Err(fault) => refused(alloc, LineNumber::AtLine(number), first_fault_name(fault)),
    }
}

/// What is written for an input: the answers and the closing lines of a new bus such as the script
/// asks for, with ratifiers of this kind; or the answers up to the first refusal.
pub fn answer_to<Q: Ratifier + Drop>(alloc: Global, input: &[u8]) -> Result<Answer, NoMemory>
    ensures { let X = election_of Q.Ratifier in
        IfOk result (λ answer. IsReplay X Q.protocol input.now answer.outcome
        (string_bytes answer.text)) }
{
    let mut lines = Lines::new(input);
    let Some(first) = lines.next_line() else {
        return refused(alloc, LineNumber::AtEnd, "BadLine");
    };
    match first_of(first.bytes) {
        Some(bus) => answer_behind::<Q>(alloc, bus, first.number, lines),
        None => refused(alloc, LineNumber::AtLine(first.number), "BadLine"),
    }
}
