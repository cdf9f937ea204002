//! What the lines of a script of `replay` say.

ghost use Rattle.std.specs.Prelude.{◌≡◌, ◌⊎◌, [], None, Some, IfOk, IfSome, IfNone};
ghost use Rattle.std.specs.Prelude.{MatchOption, codes, option_and_then};
ghost use Rattle.std.specs.Option.{option_map};
ghost use Rattle.bus_register.specs.declared.limits.TheConstants.{LOG_MESSAGES};
ghost use Rattle.bus_script.specs.Grammar.{number_of, each_of, and_before, arguments_of};
ghost use Rattle.bus_replay.specs.Lines.{shape_from, shape_of, ring_from, ring_of, first_of};
ghost use Rattle.bus_replay.specs.Lines.{put_of, put_from, close_from, are_times};
ghost use Rattle.bus_replay.specs.Lines.{turn_from, recv_from, stop_from, leave_from};
ghost use Rattle.bus_replay.specs.Lines.{gone_from, fork_from, shape_in, seats_in};
ghost use Rattle.bus_replay.specs.Lines.{numbers_behind, command_of, hex_of};
ghost use Rattle.bus_replay.specs.Told.{command_told, sizes_before};

use crate::commands::Command;
use crate::hex::hex_of;
use bus_register::limits::LOG_MESSAGES;
use bus_script::{Words, number_of, words_behind};
use bus_world::{Event, MakeFault, Shape};
use std::alloc::{AllocError, Global};

/// Turns that one line asks for: 1 to 10,000.
pub const MOST_TURNS_A_LINE: u64 = 10_000;

/// The number that the next word is.
fn next_number(words: &mut Words<'_>) -> Option<u64>
    ensures some { IfSome result
        (λ n. each_of number_of words.old ≡ and_before (Some n) (each_of number_of words.new)) }
    ensures none { IfNone result ((words.old ≡ []) ⊎ (each_of number_of words.old ≡ None)) }
{
    number_of(words.next_word()?)
}

/// What the first line of a script asks for.
#[derive(Debug, PartialEq, Eq, Clone, Copy)]
pub enum FirstLine {
    /// `shape N M R T L`: a bus that has a row for each tenure.
    Shape(Shape),
    /// `cycle N M R T L`: a bus whose rows are used again.
    Cycle(Shape),
    /// `ring N M R T L`, `ring N M R T L S` or `ring N M R T L S B`: a bus whose rows are used
    /// again, and whose log words are. It has S seats, of which the first have a receiver; as many
    /// as receivers where that is left out. A batch has at most B messages; 16 where that is.
    Ring { shape: Shape, seats: u64 },
}

/// Why the first line of a script gives no bus.
#[derive(Debug, PartialEq, Eq, Clone, Copy)]
pub enum FirstFault {
    /// No bus of its sizes is made.
    Make(MakeFault),
    /// A ring has fewer seats than receivers, or more than 64.
    Seats,
}

impl FirstLine {
    /// The sizes that it has.
    pub fn shape(self) -> Shape
        ensures { result ≡ shape_in self }
    {
        match self {
            FirstLine::Shape(shape)
            | FirstLine::Cycle(shape)
            | FirstLine::Ring { shape, seats: _ } => shape,
        }
    }

    /// How many seats it has.
    pub fn seats(self) -> u64
        ensures { result ≡ seats_in self }
    {
        match self {
            FirstLine::Shape(shape) | FirstLine::Cycle(shape) => shape.receivers,
            FirstLine::Ring { shape: _, seats } => seats,
        }
    }
}

/// The sizes behind a first line's keyword, with batches of 16, and the words behind them.
fn sizes_before<'a>(line: &'a [u8], keyword: &[u8]) -> Option<(Shape, Words<'a>)>
    ensures some { IfSome result (λ told. numbers_behind keyword.now line.entry.now
        ≡ sizes_before told.0 (each_of number_of told.1)) }
    ensures batch { IfSome result (λ told. told.0.batch ≡ LOG_MESSAGES) }
    ensures none { IfNone result
        ((option_and_then shape_from (numbers_behind keyword.now line.entry.now) ≡ None)
        × (option_and_then ring_from (numbers_behind keyword.now line.entry.now) ≡ None)) }
{
    let mut words = words_behind(line, keyword)?;
    let senders = next_number(&mut words)?;
    let receivers = next_number(&mut words)?;
    let rounds = next_number(&mut words)?;
    let rows = next_number(&mut words)?;
    let log_words = next_number(&mut words)?;
    let shape = Shape {
        senders,
        receivers,
        rounds,
        rows,
        log_words,
        batch: LOG_MESSAGES as u64,
    };
    Some((shape, words))
}

/// The sizes that stand behind a first line's keyword, and nothing else.
fn sizes_behind(line: &[u8], keyword: &[u8]) -> Option<Shape>
    ensures { result ≡ option_and_then shape_from (numbers_behind keyword.now line.now) }
{
    let (shape, mut words) = sizes_before(line, keyword)?;
    if words.next_word().is_some() {
        return None;
    }
    Some(shape)
}

/// The sizes and seats of a ring, where the line asks for one.
fn ring_of(line: &[u8]) -> Option<FirstLine>
    ensures { result ≡ ring_of line.now }
{
    let (shape, mut words) = sizes_before(line, b"ring")?;
    let Some(word) = words.next_word() else {
        let seats = shape.receivers;
        return Some(FirstLine::Ring { shape, seats });
    };
    let seats = number_of(word)?;
    let Some(word) = words.next_word() else {
        return Some(FirstLine::Ring { shape, seats });
    };
    let batch = number_of(word)?;
    if words.next_word().is_some() {
        return None;
    }
    let shape = Shape { batch, ..shape };
    Some(FirstLine::Ring { shape, seats })
}

/// The sizes of a bus that has a row for each tenure, where the line asks for one.
pub fn shape_of(line: &[u8]) -> Option<Shape>
    ensures { result ≡ shape_of line.now }
{
    sizes_behind(line, b"shape")
}

/// What the first line asks for.
pub fn first_of(line: &[u8]) -> Option<FirstLine>
    ensures { result ≡ first_of line.now }
{
    if let Some(shape) = shape_of(line) {
        return Some(FirstLine::Shape(shape));
    }
    match sizes_behind(line, b"cycle") {
        Some(shape) => Some(FirstLine::Cycle(shape)),
        None => ring_of(line),
    }
}

/// The sender of a message, and the word that spells its bytes.
fn put_words(line: &[u8]) -> Option<(u64, &[u8])>
    ensures { MatchOption result
        (option_and_then put_from (arguments_of (codes "put") line.now) ≡ None)
        (λ words. option_and_then put_from (arguments_of (codes "put") line.now) ≡ put_of
        (Some words.0) (hex_of words.1.now)) }
{
    let mut words = words_behind(line, b"put")?;
    let sender = words.next_word()?;
    let bytes = words.next_word()?;
    if words.next_word().is_some() {
        return None;
    }
    Some((number_of(sender)?, bytes))
}

fn put_of(alloc: Global, line: &[u8]) -> Result<Option<Command>, AllocError>
    ensures { IfOk result
        (λ command. option_map command_told command ≡ option_and_then put_from
        (arguments_of (codes "put") line.now)) }
{
    let Some((sender, word)) = put_words(line) else {
        return Ok(None);
    };
    match hex_of(alloc, word)? {
        Some(bytes) => Ok(Some(Command::Play {
            event: Event::Put { sender, bytes },
            times: 1,
        })),
        None => Ok(None),
    }
}

fn close_of(line: &[u8]) -> Option<Command>
    ensures { option_map command_told result ≡ option_and_then close_from
        (numbers_behind (codes "close") line.now) }
{
    let mut words = words_behind(line, b"close")?;
    let sender = next_number(&mut words)?;
    if words.next_word().is_some() {
        return None;
    }
    Some(Command::Play {
        event: Event::Close(sender),
        times: 1,
    })
}

fn are_times(times: u64) -> bool
    ensures { result ≡ are_times times }
{
    times >= 1 && times <= MOST_TURNS_A_LINE
}

fn turn_of(line: &[u8]) -> Option<Command>
    ensures { option_map command_told result ≡ option_and_then turn_from
        (numbers_behind (codes "turn") line.now) }
{
    let mut words = words_behind(line, b"turn")?;
    let sender = next_number(&mut words)?;
    let word = next_number(&mut words)?;
    let times = next_number(&mut words)?;
    if words.next_word().is_some() || word > u64::from(u32::MAX) || !are_times(times) {
        return None;
    }
    Some(Command::Play {
        event: Event::Turn {
            sender,
            word: word as u32,
        },
        times,
    })
}

fn recv_of(line: &[u8]) -> Option<Command>
    ensures { option_map command_told result ≡ option_and_then recv_from
        (numbers_behind (codes "recv") line.now) }
{
    let mut words = words_behind(line, b"recv")?;
    let receiver = next_number(&mut words)?;
    let times = next_number(&mut words)?;
    if words.next_word().is_some() || !are_times(times) {
        return None;
    }
    Some(Command::Play {
        event: Event::Recv(receiver),
        times,
    })
}

fn stop_of(line: &[u8]) -> Option<Command>
    ensures { option_map command_told result ≡ option_and_then stop_from
        (numbers_behind (codes "stop") line.now) }
{
    let mut words = words_behind(line, b"stop")?;
    let sender = next_number(&mut words)?;
    if words.next_word().is_some() {
        return None;
    }
    Some(Command::Play {
        event: Event::Stop(sender),
        times: 1,
    })
}

fn leave_of(line: &[u8]) -> Option<Command>
    ensures { option_map command_told result ≡ option_and_then leave_from
        (numbers_behind (codes "leave") line.now) }
{
    let mut words = words_behind(line, b"leave")?;
    let sender = next_number(&mut words)?;
    if words.next_word().is_some() {
        return None;
    }
    Some(Command::Play {
        event: Event::Leave(sender),
        times: 1,
    })
}

fn gone_of(line: &[u8]) -> Option<Command>
    ensures { option_map command_told result ≡ option_and_then gone_from
        (numbers_behind (codes "gone") line.now) }
{
    let mut words = words_behind(line, b"gone")?;
    let receiver = next_number(&mut words)?;
    if words.next_word().is_some() {
        return None;
    }
    Some(Command::Play {
        event: Event::Gone(receiver),
        times: 1,
    })
}

fn fork_of(line: &[u8]) -> Option<Command>
    ensures { option_map command_told result ≡ option_and_then fork_from
        (numbers_behind (codes "fork") line.now) }
{
    let mut words = words_behind(line, b"fork")?;
    let receiver = next_number(&mut words)?;
    let number = next_number(&mut words)?;
    if words.next_word().is_some() {
        return None;
    }
    Some(Command::Fork { receiver, number })
}

/// What a line behind the first one asks for.
pub fn command_of(alloc: Global, line: &[u8]) -> Result<Option<Command>, AllocError>
    ensures { IfOk result (λ command. option_map command_told command ≡ command_of line.now) }
{
    if let Some(command) = put_of(alloc, line)? {
        return Ok(Some(command));
    }
    if let Some(command) = close_of(line) {
        return Ok(Some(command));
    }
    if let Some(command) = turn_of(line) {
        return Ok(Some(command));
    }
    if let Some(command) = recv_of(line) {
        return Ok(Some(command));
    }
    if let Some(command) = stop_of(line) {
        return Ok(Some(command));
    }
    if let Some(command) = leave_of(line) {
        return Ok(Some(command));
    }
    match gone_of(line) {
        Some(command) => Ok(Some(command)),
        None => Ok(fork_of(line)),
    }
}
