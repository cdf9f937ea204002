//! What the words of a bus are called.

ghost use Rattle.std.specs.Prelude.{◌≡◌, ◌++◌, ◌<◌, OnOk, string_bytes};
ghost use Rattle.bus_machine.specs.Playing.{IsServed};
ghost use Rattle.bus_replay.specs.Answers.{AreSeats};
ghost use Rattle.bus_replay.specs.Lines.{shape_in, reuse_in, passers_in};
ghost use Rattle.bus_trace.specs.Words.{ratifier_word, round_word, decision_word, row_word};
ghost use Rattle.bus_trace.specs.Words.{word_name, sizes_told, sizes_of};

use crate::memory_maps::MemoryMap;
use bus_adoptcommit::Ratifier;
use bus_binconsensus::Decide;
use bus_core::limits::PASSED_APART;
use bus_ownerbits::Election;
use bus_replay::lines::FirstLine;
use std::alloc::AllocError;

/// The memory map of a bus such as the first line of a script asks for.
pub fn memory_map_of<Q: Ratifier + Drop>(first: FirstLine) -> MemoryMap
    requires served { IsServed (shape_in first) (reuse_in first) }
    requires seats { AreSeats first }
    ensures { sizes_told result ≡ sizes_of Q.protocol (shape_in first) (reuse_in first)
        (passers_in first) }
{
    let (shape, presences, passers) = match first {
        FirstLine::Shape(shape) => (shape, 0, 0),
        FirstLine::Cycle(shape) => (shape, shape.senders, 0),
        FirstLine::Ring { shape, seats } => (shape, shape.senders, seats),
    };
    let row = Election::<Q>::width(shape.senders, shape.rounds);
    let passed = 2 + presences + shape.rows * row;
    MemoryMap {
        senders: shape.senders,
        presences,
        rounds: shape.rounds,
        ratifier: Q::width(shape.senders),
        decision: Decide::<Q>::width(shape.senders, shape.rounds),
        row,
        passed,
        log: passed + PASSED_APART * passers,
    }
}

/// Puts the name of a word of a ratifier at the end of a text.
fn push_ratifier_word(text: &mut String, memory_map: MemoryMap, word: u64) -> Result<(), AllocError>
    ensures { OnOk result
        (string_bytes text.new ≡ string_bytes text.old
        ++ ratifier_word (sizes_told memory_map) word) }
{
    if memory_map.ratifier != 3 {
        return write!(text, "word {word}");
    }
    match word {
        0 => text.push_str("input 0"),
        1 => text.push_str("input 1"),
        _ => text.push_str("proposal"),
    }
}

/// Puts the name of a word of a round at the end of a text.
fn push_round_word(text: &mut String, memory_map: MemoryMap, word: u64) -> Result<(), AllocError>
    ensures { OnOk result
        (string_bytes text.new ≡ string_bytes text.old ++ round_word (sizes_told memory_map) word) }
{
    match word {
        0 => text.push_str("mark 0"),
        1 => text.push_str("mark 1"),
        2 => text.push_str("counter"),
        _ => push_ratifier_word(text, memory_map, word - 3),
    }
}

/// Puts the name of a word of a binary decision at the end of a text.
fn push_decision_word(text: &mut String, memory_map: MemoryMap, word: u64) -> Result<(), AllocError>
    requires { word < memory_map.decision }
    ensures { OnOk result
        (string_bytes text.new ≡ string_bytes text.old
        ++ decision_word (sizes_told memory_map) word) }
{
    let size = 3 + memory_map.ratifier;
    let round = (word + 3) / size;
    if round == memory_map.rounds {
        return text.push_str("fallback");
    }
    write!(text, "round {} ", round + 1)?;
    push_round_word(text, memory_map, (word + 3) % size)
}

/// Puts the name of a word of a row at the end of a text.
fn push_row_word(text: &mut String, memory_map: MemoryMap, word: u64) -> Result<(), AllocError>
    ensures { OnOk result
        (string_bytes text.new ≡ string_bytes text.old ++ row_word (sizes_told memory_map) word) }
{
    if word < memory_map.senders {
        return write!(text, "announcement {word}");
    }
    let behind = word - memory_map.senders;
    write!(text, "bit {} ", behind / memory_map.decision)?;
    push_decision_word(text, memory_map, behind % memory_map.decision)
}

/// Puts the name of a word at the end of a text.
pub fn push_word(text: &mut String, memory_map: MemoryMap, word: u64) -> Result<(), AllocError>
    ensures { OnOk result
        (string_bytes text.new ≡ string_bytes text.old ++ word_name (sizes_told memory_map) word) }
{
    if word == 0 {
        return text.push_str("length");
    }
    if word == 1 {
        return text.push_str("stage");
    }
    if word - 2 < memory_map.presences {
        return write!(text, "presence {}", word - 2);
    }
    if word >= memory_map.log {
        return write!(text, "log {}", word - memory_map.log);
    }
    if word >= memory_map.passed {
        return write!(text, "passed {}", (word - memory_map.passed) / PASSED_APART);
    }
    let behind = word - 2 - memory_map.presences;
    write!(text, "row {} ", behind / memory_map.row)?;
    push_row_word(text, memory_map, behind % memory_map.row)
}
