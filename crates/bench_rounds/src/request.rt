//! What the command line asks for.

ghost use Rattle.std.specs.Prelude.{◌≡◌, ◌≢◌, ◌<◌, ◌≤◌, ◌^◌, ◌⊎◌, length};
ghost use Rattle.std.specs.Prelude.{None, IfSome, IfOk, IfErr, OnOk};
ghost use Rattle.std.specs.Option.{SomeIff};
ghost use Rattle.std.specs.Str.Parse.{IsNumeral, digits_value};
ghost use Rattle.bus_register.specs.declared.limits.TheConstants.{MOST_LOG_WORDS, MOST_ROUNDS};
ghost use Rattle.bus_register.specs.declared.limits.TheConstants.{MOST_MESSAGES};
ghost use Rattle.bus_run.specs.declared.limits.TheConstants.{MOST_RECEIVE_WORKERS};
ghost use Rattle.bus_run.specs.declared.limits.TheConstants.{MOST_SEND_WORKERS};
ghost use Rattle.bench_rounds.specs.declared.request.TheConstants.{MOST_REPETITIONS};
ghost use Rattle.bench_rounds.specs.Sizes.{bytes_of, least_ring_words as spec_least};

use bus_register::limits::{MOST_LOG_WORDS, MOST_MESSAGE_WORDS, MOST_MESSAGES, MOST_ROUNDS};
use bus_run::limits::{MOST_RECEIVE_WORKERS, MOST_SEND_WORKERS, ROUNDS};
use std::fmt;

/// How the program is called.
pub const USAGE: &str = "usage: bus_bench SENDERS RECEIVERS MESSAGES BYTES REPETITIONS [ROUNDS]
       bus_bench lines [ring [WORDS [BATCH]]]
  SENDERS      1 to 8
  RECEIVERS    1 to 8
  MESSAGES     of each sender: 1 or more
  BYTES        of each message: 8 or 56
  REPETITIONS  0 to 10000; with 0 one bus is run and its times are not printed
  ROUNDS       of each decision: 1 to 8, and 4 if left out
With `lines` it runs a bus for each line `SENDERS RECEIVERS MESSAGES BYTES [ROUNDS]` of standard
input, and prints its nanoseconds, from when all threads are up to the last item. With `ring` the
words of its log are used again. It has WORDS of them, up to 65536, and 65536 if left out. A batch
has at most BATCH messages, 1 to 64, and 64 if left out. WORDS is at least 8 times that and one.
";

/// Rounds whose times are printed: at most 10,000.
pub const MOST_REPETITIONS: u64 = 10_000;

/// A word of the command line, behind the program's name.
#[derive(Clone, Copy, Debug, PartialEq, Eq)]
pub enum Field {
    Senders,
    Receivers,
    Messages,
    Bytes,
    Repetitions,
    Rounds,
}

impl fmt::Display for Field {
    fn fmt<W: fmt::Write>(&self, f: &mut fmt::Formatter<W>) -> fmt::Result {
        f.write_str(match self {
            Field::Senders => "SENDERS",
            Field::Receivers => "RECEIVERS",
            Field::Messages => "MESSAGES",
            Field::Bytes => "BYTES",
            Field::Repetitions => "REPETITIONS",
            Field::Rounds => "ROUNDS",
        })
    }
}

/// Why a command line is refused.
#[derive(Clone, Copy, Debug, PartialEq, Eq)]
pub enum Refusal {
    NotText,
    /// Not as many words are given as are needed, but so many.
    Count(usize),
    /// It is not decimal digits alone, or their number passes `u64::MAX`.
    NotNumber(Field),
    OutOfRange(Field),
    /// The words of a ring are no decimal number from this one to 65,536.
    Ring(u64),
    /// The messages of a batch are no decimal number from 1 to 64.
    Batch,
}

impl fmt::Display for Refusal {
    fn fmt<W: fmt::Write>(&self, f: &mut fmt::Formatter<W>) -> fmt::Result {
        match self {
            Refusal::NotText => write!(f, "an argument is not text"),
            Refusal::Count(given) => write!(f, "{given} words are given"),
            Refusal::NotNumber(field) => { write!(f, "{field} is not a decimal number below 2^64") }
            Refusal::OutOfRange(field) => write!(f, "{field} is out of range"),
            Refusal::Ring(least) => {
                write!(f, "WORDS is not a decimal number from {least} to 65536")
            }
            Refusal::Batch => write!(f, "BATCH is not a decimal number from 1 to 64"),
        }
    }
}

/// How many bytes each message has.
#[derive(Clone, Copy, Debug, PartialEq, Eq)]
pub enum Size {
    Eight,
    FiftySix,
}

impl Size {
    ghost use Rattle.bench_rounds.specs.Sizes.{bytes_of};

    /// The size of so many bytes.
    pub fn of(bytes: u64) -> Option<Size>
        ensures size { IfSome result (λ size. bytes_of size ≡ bytes) }
        ensures none { result ≡ None → (bytes ≢ 8) × (bytes ≢ 56) }
    {
        match bytes {
            8 => Some(Size::Eight),
            56 => Some(Size::FiftySix),
            _ => None,
        }
    }

    pub fn bytes(self) -> usize
        ensures { result ≡ bytes_of self }
    {
        match self {
            Size::Eight => 8,
            Size::FiftySix => 56,
        }
    }
}

/// A measurement that is asked for.
#[derive(Clone, Copy, Debug, PartialEq, Eq)]
pub struct Request {
    pub senders: u64,
    pub receivers: u64,
    /// Of each sender.
    pub messages: u64,
    pub size: Size,
    pub repetitions: u64,
    /// Of each binary decision.
    pub rounds: u64,
    ghost some_senders: { (1 ≤ senders) × (senders ≤ MOST_SEND_WORKERS) },
    ghost some_receivers: { (1 ≤ receivers) × (receivers ≤ MOST_RECEIVE_WORKERS) },
    ghost some_messages: { 1 ≤ messages },
    ghost few_repetitions: { repetitions ≤ MOST_REPETITIONS },
    ghost some_rounds: { (1 ≤ rounds) × (rounds ≤ MOST_ROUNDS) },
}

impl Request {
    ghost use Rattle.bench_rounds.specs.Sizes.{bytes_of};
    ghost use Rattle.bench_rounds.specs.Ranges.{IsOutOfRange};

    /// A measurement of these numbers, if each is in its range.
    pub fn new(
        senders: u64,
        receivers: u64,
        messages: u64,
        bytes: u64,
        repetitions: u64,
        rounds: u64,
    ) -> Result<Request, Refusal>
        ensures senders { IfOk result (λ request. (request.senders ≡ senders)
            × (request.receivers ≡ receivers)) }
        ensures messages { IfOk result (λ request. (request.messages ≡ messages)
            × (bytes_of request.size ≡ bytes)) }
        ensures repetitions { IfOk result (λ request. (request.repetitions ≡ repetitions)
            × (request.rounds ≡ rounds)) }
        ensures refused { IfErr result
            (IsOutOfRange senders receivers messages bytes repetitions rounds) }
    {
        if senders < 1 || senders > MOST_SEND_WORKERS {
            return Err(Refusal::OutOfRange(Field::Senders));
        }
        if receivers < 1 || receivers > MOST_RECEIVE_WORKERS {
            return Err(Refusal::OutOfRange(Field::Receivers));
        }
        if messages < 1 {
            return Err(Refusal::OutOfRange(Field::Messages));
        }
        let Some(size) = Size::of(bytes) else {
            return Err(Refusal::OutOfRange(Field::Bytes));
        };
        if repetitions > MOST_REPETITIONS {
            return Err(Refusal::OutOfRange(Field::Repetitions));
        }
        if rounds < 1 || rounds > MOST_ROUNDS {
            return Err(Refusal::OutOfRange(Field::Rounds));
        }
        Ok(Request {
            senders,
            receivers,
            messages,
            size,
            repetitions,
            rounds,
        })
    }
}

/// The measurement that the words ask for, of which the first is the program's name.
pub fn parse(words: &[String]) -> Result<Request, Refusal>
    ensures { OnOk result ((length words.now ≡ 6) ⊎ (length words.now ≡ 7)) }
{
    if words.len() != 6 && words.len() != 7 {
        return Err(Refusal::Count(words.len().saturating_sub(1)));
    }
    let rounds = match words.get(6) {
        Some(rounds) => number(rounds.as_str(), Field::Rounds)?,
        None => ROUNDS,
    };
    read_request(
        words[1].as_str(),
        words[2].as_str(),
        words[3].as_str(),
        words[4].as_str(),
        number(words[5].as_str(), Field::Repetitions)?,
        rounds,
    )
}

/// A log whose words are used again. Each batch fits.
#[derive(Clone, Copy, Debug, PartialEq, Eq)]
pub struct Ring {
    pub words: u64,
    /// Messages of a batch: at most so many.
    pub batch: u64,
    ghost some_messages: { 1 ≤ batch },
    ghost few_messages: { batch ≤ MOST_MESSAGES },
    ghost holds_batches: { spec_least batch ≤ words },
    ghost few_words: { words ≤ MOST_LOG_WORDS },
}

/// What the words behind `lines` ask for: a ring, or none.
pub fn parse_ring(words: &[String]) -> Result<Option<Ring>, Refusal>
    ensures { IfOk result (λ ring. IfSome ring
        (λ ring. (spec_least ring.batch ≤ ring.words) × (ring.words ≤ MOST_LOG_WORDS))) }
{
    let Some(word) = words.get(2) else {
        return Ok(None);
    };
    if word.as_str() != "ring" || words.len() > 5 {
        return Err(Refusal::Count(words.len().saturating_sub(1)));
    }
    let batch = match words.get(4) {
        Some(batch) => batch_of(batch.as_str())?,
        None => MOST_MESSAGES as u64,
    };
    let words = match words.get(3) {
        Some(words) => ring_words(words.as_str(), batch)?,
        None => MOST_LOG_WORDS,
    };
    Ok(Some(Ring { words, batch }))
}

/// How many messages a batch of a ring has at most, where a word says so.
fn batch_of(word: &str) -> Result<u64, Refusal>
    ensures { IfOk result (λ batch. (1 ≤ batch) × (batch ≤ MOST_MESSAGES)) }
{
    match number_of(word) {
        Some(batch) if batch >= 1 && batch <= MOST_MESSAGES as u64 => Ok(batch),
        _ => Err(Refusal::Batch),
    }
}

/// How many words a ring has with such batches, where a word says so.
fn ring_words(word: &str, batch: u64) -> Result<u64, Refusal>
    requires { batch ≤ MOST_MESSAGES }
    ensures { IfOk result (λ words. (spec_least batch ≤ words) × (words ≤ MOST_LOG_WORDS)) }
{
    let least = least_ring_words(batch);
    match number_of(word) {
        Some(many) if many >= least && many <= MOST_LOG_WORDS => Ok(many),
        _ => Err(Refusal::Ring(least)),
    }
}

/// Words of a ring with such batches: at least so many, which the longest of them takes.
fn least_ring_words(batch: u64) -> u64
    requires { batch ≤ MOST_MESSAGES }
    ensures { result ≡ spec_least batch }
{
    1 + MOST_MESSAGE_WORDS * batch
}

/// The measurement without repetition that a line asks for, by its words.
pub fn parse_line(line: &str) -> Result<Request, Refusal> {
    let mut words = line.split_ascii_whitespace();
    let (senders, receivers) = (words.next(), words.next());
    let (messages, bytes) = (words.next(), words.next());
    let rounds = match words.next() {
        Some(rounds) => number(rounds, Field::Rounds)?,
        None => ROUNDS,
    };
    match (senders, receivers, messages, bytes, words.next()) {
        (Some(senders), Some(receivers), Some(messages), Some(bytes), None) => {
            read_request(senders, receivers, messages, bytes, 0, rounds)
        }
        _ => Err(Refusal::Count(line.split_ascii_whitespace().count())),
    }
}

/// The measurement that four words and two numbers ask for.
fn read_request(
    senders: &str,
    receivers: &str,
    messages: &str,
    bytes: &str,
    repetitions: u64,
    rounds: u64,
) -> Result<Request, Refusal>
    ensures senders { IfOk result (λ request. request.senders ≡ digits_value 10 senders.now) }
    ensures receivers { IfOk result
        (λ request. request.receivers ≡ digits_value 10 receivers.now) }
    ensures messages { IfOk result (λ request. request.messages ≡ digits_value 10 messages.now) }
    ensures bytes { IfOk result (λ request. bytes_of request.size ≡ digits_value 10 bytes.now) }
    ensures repetitions { IfOk result (λ request. (request.repetitions ≡ repetitions)
        × (request.rounds ≡ rounds)) }
{
    Request::new(
        number(senders, Field::Senders)?,
        number(receivers, Field::Receivers)?,
        number(messages, Field::Messages)?,
        number(bytes, Field::Bytes)?,
        repetitions,
        rounds,
    )
}

/// The number that a word is.
fn number(word: &str, field: Field) -> Result<u64, Refusal>
    ensures number { IfOk result (λ number. number ≡ digits_value 10 word.now) }
    ensures refused { IfErr result (λ refusal. refusal ≡ Refusal.NotNumber field) }
{
    number_of(word).ok_or(Refusal::NotNumber(field))
}

/// The number that decimal digits write, without a sign.
pub fn number_of(word: &str) -> Option<u64>
    ensures { SomeIff result (IsNumeral 10 word.now
        × (digits_value 10 word.now < 2 ^ 64)) (digits_value 10 word.now) }
{
    if word.as_bytes().first() == Some(&b'+') {
        return None;
    }
    word.parse().ok()
}
