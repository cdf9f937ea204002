//! The header of a journal.

ghost use Rattle.std.specs.Prelude.{◌≡◌, ◌≤◌, ◌++◌, length, take, drop, OnOk, OnErr, IfOk, IfErr};
ghost use Rattle.bus_journal.specs.Format.{IsHeading, header_bytes};

use crate::bytes::{are_same, checksum_of, first_word, push_words, push_words_of};
use bus_register::limits::{MOST_MESSAGES, MOST_SENDERS};
use std::alloc::{AllocError, AllocFailed, Global};
use std::error::Error;
use std::fmt;

/// What a journal begins with.
const MAGIC: [u8; 8] = [75, 73, 79, 83, 75, 76, 79, 71];

/// The version of the format.
const VERSION: u64 = 1;

/// Most messages of a batch that a header may say: 64.
const MOST_BATCH: u64 = MOST_MESSAGES as u64;

/// One above the greatest place that a header may say: 2^63.
const PLACES: u64 = 0x8000_0000_0000_0000;

/// Bytes of a header before the first numbers.
const FIRST_AT: usize = 40;

/// What the header of a journal says.
#[derive(Debug, Drop)]
pub struct Header {
    /// Senders of the bus: 1 to 64.
    pub senders: u64,
    /// Most messages of a batch: 1 to 64.
    pub most: u64,
    /// Where the file's first word stands in the log: below 2^63.
    pub place: u64,
    /// The first number of each sender.
    pub first: Vec<u64>,
}

/// Why bytes are not read as a journal.
#[derive(Clone, Copy, Debug, PartialEq, Eq)]
pub enum JournalFault {
    /// They do not begin as a journal does.
    OtherMagic,
    /// They begin a journal of another version.
    OtherVersion { version: u64 },
    /// They end within the header.
    TornHeader,
    /// The header says what none does, or its checksum is wrong.
    DamagedHeader,
    /// Memory was refused.
    NoMemory,
}

impl Error for JournalFault {}

impl fmt::Display for JournalFault {
    ghost use Rattle.std.specs.Prelude.{Some};
    ghost use Rattle.bus_journal.specs.Faults.{journal_fault_text};

    ghost output = { λ fault. Some (journal_fault_text fault) };

    fn fmt<W: fmt::Write>(&self, f: &mut fmt::Formatter<W>) -> fmt::Result {
        match self {
            JournalFault::OtherMagic => f.write_str("no journal"),
            JournalFault::OtherVersion { version } => write!(f, "a journal of version {version}"),
            JournalFault::TornHeader => f.write_str("the bytes end within the header"),
            JournalFault::DamagedHeader => f.write_str("the header is damaged"),
            JournalFault::NoMemory => f.write_str("no memory"),
        }
    }
}

impl From<AllocError> for JournalFault {
    ghost use Rattle.std.specs.Prelude.{◌≡◌};
    ghost use Rattle.bus_journal.specs.declared.headers.JournalFault.TheVariants as fault;

    ghost from_gives = { λ _ e. e ≡ fault.NoMemory };

    fn from(_refused: AllocError) -> JournalFault {
        JournalFault::NoMemory
    }
}

ghost use Rattle.bus_journal.specs.Reading.{heading_of, IsRefused};
ghost use Rattle.bus_journal.specs.Walks.{BeginsHeader};

/// Appends a header. Where memory is refused, nothing is appended.
pub fn push_header(out: &mut Vec<u8>, header: &Header) -> Result<(), AllocError>
    requires { IsHeading (heading_of header.now) }
    ensures ok { OnOk result
        (out.new.items ≡ out.old.items ++ header_bytes (heading_of header.now)) }
    ensures err { OnErr result (out.new.items ≡ out.old.items) }
{
    let start = out.len();
    let pushed = append_header(out, header);
    if pushed.is_err() {
        out.truncate(start);
    }
    pushed
}

/// Appends a header. Where memory is refused, some of its bytes may have been appended.
fn append_header(out: &mut Vec<u8>, header: &Header) -> Result<(), AllocError>
    ensures ok { OnOk result
        (out.new.items ≡ out.old.items ++ header_bytes (heading_of header.now)) }
    ensures kept { take (length out.old.items) out.new.items ≡ out.old.items }
{
    let start = out.len();
    out.extend_from_slice(&MAGIC)?;
    push_words(out, &[VERSION, header.senders, header.most, header.place])?;
    push_words(out, &header.first)?;
    let sum = checksum_of(&out[start..]);
    out.extend_from_slice(&sum)?;
    Ok(())
}

/// Reads the header that bytes begin with, and says how many bytes it has.
pub(crate) fn read_header(alloc: Global, bytes: &[u8]) -> Result<(Header, usize), JournalFault>
    ensures heading { IfOk result (λ read. IsHeading (heading_of read.0)) }
    ensures size { IfOk result (λ read. read.1 ≤ length bytes.now) }
    ensures read { IfOk result
        (λ read. bytes.now ≡ header_bytes (heading_of read.0) ++ drop read.1 bytes.now) }
    ensures refused { IfErr result (IsRefused bytes.now) }
{
    let senders = senders_of(bytes)?;
    let (front, rest) = bytes.split_at(FIRST_AT + 8 * senders as usize);
    if !are_same(&rest[..8], &checksum_of(front)) {
        return Err(JournalFault::DamagedHeader);
    }
    let (_, words) = front.split_at(24);
    let (_, numbers) = words.split_at(8);
    let (Some(most), Some(place)) = (first_word(words), first_word(numbers)) else {
        return Err(JournalFault::DamagedHeader);
    };
    if most == 0 || most > MOST_BATCH || place >= PLACES {
        return Err(JournalFault::DamagedHeader);
    }
    let (_, numbers) = numbers.split_at(8);
    let mut first = Vec::new(alloc);
    push_words_of(&mut first, numbers)?;
    let header = Header {
        senders,
        most,
        place,
        first,
    };
    Ok((header, FIRST_AT + 8 * senders as usize + 8))
}

/// How many senders the header has that bytes begin with, of which enough are there.
fn senders_of(bytes: &[u8]) -> Result<u64, JournalFault>
    ensures begins { IfOk result (λ senders. BeginsHeader senders bytes.now) }
    ensures refused { IfErr result (IsRefused bytes.now) }
{
    let known = bytes.len().min(8);
    let (front, behind) = bytes.split_at(known);
    if !are_same(front, &MAGIC[..known]) {
        return Err(JournalFault::OtherMagic);
    }
    let Some(version) = first_word(behind) else {
        return Err(JournalFault::TornHeader);
    };
    if version != VERSION {
        return Err(JournalFault::OtherVersion { version });
    }
    let (_, behind) = bytes.split_at(16);
    let Some(senders) = first_word(behind) else {
        return Err(JournalFault::TornHeader);
    };
    if senders == 0 || senders > MOST_SENDERS as u64 {
        return Err(JournalFault::DamagedHeader);
    }
    if bytes.len() < FIRST_AT + 8 * senders as usize + 8 {
        return Err(JournalFault::TornHeader);
    }
    Ok(senders)
}
