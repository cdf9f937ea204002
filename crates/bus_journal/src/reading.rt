//! A whole journal, read.

ghost use Rattle.std.specs.Prelude.{◌≡◌, ◌≢◌, ◌↔◌, List, [], drop, IfOk, IfErr, IsTrue};
ghost use Rattle.bus_batch.specs.Frames.{Frame};

use crate::bytes::push_words_of;
use crate::ends::{JournalEnd, end_of};
use crate::headers::{Header, JournalFault, read_header};
use crate::hidden::is_hiding;
use crate::records::record_at;
use bus_deliverylog::{LogFault, LogRead, read_log};
use std::alloc::{AllocError, Global};

/// What a journal says.
#[derive(Debug, Drop)]
pub struct JournalRead {
    pub header: Header,
    /// What the whole records say.
    pub log: LogRead,
    /// Their words, which are a log's.
    pub words: Vec<u64>,
    /// The place in the log behind the last whole frame.
    pub place: u64,
    pub end: JournalEnd,
    /// How many bytes stand before the end of the last whole record, or of the header.
    pub whole: u64,
    /// It ends torn, and a whole record of a later place stands in the tail. So that is no tail
    /// that was cut off: a head before it is damaged.
    pub hides: bool,
}

/// Words of whole records, and how many bytes these have.
#[derive(Drop)]
struct Walked {
    words: Vec<u64>,
    size: usize,
}

ghost use Rattle.bus_deliverylog.specs.Orders.{HasPlaces};
ghost use Rattle.bus_journal.specs.Reading.{Tells, IsLongest, Reads, IsRefused, answer_of};
ghost use Rattle.bus_journal.specs.Reading.{heading_of};
ghost use Rattle.bus_journal.specs.Format.{IsHeading};
ghost use Rattle.bus_journal.specs.Walks.{Walks, TellsRecords};
ghost use Rattle.bus_journal.specs.declared.ends.JournalEnd.TheVariants as end;
ghost use Rattle.bus_journal.specs.Records.{IsTornRest, HidesRecord};

/// Reads the bytes of a journal: the longest list of whole records that are a log's.
pub fn read_journal(alloc: Global, bytes: &[u8]) -> Result<JournalRead, JournalFault>
    ensures read { IfOk result
        (λ read. (frames : List Frame) × Tells bytes.now frames (answer_of read)) }
    ensures longest { IfOk result
        (λ read. (frames : List Frame) → Tells bytes.now frames (answer_of read)
        → IsLongest (heading_of read.header) frames bytes.now) }

    // How the bytes end behind these records.
    ensures whole { IfOk result
        (λ read. read.end ≡ end.Whole → drop read.whole bytes.now ≡ []) }
    ensures torn { IfOk result (λ read. read.end ≡ end.Torn
        → (drop read.whole bytes.now ≢ [])
        × IsTornRest read.header.senders read.header.most (drop read.whole bytes.now)) }
    ensures damaged { IfOk result (λ read. read.end ≡ end.Damaged
        → ¬ IsTornRest read.header.senders read.header.most (drop read.whole bytes.now)) }
    ensures hides { IfOk result (λ read. IsTrue read.hides ↔ ((read.end ≡ end.Torn)
        × HidesRecord read.header.senders read.header.most read.place
        (drop read.whole bytes.now))) }

    // So the laws speak of each answer.
    ensures reads { IfOk result
        (λ read. (frames : List Frame) → Tells bytes.now frames (answer_of read)
        → Reads bytes.now frames (answer_of read)) }
    ensures places { IfOk result (λ read. HasPlaces read.log.order) }

    ensures refused { IfErr result (IsRefused bytes.now) }
{
    let (header, start) = read_header(alloc, bytes)?;
    let (_, body) = bytes.split_at(start);
    let (log, walked) = read_records(alloc, body, &header)?;
    let (_, rest) = body.split_at(walked.size);
    let end = end_of(rest, header.senders, header.most);
    let place = header.place + walked.words.len() as u64;
    let hides = is_hiding(end, rest, header.senders, header.most, place);
    Ok(JournalRead {
        header,
        log,
        words: walked.words,
        place,
        end,
        whole: (start + walked.size) as u64,
        hides,
    })
}

/// Reads the records behind a header.
fn read_records(
    alloc: Global,
    body: &[u8],
    header: &Header,
) -> Result<(LogRead, Walked), AllocError>
    requires { IsHeading (heading_of header.now) }
    ensures told { IfOk result (λ read. TellsRecords (heading_of header.now) body.now read.0
        read.1.words.items read.1.size) }
    ensures places { IfOk result (λ read. HasPlaces read.0.order) }
{
    let walked = walk(alloc, body, header, body.len())?;
    match read_log(alloc, &walked.words, header.senders) {
        Ok(log) => Ok((log, walked)),
        Err(LogFault::BadWord { place }) => {
            let walked = walk(alloc, body, header, place as usize)?;
            match read_log(alloc, &walked.words, header.senders) {
                Ok(log) => Ok((log, walked)),
                Err(_) => Err(AllocError),
            }
        }
        Err(_) => Err(AllocError),
    }
}

/// The words of whole records, as many as have no more than so many words.
fn walk(alloc: Global, body: &[u8], header: &Header, room: usize) -> Result<Walked, AllocError>
    requires { IsHeading (heading_of header.now) }
    ensures { IfOk result (λ walked. Walks (heading_of header.now) body.now room
        walked.words.items walked.size) }
{
    let mut words = Vec::new(alloc);
    let mut rest = body;
    'records: while let Some(count) = record_at(
        rest,
        header.senders,
        header.most,
        header.place + words.len() as u64,
        room - words.len(),
    ) {
        let (frame, behind) = rest.split_at(8 * count);
        push_words_of(&mut words, frame)?;
        let (_, next) = behind.split_at(8);
        rest = next;
    }
    Ok(Walked {
        words,
        size: body.len() - rest.len(),
    })
}
