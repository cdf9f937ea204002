//! How a journal ends.

ghost use Rattle.std.specs.Prelude.{◌≡◌, ◌≢◌, ◌<◌, ◌≤◌, ◌-◌, ◌↔◌, IsTrue, All, length, drop};
ghost use Rattle.std.specs.Prelude.{slice_index};
ghost use Rattle.bus_register.specs.declared.limits.TheConstants.{MOST_MESSAGES};
ghost use Rattle.bus_journal.specs.Records.{IsShort};

use crate::records::head_count;

/// How the bytes of a journal end.
#[derive(Clone, Copy, Debug, PartialEq, Eq)]
pub enum JournalEnd {
    /// Nothing stands behind the last whole record.
    Whole,
    /// Less than a record, and zeros: a tail that was cut off or never written out, or damage of a
    /// head that looks so.
    Torn,
    /// Any other tail.
    Damaged,
}

ghost use Rattle.bus_journal.specs.Reading.{EndsAs};

/// How bytes end that stand behind the last whole record.
pub(crate) fn end_of(rest: &[u8], senders: u64, most: u64) -> JournalEnd
    requires { most ≤ MOST_MESSAGES }
    ensures { EndsAs senders most rest.now result }
{
    if rest.is_empty() {
        return JournalEnd::Whole;
    }
    let written = written_len(rest);
    if is_short(&rest[..written], senders, most) {
        JournalEnd::Torn
    } else {
        JournalEnd::Damaged
    }
}

/// Bytes are less than a record.
fn is_short(bytes: &[u8], senders: u64, most: u64) -> bool
    requires { most ≤ MOST_MESSAGES }
    ensures { IsTrue result ↔ IsShort senders most bytes.now }
{
    if bytes.len() < 8 {
        return true;
    }
    match head_count(bytes, senders, most) {
        Some(count) => bytes.len() < 8 * (count + 1),
        None => false,
    }
}

/// How many bytes stand before the zeros at the end.
fn written_len(bytes: &[u8]) -> usize
    ensures within { result ≤ length bytes.now }
    ensures zeros { All (λ byte. byte ≡ 0) (drop result bytes.now) }
    ensures last { 0 < result → slice_index bytes.now (result - 1) ≢ 0 }
{
    let mut written = bytes.len();
    while written > 0 && bytes[written - 1] == 0 {
        written -= 1;
    }
    written
}
