//! Rows that are looked for.

ghost use Rattle.std.specs.Prelude.{◌≡◌, ◌<◌, ◌^◌, None, length, map};
ghost use Rattle.bus_picture.specs.Finding.{is_same, fits, latest};
ghost use Rattle.bus_picture.specs.Rows.{row_shown};

use crate::processes::Process;
use crate::rows::{Row, writes};

/// Which rows are looked for.
#[derive(Clone, Copy)]
pub enum Wanted<'a> {
    /// Steps that leave a value of their own in this word.
    Store(&'a str),
    /// Those of a process in a tenure.
    Stay(Process, &'a str),
    /// Those of a process.
    Of(Process),
}

/// A row that was found: where it stands, the first being 0, and whose it is.
#[derive(Clone, Copy, Debug, PartialEq, Eq)]
pub struct Found {
    pub place: u32,
    pub process: Process,
}

/// Whether two are one process.
pub fn is_same(one: Process, other: Process) -> bool
    ensures { result ≡ is_same one other }
{
    match (one, other) {
        (Process::Sender(one), Process::Sender(other)) => one == other,
        (Process::Receiver(one), Process::Receiver(other)) => one == other,
        _ => false,
    }
}

fn fits(wanted: Wanted<'_>, row: &Row<'_>) -> bool
    ensures { result ≡ fits wanted.entry (row_shown row.now) }
{
    match wanted {
        Wanted::Store(word) => writes(row) && row.word == word,
        Wanted::Stay(process, tenure) => is_same(row.process, process) && row.tenure == tenure,
        Wanted::Of(process) => is_same(row.process, process),
    }
}

/// The last of the rows that are looked for.
pub fn latest(wanted: Wanted<'_>, rows: &[Row<'_>]) -> Option<Found>
    requires { length rows.now < 2 ^ 32 }
    ensures { result ≡ latest (fits wanted.entry) 0 None (map row_shown rows.now) }
{
    let mut found = None;
    for (place, row) in rows.iter().enumerate() {
        if fits(wanted, row) {
            found = Some(Found {
                place: place as u32,
                process: row.process,
            });
        }
    }
    found
}
