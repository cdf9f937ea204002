//! Which columns a picture has, and where things stand in it.

ghost use Rattle.std.specs.Prelude.{◌≡◌, length, map};
ghost use Rattle.bus_picture.specs.Places.{wider, columns_from, no_columns, across, edge, down};
ghost use Rattle.bus_picture.specs.Rows.{row_shown};

use crate::processes::Process;
use crate::rows::Row;

/// How many columns there are: one for each number up to the highest that takes a step.
#[derive(Clone, Copy, Debug, PartialEq, Eq)]
pub struct Columns {
    /// Those of senders, which stand first.
    pub senders: u32,
    pub receivers: u32,
}

/// So many columns that this process has one.
fn wider(columns: Columns, process: Process) -> Columns
    ensures { result ≡ wider columns process }
{
    match process {
        Process::Sender(number) => {
            if columns.senders <= u32::from(number) {
                Columns {
                    senders: u32::from(number) + 1,
                    receivers: columns.receivers,
                }
            } else {
                columns
            }
        }
        Process::Receiver(number) => {
            if columns.receivers <= u32::from(number) {
                Columns {
                    senders: columns.senders,
                    receivers: u32::from(number) + 1,
                }
            } else {
                columns
            }
        }
    }
}

/// So many columns that each process of the rows has one.
pub fn columns_of(rows: &[Row<'_>]) -> Columns
    ensures { result ≡ columns_from no_columns (map row_shown rows.now) }
{
    let mut columns = Columns {
        senders: 0,
        receivers: 0,
    };
    for row in rows {
        columns = wider(columns, row.process);
    }
    columns
}

/// How far from the left the column of a process stands, in units of the picture.
pub fn across(columns: Columns, process: Process) -> u64
    ensures { result ≡ across columns process }
{
    match process {
        Process::Sender(number) => 60 + 140 * u64::from(number),
        Process::Receiver(number) => { 60 + 140 * (u64::from(columns.senders) + u64::from(number)) }
    }
}

/// How far from the top the row of this place stands, in units of the picture.
pub fn down(place: u32) -> u64
    ensures { result ≡ down place }
{
    150 + 18 * u64::from(place)
}

/// How far from the left the words beside the columns stand, in units of the picture.
pub fn edge(columns: Columns) -> u64
    ensures { result ≡ edge columns }
{
    60 + 140 * (u64::from(columns.senders) + u64::from(columns.receivers))
}
