//! What is drawn of a row.

ghost use Rattle.std.specs.Prelude.{◌≡◌, ◌++◌, ◌<◌, ◌^◌, OnOk, length, map, string_bytes};
ghost use Rattle.bus_picture.specs.Rows.{row_shown};
ghost use Rattle.bus_picture.specs.Places.{edge, down};
ghost use Rattle.bus_picture.specs.Shapes.{number_at, words_at};
ghost use Rattle.bus_picture.specs.Drawing.{of_another, source_of, place_or, head_text};
ghost use Rattle.bus_picture.specs.Drawing.{band_text, arrow_text, mark_text, found_text};
ghost use Rattle.bus_picture.specs.Drawing.{what_text, under_text, over_text};

use crate::columns::{Columns, across, down, edge};
use crate::finding::{Found, Wanted, is_same, latest};
use crate::processes::Process;
use crate::rows::{Row, reads, writes};
use crate::shapes::{
    push_arrow_at, push_band_at, push_head_at, push_mark_at, push_number_at, push_words_at,
};
use crate::values::push_value;
use std::alloc::{AllocError, Global};

/// What was found, where that is another process's.
fn of_another(process: Process, found: Option<Found>) -> Option<Found>
    ensures { result ≡ of_another process found }
{
    match found {
        Some(found) if !is_same(found.process, process) => Some(found),
        _ => None,
    }
}

/// Where the arrow to a row comes from: the latest store of its word above it, if the row is a
/// load and that store is another process's.
fn source_of(above: &[Row<'_>], row: &Row<'_>) -> Option<Found>
    requires { length above.now < 2 ^ 32 }
    ensures { result ≡ source_of (map row_shown above.now) (row_shown row.now) }
{
    if reads(row) {
        of_another(row.process, latest(Wanted::Store(row.word), above))
    } else {
        None
    }
}

/// Where a row stands that was found, or else this place.
fn place_or(found: Option<Found>, place: u32) -> u32
    ensures { result ≡ place_or found place }
{
    match found {
        Some(found) => found.place,
        None => place,
    }
}

/// Draws the name of the process and its line, down to its last row, where no row above this one is
/// of the same process.
fn push_head(
    text: &mut String,
    columns: Columns,
    rows: &[Row<'_>],
    above: &[Row<'_>],
    place: u32,
    row: &Row<'_>,
) -> Result<(), AllocError>
    requires rows { length rows.now < 2 ^ 32 }
    requires above { length above.now < 2 ^ 32 }
    ensures { OnOk result (string_bytes text.new ≡ string_bytes text.old
        ++ head_text columns (map row_shown rows.now) (map row_shown above.now) place
        (row_shown row.now)) }
{
    if latest(Wanted::Of(row.process), above).is_some() {
        return Ok(());
    }
    let x = across(columns, row.process);
    let bottom = down(place_or(latest(Wanted::Of(row.process), rows), place));
    push_head_at(text, x, bottom, row.who)
}

/// Draws the band of a tenure, from this row to the last one of its process in it, where no row
/// above this one is of the same process in the same tenure.
fn push_band(
    text: &mut String,
    columns: Columns,
    rows: &[Row<'_>],
    above: &[Row<'_>],
    place: u32,
    row: &Row<'_>,
) -> Result<(), AllocError>
    requires rows { length rows.now < 2 ^ 32 }
    requires above { length above.now < 2 ^ 32 }
    ensures { OnOk result (string_bytes text.new ≡ string_bytes text.old
        ++ band_text columns (map row_shown rows.now) (map row_shown above.now) place
        (row_shown row.now)) }
{
    let tenure = row.tenure;
    if tenure == "-" {
        return Ok(());
    }
    if latest(Wanted::Stay(row.process, tenure), above).is_some() {
        return Ok(());
    }
    let x = across(columns, row.process);
    let top = down(place);
    let last = latest(Wanted::Stay(row.process, tenure), rows);
    let bottom = down(place_or(last, place));
    push_band_at(text, x, top, bottom, tenure)
}

/// Draws the arrow to a row, if it has one.
fn push_arrow(
    text: &mut String,
    columns: Columns,
    above: &[Row<'_>],
    place: u32,
    row: &Row<'_>,
) -> Result<(), AllocError>
    requires { length above.now < 2 ^ 32 }
    ensures { OnOk result (string_bytes text.new ≡ string_bytes text.old
        ++ arrow_text columns (source_of (map row_shown above.now) (row_shown row.now)) place
        (row_shown row.now)) }
{
    let Some(source) = source_of(above, row) else {
        return Ok(());
    };
    let from_x = across(columns, source.process);
    let from_y = down(source.place);
    let x = across(columns, row.process);
    let y = down(place);
    push_arrow_at(text, from_x, from_y, x, y)
}

/// Draws the mark of a row, and its answer beside it.
fn push_mark(
    text: &mut String,
    columns: Columns,
    place: u32,
    row: &Row<'_>,
) -> Result<(), AllocError>
    ensures { OnOk result (string_bytes text.new ≡ string_bytes text.old
        ++ mark_text columns place (row_shown row.now)) }
{
    let x = across(columns, row.process);
    let y = down(place);
    push_mark_at(text, x, y, row.family.mark(), row.answer)
}

/// Draws the number of a row.
fn push_number(text: &mut String, place: u32, row: &Row<'_>) -> Result<(), AllocError>
    ensures { OnOk result (string_bytes text.new ≡ string_bytes text.old
        ++ number_at (down place) row.now.number.now) }
{
    push_number_at(text, down(place), row.number)
}

/// Begins the words beside the columns.
fn push_beside(text: &mut String, columns: Columns, place: u32) -> Result<(), AllocError>
    ensures { OnOk result (string_bytes text.new ≡ string_bytes text.old
        ++ words_at (edge columns) (down place)) }
{
    push_words_at(text, edge(columns), down(place))
}

/// Puts what a row did at the end of a text: its kind, and of a step its word, what it found there
/// and what it left.
fn push_what(alloc: Global, text: &mut String, row: &Row<'_>) -> Result<(), AllocError>
    ensures { OnOk result (string_bytes text.new ≡ string_bytes text.old
        ++ what_text (row_shown row.now)) }
{
    text.push_str(row.kind)?;
    if writes(row) {
        push_found(alloc, text, row)?;
        text.push_str(" to ")?;
        push_value(alloc, text, row.word, row.after)
    } else if reads(row) {
        push_found(alloc, text, row)
    } else {
        Ok(())
    }
}

/// Puts the word of a step and what it found there at the end of a text.
fn push_found(alloc: Global, text: &mut String, row: &Row<'_>) -> Result<(), AllocError>
    ensures { OnOk result (string_bytes text.new ≡ string_bytes text.old
        ++ found_text (row_shown row.now)) }
{
    write!(text, " {}: ", row.word)?;
    push_value(alloc, text, row.word, row.found)
}

/// Draws what lies below of a row of the rows, with so many of them above it.
pub fn push_under(
    text: &mut String,
    columns: Columns,
    rows: &[Row<'_>],
    above: &[Row<'_>],
    place: u32,
    row: &Row<'_>,
) -> Result<(), AllocError>
    requires rows { length rows.now < 2 ^ 32 }
    requires above { length above.now < 2 ^ 32 }
    ensures { OnOk result (string_bytes text.new ≡ string_bytes text.old
        ++ under_text columns (map row_shown rows.now) (map row_shown above.now)
        (source_of (map row_shown above.now) (row_shown row.now)) place (row_shown row.now)) }
{
    push_head(text, columns, rows, above, place, row)?;
    push_band(text, columns, rows, above, place, row)?;
    push_arrow(text, columns, above, place, row)?;
    Ok(())
}

/// Draws the mark and the texts of a row.
pub fn push_over(
    alloc: Global,
    text: &mut String,
    columns: Columns,
    place: u32,
    row: &Row<'_>,
) -> Result<(), AllocError>
    ensures { OnOk result (string_bytes text.new ≡ string_bytes text.old
        ++ over_text columns place (row_shown row.now)) }
{
    push_mark(text, columns, place, row)?;
    push_number(text, place, row)?;
    push_beside(text, columns, place)?;
    push_what(alloc, text, row)?;
    text.push_str("</text>\n")?;
    Ok(())
}
