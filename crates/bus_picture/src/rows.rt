//! The lines of a trace.

ghost use Rattle.std.specs.Prelude.{◌≡◌, ◌==◌, IfOk, map};
ghost use Rattle.std.specs.List.{slice_split};
ghost use Rattle.std.specs.Option.{option_map};
ghost use Rattle.bus_picture.specs.Rows.{row_of, row_shown, rows_of, reads, writes};

use crate::families::{Family, family_of};
use crate::processes::{Process, process_of};
use std::alloc::{AllocError, Global};

/// A line of a trace that shows an event.
#[derive(Clone, Copy)]
pub struct Row<'a> {
    pub process: Process,
    pub family: Family,
    pub number: &'a str,
    pub who: &'a str,
    pub tenure: &'a str,
    pub kind: &'a str,
    pub word: &'a str,
    pub found: &'a str,
    pub after: &'a str,
    pub answer: &'a str,
}

/// The texts between the tabs of a line.
fn texts_of<'a>(alloc: Global, line: &'a str) -> Result<Vec<&'a str>, AllocError>
    ensures { IfOk result (λ texts. map (λ t. t.now) texts.items
        ≡ slice_split (λ b. b == 9) line.entry.now) }
{
    line.split('\t').collect(alloc)
}

/// The line of a trace that these texts are, if they show an event.
fn row_with<'a>(texts: &[&'a str]) -> Option<Row<'a>>
    ensures { option_map row_shown result ≡ row_of (map (λ t. t.now) texts.now) }
{
    let [number, _, who, tenure, kind, word, found, after, answer] = texts else {
        return None;
    };
    Some(Row {
        process: process_of(who)?,
        family: family_of(kind)?,
        number,
        who,
        tenure,
        kind,
        word,
        found,
        after,
        answer,
    })
}

/// The lines of a text.
fn lines_of<'a>(alloc: Global, text: &'a str) -> Result<Vec<&'a str>, AllocError>
    ensures { IfOk result (λ lines. map (λ t. t.now) lines.items
        ≡ slice_split (λ b. b == 10) text.entry.now) }
{
    text.split('\n').collect(alloc)
}

/// The rows of a trace.
pub fn rows_of<'a>(alloc: Global, trace: &'a str) -> Result<Vec<Row<'a>>, AllocError>
    ensures { IfOk result (λ rows. map row_shown rows.items ≡ rows_of trace.entry.now) }
{
    let lines = lines_of(alloc, trace)?;
    let mut rows = Vec::new(alloc);
    for line in &lines {
        let texts = texts_of(alloc, line)?;
        if let Some(row) = row_with(&texts) {
            rows.push(row)?;
        }
    }
    Ok(rows)
}

/// Whether a row is a step that finds a value and leaves it.
pub fn reads(row: &Row<'_>) -> bool
    ensures { result ≡ reads (row_shown row.now) }
{
    match row.family {
        Family::Look => true,
        Family::Exchange => row.found == row.after,
        Family::Store | Family::Add | Family::Page | Family::Call | Family::Nothing => false,
    }
}

/// Whether a row is a step that leaves a value of its own.
pub fn writes(row: &Row<'_>) -> bool
    ensures { result ≡ writes (row_shown row.now) }
{
    match row.family {
        Family::Store | Family::Add | Family::Page => true,
        Family::Exchange => row.found != row.after,
        Family::Look | Family::Call | Family::Nothing => false,
    }
}
