//! The picture of a trace.

ghost use Rattle.std.specs.Prelude.{◌≡◌, ◌++◌, ◌<◌, ◌^◌, IfOk, OnOk, length, map, string_bytes};
ghost use Rattle.bus_picture.specs.Rows.{row_shown};
ghost use Rattle.bus_picture.specs.Drawing.{arrows_of};
ghost use Rattle.bus_picture.specs.Pictures.{opening, styles, unders_text, overs_text};
ghost use Rattle.bus_picture.specs.Pictures.{picture_of_rows, picture};

use crate::columns::{Columns, columns_of, down, edge};
use crate::drawing::{push_over, push_under};
use crate::rows::{Row, rows_of};
use crate::shapes::push_size;
use std::alloc::{AllocError, Global};

/// Begins a picture that has these columns and ends at this row.
fn push_opening(text: &mut String, columns: Columns, place: u32) -> Result<(), AllocError>
    ensures { OnOk result (string_bytes text.new ≡ string_bytes text.old ++ opening columns place) }
{
    push_size(text, edge(columns) + 440, down(place))
}

/// Puts the title, how shapes look, the ground and what they say at the end of a text.
fn push_styles(text: &mut String) -> Result<(), AllocError>
    ensures { OnOk result (string_bytes text.new ≡ string_bytes text.old ++ styles) }
{
    text.push_str(
        "<title>The steps of a bus, time downwards</title>\n\
        <style>text{paint-order:stroke;stroke:#fff;stroke-width:3px;stroke-linejoin:round}\
        .life{stroke:#999;stroke-dasharray:2 3}\
        .band{stroke:#ddd;stroke-width:18;stroke-linecap:square}\
        .arrow{stroke:#06c;marker-end:url(#tip)}.head{font-weight:bold;text-anchor:middle}\
        .tenure{font-size:9px;text-anchor:end}\
        @media(prefers-color-scheme:dark){svg{filter:invert(1) hue-rotate(180deg)}}</style>\n\
        <defs>\
        <marker id='tip' viewBox='0 0 8 8' refX='14' refY='4' markerWidth='8' \
        markerHeight='8' orient='auto'><path d='M0 0L8 4L0 8z' fill='#06c'/></marker>\n\
        <circle id='look' r='5' fill='#fff' stroke='#06c' stroke-width='2'/>\
        <rect id='store' x='-5' y='-5' width='10' height='10' fill='#a50'/>\n\
        <path id='add' d='M0 -7L7 0L0 7L-7 0z' fill='#080'/>\
        <path id='exchange' d='M0 -7L7 5H-7z' fill='#808'/>\
        <path id='page' d='M0 -9L2 -2L9 0L2 2L0 9L-2 2L-9 0L-2 -2z' fill='#c00'/>\n\
        <path id='call' d='M-4 -4L4 4M-4 4L4 -4' stroke='#000' stroke-width='2'/>\
        <path id='nothing' d='M-4 0H4' stroke='#000' stroke-width='2'/></defs>\n\
        <rect width='100%' height='100%' fill='#fff'/>\
        <text x='8' y='20' font-size='14' font-weight='bold'>The steps of a bus, time \
        downwards</text>\n\
        <use href='#look' x='16' y='42'/><text x='28' y='46'>load</text>\
        <use href='#store' x='76' y='42'/><text x='88' y='46'>store</text>\
        <use href='#add' x='138' y='42'/><text x='150' y='46'>add</text>\
        <use href='#exchange' x='192' y='42'/><text x='204' y='46'>compare_exchange</text>\n\
        <use href='#call' x='330' y='42'/><text x='342' y='46'>call</text>\
        <use href='#nothing' x='390' y='42'/><text x='402' y='46'>no step</text>\n\
        <use href='#page' x='16' y='64'/>\
        <text x='30' y='68'>stores the stage: takes the page, gives it back</text>\
        <path class='band' d='M324 64H334'/><text x='350' y='68'>in a tenure, its number\
        </text>\n\
        <path class='arrow' d='M8 86H40'/>\
        <text x='46' y='90'>from a store to a load of another process that found it</text>\
        <text x='350' y='90'>no answer: going</text>\n",
    )?;
    Ok(())
}

/// Draws what lies below of all rows.
fn push_unders(text: &mut String, columns: Columns, rows: &[Row<'_>]) -> Result<(), AllocError>
    requires { length rows.now < 2 ^ 32 }
    ensures { OnOk result (string_bytes text.new ≡ string_bytes text.old
        ++ unders_text columns (map row_shown rows.now) (arrows_of (map row_shown rows.now)) 0
        (map row_shown rows.now)) }
{
    for (place, row) in rows.iter().enumerate() {
        push_under(text, columns, rows, &rows[..place], place as u32, row)?;
    }
    Ok(())
}

/// Draws the marks and texts of all rows.
fn push_overs(
    alloc: Global,
    text: &mut String,
    columns: Columns,
    rows: &[Row<'_>],
) -> Result<(), AllocError>
    requires { length rows.now < 2 ^ 32 }
    ensures { OnOk result (string_bytes text.new ≡ string_bytes text.old
        ++ overs_text columns 0 (map row_shown rows.now)) }
{
    for (place, row) in rows.iter().enumerate() {
        push_over(alloc, text, columns, place as u32, row)?;
    }
    Ok(())
}

/// The picture of rows.
fn drawn(alloc: Global, rows: &[Row<'_>]) -> Result<String, AllocError>
    requires { length rows.now < 2 ^ 32 }
    ensures { IfOk result (λ text. string_bytes text
        ≡ picture_of_rows (arrows_of (map row_shown rows.now)) (map row_shown rows.now)) }
{
    let columns = columns_of(rows);
    let mut text = String::new(alloc);
    push_opening(&mut text, columns, rows.len() as u32)?;
    push_styles(&mut text)?;
    push_unders(&mut text, columns, rows)?;
    push_overs(alloc, &mut text, columns, rows)?;
    text.push_str("</svg>\n")?;
    Ok(text)
}

/// The picture of a trace as `trace_of` writes it, as one text of SVG; the texts of its columns are
/// copied as they stand. Its size grows with the trace, and the time that it takes with the square
/// of that. 2^32 steps and more are answered as memory that was refused.
pub fn picture_of(alloc: Global, trace: &str) -> Result<String, AllocError>
    ensures { IfOk result (λ text. string_bytes text ≡ picture trace.now) }
{
    let rows = rows_of(alloc, trace)?;
    if rows.len() > u32::MAX as usize {
        return Err(AllocError);
    }
    drawn(alloc, &rows)
}
