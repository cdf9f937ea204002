//! Shapes at places, in units of the picture from its left and its top.

ghost use Rattle.std.specs.Prelude.{◌≡◌, ◌++◌, OnOk, string_bytes};
ghost use Rattle.bus_picture.specs.Shapes.{point, at, down_to, text_body, use_of, head_at, band_at};
ghost use Rattle.bus_picture.specs.Shapes.{arrow_at, is_cut, short, beside_at, answer_at, mark_at};
ghost use Rattle.bus_picture.specs.Shapes.{number_at};
ghost use Rattle.bus_picture.specs.Shapes.{words_at, extent, size};

use std::alloc::AllocError;

/// The two numbers of a point.
fn push_point(text: &mut String, x: u64, y: u64) -> Result<(), AllocError>
    ensures { OnOk result (string_bytes text.new ≡ string_bytes text.old ++ point x y) }
{
    write!(text, "{x} {y}")
}

/// Where something stands.
fn push_at(text: &mut String, x: u64, y: u64) -> Result<(), AllocError>
    ensures { OnOk result (string_bytes text.new ≡ string_bytes text.old ++ at x y) }
{
    write!(text, " x='{x}' y='{y}'")
}

/// The end of a line straight down.
fn push_down_to(text: &mut String, y: u64) -> Result<(), AllocError>
    ensures { OnOk result (string_bytes text.new ≡ string_bytes text.old ++ down_to y) }
{
    write!(text, "V{y}'/>")
}

/// What a text says, and its end.
fn push_said(text: &mut String, words: &str) -> Result<(), AllocError>
    ensures { OnOk result (string_bytes text.new ≡ string_bytes text.old ++ text_body words.now) }
{
    write!(text, ">{words}</text>\n")
}

/// The beginning of a mark.
fn push_use(text: &mut String, mark: &str) -> Result<(), AllocError>
    ensures { OnOk result (string_bytes text.new ≡ string_bytes text.old ++ use_of mark.now) }
{
    write!(text, "<use href='#{mark}'")
}

/// The name of a process, and its line down to `bottom`.
pub fn push_head_at(text: &mut String, x: u64, bottom: u64, who: &str) -> Result<(), AllocError>
    ensures { OnOk result
        (string_bytes text.new ≡ string_bytes text.old ++ head_at x bottom who.now) }
{
    text.push_str("<path class='life' d='M")?;
    push_point(text, x, 132)?;
    push_down_to(text, bottom)?;
    text.push_str("<text class='head'")?;
    push_at(text, x, 124)?;
    push_said(text, who)?;
    Ok(())
}

/// A band, with the number of its tenure.
pub fn push_band_at(
    text: &mut String,
    x: u64,
    top: u64,
    bottom: u64,
    tenure: &str,
) -> Result<(), AllocError>
    ensures { OnOk result
        (string_bytes text.new ≡ string_bytes text.old ++ band_at x top bottom tenure.now) }
{
    text.push_str("<path class='band' d='M")?;
    push_point(text, x, top)?;
    push_down_to(text, bottom)?;
    text.push_str("<text class='tenure' dx='-12' dy='4'")?;
    push_at(text, x, top)?;
    push_said(text, tenure)?;
    Ok(())
}

/// An arrow.
pub fn push_arrow_at(
    text: &mut String,
    from_x: u64,
    from_y: u64,
    x: u64,
    y: u64,
) -> Result<(), AllocError>
    ensures { OnOk result
        (string_bytes text.new ≡ string_bytes text.old ++ arrow_at from_x from_y x y) }
{
    text.push_str("<path class='arrow' d='M")?;
    push_point(text, from_x, from_y)?;
    text.push_str("L")?;
    push_point(text, x, y)?;
    text.push_str("'/>\n")?;
    Ok(())
}

/// Whether an answer is longer than its column is wide: it has more than 20 bytes, and a character
/// begins behind the first 18.
fn is_cut(answer: &str) -> bool
    ensures { result ≡ is_cut answer.now }
{
    answer.len() > 20 && answer.is_char_boundary(18)
}

/// What a text says that is an answer, or its first 18 bytes and two dots if it is too long; and
/// its end.
fn push_short(text: &mut String, answer: &str) -> Result<(), AllocError>
    ensures { OnOk result
        (string_bytes text.new ≡ string_bytes text.old ++ text_body (short answer.now)) }
{
    if is_cut(answer) {
        write!(text, ">{}..</text>\n", &answer[..18])
    } else {
        push_said(text, answer)
    }
}

/// An answer beside a mark.
fn push_beside_at(text: &mut String, x: u64, y: u64, answer: &str) -> Result<(), AllocError>
    ensures { OnOk result
        (string_bytes text.new ≡ string_bytes text.old ++ beside_at x y answer.now) }
{
    text.push_str("<text dx='14' dy='4'")?;
    push_at(text, x, y)?;
    push_short(text, answer)?;
    Ok(())
}

/// An answer beside its mark; that a turn is going is left out.
fn push_answer_at(text: &mut String, x: u64, y: u64, answer: &str) -> Result<(), AllocError>
    ensures { OnOk result
        (string_bytes text.new ≡ string_bytes text.old ++ answer_at x y answer.now) }
{
    if answer == "going" {
        text.push_str("\n")
    } else {
        push_beside_at(text, x, y, answer)
    }
}

/// A mark, and the answer beside it.
pub fn push_mark_at(
    text: &mut String,
    x: u64,
    y: u64,
    mark: &str,
    answer: &str,
) -> Result<(), AllocError>
    ensures { OnOk result
        (string_bytes text.new ≡ string_bytes text.old ++ mark_at x y mark.now answer.now) }
{
    push_use(text, mark)?;
    push_at(text, x, y)?;
    text.push_str("/>")?;
    push_answer_at(text, x, y, answer)?;
    Ok(())
}

/// The number of a row, at the left.
pub fn push_number_at(text: &mut String, y: u64, number: &str) -> Result<(), AllocError>
    ensures { OnOk result
        (string_bytes text.new ≡ string_bytes text.old ++ number_at y number.now) }
{
    text.push_str("<text dy='4'")?;
    push_at(text, 8, y)?;
    push_said(text, number)?;
    Ok(())
}

/// Where words begin.
pub fn push_words_at(text: &mut String, x: u64, y: u64) -> Result<(), AllocError>
    ensures { OnOk result (string_bytes text.new ≡ string_bytes text.old ++ words_at x y) }
{
    text.push_str("<text dy='4'")?;
    push_at(text, x, y)?;
    text.push_str(">")?;
    Ok(())
}

/// How wide and how high a picture is shown.
fn push_extent(text: &mut String, width: u64, height: u64) -> Result<(), AllocError>
    ensures { OnOk result (string_bytes text.new ≡ string_bytes text.old ++ extent width height) }
{
    write!(text, " width='{width}' height='{height}'")
}

/// The beginning of a picture that is so wide and so high.
pub fn push_size(text: &mut String, width: u64, height: u64) -> Result<(), AllocError>
    ensures { OnOk result (string_bytes text.new ≡ string_bytes text.old ++ size width height) }
{
    text.push_str(
        "<svg xmlns='http://www.w3.org/2000/svg' font-family='sans-serif' font-size='11'",
    )?;
    push_extent(text, width, height)?;
    text.push_str(" viewBox='0 0 ")?;
    push_point(text, width, height)?;
    text.push_str("'>\n")?;
    Ok(())
}
