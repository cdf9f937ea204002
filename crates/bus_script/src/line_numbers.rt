//! Where a script is refused.

ghost use Rattle.std.specs.Prelude.{◌≡◌, IfOk, string_bytes};
ghost use Rattle.bus_script.specs.LineNumbers.{refusal_line};

use std::alloc::{AllocError, Global};

/// Where in a script something is refused: a line, or the end.
#[derive(Clone, Copy, Debug, PartialEq, Eq)]
pub enum LineNumber {
    /// The line of this number, the first line of a script being line 1.
    AtLine(u64),
    /// Behind the last line.
    AtEnd,
}

/// The line that names a refusal.
pub fn refusal_line(
    alloc: Global,
    line_number: LineNumber,
    name: &str,
) -> Result<String, AllocError>
    ensures { IfOk result (λ text. string_bytes text ≡ refusal_line line_number name.now) }
{
    match line_number {
        LineNumber::AtLine(number) => format!(in alloc; "line {number}: {name}\n"),
        LineNumber::AtEnd => format!(in alloc; "end: {name}\n"),
    }
}
