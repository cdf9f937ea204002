//! What `ratify` prints.

ghost use Rattle.std.specs.Prelude.{◌≡◌, ◌++◌, IfOk, OnOk, string_bytes};
ghost use Rattle.bus_register.specs.Digits.{digit};
ghost use Rattle.bus_ratify.specs.Text.{verdict_line, verdict_text, script_fault_name};
ghost use Rattle.bus_ratify.specs.Text.{refusal_text};

use crate::refusals::{LineFault, Refusal};
use bus_adoptcommit::Verdict;
use bus_script::refusal_line;
use std::alloc::{AllocError, Global};

fn bit(value: bool) -> u8
    ensures { result ≡ digit value }
{
    if value { 1 } else { 0 }
}

/// Puts the line of a process at the end of a text.
fn push_verdict(
    text: &mut String,
    process: usize,
    verdict: Option<Verdict>,
) -> Result<(), AllocError>
    ensures { OnOk result
        (string_bytes text.new ≡ string_bytes text.old ++ verdict_line process verdict) }
{
    match verdict {
        None => writeln!(text, "{process} open"),
        Some(Verdict::Commit(value)) => writeln!(text, "{process} commit {}", bit(value)),
        Some(Verdict::Adopt(value)) => writeln!(text, "{process} adopt {}", bit(value)),
    }
}

/// A line for each process, in order. A process without a verdict is open.
pub fn verdict_text(alloc: Global, verdicts: &[Option<Verdict>]) -> Result<String, AllocError>
    ensures { IfOk result (λ text. string_bytes text ≡ verdict_text verdicts.now) }
{
    let mut text = String::new(alloc);
    for (process, verdict) in verdicts.iter().enumerate() {
        push_verdict(&mut text, process, *verdict)?;
    }
    Ok(text)
}

fn script_fault_name(fault: LineFault) -> &'static str
    ensures { result.now ≡ script_fault_name fault }
{
    match fault {
        LineFault::BadLine => "BadLine",
        LineFault::NoSuchProcess => "NoSuchProcess",
    }
}

/// The one line of a refused script.
pub fn refusal_text(alloc: Global, refusal: Refusal) -> Result<String, AllocError>
    ensures { IfOk result (λ text. string_bytes text ≡ refusal_text refusal) }
{
    refusal_line(alloc, refusal.line_number, script_fault_name(refusal.fault))
}
