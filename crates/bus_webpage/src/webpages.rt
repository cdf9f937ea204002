//! The web page of a trace.

ghost use Rattle.std.specs.Prelude.{◌≡◌, ◌++◌, IfOk, OnOk, string_bytes};
ghost use Rattle.bus_webpage.specs.Webpages.{script_of, opening, closing, webpage};
ghost use Rattle.bus_webpage.specs.Webpages.{play_head, own_script, interpreter};
ghost use Rattle.bus_webpage.specs.declared.webpages.Purpose.TheVariants as purpose;

use crate::heads::{BEHIND, BETWEEN, BODY, COLUMNS, END, HEAD, MAIN, TITLE};
use crate::interpreter::INTERPRETER;
use crate::meaning::MEANING;
use crate::moving::MOVING;
use crate::openings::{FIRST_SCRIPT, OPENINGS};
use crate::play_heads::{FIRST_HEAD, GAME, INTERPRETER_HEAD, PLAY_STYLES, PLAY_TITLE, TURNS};
use crate::playing::PLAYING;
use crate::reading::READING;
use crate::styles::STYLES;
use crate::views::VIEWS;
use std::alloc::{AllocError, Global};

/// What one does with a web page.
#[derive(Clone, Copy, Debug, PartialEq, Eq)]
pub enum Purpose {
    /// One goes through the steps of a script.
    Step,
    /// One also plays on: the page has an interpreter of scripts, and the script grows.
    Play,
}

/// The script of a page: the one that is given, or the first opening where one plays and none is.
pub fn script_of(purpose: Purpose, given: &[u8]) -> &[u8]
    ensures { result.now ≡ script_of purpose given.now }
{
    match purpose {
        Purpose::Play if given.is_empty() => FIRST_SCRIPT.as_bytes(),
        _ => given,
    }
}

/// What stands before the bytes of the script of a page that steps.
fn push_step_opening(text: &mut String) -> Result<(), AllocError>
    ensures { OnOk result (string_bytes text.new ≡ string_bytes text.old ++ opening purpose.Step) }
{
    text.push_str(HEAD)?;
    text.push_str(TITLE)?;
    text.push_str(STYLES)?;
    text.push_str(BODY)?;
    text.push_str(MAIN)?;
    text.push_str(COLUMNS)?;
    Ok(())
}

/// The head of a page on which one plays.
fn push_play_head(text: &mut String) -> Result<(), AllocError>
    ensures { OnOk result (string_bytes text.new ≡ string_bytes text.old ++ play_head) }
{
    text.push_str(HEAD)?;
    text.push_str(PLAY_TITLE)?;
    text.push_str(STYLES)?;
    text.push_str(PLAY_STYLES)?;
    Ok(())
}

/// What stands before the bytes of the script of a page on which one plays.
fn push_play_opening(text: &mut String) -> Result<(), AllocError>
    ensures { OnOk result (string_bytes text.new ≡ string_bytes text.old ++ opening purpose.Play) }
{
    push_play_head(text)?;
    text.push_str(BODY)?;
    text.push_str(TURNS)?;
    text.push_str(MAIN)?;
    text.push_str(GAME)?;
    text.push_str(COLUMNS)?;
    Ok(())
}

/// Puts what stands before the bytes of the script at the end of a text.
fn push_opening(text: &mut String, purpose: Purpose) -> Result<(), AllocError>
    ensures { OnOk result
        (string_bytes text.new ≡ string_bytes text.old ++ opening purpose) }
{
    match purpose {
        Purpose::Step => push_step_opening(text),
        Purpose::Play => push_play_opening(text),
    }
}

/// Puts what stands between the script and the rows at the end of a text.
fn push_between(text: &mut String) -> Result<(), AllocError>
    ensures { OnOk result (string_bytes text.new ≡ string_bytes text.old ++ BETWEEN.now) }
{
    text.push_str(BETWEEN)?;
    Ok(())
}

/// Puts the page's own script at the end of a text, up to where it begins.
fn push_script(text: &mut String) -> Result<(), AllocError>
    ensures { OnOk result (string_bytes text.new ≡ string_bytes text.old ++ own_script) }
{
    text.push_str(BEHIND)?;
    text.push_str(READING)?;
    text.push_str(MEANING)?;
    text.push_str(VIEWS)?;
    text.push_str(MOVING)?;
    Ok(())
}

/// What stands behind the rows of a page that steps.
fn push_step_closing(text: &mut String) -> Result<(), AllocError>
    ensures { OnOk result (string_bytes text.new ≡ string_bytes text.old ++ closing purpose.Step) }
{
    push_script(text)?;
    text.push_str(END)?;
    Ok(())
}

/// Puts the first opening and the interpreter at the end of a text.
fn push_interpreter(text: &mut String) -> Result<(), AllocError>
    ensures { OnOk result (string_bytes text.new ≡ string_bytes text.old ++ interpreter) }
{
    text.push_str(FIRST_HEAD)?;
    text.push_str(FIRST_SCRIPT)?;
    text.push_str(INTERPRETER_HEAD)?;
    text.push_str(INTERPRETER)?;
    Ok(())
}

/// What stands behind the rows of a page on which one plays.
fn push_play_closing(text: &mut String) -> Result<(), AllocError>
    ensures { OnOk result (string_bytes text.new ≡ string_bytes text.old ++ closing purpose.Play) }
{
    push_interpreter(text)?;
    push_script(text)?;
    text.push_str(OPENINGS)?;
    text.push_str(PLAYING)?;
    text.push_str(END)?;
    Ok(())
}

/// Puts what stands behind the rows at the end of a text.
fn push_closing(text: &mut String, purpose: Purpose) -> Result<(), AllocError>
    ensures { OnOk result
        (string_bytes text.new ≡ string_bytes text.old ++ closing purpose) }
{
    match purpose {
        Purpose::Step => push_step_closing(text),
        Purpose::Play => push_play_closing(text),
    }
}

/// The web page that steps through a trace, as `trace_of` writes it, in a browser, beside the
/// script that it is of; and on which one plays on, where that is its purpose. Both are in it
/// whole: the bytes of the script as hexadecimal digits, and the trace as it stands.
pub fn webpage_of(
    alloc: Global,
    purpose: Purpose,
    script: &[u8],
    trace: &str,
) -> Result<String, AllocError>
    ensures { IfOk result (λ text. string_bytes text ≡ webpage purpose script.now trace.now) }
{
    let digits = hex::encode(alloc, script)?;
    let mut text = String::new(alloc);
    push_opening(&mut text, purpose)?;
    text.push_str(&digits)?;
    push_between(&mut text)?;
    text.push_str(trace)?;
    push_closing(&mut text, purpose)?;
    Ok(text)
}
