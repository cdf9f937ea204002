//! The web pages of scripts, part by part: the lines between the fixed parts are written out here.

use crate::same::same;
use bus_adoptcommit::ThreeWord;
use bus_commands::webpage::webpage;
use bus_script::Outcome;
use bus_webpage::Purpose;
use bus_webpage::heads::{BEHIND, BETWEEN, BODY, COLUMNS, END, HEAD, MAIN, TITLE};
use bus_webpage::interpreter::INTERPRETER;
use bus_webpage::meaning::MEANING;
use bus_webpage::moving::MOVING;
use bus_webpage::openings::{FIRST_SCRIPT, OPENINGS};
use bus_webpage::play_heads::{FIRST_HEAD, GAME, INTERPRETER_HEAD, PLAY_STYLES, PLAY_TITLE, TURNS};
use bus_webpage::playing::PLAYING;
use bus_webpage::reading::READING;
use bus_webpage::styles::STYLES;
use bus_webpage::views::VIEWS;
use std::process::Abort;

const HEADER: &str = "number\tline\twho\ttenure\tkind\tword\tfound\tafter\tanswer\n";

/// A page that is made of its parts: the digits of the script's bytes, and the lines.
fn by_parts<R: Abort + AllocGlobal>(rt: &R, digits: &str, lines: &str) -> Vec<u8> {
    let mut page = Vec::new(rt.alloc());
    for part in [
        HEAD, TITLE, STYLES, BODY, MAIN, COLUMNS, digits, BETWEEN, HEADER, lines, BEHIND, READING,
        MEANING, VIEWS, MOVING, END,
    ] {
        page.extend_from_slice(part.as_bytes()).expect(rt, "memory");
    }
    page
}

/// A page on which one plays, of its parts.
fn played_by_parts<R: Abort + AllocGlobal>(rt: &R, digits: &str, lines: &str) -> Vec<u8> {
    let mut page = Vec::new(rt.alloc());
    for part in [
        HEAD,
        PLAY_TITLE,
        STYLES,
        PLAY_STYLES,
        BODY,
        TURNS,
        MAIN,
        GAME,
        COLUMNS,
        digits,
        BETWEEN,
        HEADER,
        lines,
        FIRST_HEAD,
        FIRST_SCRIPT,
        INTERPRETER_HEAD,
        INTERPRETER,
        BEHIND,
        READING,
        MEANING,
        VIEWS,
        MOVING,
        OPENINGS,
        PLAYING,
        END,
    ] {
        page.extend_from_slice(part.as_bytes()).expect(rt, "memory");
    }
    page
}

/// How the web page of a script ends, and what is written of it.
fn page_of<R: Abort + AllocGlobal>(rt: &R, purpose: Purpose, script: &[u8]) -> (Outcome, Vec<u8>) {
    let mut reader = script;
    let mut written = Vec::new(rt.alloc());
    let result = webpage::<ThreeWord, _, _>(rt.alloc(), purpose, &mut reader, &mut written);
    (result.expect(rt, "a web page").outcome, written)
}

/// Wants that the web page of a script, which ends so, has these digits and these lines.
fn shows<R: Abort + AllocGlobal>(
    rt: &R,
    script: &[u8],
    outcome: Outcome,
    digits: &str,
    lines: &str,
) {
    let (ends, written) = page_of(rt, Purpose::Step, script);
    same(rt, &ends, &outcome);
    same(
        rt,
        &written.as_slice(),
        &by_parts(rt, digits, lines).as_slice(),
    );
}

#[test]
fn a_page_has_each_line(rt: HostRuntime) {
    shows(
        &rt,
        b"shape 1 1 1 1 16\nput 0 -\nturn 0 0 2\n",
        Outcome::Done,
        "736861706520312031203120312031360a7075742030202d0a7475726e2030203020320a",
        "1\t2\tsender 0\t-\tput\t-\t-\t-\tnumber 0\n\
         2\t3\tsender 0\t-\tLoadStage\tstage\t0\t0\tgoing\n\
         3\t3\tsender 0\t0\tAnnounce\trow 0 announcement 0\t0\t1\tgoing\n",
    );
}

#[test]
fn a_page_of_a_refused_script_says_so(rt: HostRuntime) {
    shows(
        &rt,
        b"shape 1 1 1 1 16\nput 0 -\nput 1 -\nput 0 -\n",
        Outcome::Refused,
        "736861706520312031203120312031360a7075742030202d0a7075742031202d0a7075742030202d0a",
        "1\t2\tsender 0\t-\tput\t-\t-\t-\tnumber 0\nline 3: NoSuchSender\n",
    );
    shows(
        &rt,
        b"shape 65 1 1 1 16",
        Outcome::Refused,
        "7368617065203635203120312031203136",
        "line 1: Senders\n",
    );
}

/// A comment that would end the script's part of a page, and bytes that are no text.
#[test]
fn a_page_of_any_bytes(rt: HostRuntime) {
    shows(
        &rt,
        b"# </script>\xff\nshape 1 1 1 1 16",
        Outcome::Done,
        "23203c2f7363726970743eff0a73686170652031203120312031203136",
        "",
    );
}

/// A page on which one plays has the interpreter and the openings, and the lines of its script.
#[test]
fn a_page_to_play_on(rt: HostRuntime) {
    let script = b"shape 1 1 1 1 16\nput 0 -\n";
    let (ends, written) = page_of(&rt, Purpose::Play, script);
    same(&rt, &ends, &Outcome::Done);
    let digits = "736861706520312031203120312031360a7075742030202d0a";
    let lines = "1\t2\tsender 0\t-\tput\t-\t-\t-\tnumber 0\n";
    same(
        &rt,
        &written.as_slice(),
        &played_by_parts(&rt, digits, lines).as_slice(),
    );
}
