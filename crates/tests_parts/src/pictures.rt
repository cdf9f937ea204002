//! What no clause says: the whole picture of a small trace, and pieces of others.

use crate::steps::same;
use bus_picture::picture_of;
use std::process::Abort;

/// The picture of a trace.
fn drawn<R: Abort + AllocGlobal>(rt: &R, trace: &str) -> String {
    picture_of(rt.alloc(), trace).expect(rt, "memory")
}

/// The head of the picture of two processes and two steps.
const HEAD: &str = "<svg xmlns='http://www.w3.org/2000/svg' \
    font-family='sans-serif' font-size='11' width='920' height='186' \
    viewBox='0 0 920 186'>\n<title>";

/// What stands behind the key in the picture of a store and a load of it.
const STEPS: &str = "\
    <path class='life' d='M60 132V150'/><text class='head' x='60' y='124'>sender 0</text>\n\
    <path class='band' d='M60 150V150'/>\
    <text class='tenure' dx='-12' dy='4' x='60' y='150'>3</text>\n\
    <path class='life' d='M340 132V168'/><text class='head' x='340' y='124'>receiver 1</text>\n\
    <path class='arrow' d='M60 150L340 168'/>\n\
    <use href='#store' x='60' y='150'/>\n\
    <text dy='4' x='8' y='150'>1</text>\n\
    <text dy='4' x='480' y='150'>StoreLength length: 0 to 5</text>\n\
    <use href='#look' x='340' y='168'/>\n\
    <text dy='4' x='8' y='168'>2</text>\n\
    <text dy='4' x='480' y='168'>LoadLength length: 5</text>\n\
    </svg>\n";

#[test]
fn a_store_and_a_load_of_it(rt: HostRuntime) {
    let trace = "number\tline\twho\ttenure\tkind\tword\tfound\tafter\tanswer\n\
        1\t2\tsender 0\t3\tStoreLength\tlength\t0\t5\tgoing\n\
        2\t3\treceiver 1\t-\tLoadLength\tlength\t5\t5\tgoing\n\
        line 4: NoSuchSender\n";
    let text = drawn(&rt, trace);
    let (key, steps) = text
        .as_str()
        .split_once("no answer: going</text>\n")
        .expect(&rt, "the key");
    assert!(rt; key.starts_with(HEAD), "{key}");
    same(&rt, &steps, &STEPS);
}

/// Whether the picture of a trace has these words.
fn has<R: Abort + AllocGlobal>(rt: &R, trace: &str, words: &str) -> bool {
    drawn(rt, trace).as_str().contains(words)
}

/// The one line of a trace, with these columns behind its number, is drawn with these words beside
/// it.
fn says<R: Abort + AllocGlobal>(rt: &R, columns: &str, words: &str) {
    let trace = format!(in rt.alloc(); "1\t2\tsender 0\t0\t{columns}").expect(rt, "memory");
    assert!(rt; has(rt, trace.as_str(), words), "{words}");
}

#[test]
fn what_stands_in_words(rt: HostRuntime) {
    let rows = [
        (
            "Vote\trow 0 bit 0 round 2 counter\t4294967297\t8589934593\tgoing",
            ">Vote row 0 bit 0 round 2 counter: 1 heads 1 tails to 2 heads 1 tails<",
        ),
        (
            "StoreLogWord\tlog 1\t0\t9241386435364257792\tgoing",
            ">StoreLogWord log 1: 0000000000000000 to 8040000000000000<",
        ),
        (
            "StoreLength\tlength\t0\t5\tdelivered 0 0 0",
            ">delivered 0 0 0<",
        ),
        (
            "LoadLogWord\tlog 2\t0\t0\titem 0 0 68656c6c6f2",
            ">item 0 0 68656c6c6f2<",
        ),
        (
            "LoadLogWord\tlog 2\t0\t0\titem 0 0 68656c6c6f21",
            ">item 0 0 68656c6c6..<",
        ),
        (
            "LoadLogWord\tlog 2\t0\t0\tanswers of a châteaux",
            ">answers of a chât..<",
        ),
        (
            "LoadLogWord\tlog 2\t0\t0\tanswers of the château",
            ">answers of the château<",
        ),
    ];
    for (columns, words) in rows {
        says(&rt, columns, words);
    }
}

/// Whether the one line of a trace is drawn as a call, with this in the column of kinds.
fn is_call<R: Abort + AllocGlobal>(rt: &R, kind: &str) -> bool {
    let trace = format!(in rt.alloc(); "1\t2\tsender 0\t-\t{kind}\t-\t-\t-\tidle");
    let trace = trace.expect(rt, "memory");
    has(rt, trace.as_str(), "<use href='#call' x='60' y='150'/>")
}

#[test]
fn what_takes_no_step(rt: HostRuntime) {
    for kind in ["put", "close", "leave", "stop"] {
        assert!(rt; is_call(&rt, kind), "{kind}");
    }
    for kind in ["-", "left", "leaving", "LoadStage"] {
        assert!(rt; !is_call(&rt, kind), "{kind}");
    }
}

/// Whether the one line of a trace is drawn, with this in the column of who.
fn is_drawn<R: Abort + AllocGlobal>(rt: &R, who: &str) -> bool {
    let trace = format!(in rt.alloc(); "1\t2\t{who}\t-\tput\t-\t-\t-\tidle");
    let trace = trace.expect(rt, "memory");
    has(rt, trace.as_str(), "<text class='head'")
}

#[test]
fn who_is_drawn(rt: HostRuntime) {
    for who in ["sender 0", "sender 63", "receiver 63"] {
        assert!(rt; is_drawn(&rt, who), "{who}");
    }
    let others = [
        "sender 64",
        "receiver 64",
        "sender 07",
        "sender  7",
        "sender 7 ",
        "sender",
        "7",
    ];
    for who in others {
        assert!(rt; !is_drawn(&rt, who), "{who}");
    }
}
