//! Senders as their callers use them: in threads of their own, let go within a tenure, and in the
//! next sitting. What their turns answer, `scripts` and `schedules` see.

mod finishing;
mod leaving;
mod refusals;
mod sittings;

use crate::both::BusSender;
use crate::games::{Game, Seats, play_on};
use bus_adoptcommit::ThreeWord;
use bus_pageslot::{Ended, Sender};
use bus_register::SenderNo;
use bus_replay::lines::FirstLine;
use bus_tenure::Turn;
use bus_world::{Answer, Shape};
use rand_pcg::Pcg32;
use std::process::Abort;
use std::sync::Wait;
use std::thread::Threads;

/// Two senders and a receiver.
const TWO: Shape = Shape {
    senders: 2,
    receivers: 1,
    rounds: 1,
    rows: 64,
    log_words: 1024,
    batch: 16,
};

/// The same over two rows, which are used again.
const TWO_AGAIN: Shape = Shape { rows: 2, ..TWO };

/// Puts a message, which gets this number.
fn puts(rt: &impl Abort, sender: &mut BusSender<'_>, bytes: &[u8], number: u64) {
    let got = sender.put(bytes);
    assert!(rt;
        matches!(got, Ok(Answer::Number(found)) if found == number),
        "{got:?}"
    );
}

/// Lets an end mark wait.
fn closes(rt: &impl Abort, sender: &mut BusSender<'_>) {
    assert!(rt; matches!(sender.close(), Ok(Answer::Closing)));
}

/// Turns, at most 99, up to the first answer that is not Going.
fn first_answer(sender: &mut BusSender<'_>) -> Turn {
    for _ in 0..99 {
        let answer = sender.turn(0);
        if !matches!(answer, Turn::Going) {
            return answer;
        }
    }
    Turn::Going
}

/// The first answer that is not Going is this one.
fn ends_in(rt: &impl Abort, sender: &mut BusSender<'_>, want: Turn) {
    assert!(rt; first_answer(sender) == want);
}

/// The tenure delivered one message of this number.
fn delivered(tenure: u64, number: u64) -> Turn {
    Turn::Delivered {
        tenure,
        first: number,
        last: number,
    }
}

/// The tenure is this sender's, which delivers the one message that waits, of this number.
fn delivers(rt: &impl Abort, sender: &mut BusSender<'_>, tenure: u64, number: u64) {
    ends_in(rt, sender, Turn::Own { tenure });
    ends_in(rt, sender, delivered(tenure, number));
}

/// How many items of senders 0 and 1 there are, and whether the order has ended.
fn has_ended(rt: &impl Abort, ended: &Ended, want: (u64, u64, bool)) {
    let counts = (ended.count(SenderNo(0)), ended.count(SenderNo(1)));
    assert!(rt; counts == (want.0, want.1));
    assert!(rt; ended.page().ended == want.2);
}
