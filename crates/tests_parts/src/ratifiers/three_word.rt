//! Three words: schedules with known verdicts, and the checks over many schedules.

use super::{
    ADOPT_0, ADOPT_1, COMMIT_0, COMMIT_1, ends, has_ended, orders_of_two, random_orders, takes,
};
use crate::steps::same;
use bus_adoptcommit::{Ratifier, ThreeWord};
use bus_register::{Kind, Op, Reg, SenderNo};
use std::process::Abort;

#[test]
fn known_verdicts(rt: HostRuntime) {
    let split = [false, true];
    let in_turn = [0, 1, 0, 1, 0, 1, 0, 1];
    ends::<ThreeWord>(&rt, [true, true], &in_turn, [COMMIT_1, COMMIT_1]);
    // The late process finds the proposal, and so takes three steps.
    let solo_then_late = [0, 0, 0, 0, 1, 1, 1];
    ends::<ThreeWord>(&rt, split, &solo_then_late, [COMMIT_0, ADOPT_0]);
    // Both find no proposal, and each finds the other's value brought.
    ends::<ThreeWord>(&rt, split, &in_turn, [ADOPT_0, ADOPT_1]);
    let stopped_before_output = [0, 0, 1, 1, 1, 1];
    ends::<ThreeWord>(&rt, split, &stopped_before_output, [None, ADOPT_1]);
}

/// How many words and steps there are.
fn measures(rt: &impl Abort, n: u64) {
    assert!(rt; n <= 64);
    same(rt, &ThreeWord::width(n), &3);
    same(rt, &ThreeWord::steps(n), &4);
}

/// The first and the second of three processes, over words from 10 on: each step, and what it
/// finds.
#[test]
fn steps_of_two_processes(rt: HostRuntime) {
    measures(&rt, 1);
    measures(&rt, 64);
    let mut first = ThreeWord::start(3, SenderNo(0), false, Reg(10));
    let alone = [
        (Kind::WriteFirst, Op::Store(Reg(10), 1), 0),
        (Kind::ReadFirst, Op::Load(Reg(12)), 0),
        (Kind::WriteSecond, Op::Store(Reg(12), 1), 0),
        (Kind::ReadSecond, Op::Load(Reg(11)), 0),
    ];
    for (kind, op, got) in alone {
        takes(&rt, &mut first, kind, op, got);
    }
    has_ended(&rt, &first, COMMIT_0);
    let mut second = ThreeWord::start(3, SenderNo(1), true, Reg(10));
    let late = [
        (Kind::WriteFirst, Op::Store(Reg(11), 1), 0),
        (Kind::ReadFirst, Op::Load(Reg(12)), 1),
        (Kind::ReadSecond, Op::Load(Reg(11)), 1),
    ];
    for (kind, op, got) in late {
        takes(&rt, &mut second, kind, op, got);
    }
    has_ended(&rt, &second, ADOPT_0);
}

/// All 70 orders of four entries each, with each pair of inputs, cut at each place.
#[test]
fn all_orders_of_two_processes(rt: HostRuntime) {
    same(&rt, &orders_of_two::<ThreeWord>(&rt, 4), &70);
}

#[test]
fn random_orders_of_more_processes(rt: HostRuntime) {
    random_orders::<ThreeWord>(&rt, 10_000, 60);
}
