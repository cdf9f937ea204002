//! Each step once, on words of known values.

use crate::steps::{apply, expect, same, words};
use bus_register::{Op, Reg};
use std::process::Abort;

#[test]
fn one_step_of_each_kind(rt: HostRuntime) {
    let mut cells = words(&rt, 3);
    let steps = [
        (Op::Store(Reg(1), 7), 0),
        (Op::Load(Reg(1)), 7),
        (Op::Add(Reg(1), 5), 7),
        (Op::Cas(Reg(1), 7, 1), 12),
        (Op::Cas(Reg(1), 12, 1), 12),
    ];
    for (op, found) in steps {
        same(&rt, &apply(&rt, &mut cells, op), &found);
    }
    expect(&rt, &cells, &[0, 1, 0]);
}
