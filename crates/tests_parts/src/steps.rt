//! Steps on words, numbers for schedules and comparing, for the tests of machines.

ghost use Rattle.std.specs.Prelude.{◌≡◌, ◌<◌};
ghost use Rattle.bus_register.specs.Words.{register};

use bus_register::{Cells, Machine, Op};
use std::fmt::Debug;
use std::process::Abort;

/// Wants that both are the same. Here `assert_eq!` is proved once, and not wherever two values are
/// compared: a test calls this.
pub fn same<T: PartialEq + Debug>(rt: &impl Abort, got: &T, want: &T) {
    assert_eq!(rt; *got, *want);
}

/// So many words of zero.
pub fn words<R: Abort + AllocGlobal>(rt: &R, count: u64) -> Cells {
    Cells::new(rt.alloc(), count).expect(rt, "memory")
}

/// The place of the word that a step touches.
fn place(op: Op) -> u64
    ensures { result ≡ register op }
{
    match op {
        Op::Load(at) => at.0,
        Op::Store(at, _) => at.0,
        Op::Add(at, _) => at.0,
        Op::Cas(at, _, _) => at.0,
    }
}

/// Takes a step on the words, and gives what it found.
pub fn apply(rt: &impl Abort, cells: &mut Cells, op: Op) -> u64 {
    assert!(rt; place(op) < cells.len());
    if let Op::Add(at, value) = op {
        assert!(rt;
            value <= u64::MAX - cells.get(at),
            "a vote passes no word's range"
        );
    }
    cells.apply(op)
}

/// The words are these.
pub fn expect(rt: &impl Abort, cells: &Cells, words: &[u64]) {
    assert!(rt; !cells.is_empty());
    same(rt, &cells.as_slice(), &words);
}

/// The machine's step for a random word was taken and found this.
fn feed<M: Machine>(rt: &impl Abort, machine: &mut M, found: u64, word: u32) {
    assert!(rt; machine.next(word).is_some());
    machine.feed(found, word);
}

/// Takes the next step of a machine, and gives it; none where the machine has ended.
pub fn step<M: Machine>(
    rt: &impl Abort,
    cells: &mut Cells,
    machine: &mut M,
    word: u32,
) -> Option<Op> {
    let op = machine.next(word);
    if let Some(due) = op {
        let found = apply(rt, cells, due);
        feed(rt, machine, found, word);
    }
    op
}

/// The next number of a fixed sequence (Knuth's MMIX generator).
pub fn next_random(state: u64) -> u64 {
    state
        .wrapping_mul(6364136223846793005)
        .wrapping_add(1442695040888963407)
}
