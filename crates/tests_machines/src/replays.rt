//! What no clause says of `replay`: scripts by the other ratifier, random ones, and cut and
//! replaced bytes. Worked scripts with their texts stand in `examples/`.

mod bytes;
mod random;

use crate::games::same;
use bus_adoptcommit::TwoCollect;
use bus_replay::answer_to;
use bus_script::Outcome;
use std::process::Abort;

/// Wants that a script moves a bus that goes by two collects to its end, and gives this text.
fn plays_by_two_collects<R: Abort + AllocGlobal>(rt: &R, script: &[u8], text: &str) {
    let answer = answer_to::<TwoCollect>(rt.alloc(), script).expect(rt, "memory");
    assert!(rt;
        answer.outcome == Outcome::Done,
        "of a script that gives {text}"
    );
    same(rt, &answer.text.as_str(), &text);
}

#[test]
fn two_collects_disagree_too(rt: HostRuntime) {
    plays_by_two_collects(
        &rt,
        b"shape 2 1 1 1 64\nput 0 61\nput 1 62\nturn 0 0 3\nturn 1 0 3\nturn 0 0 5\n\
          turn 1 0 99\nturn 0 0 99\nturn 1 0 99\nrecv 0 99\n",
        "put 0: number 0\nput 1: number 0\nturn 0: going\nturn 1: going\n\
          turn 0: going\nturn 1: own 0\nturn 0: lost 0 1\nturn 1: delivered 0 0 0\n\
          recv 0: empty\nowners 1\norder 1 0 62\ngiven 0 1\n",
    );
    plays_by_two_collects(
        &rt,
        b"shape 2 1 2 1 64\nput 0 61\nput 1 62\nturn 0 0 3\nturn 1 0 3\nturn 0 0 6\n\
          turn 1 0 6\nturn 0 1 99\nturn 1 0 99\nturn 1 0 99\n",
        "put 0: number 0\nput 1: number 0\nturn 0: going\nturn 1: going\n\
          turn 0: going\nturn 1: going\nturn 0: lost 0 1\nturn 1: own 0\n\
          turn 1: delivered 0 0 0\nowners 1\norder 1 0 62\ngiven 0 0\n",
    );
}

#[test]
fn receivers_fork_by_two_collects_too(rt: HostRuntime) {
    plays_by_two_collects(
        &rt,
        b"ring 2 1 1 2 16 3\nput 0 61\nturn 0 0 99\nturn 0 0 99\nrecv 0 2\nfork 0 2\nfork 0 2\n\
          recv 2 1\nrecv 2 99\ngone 2\nfork 0 2\n",
        "put 0: number 0\nturn 0: own 0\nturn 0: delivered 0 0 0\nrecv 0: head 0 0\n\
          fork 0 2: forked\nfork 0 2: no seat\nrecv 2: going\nrecv 2: empty\ngone 2: gone\n\
          fork 0 2: forked\nowners 0\norder 0 0 61\ngiven 0 0\ngiven 2 0\n",
    );
}
