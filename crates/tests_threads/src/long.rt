//! Long operations of replicas in threads of their own, over the shortest ring.

use bus_replica::{Fault, Long, Replica, SenderNo, State, open_replicas_in};
use std::alloc::{AllocError, Global};
use std::process::Abort;
use std::sync::Wait;
use std::thread;

/// The shortest ring: it has room for four operations of 880 bytes.
const SHORTEST: u64 = 513;

/// Lengths of operations, of 1 to 16 pieces.
const LENGTHS: [usize; 8] = [0, 1, 55, 56, 110, 111, 441, 880];

/// What operations came to.
#[derive(Clone, Copy, Drop, PartialEq, Eq)]
struct Tally {
    count: u64,
    /// Operations of which a byte is not the number of its worker.
    strange: u64,
    /// A sum that tells their order and lengths.
    sum: u64,
}

impl State for Tally {
    /// How long the operation was.
    type Answer = usize;

    fn first(_alloc: Global) -> Result<Tally, AllocError> {
        Ok(Tally {
            count: 0,
            strange: 0,
            sum: 0,
        })
    }

    fn apply(&mut self, from: SenderNo, op: &[u8]) -> usize {
        self.count = self.count.wrapping_add(1);
        if !op.iter().all(|byte| *byte == from.0) {
            self.strange = self.strange.wrapping_add(1);
        }
        let told = (op.len() as u64)
            .wrapping_mul(256)
            .wrapping_add(u64::from(from.0));
        self.sum = self.sum.wrapping_mul(31).wrapping_add(told);
        op.len()
    }
}

/// The replicas of so many workers over the shortest ring.
fn opened<R: Abort + AllocGlobal>(rt: &R, workers: u64) -> Vec<Replica<Long<Tally>>> {
    open_replicas_in::<Long<Tally>>(rt.alloc(), workers, SHORTEST).expect(rt, "replicas")
}

/// Executes an operation of each length, and submits each, so many times.
fn works<R: Wait + Abort>(rt: &R, replica: &mut Replica<Long<Tally>>, times: u64) {
    let op = [replica.number().0; 880];
    for _ in 0..times {
        for length in LENGTHS {
            let answer = replica
                .execute_long(rt, &op[..length])
                .expect(rt, "an answer");
            assert!(rt; answer == Some(length));
            let _ = replica.submit_long(rt, &op[..length]).expect(rt, "room");
        }
    }
    assert!(rt; replica.submit_long(rt, &[0; 881]) == Err(Fault::TooLong));
    assert!(rt; replica.execute_long(rt, &[0; 881]) == Err(Fault::TooLong));
}

/// The states of all are the same, with so many operations, all of them whole.
fn are_equal<R: Abort>(rt: &R, states: &[Tally], count: u64) {
    for state in states {
        assert!(rt; *state == states[0] && state.count == count && state.strange == 0);
    }
}

#[test]
fn long_operations_are_whole(rt: HostRuntime) {
    let states = thread::map_vec(
        &rt,
        opened(&rt, 3),
        &|mut replica: Replica<Long<Tally>>| {
            works(&rt, &mut replica, 10);
            replica.finish(&rt).expect(&rt, "the state").into_state()
        },
    )
    .expect(&rt, "threads");
    are_equal(&rt, states.as_slice(), 3 * 10 * 2 * 8);
}

#[test]
fn a_message_that_is_no_piece_is_an_operation(rt: HostRuntime) {
    let mut replicas = opened(&rt, 1);
    let mut replica = replicas.pop().expect(&rt, "a replica");
    assert!(rt; replica.execute(&rt, &[16, 0]) == Ok(Some(2)));
    assert!(rt; replica.execute(&rt, &[]) == Ok(Some(0)));
    assert!(rt; replica.execute(&rt, &[1; 56]) == Ok(None));
    assert!(rt; replica.execute(&rt, &[0, 7]) == Ok(Some(56)));
}
