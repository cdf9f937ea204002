//! Replicas in threads of their own: all in `execute` at once over the shortest ring, one that only
//! reads, one that is slow, and one that is told to stop after each turn.

use bus_replica::{Fault, OpenFault, Replica, SenderNo, State, open_replicas, open_replicas_in};
use std::alloc::{AllocError, Global};
use std::process::Abort;
use std::sync::Wait;
use std::sync::atomic::AtomicU64;
use std::sync::atomic::Ordering::SeqCst;
use std::thread;
use std::thread::Threads;

/// The shortest ring.
const SHORTEST: u64 = 513;

/// How many operations were applied, how many of each worker, and a sum that tells their order.
#[derive(Clone, Copy, Drop, PartialEq, Eq)]
struct Tally {
    count: u64,
    of: [u64; 8],
    sum: u64,
}

impl State for Tally {
    /// How many there are now, and how many of its worker.
    type Answer = (u64, u64);

    fn first(_alloc: Global) -> Result<Tally, AllocError> {
        Ok(Tally {
            count: 0,
            of: [0; 8],
            sum: 0,
        })
    }

    fn apply(&mut self, from: SenderNo, op: &[u8]) -> (u64, u64) {
        self.count = self.count.wrapping_add(1);
        let said = op.first().copied().unwrap_or(0);
        let told = u64::from(from.0) * 256 + u64::from(said);
        self.sum = self.sum.wrapping_mul(31).wrapping_add(told);
        let own = &mut self.of[usize::from(from.0 % 8)];
        *own = own.wrapping_add(1);
        (self.count, *own)
    }
}

/// The replicas of so many workers over the shortest ring.
fn opened<R: Abort + AllocGlobal>(rt: &R, workers: u64) -> Vec<Replica<Tally>> {
    open_replicas_in::<Tally>(rt.alloc(), workers, SHORTEST).expect(rt, "replicas")
}

/// Executes so many operations, of which each is the next one of this worker, and offers its core
/// so often behind each. Of all answers the greatest count is noted.
fn executes<R: Wait + Abort>(
    rt: &R,
    replica: &mut Replica<Tally>,
    many: u8,
    pauses: u64,
    most: &AtomicU64,
) {
    for k in 0..many {
        let before = most.load(SeqCst);
        let (count, own) = replica.execute(rt, &[k]).expect(rt, "an answer");
        assert!(rt; own == u64::from(k) + 1 && count > before);
        most.fetch_max(count, SeqCst);
        for _ in 0..pauses {
            thread::yield_now();
        }
    }
}

/// Reads until so many operations are there. What was answered before a read is in it.
fn reads<R: Wait + Abort>(rt: &R, replica: &mut Replica<Tally>, until: u64, most: &AtomicU64) {
    for _ in rt.forever() {
        let before = most.load(SeqCst);
        replica.catch_up(rt);
        let count = replica.state().count;
        assert!(rt; count >= before && count <= until);
        if count == until {
            return;
        }
        thread::yield_now();
    }
}

/// The states of all are the same, with so many operations.
fn are_equal<R: Abort>(rt: &R, states: &[Tally], count: u64) {
    for state in states {
        assert!(rt; *state == states[0] && state.count == count);
    }
}

/// So many workers execute so many operations each, all at once. The first one offers its core so
/// often behind each of its own.
fn all_execute<R: Threads + Wait + Abort + AllocGlobal + Sync>(
    rt: &R,
    workers: u64,
    many: u8,
    pauses: u64,
) {
    let most = AtomicU64::new(0);
    let states = thread::map_vec(
        rt,
        opened(rt, workers),
        &|mut replica: Replica<Tally>| {
            let slow = if replica.number().0 == 0 { pauses } else { 0 };
            executes(rt, &mut replica, many, slow, &most);
            replica.finish(rt).expect(rt, "the state")
        },
    )
    .expect(rt, "threads");
    are_equal(rt, states.as_slice(), workers.wrapping_mul(u64::from(many)));
}

#[test]
fn all_in_execute_over_the_shortest_ring(rt: HostRuntime) {
    all_execute(&rt, 1, 250, 0);
    all_execute(&rt, 3, 250, 0);
    all_execute(&rt, 8, 120, 0);
}

#[test]
fn one_is_slow(rt: HostRuntime) {
    all_execute(&rt, 3, 150, 200);
}

#[test]
fn one_only_reads(rt: HostRuntime) {
    let most = AtomicU64::new(0);
    let states = thread::map_vec(
        &rt,
        opened(&rt, 3),
        &|mut replica: Replica<Tally>| {
            if replica.number().0 == 0 {
                reads(&rt, &mut replica, 400, &most);
            } else {
                executes(&rt, &mut replica, 200, 0, &most);
            }
            replica.finish(&rt).expect(&rt, "the state")
        },
    )
    .expect(&rt, "threads");
    are_equal(&rt, states.as_slice(), 400);
}

/// Worker 0 is told to stop after so many rounds, and is dropped. The others go on, and are told
/// that it is missing.
fn one_stops<R: Threads + Wait + Abort + AllocGlobal + Sync>(rt: &R, rounds: u64) {
    let most = AtomicU64::new(0);
    let ends = thread::map_vec(
        rt,
        opened(rt, 3),
        &|mut replica: Replica<Tally>| {
            let mut left = 100u64;
            if replica.number().0 == 0 {
                let mut left = rounds;
                let told = replica.execute_while(rt, || took_one(&mut left), &[7]);
                return matches!(told, Ok(_) | Err(Fault::Stopped));
            }
            executes(rt, &mut replica, 20, 0, &most);
            let told = replica.leave_while(rt, || took_one(&mut left));
            told == Err(Fault::MissingWorker(SenderNo(0)))
        },
    )
    .expect(rt, "threads");
    for is_so in &ends {
        assert!(rt; *is_so);
    }
}

/// Takes one where there is one.
fn took_one(left: &mut u64) -> bool {
    let has = *left > 0;
    *left = left.saturating_sub(1);
    has
}

#[test]
fn one_stops_after_each_round(rt: HostRuntime) {
    for rounds in 0..12 {
        one_stops(&rt, rounds);
    }
}

#[test]
fn who_has_left_executes_nothing(rt: HostRuntime) {
    let mut replicas = opened(&rt, 1);
    let mut replica = replicas.pop().expect(&rt, "a replica");
    assert!(rt; replica.submit(&rt, &[1]) == Ok(0));
    assert!(rt; replica.execute(&rt, &[2]) == Ok((2, 2)));
    assert!(rt; replica.leave(&rt) == Ok(()));
    assert!(rt; replica.execute(&rt, &[3]) == Err(Fault::Ended));
    assert!(rt; replica.submit(&rt, &[3]) == Err(Fault::Ended));
    assert!(rt; replica.leave(&rt) == Ok(()) && replica.state().count == 2);
}

#[test]
fn an_operation_of_57_bytes(rt: HostRuntime) {
    let mut replicas = opened(&rt, 1);
    let mut replica = replicas.pop().expect(&rt, "a replica");
    assert!(rt; replica.execute(&rt, &[1; 57]) == Err(Fault::TooLong));
    assert!(rt; replica.submit(&rt, &[1; 57]) == Err(Fault::TooLong));
    assert!(rt; replica.execute(&rt, &[1; 56]) == Ok((1, 1)));
    assert!(rt; replica.execute(&rt, &[]) == Ok((2, 2)));
}

/// Opening so many workers over a ring of so many words is refused so.
fn refused<R: Abort + AllocGlobal>(rt: &R, workers: u64, words: u64, why: OpenFault) {
    match open_replicas_in::<Tally>(rt.alloc(), workers, words) {
        Ok(_) => assert!(rt; false),
        Err(fault) => assert!(rt; fault == why),
    }
}

#[test]
fn sizes_that_are_refused(rt: HostRuntime) {
    refused(&rt, 0, SHORTEST, OpenFault::Workers);
    refused(&rt, 65, 0, OpenFault::Workers);
    refused(&rt, 64, 512, OpenFault::LogWords);
    refused(&rt, 1, 65_537, OpenFault::LogWords);
    assert!(rt;
        open_replicas::<Tally>(rt.alloc(), 64)
            .expect(&rt, "replicas")
            .len()
            == 64
    );
    assert!(rt; open_replicas_in::<Tally>(rt.alloc(), 1, 65_536).is_ok());
}
