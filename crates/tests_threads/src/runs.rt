//! Runs: a bus that threads share, the gate that holds them up, and what is refused.

use bus_run::limits::MOST_MESSAGES_EACH;
use bus_run::{Gate, Report, RunFault, audit, run};
use bus_world::MakeFault;
use std::process::Abort;
use std::sync::Wait;
use std::sync::atomic::{AtomicU64, Ordering};
use std::thread;
use std::thread::Threads;

/// A run of so many senders, receivers and messages each.
fn ran<R: Threads + Wait + Abort + AllocGlobal + Sync, G: Gate + Sync>(
    rt: &R,
    sizes: (u64, u64, u64),
    gate: &G,
) -> Result<Report, RunFault> {
    let (senders, receivers, messages) = sizes;
    assert!(rt; messages <= MOST_MESSAGES_EACH);
    run(rt, rt.alloc(), senders, receivers, messages, 7, gate)
}

/// The worker that arrives waits until the other sender's has begun to arrive as often.
#[derive(Drop)]
struct Together {
    arrived: [AtomicU64; 2],
}

impl Gate for Together {
    fn arrive(&self, sender: u64) -> bool {
        let (own, other) = if sender == 0 {
            (&self.arrived[0], &self.arrived[1])
        } else {
            (&self.arrived[1], &self.arrived[0])
        };
        let times = own.fetch_add(1, Ordering::SeqCst);
        for _ in 0..10_000_000 {
            if other.load(Ordering::SeqCst) > times {
                return true;
            }
            thread::yield_now();
        }
        false
    }
}

/// Each receiver was given so many items and the end.
fn has_given(rt: &impl Abort, report: &Report, items: u64) {
    for heard in &report.heards {
        assert!(rt; (heard.items(), heard.ended()) == (items, true));
    }
}

/// It passes the audit.
fn is_fair(rt: &impl Abort, report: &Report) {
    assert!(rt; audit(&report.ended, &report.heards) == Ok(()));
}

#[test]
fn workers_overlap(rt: HostRuntime) {
    let gate = Together {
        arrived: [AtomicU64::new(0), AtomicU64::new(0)],
    };
    let report = ran(&rt, (2, 1, 32), &gate).expect(&rt, "a run");
    for arrived in &gate.arrived {
        assert!(rt; arrived.load(Ordering::SeqCst) == 2);
    }
    has_given(&rt, &report, 64);
    is_fair(&rt, &report);
}

/// Lets the worker of sender 0 through and no other, and counts those that arrive.
#[derive(Drop)]
struct FirstOnly {
    arrived: AtomicU64,
}

impl Gate for FirstOnly {
    fn arrive(&self, sender: u64) -> bool {
        self.arrived.fetch_add(1, Ordering::SeqCst);
        sender == 0
    }
}

#[test]
fn who_arrives_at_a_gate(rt: HostRuntime) {
    for (sizes, arrive, fault) in [
        ((1, 1, 0), 0, None),
        ((2, 1, 16), 2, Some(RunFault::Gate)),
        ((1, 65, 16), 0, Some(RunFault::Make(MakeFault::Receivers))),
    ] {
        let gate = FirstOnly {
            arrived: AtomicU64::new(0),
        };
        assert!(rt; ran(&rt, sizes, &gate).err() == fault);
        assert!(rt; gate.arrived.load(Ordering::SeqCst) == arrive);
    }
}
