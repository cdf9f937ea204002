//! Pins and reclamations over words of their own.

use crate::steps::{apply, expect, same, words};
use bus_presence::{Behind, Pin, Presence, Reclaimer};
use bus_register::{Cells, Op, Reg};
use std::process::Abort;

/// The word of the stage. The presences of two senders and a row of two words follow it.
const STAGE: Reg = Reg(0);

/// Begins this tenure.
fn begins(rt: &impl Abort, presence: &mut Presence, tenure: u64) {
    let pin = presence.pin();
    assert!(rt; pin == Pin::Away && tenure < 8);
    presence.begin(tenure);
}

/// Parts from tenure 0.
fn parts(rt: &impl Abort, presence: &mut Presence) {
    let pin = presence.pin();
    assert!(rt; pin == Pin::Pinned { tenure: 0 });
    presence.part(0);
}

/// The next step of the pin is this, and afterwards the pin has come so far.
fn takes(rt: &impl Abort, cells: &mut Cells, presence: &mut Presence, op: Op, pin: Pin) {
    same(rt, &presence.next(), &Some(op));
    let found = apply(rt, cells, op);
    presence.feed(found);
    same(rt, &presence.pin(), &pin);
}

/// Takes all steps of the reclamation that are due, until it waits for somebody.
fn reclaims(rt: &impl Abort, cells: &mut Cells, reclaimer: &mut Reclaimer) -> Option<Behind> {
    for _ in 0..10 {
        let op = reclaimer.next()?;
        let found = apply(rt, cells, op);
        let behind = reclaimer.feed(found);
        if behind.is_some() {
            return behind;
        }
    }
    None
}

#[test]
fn holder_waits_for_who_is_inside(rt: HostRuntime) {
    let mut cells = words(&rt, 5);
    apply(&rt, &mut cells, Op::Store(Reg(3), 7));
    apply(&rt, &mut cells, Op::Store(Reg(4), 7));
    let mut late = Presence::new(Reg(2), STAGE);
    begins(&rt, &mut late, 0);
    let announced = Pin::Validating { tenure: 0 };
    takes(&rt, &mut cells, &mut late, Op::Store(Reg(2), 1), announced);
    takes(
        &rt,
        &mut cells,
        &mut late,
        Op::Load(STAGE),
        Pin::Pinned { tenure: 0 },
    );
    apply(&rt, &mut cells, Op::Store(STAGE, 3));
    let mut holder = Reclaimer::new(0, 2, Reg(1), Reg(3), 2);
    let behind = Some(Behind {
        tenure: 0,
        sender: 1,
    });
    same(&rt, &reclaims(&rt, &mut cells, &mut holder), &behind);
    same(&rt, &reclaims(&rt, &mut cells, &mut holder), &behind);
    expect(&rt, &cells, &[3, 0, 1, 7, 7]);
    parts(&rt, &mut late);
    takes(&rt, &mut cells, &mut late, Op::Store(Reg(2), 0), Pin::Away);
    same(&rt, &reclaims(&rt, &mut cells, &mut holder), &None);
    assert!(rt; holder.is_done());
    expect(&rt, &cells, &[3, 0, 0, 0, 0]);
}

#[test]
fn late_sender_withdraws(rt: HostRuntime) {
    let mut cells = words(&rt, 5);
    let mut late = Presence::new(Reg(1), STAGE);
    begins(&rt, &mut late, 0);
    apply(&rt, &mut cells, Op::Store(STAGE, 2));
    let announced = Pin::Validating { tenure: 0 };
    takes(&rt, &mut cells, &mut late, Op::Store(Reg(1), 1), announced);
    takes(
        &rt,
        &mut cells,
        &mut late,
        Op::Load(STAGE),
        Pin::Invalidated { tenure: 0 },
    );
    takes(&rt, &mut cells, &mut late, Op::Store(Reg(1), 0), Pin::Away);
    expect(&rt, &cells, &[2, 0, 0, 0, 0]);
}

#[test]
fn page_out_is_still_the_tenure(rt: HostRuntime) {
    let mut cells = words(&rt, 5);
    apply(&rt, &mut cells, Op::Store(STAGE, 5));
    let mut presence = Presence::new(Reg(2), STAGE);
    begins(&rt, &mut presence, 2);
    let announced = Pin::Validating { tenure: 2 };
    takes(
        &rt,
        &mut cells,
        &mut presence,
        Op::Store(Reg(2), 3),
        announced,
    );
    takes(
        &rt,
        &mut cells,
        &mut presence,
        Op::Load(STAGE),
        Pin::Pinned { tenure: 2 },
    );
    expect(&rt, &cells, &[5, 0, 3, 0, 0]);
}
