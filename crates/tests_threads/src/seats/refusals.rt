//! Shapes and pages of which no bus is made, and what comes where memory is refused.

use super::*;
use bus_pageslot::Bus;
use bus_tenure::Page;
use bus_world::MakeFault;

/// How many senders and receivers a bus has that a first line asks for, after this page, if after
/// any; or why there is none.
fn many<R: Abort + AllocGlobal>(
    rt: &R,
    line: FirstLine,
    page: Option<&Page>,
) -> Result<(usize, usize), MakeFault> {
    let alloc = rt.alloc();
    let made = match (line, page) {
        (FirstLine::Shape(shape), None) => Bus::<ThreeWord>::new(alloc, shape),
        (FirstLine::Shape(shape), Some(page)) => Bus::<ThreeWord>::after(alloc, shape, page),
        (FirstLine::Cycle(shape), page) => Bus::<ThreeWord>::cyclic(alloc, shape, page),
        (FirstLine::Ring { shape, seats: _ }, page) => Bus::<ThreeWord>::ring(alloc, shape, page),
    };
    let (_, senders, taps) = made?;
    Ok((senders.len(), taps.len()))
}

#[test]
fn as_many_as_the_shape_says_unless_memory_is_refused(rt: HostRuntime) {
    match many(&rt, FirstLine::Shape(TWO), None) {
        Ok(many) => assert_eq!(rt; many, (2, 1)),
        Err(fault) => assert_eq!(rt; fault, MakeFault::NoMemory),
    }
}

/// A ring whose batches have so many messages.
fn ring_of(batch: u64) -> FirstLine {
    let shape = Shape { batch, ..TWO_AGAIN };
    FirstLine::Ring { shape, seats: 1 }
}

#[test]
fn shapes_that_are_refused(rt: HostRuntime) {
    let receivers = Shape {
        receivers: 65,
        ..TWO
    };
    let senders = Shape { senders: 65, ..TWO };
    let rounds = Shape { rounds: 0, ..TWO };
    for (line, fault) in [
        (FirstLine::Shape(receivers), MakeFault::Receivers),
        (FirstLine::Shape(senders), MakeFault::Senders),
        (FirstLine::Shape(rounds), MakeFault::Rounds),
        (FirstLine::Shape(Shape { rows: 0, ..TWO }), MakeFault::Rows),
        (FirstLine::Cycle(Shape { rows: 0, ..TWO }), MakeFault::Rows),
        (FirstLine::Cycle(Shape { rows: 1, ..TWO }), MakeFault::Rows),
        (FirstLine::Cycle(Shape { rows: 9, ..TWO }), MakeFault::Rows),
        (
            FirstLine::Shape(Shape { batch: 64, ..TWO }),
            MakeFault::Batch,
        ),
        (
            FirstLine::Shape(Shape { batch: 15, ..TWO }),
            MakeFault::Batch,
        ),
        (
            FirstLine::Cycle(Shape {
                batch: 17,
                ..TWO_AGAIN
            }),
            MakeFault::Batch,
        ),
        (ring_of(0), MakeFault::Batch),
        (ring_of(65), MakeFault::Batch),
    ] {
        assert!(rt; many(&rt, line, None) == Err(fault));
    }
}

/// The page of an order that all have left, and whose sender 63 has this next number.
fn page_with(next: u64, ended: bool) -> Page {
    let mut numbers = [0; 64];
    numbers[63] = next;
    Page {
        next: numbers,
        left: [true; 64],
        ended,
        tenures: 1,
        words: 2,
        floor: 0,
    }
}

#[test]
fn pages_that_are_refused(rt: HostRuntime) {
    let most = 0xffff_fffe_ffff;
    for (page, want) in [
        (page_with(0, false), Err(MakeFault::NotEnded)),
        (page_with(most + 1, true), Err(MakeFault::Numbers)),
        (page_with(most, true), Ok((2, 1))),
    ] {
        for line in [FirstLine::Shape(TWO), FirstLine::Cycle(TWO_AGAIN)] {
            assert!(rt; many(&rt, line, Some(&page)) == want);
        }
    }
}

/// The numbers of a ring leave room for all its tenures, each with as many messages as a batch has.
#[test]
fn pages_that_rings_refuse(rt: HostRuntime) {
    for (batch, most) in [
        (1, 0xfeff_ffff_fffe_u64),
        (16, 0xefff_ffff_ffef),
        (64, 0xbfff_ffff_ffbf),
    ] {
        let line = ring_of(batch);
        let page = page_with(most.saturating_add(1), true);
        assert!(rt; many(&rt, line, Some(&page)) == Err(MakeFault::Numbers));
        let page = page_with(most, true);
        assert!(rt; many(&rt, line, Some(&page)) == Ok((2, 1)));
    }
}
