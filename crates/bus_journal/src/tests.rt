//! Bytes that were worked out by Python's hashlib and `int.to_bytes`, written and read.

use super::*;
use std::alloc::{AllocError, Global};
use std::test::*;

// The header of two senders, of batches of 16, at place 5, with the first numbers 9 and 4.
const HEADER: [u8; 64] = [
    75, 73, 79, 83, 75, 76, 79, 71, 0, 0, 0, 0, 0, 0, 0, 1, 0, 0, 0, 0, 0, 0, 0, 2, 0, 0, 0, 0, 0,
    0, 0, 16, 0, 0, 0, 0, 0, 0, 0, 5, 0, 0, 0, 0, 0, 0, 0, 9, 0, 0, 0, 0, 0, 0, 0, 4, 15, 138, 95,
    187, 170, 157, 199, 207,
];

// A frame of sender 0 with one message, at place 5.
const RECORD_A: [u8; 32] = [
    64, 0, 2, 0, 0, 0, 0, 0, 128, 64, 0, 0, 0, 0, 0, 0, 97, 0, 0, 0, 0, 0, 0, 0, 84, 141, 16, 41,
    207, 28, 155, 179,
];

// A frame of sender 1 with an empty message, at place 8.
const RECORD_B: [u8; 24] = [
    64, 64, 1, 0, 0, 0, 0, 3, 128, 0, 0, 0, 0, 0, 0, 7, 17, 67, 249, 106, 98, 55, 78, 3,
];

// An end mark, at place 10.
const END: [u8; 24] = [
    64, 0, 1, 0, 0, 0, 0, 5, 192, 0, 0, 0, 0, 0, 0, 0, 116, 187, 149, 22, 43, 50, 179, 71,
];

// A frame at place 8 whose mark no log has, with the right checksum.
const BAD: [u8; 24] = [
    64, 0, 1, 0, 0, 0, 0, 4, 192, 0, 0, 0, 0, 0, 0, 7, 194, 27, 174, 111, 77, 251, 9, 227,
];

/// What an answer shows.
#[derive(Clone, Copy, Debug, PartialEq, Eq)]
struct Shown {
    items: usize,
    frames: usize,
    place: u64,
    end: JournalEnd,
    whole: u64,
}

fn told_of(alloc: Global, bytes: &[u8]) -> Result<Shown, JournalFault> {
    let read = read_journal(alloc, bytes)?;
    Ok(Shown {
        items: read.log.order.items.len(),
        frames: read.log.owners.len(),
        place: read.place,
        end: read.end,
        whole: read.whole,
    })
}

/// Bytes are read to just this.
fn tells(
    alloc: Global,
    bytes: &[u8],
    items: usize,
    frames: usize,
    place: u64,
    end: JournalEnd,
) -> bool {
    match told_of(alloc, bytes) {
        Ok(s) => s.items == items && s.frames == frames && s.place == place && s.end == end,
        Err(_) => false,
    }
}

/// Bytes are refused for just this.
fn refuses(alloc: Global, bytes: &[u8], fault: JournalFault) -> bool {
    match told_of(alloc, bytes) {
        Ok(_) => false,
        Err(found) => found == fault,
    }
}

/// The first bytes, at most so many.
fn first(bytes: &[u8], count: usize) -> &[u8] {
    let (front, _) = bytes.split_at(count.min(bytes.len()));
    front
}

fn joined(alloc: Global, a: &[u8], b: &[u8], c: &[u8]) -> Result<Vec<u8>, AllocError> {
    let mut bytes = Vec::new(alloc);
    bytes.extend_from_slice(a)?;
    bytes.extend_from_slice(b)?;
    bytes.extend_from_slice(c)?;
    Ok(bytes)
}

fn with_byte(alloc: Global, bytes: &[u8], at: usize, byte: u8) -> Result<Vec<u8>, AllocError> {
    let mut changed = Vec::from_slice(alloc, bytes)?;
    if at < changed.len() {
        changed[at] = byte;
    }
    Ok(changed)
}

fn written(alloc: Global) -> Result<Vec<u8>, AllocError> {
    let mut bytes = Vec::new(alloc);
    let header = Header {
        senders: 2,
        most: 16,
        place: 5,
        first: vec![in alloc; 9, 4]?,
    };
    push_header(&mut bytes, &header)?;
    let frame = [
        0x4000_0200_0000_0000,
        0x8040_0000_0000_0000,
        0x6100_0000_0000_0000,
    ];
    push_record(&mut bytes, 5, &frame)?;
    push_record(
        &mut bytes,
        8,
        &[0x4040_0100_0000_0003, 0x8000_0000_0000_0007],
    )?;
    Ok(bytes)
}

#[test]
fn writes_these_bytes(rt: HostRuntime) -> Result<(), Fail> {
    let wanted = joined(rt.alloc(), &HEADER, &RECORD_A, &RECORD_B)?;
    assert!(rt; written(rt.alloc())?.as_slice() == wanted.as_slice());
    Ok(())
}

#[test]
fn reads_whole_records(rt: HostRuntime) -> Result<(), Fail> {
    let two = joined(rt.alloc(), &HEADER, &RECORD_A, &RECORD_B)?;
    let three = joined(rt.alloc(), &two, &END, &[])?;
    assert!(rt; tells(rt.alloc(), &HEADER, 0, 0, 5, JournalEnd::Whole));
    assert!(rt; tells(rt.alloc(), &two, 2, 2, 10, JournalEnd::Whole));
    assert!(rt; tells(rt.alloc(), &three, 2, 3, 12, JournalEnd::Whole));
    Ok(())
}

#[test]
fn reads_torn_tails(rt: HostRuntime) -> Result<(), Fail> {
    let two = joined(rt.alloc(), &HEADER, &RECORD_A, &RECORD_B)?;
    let zeros = [0u8; 40];
    let unwritten = joined(rt.alloc(), &two, &zeros, &[])?;
    let half = joined(rt.alloc(), first(&two, 98), &zeros, &[])?;
    let short = joined(rt.alloc(), first(&two, 119), &[], &[])?;
    assert!(rt; tells(rt.alloc(), &unwritten, 2, 2, 10, JournalEnd::Torn));
    assert!(rt; tells(rt.alloc(), &half, 1, 1, 8, JournalEnd::Torn));
    assert!(rt; tells(rt.alloc(), &short, 1, 1, 8, JournalEnd::Torn));
    Ok(())
}

#[test]
fn reads_damaged_tails(rt: HostRuntime) -> Result<(), Fail> {
    let two = joined(rt.alloc(), &HEADER, &RECORD_A, &RECORD_B)?;
    let flipped = with_byte(rt.alloc(), &two, 80, 98)?;
    let left_out = joined(rt.alloc(), &HEADER, &RECORD_B, &[])?;
    let doubled = joined(rt.alloc(), &two, &RECORD_B, &[])?;
    let refused = joined(rt.alloc(), &HEADER, &RECORD_A, &BAD)?;
    assert!(rt; tells(rt.alloc(), &flipped, 0, 0, 5, JournalEnd::Damaged));
    assert!(rt; tells(rt.alloc(), &left_out, 0, 0, 5, JournalEnd::Damaged));
    assert!(rt; tells(rt.alloc(), &doubled, 2, 2, 10, JournalEnd::Damaged));
    assert!(rt; tells(rt.alloc(), &refused, 1, 1, 8, JournalEnd::Damaged));
    Ok(())
}

#[test]
fn refuses_other_headers(rt: HostRuntime) -> Result<(), Fail> {
    let other = with_byte(rt.alloc(), &HEADER, 2, 0)?;
    let later = with_byte(rt.alloc(), &HEADER, 15, 2)?;
    let damaged = with_byte(rt.alloc(), &HEADER, 40, 1)?;
    let nobody = with_byte(rt.alloc(), &HEADER, 23, 0)?;
    assert!(rt; refuses(rt.alloc(), &other, JournalFault::OtherMagic));
    assert!(rt;
        refuses(
            rt.alloc(),
            &later,
            JournalFault::OtherVersion { version: 2 }
        )
    );
    assert!(rt; refuses(rt.alloc(), &damaged, JournalFault::DamagedHeader));
    assert!(rt; refuses(rt.alloc(), &nobody, JournalFault::DamagedHeader));
    assert!(rt; refuses(rt.alloc(), first(&HEADER, 63), JournalFault::TornHeader));
    assert!(rt; refuses(rt.alloc(), first(&HEADER, 12), JournalFault::TornHeader));
    assert!(rt; refuses(rt.alloc(), &[], JournalFault::TornHeader));
    Ok(())
}

/// Where memory is refused, nothing was appended.
#[test]
fn appends_all_or_nothing(rt: HostRuntime) -> Result<(), Fail> {
    let Ok(mut bytes) = joined(rt.alloc(), &HEADER, &[], &[]) else {
        return Ok(());
    };
    let pushed = push_record(
        &mut bytes,
        8,
        &[0x4040_0100_0000_0003, 0x8000_0000_0000_0007],
    );
    let long = if pushed.is_ok() { 88 } else { 64 };
    assert_eq!(rt; bytes.len(), long);
    Ok(())
}
