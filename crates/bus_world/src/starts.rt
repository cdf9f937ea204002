//! The page and the receivers of a new bus.

ghost use Rattle.std.specs.Prelude.{◌≡◌, ◌+◌, ◌*◌, ◌<◌, ◌≤◌, ◌^◌, [], IfOk, IfSome};
ghost use Rattle.bus_batch.specs.Reading.{HasRead};
ghost use Rattle.bus_core.specs.declared.limits.TheConstants.{PASSED_APART};
ghost use Rattle.bus_world.specs.Starting.{AreNewReceivers, passed_behind};
ghost use Rattle.bus_world.specs.World.{first_page as spec_first_page};

use crate::shapes::Shape;
use bus_core::limits::PASSED_APART;
use bus_deliverylog::Reader;
use bus_register::limits::MOST_SENDERS;
use bus_register::{NoMemory, Reg};
use bus_tenure::{OwnedPage, Page};
use std::alloc::Global;

/// The page of a sitting that begins with these numbers, by sender, on the heap.
pub fn first_page(alloc: Global, bases: [u64; MOST_SENDERS]) -> Result<OwnedPage, NoMemory>
    ensures { IfOk result (λ page. page ≡ spec_first_page bases) }
{
    let page = Page {
        next: bases,
        left: [false; MOST_SENDERS],
        ended: false,
        tenures: 0,
        words: 0,
        floor: 0,
    };
    OwnedPage::new(alloc, page)
}

/// The passed place of receiver r, where there are any and the first stands here.
fn passed_place(first: Option<u64>, r: u64) -> Option<u64>
    requires fits { IfSome first (λ at. at + PASSED_APART * r < 2 ^ 64) }
    ensures { result ≡ passed_behind first r }
{
    match first {
        None => None,
        Some(at) => Some(at + PASSED_APART * r),
    }
}

/// A receiver for each number, at the first word of the log. Where words of the log are used again
/// each has a passed place, the first of which stands here; all lie behind the length and before
/// the log.
pub fn new_receivers(
    alloc: Global,
    shape: Shape,
    log: Reg,
    first_passed: Option<u64>,
) -> Result<Vec<Reader>, NoMemory>
    requires fits { log.0 + shape.log_words < 2 ^ 64 }
    requires some { 0 < shape.log_words }
    requires apart { IfSome first_passed
        (λ at. (0 < at) × (at + PASSED_APART * shape.receivers ≤ log.0)) }
    ensures { IfOk result
        (λ receivers. AreNewReceivers shape.senders log.0 shape.log_words first_passed
        shape.receivers receivers.items) }
{
    let mut receivers = Vec::new(alloc);
    for r in 0..shape.receivers {
        let passed = passed_place(first_passed, r);
        receivers.push(Reader::new(shape.senders, log, Reg(0), shape.log_words, passed))?;
    }
    Ok(receivers)
}
