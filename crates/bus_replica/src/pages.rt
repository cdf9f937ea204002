//! The page with which a sitting goes on behind a journal.

ghost use Rattle.std.specs.Prelude.{◌≡◌, ◌<◌, ℕ, Err, IfOk, OnOk, get_or, slice_index};
ghost use Rattle.bus_register.specs.declared.limits.TheConstants.{MOST_SENDERS};

use bus_batch::Item;
use bus_handles::Page;
use bus_journal::{JournalEnd, JournalRead};
use bus_register::limits::MOST_SENDERS;
use std::error::Error;
use std::fmt;

/// Why no page was made of a journal: the first of these that holds.
#[derive(Clone, Copy, Debug, PartialEq, Eq)]
pub enum GoOnFault {
    /// It is damaged, so whole frames of it may be missing in what it told.
    Damaged,
    /// Its first numbers are not those of the page before it: a file is missing or comes twice, or
    /// two programs ran at once.
    Gap,
}

impl Error for GoOnFault {}

impl fmt::Display for GoOnFault {
    fn fmt<W: fmt::Write>(&self, f: &mut fmt::Formatter<W>) -> fmt::Result {
        f.write_str(match self {
            GoOnFault::Damaged => "a journal that is damaged",
            GoOnFault::Gap => "a journal that does not go on from the page before",
        })
    }
}

ghost use Rattle.std.specs.Option.{option_copied};
ghost use Rattle.bus_replica.specs.declared.pages.GoOnFault.TheVariants as fault;
ghost use Rattle.bus_replica.specs.Pages.{FollowsPage, IsPageBehind, MayMissFrames, next_behind};
ghost use Rattle.bus_replica.specs.Pages.{next_before, next_behind_one};

/// The page with which the next sitting goes on, where `before` is that of the sittings before this
/// one, if there were any: of each sender the number behind the greatest one that the journal told,
/// or its first one, or that of `before` where the journal has no such sender. A journal that is
/// damaged is refused, also where it looks torn and a whole record stands behind; then one whose
/// first numbers are not those of `before`; and nothing else is.
///
/// What a torn end has lost was on disk for nobody, or is a last record whose head was changed,
/// which looks the same. It is passed over, and its numbers are given again. Of several journals
/// ask it of each, in their order, before that is replayed.
pub fn page_after(before: Option<&Page>, read: &JournalRead) -> Result<Page, GoOnFault>
    ensures page { IfOk result (IsPageBehind (option_copied before.entry) read.now) }
    ensures whole { OnOk result (¬ MayMissFrames read.now) }
    ensures next { OnOk result (FollowsPage (option_copied before.entry) read.now) }
    ensures damaged { result ≡ Err fault.Damaged → MayMissFrames read.now }
    ensures gap { result ≡ Err fault.Gap
        → (¬ MayMissFrames read.now) × (¬ FollowsPage (option_copied before.entry) read.now) }
{
    if read.hides || read.end == JournalEnd::Damaged {
        return Err(GoOnFault::Damaged);
    }
    if let Some(page) = before {
        if !page.next.starts_with(&read.header.first) {
            return Err(GoOnFault::Gap);
        }
    }
    let next = numbers_before(before);
    Ok(Page {
        next: numbers_behind(next, &read.header.first, &read.log.order.items),
        left: [false; MOST_SENDERS],
        ended: true,
        tenures: 0,
        words: 0,
        floor: 0,
    })
}

/// The next numbers of the page before, 0 where there is none.
fn numbers_before(before: Option<&Page>) -> [u64; MOST_SENDERS]
    ensures { (sender : ℕ) → sender < MOST_SENDERS
        → slice_index result sender ≡ next_before (option_copied before.entry) sender }
{
    match before {
        Some(page) => page.next,
        None => [0; MOST_SENDERS],
    }
}

/// The next number of each sender behind these items, where these were its first numbers, and
/// `before` those of a sender without one.
fn numbers_behind(before: [u64; MOST_SENDERS], first: &[u64], items: &[Item]) -> [u64; MOST_SENDERS]
    ensures { (sender : ℕ) → sender < MOST_SENDERS → slice_index result sender
        ≡ next_behind sender items.now (get_or first.now sender (slice_index before sender)) }
{
    let mut next = first_numbers(before, first);
    for item in items {
        note(&mut next, item);
    }
    next
}

/// The next number of an item's sender is behind it.
fn note(next: &mut [u64; MOST_SENDERS], item: &Item)
    ensures { (sender : ℕ) → sender < MOST_SENDERS → slice_index next.new sender
        ≡ next_behind_one sender item.now (slice_index next.old sender) }
{
    let sender = usize::from(item.sender.0);
    if sender < MOST_SENDERS {
        next[sender] = next[sender].max(item.number.saturating_add(1));
    }
}

/// The first number of each sender, and that of `before` where it has none.
fn first_numbers(before: [u64; MOST_SENDERS], first: &[u64]) -> [u64; MOST_SENDERS]
    ensures { (sender : ℕ) → sender < MOST_SENDERS → slice_index result sender
        ≡ get_or first.now sender (slice_index before sender) }
{
    let mut next = before;
    for sender in 0..MOST_SENDERS {
        if let Some(number) = first.get(sender) {
            next[sender] = *number;
        }
    }
    next
}
