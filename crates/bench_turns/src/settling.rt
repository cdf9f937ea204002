//! The end of a sitting: what each worker knows has to go with its order, and with how the bus
//! ends.

ghost use Rattle.std.specs.Prelude.{◌≡◌, Some};

use crate::hearers::Hearer;
use crate::orders::{Facts, Whole, have_heard, have_left};
use crate::rings::Rings;
use crate::storms::{Load, Sitting, Tale};
use crate::turn_receivers::{Passed, TurnReceiver};
use crate::workers::{Rest, Teller};
use anyhow::{bail, ensure};
use bus_deliverylog::{LogRead, read_log};
use bus_pageslot::OfBus;
use bus_receiver::{EndFault, Ended, Heard, Page, SenderNo, Turn};
use bus_register::limits::{MOST_RECEIVERS, MOST_SENDERS};
use bus_run::audits::audit;
use bus_run::buses::{Tap, TheBus};
use std::alloc::{AllocError, Global};

/// So many numbers receivers have at most.
const SEATS: usize = MOST_RECEIVERS as usize;

/// Ends the sitting. The words of its log that stand are read by the receiver that has passed
/// least. So its order is what that one was given before, and what these say.
pub fn settle<B: OfBus>(
    alloc: Global,
    the: TheBus<B>,
    mut tellers: Vec<Teller<B>>,
    mut hearers: Vec<Hearer<B>>,
    load: Load,
) -> anyhow::Result<Sitting> {
    let Some((slowest, floor)) = slowest_of(&hearers) else {
        bail!("no receiver is there");
    };
    let words = words_from(alloc, &the, &mut hearers, slowest, floor)?;
    let length = floor.words.saturating_add(words.len() as u64);
    let read = read_log(alloc, words.as_slice(), load.senders)?;
    let facts = facts_of(alloc, &hearers, (slowest, floor), read, &tellers, load)?;
    have_told(facts.nexts, &tellers)?;
    have_waited(&tellers)?;
    have_room(&the, &mut tellers, words.len() as u64, load)?;
    have_forked(&hearers, load)?;
    let rings = rings_of(&tellers, &hearers, length, load);
    let tale = tale_of(&facts, &tellers, &hearers, load, rings);
    let Some(ended) = end(alloc, the, hearers, load, tale)? else {
        return Ok(Sitting { tale, page: None });
    };
    let is_same = ended.log() == words.as_slice() && ended.floor() == floor.words;
    ensure!(is_same, "the log left is another");
    let page = page_of(&ended, &facts, load, length)?;
    Ok(Sitting { tale, page })
}

/// Where the first of the receivers stands that have passed least, of those that have not left, and
/// which worker holds it.
fn slowest_of<B: OfBus>(hearers: &[Hearer<B>]) -> Option<(usize, Passed)> {
    let mut least: Option<(usize, Passed)> = None;
    for (place, hearer) in hearers.iter().enumerate() {
        let before = match least {
            Some((_, floor)) => floor.words,
            None => u64::MAX,
        };
        match hearer.floor() {
            Some(floor) if floor.words < before => least = Some((place, floor)),
            _ => {}
        }
    }
    least
}

/// The words of the log from this place on, loaded by a receiver of this worker that has passed it.
fn words_from<B: OfBus>(
    alloc: Global,
    the: &TheBus<B>,
    hearers: &mut [Hearer<B>],
    slowest: usize,
    floor: Passed,
) -> Result<Vec<u64>, AllocError> {
    match hearers.get_mut(slowest) {
        Some(hearer) => hearer.words(alloc, the, floor.words),
        None => Ok(Vec::new(alloc)),
    }
}

/// What the order says of the page, with which each worker has to go. The beginning of the order is
/// what the slowest receiver was given, and the rest was read.
fn facts_of<B: OfBus>(
    alloc: Global,
    hearers: &[Hearer<B>],
    (slowest, floor): (usize, Passed),
    read: LogRead,
    tellers: &[Teller<B>],
    load: Load,
) -> anyhow::Result<Facts> {
    let Some(first) = hearers.get(slowest) else {
        bail!("no receiver is there");
    };
    let whole = Whole::new(alloc, &first.notes, floor.before, read)?;
    have_heard(&whole, hearers)?;
    have_left(&whole, tellers)?;
    whole.facts(load)
}

/// Ends the bus by a receiver that has not left: it leaves something behind, unless its page is
/// out. Where all was sent and no sender left, what each receiver heard is held against that.
fn end<B: OfBus>(
    alloc: Global,
    the: TheBus<B>,
    mut hearers: Vec<Hearer<B>>,
    load: Load,
    tale: Tale,
) -> anyhow::Result<Option<Ended>> {
    let is_cut = tale.is_whole || !load.is_calm || tale.gave_up > 0;
    ensure!(is_cut, "nobody stopped, and something is missing");
    let Some(tap) = take_tap(&mut hearers) else {
        bail!("no receiver is there");
    };
    let left = end_with(the, tap, tale.is_out)?;
    if tale.is_whole && tale.left == 0 {
        let Some(ended) = &left else {
            bail!("all was sent, and the page is out");
        };
        hold_against(alloc, ended, hearers, load)?;
    }
    Ok(left)
}

/// The tap of the first receiver that has not left.
fn take_tap<B: OfBus>(hearers: &mut [Hearer<B>]) -> Option<Tap>
    ensures { (held : _) → result ≡ Some held → held.table_id ≡ B.table }
{
    for hearer in hearers.iter_mut() {
        if let Some(tap) = hearer.take_tap() {
            return Some(tap);
        }
    }
    None
}

/// Ends the bus by this tap.
fn end_with<B: OfBus>(the: TheBus<B>, tap: Tap, is_out: bool) -> anyhow::Result<Option<Ended>>
    requires { tap.table_id ≡ B.table }
{
    match the.into_bus().end(tap) {
        Ok(ended) => {
            ensure!(!is_out, "the bus ended with its page out");
            Ok(Some(ended))
        }
        Err(EndFault::PageOut) => {
            ensure!(is_out, "the page is home, and the bus did not end");
            Ok(None)
        }
    }
}

/// Holds what each receiver that has not left heard against what the bus left behind.
fn hold_against<B: OfBus>(
    alloc: Global,
    ended: &Ended,
    hearers: Vec<Hearer<B>>,
    load: Load,
) -> anyhow::Result<()> {
    let mut heards = Vec::with_capacity(alloc, hearers.len())?;
    for hearer in hearers {
        let Hearer {
            receivers,
            rest,
            ..
        } = hearer;
        if rest != Some(Rest::Left) {
            for receiver in receivers {
                let TurnReceiver { heard, .. } = receiver;
                heards.push(heard)?;
            }
        }
    }
    all_sent(ended, load)?;
    for heard in heards.iter() {
        has_counted(ended, heard)?;
    }
    audit_whole(ended, heards.as_slice())
}

/// Audits what receivers heard, where the whole order stands.
fn audit_whole(ended: &Ended, heards: &[Heard]) -> anyhow::Result<()> {
    if ended.floor() == 0
        && let Err(fault) = audit(ended, heards)
    {
        bail!("{fault:?}");
    }
    Ok(())
}

/// Sees that a receiver counted as many items of each sender as it has in the whole order, and was
/// given the end.
fn has_counted(ended: &Ended, heard: &Heard) -> anyhow::Result<()> {
    for number in 0..MOST_SENDERS as u8 {
        let sender = SenderNo(number);
        let is_same = heard.count(sender) == ended.count(sender);
        ensure!(is_same, "a receiver counted others");
    }
    ensure!(heard.ended(), "a receiver was not given the end");
    Ok(())
}

/// Sees that each sender has all its messages in the order that the bus left behind.
fn all_sent(ended: &Ended, load: Load) -> anyhow::Result<()> {
    for number in 0..MOST_SENDERS as u8 {
        if u64::from(number) < load.senders {
            let has_all = ended.count(SenderNo(number)) == load.messages;
            ensure!(has_all, "messages of a sender are missing");
        }
    }
    Ok(())
}

/// The page that the bus left, where its order has ended. The numbers of each sender have to begin
/// with those that the sitting went on with, and to go on behind its items.
fn page_of(ended: &Ended, facts: &Facts, load: Load, length: u64) -> anyhow::Result<Option<Page>> {
    let page = *ended.page();
    let bases = load.bases();
    for number in 0..MOST_SENDERS as u8 {
        let is_base = ended.base(SenderNo(number)) == bases[usize::from(number)];
        ensure!(is_base, "a sender began with another number");
    }
    ensure!(page.next == facts.nexts, "the page has other numbers");
    ensure!(page.ended == facts.ended, "the page has another end");
    ensure!(
        page.left == facts.left,
        "the page has others that have left"
    );
    let has_words = page.words == length && page.floor <= ended.floor();
    ensure!(has_words, "the page has other words");
    ensure!(
        page.tenures >= facts.last_tenure,
        "the page has other tenures"
    );
    Ok(if page.ended { Some(page) } else { None })
}

/// What came of the sitting with this order.
fn tale_of<B: OfBus>(
    facts: &Facts,
    tellers: &[Teller<B>],
    hearers: &[Hearer<B>],
    load: Load,
    rings: Rings,
) -> Tale {
    let has_sent = tellers.iter().all(|teller| teller.has_sent());
    let while_pinned = tellers
        .iter()
        .filter(|teller| teller.stopped_while_pinned());
    let with_page = tellers.iter().filter(|teller| teller.has_page);
    Tale {
        sittings: 1,
        stops: count(tellers, hearers, Rest::Stopped),
        stops_while_pinned: while_pinned.count() as u64,
        behinds: tellers
            .iter()
            .fold(0u64, |sum, teller| sum.saturating_add(teller.behinds)),
        gave_up: count(tellers, hearers, Rest::GaveUp),
        stuck: with_page.filter(|teller| teller.waited_too_long()).count() as u64,
        left: tellers.iter().filter(|teller| teller.has_left).count() as u64,
        forks: hearers
            .iter()
            .fold(0u64, |sum, hearer| sum.saturating_add(hearer.forks)),
        is_out: tellers.iter().any(|teller| teller.has_page),
        is_calm: load.is_calm,
        is_whole: load.is_calm && has_sent && facts.ended,
        items: facts.items,
        last_tenure: facts.last_tenure,
        rings,
    }
}

/// What came of it where its log is a ring.
fn rings_of<B: OfBus>(
    tellers: &[Teller<B>],
    hearers: &[Hearer<B>],
    length: u64,
    load: Load,
) -> Rings {
    let Some(words) = load.ring else {
        return Rings::none();
    };
    let mut rings = Rings {
        rings: 1,
        times_over: length / words.max(1),
        fulls: tellers
            .iter()
            .fold(0u64, |sum, teller| sum.saturating_add(teller.fulls)),
        without_room: u64::from(tellers.iter().any(|teller| teller.lacks_room)),
        ..Rings::none()
    };
    for hearer in hearers {
        rings.gone = rings.gone.saturating_add(hearer.gone);
        rings.forks = rings.forks.saturating_add(hearer.forks);
        rings.refused = rings.refused.saturating_add(hearer.refused);
        if hearer.rest == Some(Rest::Stopped) {
            let held = hearer.receivers.len() as u64;
            rings.stops = rings.stops.saturating_add(held);
        }
    }
    rings
}

/// How many workers rest for this reason.
fn count<B: OfBus>(tellers: &[Teller<B>], hearers: &[Hearer<B>], rest: Rest) -> u64 {
    let senders = tellers.iter().filter(|t| t.rest == Some(rest)).count();
    resting(hearers, rest).saturating_add(senders as u64)
}

/// How many workers that hear rest for this reason.
fn resting<B: OfBus>(hearers: &[Hearer<B>], rest: Rest) -> u64 {
    hearers.iter().filter(|l| l.rest == Some(rest)).count() as u64
}

/// Each sender has in the order what it was told, and nothing that it has not put; and just what it
/// was told where it has not the page.
fn have_told<B: OfBus>(nexts: [u64; MOST_SENDERS], tellers: &[Teller<B>]) -> anyhow::Result<()> {
    for teller in tellers {
        let sender = &teller.send_worker.sender;
        let next = nexts
            .get(usize::from(sender.number().0))
            .copied()
            .unwrap_or(0);
        let most = if teller.has_page {
            sender.next_number()
        } else {
            teller.delivered
        };
        ensure!(
            next >= teller.delivered,
            "a message that was delivered is missing"
        );
        ensure!(next <= most, "a message stands in the log too early");
    }
    Ok(())
}

/// Each sender that waited too long was last answered Behind where it has the page, and where it
/// has not Waiting, or Full of a ring. Whom it was behind has not done all: it stopped or gave up.
fn have_waited<B: OfBus>(tellers: &[Teller<B>]) -> anyhow::Result<()> {
    for teller in tellers.iter().filter(|teller| teller.waited_too_long()) {
        match teller.last {
            Some(Turn::Behind { sender, .. }) => {
                ensure!(teller.has_page, "a sender without the page is behind");
                ensure!(drops_out(tellers, sender), "one that is done is waited for");
            }
            Some(Turn::Waiting) => ensure!(!teller.has_page, "one with the page waits for it"),
            Some(Turn::Full) => ensure!(teller.lacks_room, "a full log that is no ring waits"),
            _ => bail!("a sender that had something to do has waited too long"),
        }
    }
    Ok(())
}

/// The sender of this number stopped or gave up.
fn drops_out<B: OfBus>(tellers: &[Teller<B>], number: SenderNo) -> bool {
    tellers
        .iter()
        .filter(|teller| teller.send_worker.sender.number() == number)
        .any(|teller| matches!(teller.rest, Some(Rest::Stopped | Rest::GaveUp)))
}

/// Each sender that was answered Full, of a ring, finds room now just where its frame fits beside
/// so many words that stand.
fn have_room<B: OfBus>(
    the: &TheBus<B>,
    tellers: &mut [Teller<B>],
    stand: u64,
    load: Load,
) -> anyhow::Result<()> {
    let Some(words) = load.ring else {
        return Ok(());
    };
    for teller in tellers.iter_mut() {
        let fits = stand.saturating_add(teller.frame_words()) <= words;
        let is_same = !teller.lacks_room || teller.has_room(the) == fits;
        ensure!(is_same, "a look finds other room");
    }
    Ok(())
}

/// Of a ring no two receivers have one number. Of another bus no fork was refused.
fn have_forked<B: OfBus>(hearers: &[Hearer<B>], load: Load) -> anyhow::Result<()> {
    let mut taken = [false; SEATS];
    for hearer in hearers {
        let is_right = hearer.refused == 0 || load.ring.is_some();
        ensure!(is_right, "a fork was refused on a bus that is no ring");
        for receiver in hearer.receivers.iter() {
            if let Some(number) = receiver.seat() {
                take_seat(&mut taken, number)?;
            }
        }
    }
    Ok(())
}

/// Takes this number, which nobody may have.
fn take_seat(taken: &mut [bool; SEATS], number: u64) -> anyhow::Result<()> {
    let Some(is_taken) = taken.get_mut(number as usize) else {
        bail!("a receiver has no number of the ring");
    };
    ensure!(!*is_taken, "two receivers have one number");
    *is_taken = true;
    Ok(())
}
