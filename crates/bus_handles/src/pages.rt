//! The page of a sitting whose order has ended, by the senders that are left of it.

ghost use Rattle.std.specs.Prelude.{Some, IfOk, IfErr};
ghost use Rattle.bus_automaton.specs.Buses.{process_by};
ghost use Rattle.bus_handles.specs.Pages.{IsPageOf, NoPageOf};
ghost use Rattle.bus_handles.specs.Texts.{no_page_text};

use crate::senders::SenderHandle;
use bus_adoptcommit::Ratifier;
use bus_receiver::Page;
use bus_register::SenderNo;
use bus_register::limits::MOST_SENDERS;
use rand_core::Rng;
use std::error::Error;
use std::fmt;

/// Why there is no page of an order that has ended.
#[derive(Clone, Copy, Debug, PartialEq, Eq)]
pub enum NoPage {
    /// The order has not ended: none of the senders has closed it.
    NotEnded,
    /// This sender was not answered Closed or Left yet, or its handle is not at its place.
    Unanswered(SenderNo),
}

impl Error for NoPage {}

impl fmt::Display for NoPage {
    ghost output = { λ why. Some (no_page_text why) };

    fn fmt<W: fmt::Write>(&self, f: &mut fmt::Formatter<W>) -> fmt::Result {
        f.write_str(match self {
            NoPage::NotEnded => "the order has not ended",
            NoPage::Unanswered(_) => "a sender was not answered that the order has ended",
        })
    }
}

/// The page of a sitting whose order has ended, by all senders of its bus and of no other, in their
/// order, once each was answered Closed or Left. So the next sitting can be opened while they are
/// kept, and `carry_to` puts there what waits with them. It has of each sender the number with
/// which that goes on, and that the order has ended; of tenures, words, the floor and who has left
/// it says nothing.
///
/// Unanswered names the first sender that may send still, or that is not at its place: all before
/// it are, and were answered so. NotEnded says that none of them has closed the order.
pub fn senders_page<Q: Ratifier + Drop, R: Rng + Drop>(
    senders: &[SenderHandle<Q, R>],
) -> Result<Page, NoPage>
    ensures page { IfOk result (IsPageOf (process_by Q.Ratifier) senders.now) }
    ensures fault { IfErr result (NoPageOf (process_by Q.Ratifier) senders.now) }
{
    if senders.is_empty() {
        return Err(NoPage::NotEnded);
    }
    let first = &senders[0];
    let many = senders.len().min(MOST_SENDERS);
    let mut next = first.bases();
    for place in 0..many {
        let sender = &senders[place];
        let number = SenderNo(place as u8);
        if sender.number() != number || !sender.is_closed() {
            return Err(NoPage::Unanswered(number));
        }
        next[place] = sender.goes_on_from();
    }
    let due = first.senders().min(MOST_SENDERS as u64);
    if (many as u64) < due {
        return Err(NoPage::Unanswered(SenderNo(many as u8)));
    }
    if !one_has_closed(senders) {
        return Err(NoPage::NotEnded);
    }
    Ok(Page {
        next,
        left: [false; MOST_SENDERS],
        ended: true,
        tenures: 0,
        words: 0,
        floor: 0,
    })
}

/// One of these senders has closed.
fn one_has_closed<Q: Ratifier + Drop, R: Rng + Drop>(senders: &[SenderHandle<Q, R>]) -> bool {
    for sender in senders {
        if sender.has_closed() {
            return true;
        }
    }
    false
}
