//! What receivers were given, held against what the bus left behind.

ghost use Rattle.std.specs.Prelude.{◌≡◌, ◌<◌, All, None, IfSome, OnOk, IfErr};
ghost use Rattle.bus_run.specs.Audit.{OfOrder, IsSpelled, CountsBelow, Miscounts, IsFair};
ghost use Rattle.bus_run.specs.Audit.{IsFirstFault, AllStay, IsFirstLeaver};

use bus_pageslot::Ended;
use bus_receiver::Heard;
use bus_register::SenderNo;
use bus_register::limits::MOST_SENDERS;

/// The first receiver that was given something else than all, and what; of a receiver's own faults
/// the count comes first. Behind them, that a sender has left.
#[derive(Clone, Copy, Debug, PartialEq, Eq)]
pub enum AuditFault {
    /// It took more or fewer items of the sender, the lowest of those.
    Count { receiver: u64, sender: u64 },
    /// It was not given the end.
    NotEnded { receiver: u64 },
    /// The order has a leave mark of the sender, the lowest of those that have left.
    Left { sender: u64 },
}

/// Holds what each receiver noted against what the bus left behind. Nobody may have left. The order
/// stands whole: no word of the log was used again.
pub fn audit(ended: &Ended, heards: &[Heard]) -> Result<(), AuditFault>
    requires whole { ended.now.floor ≡ 0 }
    ensures ok { OnOk result (OfOrder ended.now (λ order. All (IsFair order) heards.now)) }
    ensures stay { OnOk result (OfOrder ended.now AllStay) }
    ensures fault { IfErr result
        (λ fault. OfOrder ended.now (λ order. IsFirstFault order heards.now fault)) }
    ensures spelled { IsSpelled ended.now }
{
    let _any = ended.count(SenderNo(0));
    for (place, heard) in heards.iter().enumerate() {
        let receiver = place as u64;
        if let Some(sender) = first_miscount(ended, heard) {
            return Err(AuditFault::Count { receiver, sender });
        }
        if !heard.ended() {
            return Err(AuditFault::NotEnded { receiver });
        }
    }
    if let Some(sender) = first_leaver(ended) {
        return Err(AuditFault::Left { sender });
    }
    Ok(())
}

/// The lowest sender below `MOST_SENDERS` whose items the listener did not count. The order stands
/// whole.
fn first_miscount(ended: &Ended, heard: &Heard) -> Option<u64>
    requires whole { ended.now.floor ≡ 0 }
    ensures none { result ≡ None
        → OfOrder ended.now (λ order. CountsBelow MOST_SENDERS order heard.now) }
    ensures some { IfSome result (λ sender. (sender < MOST_SENDERS)
        × OfOrder ended.now (λ order. Miscounts order heard.now sender)) }
{
    for number in 0..MOST_SENDERS as u8 {
        let sender = SenderNo(number);
        if heard.count(sender) != ended.count(sender) {
            return Some(u64::from(number));
        }
    }
    None
}

/// The lowest sender below `MOST_SENDERS` that has left. The order stands whole.
fn first_leaver(ended: &Ended) -> Option<u64>
    requires whole { ended.now.floor ≡ 0 }
    ensures none { result ≡ None → OfOrder ended.now AllStay }
    ensures some { IfSome result (λ sender. (sender < MOST_SENDERS)
        × OfOrder ended.now (λ order. IsFirstLeaver order sender)) }
{
    let page = ended.page();
    for number in 0..MOST_SENDERS {
        if page.left[number] {
            return Some(number as u64);
        }
    }
    None
}
