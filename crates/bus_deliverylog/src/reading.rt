//! A whole log, read.

ghost use Rattle.std.specs.Prelude.{◌≡◌, ◌≢◌, ℕ, List, ◌++◌, ◌||◌, IfOk};
ghost use Rattle.std.specs.Prelude.{IfErr, OnOk, MatchResult, Err};
ghost use Rattle.bus_batch.specs.Frames.{Spells, BeginsLog, piece_entries, piece_owners, is_end};
ghost use Rattle.bus_deliverylog.specs.Orders.{order_held, HasPlaces};
ghost use Rattle.bus_deliverylog.specs.Logs.{Reads, IsFirstBad, IsTorn, StopsAtGood};

use crate::orders::{LogFault, LogRead, Order};
use bus_batch::{BadWord, FrameReader, Piece};
use std::alloc::Global;

/// Reads the words of a log of so many senders.
pub fn read_log(alloc: Global, words: &[u64], senders: u64) -> Result<LogRead, LogFault>
    ensures read { IfOk result
        (λ read. Spells senders words.now (order_held read.order) read.owners.items) }
    ensures places { IfOk result (λ read. HasPlaces read.order) }

    // Of the words of a log it tells just what they spell, unless memory is refused.
    ensures exact { (order : _) (owners : _) → Spells senders words.now order owners
        → MatchResult result (λ read. (order_held read.order ≡ order)
        × (read.owners.items ≡ owners)) (λ fault. fault ≡ LogFault.NoMemory) }

    ensures bad { (place : _) → result ≡ Err (LogFault.BadWord place)
        → IsFirstBad senders words.now place }
    ensures torn { result ≡ Err LogFault.Torn → IsTorn senders words.now }
    ensures no_memory { result ≡ Err LogFault.NoMemory → StopsAtGood senders words.now }
{
    let (read, reader) = read_words(alloc, words, senders)?;
    if reader.inside() {
        return Err(LogFault::Torn);
    }
    Ok(read)
}

/// Reads words up to the first bad one, and gives their reader too. Torn is none of its faults.
pub(crate) fn read_words(
    alloc: Global,
    words: &[u64],
    senders: u64,
) -> Result<(LogRead, FrameReader), LogFault>
    ensures read { IfOk result
        (λ done. Reads senders words.now done.1 (order_held done.0.order) done.0.owners.items) }
    ensures places { IfOk result (λ done. HasPlaces done.0.order) }
    ensures begins { BeginsLog senders words.now
        → IfErr result (λ fault. fault ≡ LogFault.NoMemory) }
    ensures bad { (place : _) → result ≡ Err (LogFault.BadWord place)
        → IsFirstBad senders words.now place }
    ensures torn { result ≢ Err LogFault.Torn }
    ensures no_memory { result ≡ Err LogFault.NoMemory → StopsAtGood senders words.now }
{
    let mut reader = FrameReader::new(senders);
    let mut read = LogRead {
        order: Order::new(alloc),
        owners: Vec::new(alloc),
    };
    for (place, word) in words.iter().enumerate() {
        match reader.feed(*word) {
            Ok(found) => note(&mut read, found)?,
            Err(BadWord) => return Err(LogFault::BadWord {
                place: place as u64,
            }),
        }
    }
    Ok((read, reader))
}

/// Notes what a word gave.
fn note(read: &mut LogRead, found: Option<Piece>) -> Result<(), LogFault>
    requires { HasPlaces read.old.order }
    ensures places { HasPlaces read.new.order }
    ensures entries { OnOk result ((order_held read.new.order).entries
        ≡ (order_held read.old.order).entries ++ piece_entries found) }
    ensures ended { OnOk result (read.new.order.ended ≡ (read.old.order.ended || is_end found)) }
    ensures owners { OnOk result
        (read.new.owners.items ≡ read.old.owners.items ++ piece_owners found) }
    ensures only { IfErr result (λ fault. fault ≡ LogFault.NoMemory) }
{
    match found {
        None => {}
        Some(Piece::Head { tenure, owner }) => {
            if read.owners.push((tenure, owner)).is_err() {
                return Err(LogFault::NoMemory);
            }
        }
        Some(Piece::Item(item)) => {
            if read.order.push(item).is_err() {
                return Err(LogFault::NoMemory);
            }
        }
        Some(Piece::Leave(sender)) => {
            if read.order.leave(sender).is_err() {
                return Err(LogFault::NoMemory);
            }
        }
        Some(Piece::End) => read.order.ended = true,
    }
    Ok(())
}
