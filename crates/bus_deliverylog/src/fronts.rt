//! The first words of a log, read.

ghost use Rattle.std.specs.Prelude.{◌≡◌, ◌≢◌, IfOk, IfErr, Err};
ghost use Rattle.bus_batch.specs.Frames.{BeginsLog};
ghost use Rattle.bus_deliverylog.specs.Orders.{order_held, HasPlaces};
ghost use Rattle.bus_deliverylog.specs.Logs.{IsFirstBad, HasGiven, StopsAtGood};

use crate::orders::{LogFault, LogRead};
use crate::reading::read_words;
use std::alloc::Global;

/// Reads words with which a log of so many senders begins, and which may end within a frame. Torn
/// is none of its faults.
pub fn read_front(alloc: Global, words: &[u64], senders: u64) -> Result<LogRead, LogFault>
    ensures read { IfOk result
        (λ read. HasGiven senders words.now (order_held read.order) read.owners.items) }
    ensures places { IfOk result (λ read. HasPlaces read.order) }
    ensures begins { BeginsLog senders words.now
        → IfErr result (λ fault. fault ≡ LogFault.NoMemory) }
    ensures bad { (place : _) → result ≡ Err (LogFault.BadWord place)
        → IsFirstBad senders words.now place }
    ensures torn { result ≢ Err LogFault.Torn }
    ensures no_memory { result ≡ Err LogFault.NoMemory → StopsAtGood senders words.now }
{
    let (read, _reader) = read_words(alloc, words, senders)?;
    Ok(read)
}
