//! Which shapes are served, and how many words a bus of them has.

ghost use Rattle.std.specs.Prelude.{◌≡◌, ◌≢◌, ℕ, ◌<◌, ◌≤◌, ◌^◌, false};
ghost use Rattle.std.specs.Prelude.{IfErr, IfOk, IfSome, None, OnOk};
ghost use Rattle.std.specs.Prelude.{length, slice_index, true, IsTrue, ◌↔◌};
ghost use Rattle.std.specs.Option.{option_copied};
ghost use Rattle.bus_machine.specs.Playing.{IsServed, SizesRefused, IsBatch};
ghost use Rattle.bus_machine.specs.Playing.{least_rows as spec_least_rows};
ghost use Rattle.bus_machine.specs.Machine.{log_place};
ghost use Rattle.bus_machine.specs.Playing.{most_rows as spec_most_rows, ShapeOf};
ghost use Rattle.bus_machine.specs.Playing.{MayGoOn, MayNotGoOn, bases_after};
ghost use Rattle.bus_register.specs.declared.limits.TheConstants.{MOST_SENDERS};
ghost use Rattle.bus_world.specs.Log.{first_numbers as spec_numbers};
ghost use Rattle.bus_world.specs.World.{AreBases};
ghost use Rattle.bus_world.specs.declared.limits.TheConstants.{FIRST_NUMBERS};
ghost use Rattle.bus_world.specs.declared.shapes.MakeFault.TheVariants.{NoMemory};

use bus_core::limits::{LEAST_ROWS_AGAIN, MOST_ROWS_AGAIN};
use bus_register::limits::{
    LEAST_LOG_WORDS, LOG_MESSAGES, MOST_LOG_WORDS, MOST_MESSAGES, MOST_RECEIVERS, MOST_ROUNDS,
    MOST_ROWS, MOST_SENDERS, NUMBERS, TENURES,
};
use bus_tenure::Page;
use bus_world::limits::FIRST_NUMBERS;
use bus_world::{MakeFault, Shape};

/// The least number of rows: a row for each tenure, or rows that are used again.
pub fn least_rows(reuse: Option<u64>) -> u64
    ensures { result ≡ spec_least_rows reuse }
{
    match reuse {
        None => 1,
        Some(_) => LEAST_ROWS_AGAIN,
    }
}

/// The greatest number of rows.
pub fn most_rows(reuse: Option<u64>) -> u64
    ensures { result ≡ spec_most_rows reuse }
{
    match reuse {
        None => MOST_ROWS as u64,
        Some(_) => MOST_ROWS_AGAIN as u64,
    }
}

/// Why no bus of these sizes is served, whatever its batches; none where it is.
pub fn fault_of(shape: Shape, reuse: Option<u64>) -> Option<MakeFault>
    ensures fault { IfSome result (SizesRefused shape reuse) }
    ensures served { result ≡ None → IsServed shape reuse }
    ensures no_memory { IfSome result (λ why. why ≢ NoMemory) }
{
    if shape.senders < 1 || shape.senders > MOST_SENDERS as u64 {
        Some(MakeFault::Senders)
    } else if shape.receivers < 1 || shape.receivers > MOST_RECEIVERS {
        Some(MakeFault::Receivers)
    } else if shape.rounds < 1 || shape.rounds > MOST_ROUNDS {
        Some(MakeFault::Rounds)
    } else if shape.rows < least_rows(reuse) || shape.rows > most_rows(reuse) {
        Some(MakeFault::Rows)
    } else if shape.log_words < LEAST_LOG_WORDS || shape.log_words > MOST_LOG_WORDS {
        Some(MakeFault::LogWords)
    } else {
        None
    }
}

/// Whether a batch of a bus with so many passed places may have so many messages: 16 of a log that
/// is no ring, and so has none, and else 1 to 64.
fn is_batch(passers: u64, batch: u64) -> bool
    ensures { IsTrue result ↔ IsBatch passers batch }
{
    match passers {
        0 => batch == LOG_MESSAGES as u64,
        _ => 1 <= batch && batch <= MOST_MESSAGES as u64,
    }
}

/// Below this each sender's numbers begin in a sitting of a bus with so many passed places, and
/// such batches.
fn numbers_below(passers: u64, batch: u64) -> u64
    requires batch { IsBatch passers batch }
    ensures is { result ≡ spec_numbers passers batch }
    ensures some { 0 < result }
    ensures most { result ≤ FIRST_NUMBERS }
{
    match passers {
        0 => FIRST_NUMBERS,
        _ => NUMBERS - batch * (TENURES + 1),
    }
}

/// Whether each of these numbers is below that bound.
fn are_low(next: [u64; MOST_SENDERS], below: u64) -> bool
    requires some { 0 < below }
    ensures many { length next ≡ MOST_SENDERS }
    ensures low { result ≡ true → (s : ℕ) → slice_index next s < below }
    ensures high { result ≡ false
        → (s : ℕ) × (s < MOST_SENDERS) × (below ≤ slice_index next s) }
{
    for sender in 0..MOST_SENDERS {
        if next[sender] >= below {
            return false;
        }
    }
    true
}

/// The numbers that a sitting begins with, by sender: those of the page, if it goes on with one, of
/// which nothing else is carried over. They are low enough for a bus with so many passed places,
/// and such batches. Batch where a batch of such a bus may not have so many messages.
pub fn first_numbers(
    page: Option<&Page>,
    passers: u64,
    batch: u64,
) -> Result<[u64; MOST_SENDERS], MakeFault>
    ensures batch { OnOk result (IsBatch passers batch) }
    ensures bases { IfOk result (λ bases. bases ≡ bases_after (option_copied page.entry)) }
    ensures are { IfOk result (λ bases. AreBases bases) }
    ensures low { IfOk result (λ bases. (s : ℕ) → slice_index bases s
        < spec_numbers passers batch) }
    ensures follows { OnOk result (MayGoOn passers batch (option_copied page.entry)) }
    ensures fault { IfErr result (MayNotGoOn passers batch (option_copied page.entry)) }
{
    if !is_batch(passers, batch) {
        return Err(MakeFault::Batch);
    }
    let Some(page) = page else {
        return Ok([0; MOST_SENDERS]);
    };
    if !page.ended {
        return Err(MakeFault::NotEnded);
    }
    if !are_low(page.next, numbers_below(passers, batch)) {
        return Err(MakeFault::Numbers);
    }
    Ok(page.next)
}

/// Where the log begins, where a row has so many words.
pub fn log_word(shape: Shape, reuse: Option<u64>, width: u64) -> u64
    requires served { IsServed shape reuse }
    requires shape { ShapeOf shape reuse }
    requires width { width ≤ 2 ^ 16 }
    ensures at { result ≡ log_place record {
      senders = shape.senders;
      rounds = shape.rounds;
      rows = shape.rows;
      width = width;
      capacity = shape.log_words;
      passers = 0;
      batch = shape.batch;
    } reuse }
    ensures room { result ≤ 2 ^ 30 }
{
    match reuse {
        None => 2 + shape.rows * width,
        Some(rows) => 2 + shape.senders + rows * width,
    }
}
