//! Who takes steps.

ghost use Rattle.std.specs.Prelude.{◌≡◌};
ghost use Rattle.bus_script.specs.Grammar.{number_of};
ghost use Rattle.bus_picture.specs.Processes.{below, process_with, process_of};

use bus_register::limits::{MOST_RECEIVERS, MOST_SENDERS};
use bus_script::{Words, number_of};

/// A sender or a receiver, by its number: below `MOST_SENDERS`, or below `MOST_RECEIVERS`.
#[derive(Clone, Copy, Debug, PartialEq, Eq)]
pub enum Process {
    Sender(u8),
    Receiver(u8),
}

/// The number that a word is, where it is below this one.
fn number_below(word: &[u8], most: u8) -> Option<u8>
    ensures { result ≡ below most (number_of word.now) }
{
    let number = number_of(word)?;
    if number < u64::from(most) {
        Some(number as u8)
    } else {
        None
    }
}

/// The sender or receiver of this number, where a bus can have one.
fn process_with(role: &[u8], number: &[u8]) -> Option<Process>
    ensures { result ≡ process_with role.now number.now }
{
    if role == b"sender".as_slice() {
        Some(Process::Sender(number_below(number, MOST_SENDERS as u8)?))
    } else if role == b"receiver".as_slice() {
        Some(Process::Receiver(number_below(number, MOST_RECEIVERS as u8)?))
    } else {
        None
    }
}

/// The process that the column of who names.
#[tactic(auto, unfolding(crate::specs::Processes::process_of))]
pub fn process_of(who: &str) -> Option<Process>
    ensures { result ≡ process_of who.now }
{
    let mut words = Words::new(who.as_bytes());
    let role = words.next_word()?;
    let number = words.next_word()?;
    if words.next_word().is_some() {
        return None;
    }
    process_with(role, number)
}
