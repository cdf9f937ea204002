//! Numbers in digits.

ghost use Rattle.std.specs.Prelude.{◌≡◌};
ghost use Rattle.bus_script.specs.Grammar.{number_of};

/// The number that a word is: digits without a sign or leading zeros, at most `u64::MAX`.
pub fn number_of(word: &[u8]) -> Option<u64>
    ensures { result ≡ number_of word.now }
{
    if word.is_empty() || (word.len() > 1 && word[0] == b'0') {
        return None;
    }
    let mut value = 0u64;
    for byte in word {
        if !byte.is_ascii_digit() {
            return None;
        }
        value = value.checked_mul(10)?.checked_add(u64::from(*byte - b'0'))?;
    }
    Some(value)
}
