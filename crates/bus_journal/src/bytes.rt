//! Words as bytes, and checksums.

ghost use Rattle.std.specs.Prelude.{◌≡◌, ◌%◌, ◌<◌, ◌≤◌, ◌^◌, ◌↔◌, ℕ, List, ◌++◌, length, take};
ghost use Rattle.std.specs.Prelude.{drop, All, OnOk, OnSome, IfSome, IfNone, IsTrue};
ghost use Rattle.std.specs.Int.{w64, from_be_bytes};
ghost use Rattle.sha2.specs.Sha256.{sha256};
ghost use Rattle.bus_journal.specs.Format.{word_bytes, words_bytes, checksum};

use sha2::{Digest, Sha256};
use std::alloc::AllocError;

/// The checksum of a header's bytes.
pub(crate) fn checksum_of(bytes: &[u8]) -> [u8; 8]
    ensures { result ≡ checksum bytes.now }
{
    sealed(Sha256::digest(bytes))
}

/// The checksum of a record: over its place, and then its bytes.
pub(crate) fn checksum_at(place: u64, bytes: &[u8]) -> [u8; 8]
    ensures { result ≡ checksum (word_bytes place ++ bytes.now) }
{
    let mut hasher = Sha256::new();
    hasher.update(place.to_be_bytes());
    hasher.update(bytes);
    sealed(hasher.finalize())
}

/// The first eight bytes of a digest, the last one with its two lowest bits set.
fn sealed(digest: [u8; 32]) -> [u8; 8]
    ensures { (bytes : List ℕ) → digest ≡ sha256 bytes → result ≡ checksum bytes }
{
    [
        digest[0],
        digest[1],
        digest[2],
        digest[3],
        digest[4],
        digest[5],
        digest[6],
        digest[7] / 4 * 4 + 3,
    ]
}

/// Appends words. Where memory is refused, some of their bytes may have been appended.
pub(crate) fn push_words(out: &mut Vec<u8>, words: &[u64]) -> Result<(), AllocError>
    ensures ok { OnOk result (out.new.items ≡ out.old.items ++ words_bytes words.now) }
    ensures kept { take (length out.old.items) out.new.items ≡ out.old.items }
{
    for word in words {
        out.extend_from_slice(&word.to_be_bytes())?;
    }
    Ok(())
}

/// The first eight bytes as a word.
pub(crate) fn first_word(bytes: &[u8]) -> Option<u64>
    ensures some { IfSome result (λ word. bytes.now ≡ word_bytes word ++ drop 8 bytes.now) }
    ensures fits { IfSome result (λ word. word < 2 ^ 64) }
    ensures long { OnSome result (8 ≤ length bytes.now) }
    ensures none { IfNone result (length bytes.now < 8) }
{
    if bytes.len() < 8 {
        return None;
    }
    Some(word_of(bytes))
}

/// Whether bytes are the same.
pub(crate) fn are_same(a: &[u8], b: &[u8]) -> bool
    ensures { IsTrue result ↔ (a.now ≡ b.now) }
{
    a == b
}

/// The number that the first eight bytes are.
fn word_of(bytes: &[u8]) -> u64
    requires { 8 ≤ length bytes.now }
    ensures { result ≡ from_be_bytes w64 (take 8 bytes.now) }
{
    let (front, _rest) = bytes.split_at(8);
    u64::from_be_bytes([
        front[0], front[1], front[2], front[3], front[4], front[5], front[6], front[7],
    ])
}

/// Appends the words that bytes are. Where memory is refused, some of them may have been appended.
pub(crate) fn push_words_of(words: &mut Vec<u64>, bytes: &[u8]) -> Result<(), AllocError>
    requires { length bytes.now % 8 ≡ 0 }
    ensures { OnOk result ((more : List ℕ) × (bytes.now ≡ words_bytes more)
        × All (λ word. word < 2 ^ 64) more × (words.new.items ≡ words.old.items ++ more)) }
{
    let mut rest = bytes;
    while let Some(word) = first_word(rest) {
        words.push(word)?;
        rest = &rest[8..];
    }
    Ok(())
}
