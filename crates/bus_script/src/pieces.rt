//! The front of a text up to a byte.

ghost use Rattle.std.specs.Prelude.{◌≡◌, ◌<◌, ◌==◌, length, position, MatchOption};
ghost use Rattle.std.specs.List.{before_first, after_first, position_or_len};

/// Where the first `separator` stands.
fn first_at(bytes: &[u8], separator: u8) -> Option<usize>
    ensures { result ≡ position (λ b. b == separator) bytes.now }
{
    bytes.iter().position(|byte| *byte == separator)
}

/// What stands before the first `separator`, and what stands behind it where there is one.
pub fn split_at_first(bytes: &[u8], separator: u8) -> (&[u8], Option<&[u8]>)
    ensures front { result.0.now ≡ before_first (λ b. b == separator) bytes.now }
    ensures rest { MatchOption result.1
        (position_or_len (λ b. b == separator) bytes.now ≡ length bytes.now)
        (λ rest. (position_or_len (λ b. b == separator) bytes.now < length bytes.now)
        × (rest.now ≡ after_first (λ b. b == separator) bytes.now)) }
{
    match first_at(bytes, separator) {
        Some(at) => (&bytes[..at], Some(&bytes[at + 1..])),
        None => (bytes, None),
    }
}
