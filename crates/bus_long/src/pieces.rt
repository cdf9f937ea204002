//! A long message, cut into pieces.

ghost use Rattle.std.specs.Prelude.{◌≡◌, ◌↔◌, ◌<◌, ◌≤◌, ◌∷◌, ◌++◌, [], length, IsSome, IfSome};
ghost use Rattle.bus_long.specs.Pieces.{pieces};

use arrayvec::ArrayVec;
use bus_batch::Message;
use bus_register::limits::MOST_BYTES;

/// Bytes of a long message in one piece: a byte before them says how many pieces follow.
pub const PIECE_BYTES: usize = MOST_BYTES - 1;

/// Pieces of a long message: at most 16.
pub const MOST_PIECES: usize = 16;

/// Bytes of a long message: at most 880, which are 16 pieces of 55.
pub const MOST_LONG_BYTES: usize = MOST_PIECES * PIECE_BYTES;

/// The pieces of a long message: those before the last, and the last.
#[derive(Drop)]
pub struct Parts {
    pub before: ArrayVec<Message, MOST_PIECES>,
    pub last: Message,
}

/// Cuts bytes into the pieces of a long message; none where they are more than 880.
pub fn cut(bytes: &[u8]) -> Option<Parts>
    ensures fits { IsSome result ↔ (length bytes.now ≤ MOST_LONG_BYTES) }
    ensures pieces { IfSome result
        (λ parts. parts.before.items ++ parts.last ∷ [] ≡ pieces bytes.now) }
    ensures few { IfSome result (λ parts. length parts.before.items < MOST_PIECES) }
{
    if bytes.len() > MOST_LONG_BYTES {
        return None;
    }
    let mut before = ArrayVec::new();
    let mut rest = bytes;
    while rest.len() > PIECE_BYTES {
        let follow = (rest.len() - 1) / PIECE_BYTES;
        let (front, behind) = rest.split_at(PIECE_BYTES);
        before.push(piece(follow as u8, front));
        rest = behind;
    }
    Some(Parts {
        before,
        last: piece(0, rest),
    })
}

/// The piece of these bytes, which so many follow.
fn piece(follow: u8, bytes: &[u8]) -> Message
    requires { length bytes.now ≤ PIECE_BYTES }
    ensures { result ≡ follow ∷ bytes.now }
{
    let mut piece = [follow; MOST_BYTES];
    piece[1..=bytes.len()].copy_from_slice(bytes);
    match Message::of_bytes(&piece[..=bytes.len()]) {
        Some(message) => message,
        None => unreachable!(),
    }
}
