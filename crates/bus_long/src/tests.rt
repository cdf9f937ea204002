//! Pieces that were worked out by the rule, cut and joined.

ghost use Rattle.std.specs.Prelude.{◌≤◌};

use super::*;
use std::test::*;

/// How many pieces so many bytes are cut into; 0 where they are too many.
fn pieces_of(len: usize) -> usize
    requires { len ≤ 900 }
{
    let bytes = [7; 900];
    match cut(&bytes[..len]) {
        Some(parts) => parts.before.len() + 1,
        None => 0,
    }
}

#[test]
fn pieces_say_how_many_follow(rt: HostRuntime) -> Result<(), Fail> {
    let mut bytes = [7; 56];
    bytes[55] = 9;
    let mut first = [7; 56];
    first[0] = 1;
    let Some(empty) = cut(b"") else {
        return Err(Fail::new("no pieces"));
    };
    assert_eq!(rt; empty.before.len(), 0);
    assert_eq!(rt; empty.last.as_slice(), [0].as_slice());
    let Some(two) = cut(&bytes) else {
        return Err(Fail::new("no pieces"));
    };
    assert_eq!(rt; two.before.len(), 1);
    for piece in two.before.as_slice() {
        assert_eq!(rt; piece.as_slice(), first.as_slice());
    }
    assert_eq!(rt; two.last.as_slice(), [0, 9].as_slice());
    Ok(())
}

#[test]
fn pieces_are_as_few_as_have_room(rt: HostRuntime) -> Result<(), Fail> {
    assert_eq!(rt; pieces_of(1), 1);
    assert_eq!(rt; pieces_of(55), 1);
    assert_eq!(rt; pieces_of(56), 2);
    assert_eq!(rt; pieces_of(825), 15);
    assert_eq!(rt; pieces_of(880), 16);
    assert_eq!(rt; pieces_of(881), 0);
    Ok(())
}

#[test]
fn messages_are_joined(rt: HostRuntime) -> Result<(), Fail> {
    let mut joiner = Joiner::new();
    let mut whole = [7; 57];
    whole[55] = 97;
    whole[56] = 98;
    let mut first = [7; 56];
    first[0] = 1;
    assert_eq!(rt; joiner.take(&first), Taken::Waits);
    assert_eq!(rt; joiner.take(b"\x00ab"), Taken::Joined);
    assert_eq!(rt; joiner.bytes(), whole.as_slice());
    assert_eq!(rt; joiner.take(b"\x00ab"), Taken::Rest);
    assert_eq!(rt; joiner.take(&first), Taken::Waits);
    first[0] = 16;
    assert_eq!(rt; joiner.take(&first), Taken::AsItIs);
    assert_eq!(rt; joiner.take(b"\x00"), Taken::Rest);
    assert_eq!(rt; joiner.take(b""), Taken::AsItIs);
    Ok(())
}
