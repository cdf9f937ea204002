//! Scripts of `replay` on a bus and a machine. The texts of most of them stand in `examples/`.

use crate::both::{Both, leave_the_same};
use crate::games::{Game, Seats, play_on};
use bus_adoptcommit::ThreeWord;
use bus_machine::World;
use bus_replay::commands::Command;
use bus_replay::lines::{FirstLine, command_of, first_of};
use bus_script::Lines;
use std::process::Abort;
use std::sync::Wait;
use std::thread::Threads;

/// The lines of a script behind its first, and then the machine to which they happened.
#[derive(Drop)]
struct Script<'s> {
    first: FirstLine,
    lines: Lines<'s>,
    world: Option<World<ThreeWord>>,
}

impl<'s> Game for Script<'s> {
    /// The lines happen to a bus and a machine, also behind one that is refused.
    fn play<R: Threads + Wait + Abort + AllocGlobal + Sync>(&mut self, rt: &R, seats: Seats<'_>) {
        let mut both = Both::new(rt, self.first, seats);
        for _ in 0..1_000 {
            let Some(line) = self.lines.next_line() else {
                break;
            };
            do_line(rt, &mut both, line.bytes);
        }
        let (world, _) = both.into_world();
        self.world = Some(world);
    }
}

/// Does what a line says.
fn do_line<R: Abort + AllocGlobal>(rt: &R, both: &mut Both<'_>, line: &[u8]) {
    let command = command_of(rt.alloc(), line).expect(rt, "memory");
    let Command::Play { event, times } = command.expect(rt, "a line") else {
        panic!(rt; "no line of these is a fork");
    };
    for _ in 0..times {
        if !both.take(rt, &event) {
            return;
        }
    }
}

/// The game of a script, whose first line asks for a bus.
fn game_of<'s>(rt: &impl Abort, script: &'s [u8]) -> Script<'s> {
    let mut lines = Lines::new(script);
    let first = lines.next_line().expect(rt, "a line");
    Script {
        first: first_of(first.bytes).expect(rt, "a first line"),
        lines,
        world: None,
    }
}

/// A script happens to a bus and a machine, which leave the same behind. Says whether the page is
/// at home.
fn plays<R: Threads + Wait + Abort + AllocGlobal + Sync>(rt: &R, script: &[u8]) -> bool {
    let mut game = game_of(rt, script);
    let left = play_on(rt, game.first, &mut game);
    leave_the_same(rt, &left, &game.world.expect(rt, "a machine"))
}

#[test]
fn scripts_of_a_bus_like_world(rt: HostRuntime) {
    for script in [
        ALONE,
        CLOSED,
        CANDIDATES,
        LATE,
        LAST_OF_ALL,
        BEFORE_THE_OTHER,
        FALLBACK,
        COINS,
        BEHIND,
        ROUND,
        LEAVES,
        LEAVES_AGAIN,
        REFUSALS,
    ] {
        plays(&rt, script);
    }
    assert!(rt; !plays(&rt, PAGE_OUT) && !plays(&rt, FOR_GOOD));
}

/// One sender is alone, and has the row of a second tenure left.
const ALONE: &[u8] = b"shape 1 2 1 2 64\nturn 0 0 1\nput 0 61\nturn 0 0 1\nput 0 62\nclose 0\n\
    turn 0 0 99\nturn 0 0 3\nrecv 0 99\nturn 0 0 1\nrecv 1 99\nturn 0 0 99\nturn 0 0 1\n";

/// A message, a close, and a message too late.
const CLOSED: &[u8] = b"shape 1 2 1 2 64\nput 0 61\nturn 0 0 20\nturn 0 0 20\nclose 0\n\
    turn 0 0 20\nturn 0 0 20\nput 0 62\nrecv 0 99\nrecv 0 1\n";

/// A sender stops with the page.
const PAGE_OUT: &[u8] = b"shape 2 1 4 256 65536\nput 1 61\nturn 1 0 1000\nstop 1\nturn 0 0 9\n";

/// A candidate changes while it is voted on. Sender 4 has no tenure left for its next message.
const CANDIDATES: &[u8] = b"shape 5 1 1 1 64\nput 1 61\nput 4 62\nturn 4 0 14\nturn 1 0 99\n\
    turn 4 0 99\nturn 4 0 99\nput 4 63\nturn 4 0 1\n";

/// A sender that comes late to an old tenure.
const LATE: &[u8] = b"shape 2 1 1 4 64\nput 0 61\nput 1 62\nturn 1 0 1\nturn 0 0 99\n\
    turn 0 0 99\nput 0 63\nturn 0 0 99\nturn 0 0 99\nturn 1 0 99\nturn 1 0 99\nturn 1 0 99\n\
    recv 0 99\n";

/// The last of as many senders as there can be.
const LAST_OF_ALL: &[u8] = b"shape 64 1 1 1 64\nput 63 62\nturn 63 0 99\nturn 63 0 99\n";

/// A ratifier takes four steps, and decides where nobody else has begun it. Who comes after finds
/// its proposal, so it takes three and the fallback.
const BEFORE_THE_OTHER: &[u8] = b"shape 2 1 1 1 64\nput 0 61\nput 1 62\nturn 0 0 2\nturn 1 0 2\n\
    turn 0 0 4\nturn 1 0 3\nturn 1 0 1\nturn 0 0 1\n";

/// Both have found no proposal before either stores one: neither commits, and the first at the
/// fallback decides.
const FALLBACK: &[u8] = b"shape 2 1 1 1 64\nput 0 61\nput 1 62\nturn 0 0 2\nturn 1 0 2\n\
    turn 0 0 2\nturn 1 0 2\nturn 0 0 2\nturn 1 0 3\nturn 0 0 1\nturn 1 0 1\n";

/// Both ask the coin. Sender 0 votes heads alone: after four votes, of two steps each, the coin
/// says 1, and its second ratifier commits that. Sender 1 votes tails alone: eight votes later the
/// coin says 0, but it finds 1 proposed in the ratifier, adopts that, and brings it to the
/// fallback.
const COINS: &[u8] = b"shape 2 1 2 1 64\nput 0 61\nput 1 62\nturn 0 0 2\nturn 1 0 2\n\
    turn 0 0 2\nturn 1 0 2\nturn 0 0 2\nturn 1 0 2\nturn 0 0 1\nturn 1 0 1\nturn 0 1 12\n\
    turn 0 1 1\nturn 1 0 20\nturn 1 0 1\nturn 1 0 1\n";

/// A holder waits for a sender that pins an old tenure, and goes on once that has seen it.
const BEHIND: &[u8] = b"cycle 2 1 1 2 64\nput 0 61\nput 1 62\nturn 1 0 3\nturn 0 0 99\n\
    turn 0 0 99\nput 0 63\nturn 0 0 99\nturn 0 0 99\nturn 0 0 1\nput 1 64\nrecv 0 20\n\
    turn 1 0 99\nturn 0 0 99\nrecv 0 20\n";

/// The row of tenure 0 is used again in tenure 2.
const ROUND: &[u8] = b"cycle 2 1 1 2 64\nput 0 61\nput 1 62\nturn 1 0 1\nturn 0 0 99\n\
    turn 0 0 99\nput 0 63\nturn 0 0 99\nturn 0 0 99\nturn 1 0 99\nturn 1 0 99\nturn 1 0 99\n";

/// A holder that waits for a sender which is gone has the page for good.
const FOR_GOOD: &[u8] = b"cycle 2 1 1 2 64\nput 1 62\nturn 1 0 2\nstop 1\nput 0 61\n\
    turn 0 0 99\nturn 0 0 99\nput 0 63\nturn 0 0 99\nturn 0 0 99\nturn 0 0 99\n";

/// Sender 0 leaves in tenure 0 and takes nothing more, and sender 1 goes on.
const LEAVES: &[u8] = b"shape 2 1 1 4 64\nput 1 62\nleave 0\nput 0 61\nclose 0\nleave 0\n\
    turn 0 0 99\nturn 0 0 99\nturn 0 0 1\nput 0 61\nclose 0\nleave 0\nturn 1 0 99\nturn 1 0 99\n\
    recv 0 99\n";

/// The same where rows are used again.
const LEAVES_AGAIN: &[u8] = b"cycle 2 1 1 2 64\nput 1 62\nleave 0\nput 0 61\nclose 0\nleave 0\n\
    turn 0 0 99\nturn 0 0 99\nturn 0 0 1\nput 0 61\nclose 0\nleave 0\nturn 1 0 99\nturn 1 0 99\n\
    recv 0 99\n";

/// A leave is refused where a close is.
const REFUSALS: &[u8] = b"shape 1 2 1 2 64\nput 0 61\nleave 0\nclose 0\nturn 0 0 1\nleave 0\n\
    close 0\nput 0 62\nput 1 61\nstop 0\nput 0 62\nleave 0\nturn 0 0 1\nstop 0\n";
