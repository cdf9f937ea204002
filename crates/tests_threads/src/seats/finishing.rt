//! A sender that stops within a tenure, and goes through what is left of it: the other one sends,
//! and the order ends. Or it is behind the other one, and is asked again.

use super::*;

/// More turns than the tenure of one message takes, with both senders in its election.
const MOST_TURNS: u32 = 36;

/// What the tests of one kind of rows came to, so that it is seen that enough happened.
#[derive(Default, Drop)]
struct Sum {
    none: u32,
    delivered: u32,
    lost: u32,
    late: u32,
}

/// Of two senders the first takes so many turns, and the second so many. Then the first finishes.
#[derive(Drop)]
struct LetsGo {
    turns: (u32, u32),
    answer: Option<Turn>,
    /// How many messages the first delivered.
    delivered: u64,
}

impl Game for LetsGo {
    fn play<R: Threads + Wait + Abort + AllocGlobal + Sync>(
        &mut self,
        rt: &R,
        mut seats: Seats<'_>,
    ) {
        let mut second = seats.last_sender(rt);
        let mut first = seats.last_sender(rt);
        stops_after(rt, &mut first, self.turns.0);
        stops_after(rt, &mut second, self.turns.1);
        self.answer = finishes(rt, &mut first);
        self.delivered = 1u64.saturating_sub(first.alone().pending());
        drop(first);
        goes_on(rt, &mut second);
    }
}

/// A message waits, and so many turns are taken.
fn stops_after(rt: &impl Abort, sender: &mut BusSender<'_>, turns: u32) {
    puts(rt, sender, b"a", 0);
    for turn in 0..turns {
        let _answer = sender.turn(turn);
    }
}

/// It finishes, and has begun no tenure then.
fn finishes(rt: &impl Abort, sender: &mut BusSender<'_>) -> Option<Turn> {
    let answer = sender.finish(&mut Pcg32::new(7, 0));
    has_begun(rt, sender.alone(), None);
    answer
}

/// The tenure that a sender has begun, whose election is over.
fn has_begun(rt: &impl Abort, sender: &Sender<ThreeWord>, tenure: Option<u64>) {
    assert!(rt; (sender.tenure(), sender.turns_left()) == (tenure, 0));
}

/// The other one delivers its message, if it has not, and ends the order.
fn goes_on<R: Wait + Abort>(rt: &R, sender: &mut BusSender<'_>) {
    let mut rng = Pcg32::new(8, 0);
    let sent = sender.send(rt, &mut rng);
    assert!(rt;
        matches!(sent, Turn::Delivered { .. } | Turn::Idle),
        "it is answered {sent}"
    );
    closes(rt, sender);
    assert!(rt; sender.send(rt, &mut rng) == Turn::Closed);
}

/// One more that ended so.
fn add(rt: &impl Abort, sum: &mut Sum, answer: Option<Turn>) {
    match answer {
        None => sum.none = sum.none.saturating_add(1),
        Some(Turn::Delivered { .. }) => sum.delivered = sum.delivered.saturating_add(1),
        Some(Turn::Lost { .. }) => sum.lost = sum.lost.saturating_add(1),
        Some(Turn::Waiting) => sum.late = sum.late.saturating_add(1),
        Some(other) => panic!(rt; "a tenure ends with {other}"),
    }
}

/// Plays so, and adds what it came to.
fn lets_go<R: Threads + Wait + Abort + AllocGlobal + Sync>(
    rt: &R,
    first: FirstLine,
    turns: (u32, u32),
    sum: &mut Sum,
) {
    let mut game = LetsGo {
        turns,
        answer: None,
        delivered: 0,
    };
    let ended = play_on(rt, first, &mut game).expect(rt, "the page is home");
    has_ended(rt, &ended, (game.delivered, 1, true));
    add(rt, sum, game.answer);
}

/// Senders let go after each turn, and enough happens.
fn let_go_after_each_turn<R: Threads + Wait + Abort + AllocGlobal + Sync>(
    rt: &R,
    line: FirstLine,
    late: u32,
) {
    let mut sum = Sum::default();
    for first in 0..MOST_TURNS {
        for second in 0..MOST_TURNS {
            lets_go(rt, line, (first, second), &mut sum);
        }
    }
    assert!(rt; sum.none > 99, "{} had begun no tenure", sum.none);
    assert!(rt; sum.delivered > 99, "{} delivered", sum.delivered);
    assert!(rt; sum.lost > 99, "{} lost", sum.lost);
    assert!(rt; sum.late >= late, "{} came too late", sum.late);
}

#[test]
fn senders_let_go_after_each_turn(rt: HostRuntime) {
    let_go_after_each_turn(&rt, FirstLine::Shape(TWO), 0);
    let_go_after_each_turn(&rt, FirstLine::Cycle(TWO_AGAIN), 10);
}

/// The second stands in tenure 0, and the first owns tenure 1, whose next one uses that row: it is
/// behind, and still has its page. Once the other one has taken its turns, it delivers.
#[derive(Drop)]
struct IsBehind;

impl Game for IsBehind {
    fn play<R: Threads + Wait + Abort + AllocGlobal + Sync>(
        &mut self,
        rt: &R,
        mut seats: Seats<'_>,
    ) {
        let mut second = seats.last_sender(rt);
        let mut first = seats.last_sender(rt);
        stops_after(rt, &mut second, 3);
        puts(rt, &mut first, b"a", 0);
        delivers(rt, &mut first, 0, 0);
        puts(rt, &mut first, b"b", 1);
        ends_in(rt, &mut first, Turn::Own { tenure: 1 });
        is_behind(rt, &mut first);
        is_behind(rt, &mut first);
        let owner = SenderNo(0);
        let other = finishes(rt, &mut second);
        assert!(rt; other == Some(Turn::Lost { tenure: 0, owner }));
        assert!(rt; finishes(rt, &mut first) == Some(delivered(1, 1)));
        drop(first);
        goes_on(rt, &mut second);
    }
}

/// Sender 1 is in its way, and it has tenure 1.
fn is_behind(rt: &impl Abort, sender: &mut BusSender<'_>) {
    let answer = sender.finish(&mut Pcg32::new(7, 0));
    let other = SenderNo(1);
    assert!(rt;
        answer
            == Some(Turn::Behind {
                tenure: 0,
                sender: other
            })
    );
    assert!(rt; sender.alone().tenure() == Some(1));
}

#[test]
fn a_sender_that_lets_go_is_behind(rt: HostRuntime) {
    let left = play_on(&rt, FirstLine::Cycle(TWO_AGAIN), &mut IsBehind);
    has_ended(&rt, &left.expect(&rt, "the page is home"), (2, 1, true));
}
