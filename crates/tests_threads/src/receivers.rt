//! Two receivers of one small bus, and how large a sitting is.

ghost use Rattle.std.specs.Prelude.{◌≡◌};
ghost use Rattle.bus_pageslot.specs.Seats.{table_of};
ghost use Rattle.bus_receiver.specs.Listening.{bus_of};

use crate::games::{last_sender, last_tap, made};
use bus_adoptcommit::ThreeWord;
use bus_batch::{Item, Message};
use bus_deliverylog::RecvTurn;
use bus_pageslot::{Bus, Ended, SendFault, Sender, Tap, Unsent};
use bus_receiver::{Next, Receiver, tenures_needed, words_needed};
use bus_register::{Kind, SenderNo};
use bus_replay::lines::FirstLine;
use bus_tenure::Turn;
use bus_waiting::Waiter;
use bus_world::Shape;
use rand_pcg::Pcg32;
use std::alloc::Global;
use std::cmp::Ordering;
use std::process::Abort;
use std::sync::Wait;

/// One sender, two tenures, and two receivers with the one more.
const SMALL: Shape = Shape {
    senders: 1,
    receivers: 1,
    rounds: 1,
    rows: 2,
    log_words: 64,
    batch: 16,
};

/// A bus, a sender and a receiver over the ratifier at work.
type Few = Bus<ThreeWord>;

type One = Sender<ThreeWord>;

type TestReceiver = Receiver<ThreeWord>;

/// Turns of the sender, up to the one that is answered so.
fn turns_to(rt: &impl Abort, bus: &Few, sender: &mut One, want: Turn)
    requires { table_of sender.old ≡ bus.now.table }
    ensures { table_of sender.new ≡ bus.now.table }
{
    for _ in 0..20 {
        if sender.turn(bus, 0) == want {
            return;
        }
    }
    panic!(rt; "{want:?} is not answered");
}

/// Sees what the receiver's next turns answer.
fn hears(rt: &impl Abort, bus: &Few, receiver: &mut TestReceiver, want: &[RecvTurn])
    requires { bus_of receiver.old ≡ bus.now.table }
    ensures { bus_of receiver.new ≡ bus.now.table }
{
    for (i, turn) in want.iter().enumerate() {
        let got = receiver.turn(bus);
        assert_eq!(rt; got, *turn, "turn {i}");
    }
}

/// The first item of the bus below, which carries an a.
fn item_a(rt: &impl Abort) -> RecvTurn {
    RecvTurn::Item(Item {
        sender: SenderNo(0),
        number: 0,
        message: Message::of_bytes(b"a").expect(rt, "short"),
    })
}

/// A frame of sender 0.
fn head(tenure: u64) -> RecvTurn {
    RecvTurn::Head {
        tenure,
        owner: SenderNo(0),
    }
}

/// Puts a message, which gets this number.
fn puts(rt: &impl Abort, sender: &mut One, bytes: &[u8], number: u64)
    ensures { table_of sender.new ≡ table_of sender.old }
{
    assert!(rt; sender.put(bytes) == Ok(number));
}

/// The small bus with its sender and its receivers.
fn small(rt: &impl Abort, alloc: Global) -> (Few, One, TestReceiver, TestReceiver)
    ensures sender { table_of result.1 ≡ result.0.table }
    ensures first { bus_of result.2 ≡ result.0.table }
    ensures second { bus_of result.3 ≡ result.0.table }
{
    let (bus, mut senders, mut taps) = made(rt, alloc, FirstLine::Shape(SMALL));
    let second = Receiver::new(last_tap(rt, &bus, &mut taps));
    let first = Receiver::new(last_tap(rt, &bus, &mut taps));
    let sender = last_sender(rt, &bus, &mut senders);
    (bus, sender, first, second)
}

/// The same once the a stands in the log. The first receiver has read it, the second has taken no
/// turn.
fn with_an_a(rt: &impl Abort, alloc: Global) -> (Few, One, TestReceiver, TestReceiver)
    ensures sender { table_of result.1 ≡ result.0.table }
    ensures first { bus_of result.2 ≡ result.0.table }
    ensures second { bus_of result.3 ≡ result.0.table }
{
    let (bus, mut sender, mut first, second) = small(rt, alloc);
    puts(rt, &mut sender, b"a", 0);
    turns_to(rt, &bus, &mut sender, Turn::Own { tenure: 0 });
    hears(rt, &bus, &mut first, &[RecvTurn::Empty]);
    is_delivered(rt, &bus, &mut sender);
    hears_an_a(rt, &bus, &mut first);
    (bus, sender, first, second)
}

/// The a is delivered.
fn is_delivered(rt: &impl Abort, bus: &Few, sender: &mut One)
    requires { table_of sender.old ≡ bus.now.table }
    ensures { table_of sender.new ≡ bus.now.table }
{
    let delivered = Turn::Delivered {
        tenure: 0,
        first: 0,
        last: 0,
    };
    turns_to(rt, bus, sender, delivered);
}

/// A receiver reads the a, word by word.
fn hears_an_a(rt: &impl Abort, bus: &Few, receiver: &mut TestReceiver)
    requires { bus_of receiver.old ≡ bus.now.table }
    ensures { bus_of receiver.new ≡ bus.now.table }
{
    let answers = [RecvTurn::Going, head(0), RecvTurn::Going, item_a(rt)];
    hears(rt, bus, receiver, &answers);
}

/// The places of two receivers.
fn stand_at(rt: &impl Abort, first: &TestReceiver, second: &TestReceiver, want: (u64, u64)) {
    assert!(rt; (first.place(), second.place()) == want);
}

/// Which of two receivers has heard the end.
fn have_ended(rt: &impl Abort, first: &TestReceiver, second: &TestReceiver, want: (bool, bool)) {
    assert!(rt; (first.has_ended(), second.has_ended()) == want);
}

/// A sender tells a receiver.
fn tells(bus: &Few, sender: &mut One, receiver: &mut TestReceiver)
    requires { (table_of sender.old ≡ bus.now.table) × (bus_of receiver.old ≡ bus.now.table) }
    ensures { bus_of receiver.new ≡ bus.now.table }
{
    receiver.told(sender, bus);
}

/// Two receivers meet, which is answered so.
fn meet(
    rt: &impl Abort,
    bus: &Few,
    first: &mut TestReceiver,
    second: &mut TestReceiver,
    want: Ordering,
)
    requires { (bus_of first.old ≡ bus.now.table) × (bus_of second.old ≡ bus.now.table) }
    ensures { (bus_of first.new ≡ bus.now.table) × (bus_of second.new ≡ bus.now.table) }
{
    assert!(rt; first.meet(second, bus) == want);
}

/// What a receiver takes next, which it waits for.
fn takes<R: Wait + Abort>(rt: &R, bus: &Few, receiver: &mut TestReceiver, want: RecvTurn)
    requires { bus_of receiver.old ≡ bus.now.table }
    ensures { bus_of receiver.new ≡ bus.now.table }
{
    assert!(rt; receiver.take(&Waiter::yielding(rt), bus) == want);
}

/// The next item, which is waited for as long as this says.
fn found<R: Wait>(rt: &R, bus: &Few, receiver: &mut TestReceiver, waits: bool) -> Next
    requires { bus_of receiver.old ≡ bus.now.table }
    ensures { bus_of receiver.new ≡ bus.now.table }
{
    receiver.next_item_while(&Waiter::yielding(rt), bus, || waits)
}

/// The same, and sees what it is.
fn finds<R: Wait + Abort>(rt: &R, bus: &Few, receiver: &mut TestReceiver, waits: bool, want: Next)
    requires { bus_of receiver.old ≡ bus.now.table }
    ensures { bus_of receiver.new ≡ bus.now.table }
{
    assert!(rt; found(rt, bus, receiver, waits) == want);
}

#[test]
fn told_and_meet(rt: HostRuntime) {
    let (bus, mut sender, mut first, mut second) = with_an_a(&rt, rt.alloc());
    stand_at(&rt, &first, &second, (3, 0));
    tells(&bus, &mut sender, &mut second);
    hears(&rt, &bus, &mut second, &[head(0), RecvTurn::Going]);
    meet(&rt, &bus, &mut first, &mut second, Ordering::Greater);
    hears(&rt, &bus, &mut second, &[item_a(&rt), RecvTurn::Empty]);
    meet(&rt, &bus, &mut first, &mut second, Ordering::Equal);
}

/// Lets an end mark wait.
fn asks_to_close(rt: &impl Abort, sender: &mut One)
    ensures { table_of sender.new ≡ table_of sender.old }
{
    assert!(rt; sender.close() == Ok(()));
}

/// Closes the order in tenure 1.
fn closes(rt: &impl Abort, bus: &Few, sender: &mut One)
    requires { table_of sender.old ≡ bus.now.table }
    ensures { table_of sender.new ≡ bus.now.table }
{
    asks_to_close(rt, sender);
    turns_to(rt, bus, sender, Turn::Own { tenure: 1 });
    turns_to(rt, bus, sender, Turn::Closed);
}

/// What the bus leaves behind, whose page is at home.
fn left(rt: &impl Abort, bus: Few, receiver: TestReceiver) -> Ended
    requires { bus_of receiver ≡ bus.table }
{
    Receiver::end(bus, receiver).expect(rt, "the page is home")
}

/// So many words, and whether the order was closed.
fn has_words(rt: &impl Abort, ended: &Ended, want: (usize, bool)) {
    assert!(rt; (ended.log().len(), ended.page().ended) == want);
}

/// What two receivers know of the log.
fn know(rt: &impl Abort, first: &TestReceiver, second: &TestReceiver, want: (u64, u64)) {
    assert!(rt; (first.known(), second.known()) == want);
}

/// A receiver finds the end, each time that it waits for an item.
fn gives_none<R: Wait + Abort>(rt: &R, bus: &Few, receiver: &mut TestReceiver)
    requires { bus_of receiver.old ≡ bus.now.table }
    ensures { bus_of receiver.new ≡ bus.now.table }
{
    assert!(rt; receiver.next_item(&Waiter::yielding(rt), bus) == None);
}

/// The next item, which is waited for.
fn waits_for<R: Wait + Abort>(rt: &R, bus: &Few, receiver: &mut TestReceiver) -> Item
    requires { bus_of receiver.old ≡ bus.now.table }
    ensures { bus_of receiver.new ≡ bus.now.table }
{
    let item = receiver.next_item(&Waiter::yielding(rt), bus);
    item.expect(rt, "an item")
}

/// The same, and sees its number and its bytes.
fn gives<R: Wait + Abort>(rt: &R, bus: &Few, receiver: &mut TestReceiver, number: u64, bytes: &[u8])
    requires { bus_of receiver.old ≡ bus.now.table }
    ensures { bus_of receiver.new ≡ bus.now.table }
{
    let item = waits_for(rt, bus, receiver);
    assert!(rt; (item.sender, item.number) == (SenderNo(0), number));
    assert!(rt; item.message.as_slice() == bytes);
}

#[test]
fn to_the_end(rt: HostRuntime) {
    let (bus, mut sender, mut first, mut second) = with_an_a(&rt, rt.alloc());
    know(&rt, &first, &second, (3, 0));
    gives(&rt, &bus, &mut second, 0, b"a");
    finds(&rt, &bus, &mut second, false, Next::Stopped);
    closes(&rt, &bus, &mut sender);
    takes(&rt, &bus, &mut first, head(1));
    hears(&rt, &bus, &mut first, &[RecvTurn::End, RecvTurn::End]);
    have_ended(&rt, &first, &second, (true, false));
    finds(&rt, &bus, &mut second, true, Next::End);
    gives_none(&rt, &bus, &mut second);
    has_words(&rt, &left(&rt, bus, second), (5, true));
}

/// The words of the a, the first message of sender 0, in tenure 0.
const WORDS: [u64; 3] = [
    0x4000_0200_0000_0000,
    0x8040_0000_0000_0000,
    0x6100_0000_0000_0000,
];

/// Loads one word below the length.
fn loads_one(rt: &impl Abort, bus: &Few, tap: &mut Tap<ThreeWord>, place: u64, want: u64)
    requires { tap.old.table_id ≡ bus.now.table }
    ensures { tap.new.table_id ≡ bus.now.table }
{
    assert!(rt; tap.passed() <= place && place < tap.known());
    assert!(rt; tap.load_word(bus, place) == want);
}

/// Loads the length.
fn loads_length(rt: &impl Abort, bus: &Few, tap: &mut Tap<ThreeWord>, want: u64)
    requires { tap.old.table_id ≡ bus.now.table }
    ensures { tap.new.table_id ≡ bus.now.table }
{
    assert!(rt; tap.load_length(bus) == want);
}

/// The next step is for this, and so many words are stored.
fn is_due(rt: &impl Abort, sender: &One, kind: Option<Kind>, words: u64) {
    assert!(rt; (sender.kind(), sender.words()) == (kind, words));
}

#[test]
fn words_are_loaded(rt: HostRuntime) {
    let (bus, mut senders, mut taps) = made(&rt, rt.alloc(), FirstLine::Shape(SMALL));
    let mut tap = last_tap(&rt, &bus, &mut taps);
    let mut sender = last_sender(&rt, &bus, &mut senders);
    is_due(&rt, &sender, None, 0);
    puts(&rt, &mut sender, b"a", 0);
    is_due(&rt, &sender, Some(Kind::LoadStage), 0);
    is_delivered(&rt, &bus, &mut sender);
    is_due(&rt, &sender, None, 3);
    loads_length(&rt, &bus, &mut tap, 3);
    loads_one(&rt, &bus, &mut tap, 0, WORDS[0]);
    loads_one(&rt, &bus, &mut tap, 1, WORDS[1]);
    loads_one(&rt, &bus, &mut tap, 2, WORDS[2]);
}

/// The bytes below 17, each a message.
fn seventeen(rt: &impl Abort, alloc: Global) -> Vec<Message> {
    let mut messages = Vec::new(alloc);
    for byte in 0..17u8 {
        let message = Message::of_bytes(&[byte]).expect(rt, "short");
        messages.push(message).expect(rt, "memory");
    }
    messages
}

/// Sends all these, which is answered so.
fn sends_all<R: Wait + Abort>(
    rt: &R,
    bus: &Few,
    sender: &mut One,
    rng: &mut Pcg32,
    messages: &[Message],
    want: Result<(), Unsent>,
)
    requires { table_of sender.old ≡ bus.now.table }
    ensures { table_of sender.new ≡ bus.now.table }
{
    let waiter = Waiter::yielding(rt);
    assert!(rt; sender.send_all(&waiter, bus, rng, messages) == want);
}

/// The number that the next message gets.
fn numbers_next(rt: &impl Abort, sender: &One, want: u64) {
    assert!(rt; sender.next_number() == want);
}

/// Sends what waits for as long as nobody else goes first, and sees the answer.
fn sends_alone<R: Wait + Abort>(
    rt: &R,
    bus: &Few,
    sender: &mut One,
    rng: &mut Pcg32,
    want: Option<Turn>,
)
    requires { table_of sender.old ≡ bus.now.table }
{
    let waiter = Waiter::yielding(rt);
    assert!(rt; sender.send_while(&waiter, bus, rng, || false) == want);
}

/// So many messages wait, and the order is open.
fn keeps(rt: &impl Abort, sender: &One, pending: u64) {
    assert!(rt; sender.pending() == pending);
    assert!(rt; !sender.is_closed());
}

/// No tenure is left for the second batch of these, of which nothing is sent.
fn stays_behind<R: Wait + Abort>(
    rt: &R,
    bus: &Few,
    sender: &mut One,
    rng: &mut Pcg32,
    messages: &[Message],
)
    requires { table_of sender.old ≡ bus.now.table }
{
    let unsent = Unsent {
        put: 16,
        sent: 0,
        fault: SendFault::Turn(Turn::Spent),
    };
    sends_all(rt, bus, sender, rng, messages, Err(unsent));
    sends_alone(rt, bus, sender, rng, Some(Turn::Spent));
    keeps(rt, sender, 16);
}

#[test]
fn all_are_sent(rt: HostRuntime) {
    let messages = seventeen(&rt, rt.alloc());
    let messages = messages.as_slice();
    let mut rng = Pcg32::new(0, 0);
    let (bus, mut sender, _first, mut second) = small(&rt, rt.alloc());
    sends_all(&rt, &bus, &mut sender, &mut rng, messages, Ok(()));
    numbers_next(&rt, &sender, 17);
    gives(&rt, &bus, &mut second, 0, &[0u8]);
    stays_behind(&rt, &bus, &mut sender, &mut rng, messages);
}

/// How many tenures and words a sitting of these needs.
fn needs(rt: &impl Abort, senders: u64, messages: u64, bytes: u64, tenures: u64, words: u64) {
    assert!(rt; tenures_needed(senders, messages) == tenures);
    assert!(rt; words_needed(senders, messages, bytes) == words);
}

#[test]
fn sizes_of_sittings(rt: HostRuntime) {
    let most = u64::MAX;
    for (senders, messages, bytes, tenures, words) in [
        (3, 100, 8, 22, 623),
        (8, 400, 8, 201, 6_602),
        (8, 400, 56, 201, 25_802),
        (1, 1, 8, 2, 5),
        (1, 16, 8, 2, 35),
        (1, 17, 8, 3, 38),
        (1, most, 56, 1_152_921_504_606_846_977, most),
        (16, most, 56, most, most),
        (most, most, most, most, most),
    ] {
        needs(&rt, senders, messages, bytes, tenures, words);
    }
}
