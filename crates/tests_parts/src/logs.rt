//! Short lists of words beside a plain reading, and the two ends of a log over words of its own.
//! Worked logs with their texts stand in `examples/rows/`.

ghost use Rattle.std.specs.Prelude.{◌≡◌, ◌+◌, ◌<◌, ◌≤◌, ◌^◌, false};

use crate::steps::same;
use bus_batch::{Batch, Item, Message};
use bus_deliverylog::{LogFault, Order, Reader, RecvTurn, Writer, read_log};
use bus_logtext::log_text;
use bus_register::{Kind, Machine, Op, Reg, SenderNo};
use std::alloc::Global;
use std::process::Abort;

/// An item of these bytes.
fn item(rt: &impl Abort, sender: u8, number: u64, bytes: &[u8]) -> Item {
    Item {
        sender: SenderNo(sender),
        number,
        message: Message::of_bytes(bytes).expect(rt, "short"),
    }
}

#[test]
fn an_order_is_put_together(rt: HostRuntime) {
    let mut order = Order::new(rt.alloc());
    assert!(rt; order.push(item(&rt, 0, 0, b"a")).is_ok());
    assert!(rt; order.leave(SenderNo(1)).is_ok());
    let left = [(SenderNo(1), 1)];
    same(&rt, &order.left.as_slice(), &left.as_slice());
    same(&rt, &(order.items.len(), order.ended), &(1, false));
}

/// A plain reading of the words of two senders, by bits and counts alone.
#[derive(Drop)]
struct Plain {
    /// Messages that a frame may have.
    most: u64,
    /// Words of the frame that are to come.
    left: u64,
    /// Messages that the frame may have yet.
    room: u64,
    /// Bytes of the message that are to come.
    bytes: u64,
    /// The least tenure of the next frame.
    least: u64,
    /// Whose frame it is.
    owner: u64,
    /// Who has left.
    gone: [bool; 2],
    ended: bool,
}

impl Plain {
    /// Takes a word, and says whether a log may go on with it.
    fn takes(&mut self, word: u64) -> bool {
        if self.ended {
            return false;
        }
        if self.left == 0 {
            return self.takes_head(word);
        }
        self.left = self.left.saturating_sub(1);
        if self.bytes > 0 {
            self.takes_data(word)
        } else if word >> 62 == 3 {
            self.takes_mark(word)
        } else {
            self.takes_message(word)
        }
    }

    fn takes_head(&mut self, word: u64) -> bool {
        let owner = (word >> 54) & 255;
        let count = (word >> 40) & 0x3FFF;
        let tenure = word & 0xFF_FFFF_FFFF;
        self.owner = owner;
        self.left = count;
        self.room = self.most;
        let least = self.least;
        self.least = tenure.saturating_add(1);
        word >> 62 == 1
            && owner <= 1
            && count != 0
            && count <= self.most.saturating_mul(8)
            && tenure >= least
            && !self.gone[(owner % 2) as usize]
    }

    fn takes_data(&mut self, word: u64) -> bool {
        let bytes = self.bytes;
        self.bytes = bytes.saturating_sub(8);
        bytes >= 8 || word << (8 * bytes) == 0
    }

    fn takes_mark(&mut self, word: u64) -> bool {
        self.ended = word == 0xC000_0000_0000_0000;
        self.gone[(self.owner % 2) as usize] = !self.ended;
        word <= 0xC000_0000_0000_0001 && self.left == 0 && self.room == self.most
    }

    fn takes_message(&mut self, word: u64) -> bool {
        self.room = self.room.saturating_sub(1);
        let bytes = (word >> 54) & 255;
        let data = bytes.saturating_add(7) / 8;
        let others = self.left.saturating_sub(data);
        self.bytes = bytes;
        word >> 62 == 2
            && bytes <= 56
            && (word >> 48) & 63 == 0
            && data <= self.left
            && others <= self.room.saturating_mul(8)
    }
}

/// How a plain reading of the words of two senders ends: with the fault, or none where the words
/// are a log whose frames have so many messages at most.
fn plain_fault(words: &[u64], most: u64) -> Option<LogFault> {
    let mut plain = Plain {
        most,
        left: 0,
        room: 0,
        bytes: 0,
        least: 0,
        owner: 0,
        gone: [false; 2],
        ended: false,
    };
    for (place, word) in words.iter().enumerate() {
        if !plain.takes(*word) {
            return Some(LogFault::BadWord {
                place: place as u64,
            });
        }
    }
    if plain.left > 0 {
        Some(LogFault::Torn)
    } else {
        None
    }
}

/// How the words of two senders are read.
fn fault(alloc: Global, words: &[u64]) -> Option<LogFault> {
    read_log(alloc, words, 2).err()
}

/// How they are told, where a frame has so many messages at most.
fn text_fault(alloc: Global, words: &[u64], most: u64) -> Option<LogFault>
    requires { (1 ≤ most) × (most ≤ 64) }
{
    log_text(alloc, words, 2, most).err()
}

/// Sees that the words are read as a plain reading reads them.
fn agrees(rt: &impl Abort, alloc: Global, words: &[u64]) {
    assert_eq!(rt; fault(alloc, words), plain_fault(words, 64), "{words:?}");
    for most in [1, 2, 16, 64] {
        let told = text_fault(alloc, words, most);
        assert_eq!(rt; told, plain_fault(words, most), "{words:?}");
    }
}

/// Words that each stand at an edge of the format.
const EDGES: [u64; 24] = [
    0,
    0x4000_0000_0000_0000,
    0x4000_0100_0000_0000,
    0x4000_0100_0000_0001,
    0x4000_0200_0000_0000,
    0x4040_0100_0000_0001,
    0x4000_0300_0000_0000,
    0x4000_0800_0000_0000,
    0x4000_0900_0000_0000,
    0x4000_1000_0000_0000,
    0x4000_1100_0000_0000,
    0x4000_8000_0000_0000,
    0x4000_8100_0000_0000,
    0x4002_0000_0000_0000,
    0x4002_0100_0000_0000,
    0x4080_0100_0000_0000,
    0x8000_0000_0000_0000,
    0x8040_0000_0000_0000,
    0x8240_0000_0000_0005,
    0x8001_0000_0000_0000,
    0xC000_0000_0000_0000,
    0xC000_0000_0000_0001,
    0xC000_0000_0000_0002,
    0x6100_0000_0000_0000,
];

#[test]
fn short_lists_as_plainly_read(rt: HostRuntime) {
    let alloc = rt.alloc();
    for first in EDGES {
        agrees(&rt, alloc, &[first]);
        for second in EDGES {
            agrees(&rt, alloc, &[first, second]);
            for third in EDGES {
                agrees(&rt, alloc, &[first, second, third]);
            }
        }
    }
}

/// A writer of the frame of a message of sender 1, of one byte, in tenure 9.
fn writer(rt: &impl Abort) -> Writer {
    let mut batch = Batch::new(SenderNo(1), 4, 16);
    assert!(rt; batch.put(b"a").is_ok());
    assert!(rt; !batch.is_empty());
    Writer::start(&batch, 9, 0, Reg(1), Reg(0))
}

/// The step of a writer is taken.
fn goes_on(rt: &impl Abort, writer: &mut Writer) {
    assert!(rt; writer.next(0).is_some());
    writer.feed(0, 0);
}

/// The next step of a writer is of this kind and is this, and is taken.
fn stores(rt: &impl Abort, writer: &mut Writer, kind: Kind, place: u64, word: u64) {
    same(rt, &writer.kind(), &Some(kind));
    same(rt, &writer.next(0), &Some(Op::Store(Reg(place), word)));
    goes_on(rt, writer);
}

#[test]
fn writes(rt: HostRuntime) {
    let mut writer = writer(&rt);
    same(&rt, &writer.new_length(), &3);
    let frame = [
        (1, 0x4040_0200_0000_0009),
        (2, 0x8040_0000_0000_0004),
        (3, 0x6100_0000_0000_0000),
    ];
    for (place, word) in frame {
        stores(&rt, &mut writer, Kind::StoreLogWord, place, word);
    }
    stores(&rt, &mut writer, Kind::StoreLength, 0, 3);
    same(&rt, &writer.kind(), &None);
}

/// A receiver finds this word, and answers so.
fn answers(rt: &impl Abort, reader: &mut Reader, word: u64, answer: &RecvTurn) {
    assert!(rt; !reader.has_ended());
    same(rt, &reader.feed(word), answer);
}

/// A receiver loads this word next, and finds so much there, and answers so.
fn receives(rt: &impl Abort, reader: &mut Reader, place: u64, word: u64, answer: &RecvTurn) {
    same(rt, &reader.next(), &Some(Op::Load(Reg(place))));
    answers(rt, reader, word, answer);
}

/// A receiver loads these words, finds these numbers, and answers so.
fn receives_all(rt: &impl Abort, reader: &mut Reader, rows: &[(u64, u64, RecvTurn)]) {
    for (place, word, answer) in rows {
        receives(rt, reader, *place, *word, answer);
    }
}

/// A head of this owner and tenure.
fn head(owner: u8, tenure: u64) -> RecvTurn {
    RecvTurn::Head {
        tenure,
        owner: SenderNo(owner),
    }
}

/// A receiver stands here, and its next step is of this kind.
fn stands(rt: &impl Abort, reader: &Reader, place: u64, known: u64, kind: Kind) {
    same(rt, &reader.place(), &place);
    same(rt, &reader.known(), &known);
    same(rt, &reader.kind(), &Some(kind));
}

/// A receiver takes no further step.
fn has_ended(rt: &impl Abort, reader: &Reader) {
    assert!(rt; reader.has_ended());
    assert!(rt; reader.kind().is_none() && reader.next().is_none());
}

/// A bad word is passed over, and loaded once more.
#[test]
fn receives_a_message(rt: HostRuntime) {
    let mut reader = Reader::new(2, Reg(1), Reg(0), 7, None);
    stands(&rt, &reader, 0, 0, Kind::LoadLength);
    let rows = [
        (0, 0, RecvTurn::Empty),
        (0, 3, RecvTurn::Going),
        (1, 0x4040_0200_0000_0009, head(1, 9)),
        (2, 0x8040_0000_0000_0004, RecvTurn::Going),
    ];
    receives_all(&rt, &mut reader, &rows);
    stands(&rt, &reader, 2, 3, Kind::LoadLogWord);
    let rows = [
        (
            3,
            0x6100_0000_0000_0000,
            RecvTurn::Item(item(&rt, 1, 4, b"a")),
        ),
        (0, 5, RecvTurn::Going),
        (4, 0x4040_0100_0000_000A, head(1, 10)),
        (5, 7, RecvTurn::Going),
        (5, 0xC000_0000_0000_0000, RecvTurn::End),
    ];
    receives_all(&rt, &mut reader, &rows);
    has_ended(&rt, &reader);
}

#[test]
fn receives_who_left(rt: HostRuntime) {
    let mut reader = Reader::new(2, Reg(1), Reg(0), 7, None);
    let rows = [
        (0, 4, RecvTurn::Going),
        (1, 0x4040_0100_0000_0000, head(1, 0)),
        (2, 0xC000_0000_0000_0001, RecvTurn::Leave(SenderNo(1))),
        (3, 0x4000_0100_0000_0001, head(0, 1)),
        (4, 0xC000_0000_0000_0000, RecvTurn::End),
    ];
    receives_all(&rt, &mut reader, &rows);
}

/// Of two senders, with a log of 16 words from word 40 on and its passed place at word 20.
fn ring_reader() -> Reader {
    Reader::new(2, Reg(40), Reg(0), 16, Some(20))
}

/// A receiver stores its place next, and finds what it stored before.
fn passes(rt: &impl Abort, reader: &mut Reader, place: u64) {
    same(rt, &reader.kind(), &Some(Kind::StorePassed));
    same(rt, &reader.next(), &Some(Op::Store(Reg(20), place)));
    let before = reader.passed();
    answers(rt, reader, before, &RecvTurn::Going);
    same(rt, &reader.passed(), &place);
}

/// A store comes behind each whole frame, also of a leave mark and where more words are known, and
/// before it looks for the length. It comes neither within a frame nor twice.
#[test]
fn passes_each_frame(rt: HostRuntime) {
    let mut reader = ring_reader();
    let rows = [
        (0, 0, RecvTurn::Empty),
        (0, 5, RecvTurn::Going),
        (40, 0x4040_0200_0000_0009, head(1, 9)),
        (41, 0x8040_0000_0000_0004, RecvTurn::Going),
        (
            42,
            0x6100_0000_0000_0000,
            RecvTurn::Item(item(&rt, 1, 4, b"a")),
        ),
    ];
    receives_all(&rt, &mut reader, &rows);
    passes(&rt, &mut reader, 3);
    let rows = [
        (43, 0x4040_0100_0000_000A, head(1, 10)),
        (44, 0xC000_0000_0000_0001, RecvTurn::Leave(SenderNo(1))),
    ];
    receives_all(&rt, &mut reader, &rows);
    passes(&rt, &mut reader, 5);
    stands(&rt, &reader, 5, 5, Kind::LoadLength);
    receives(&rt, &mut reader, 0, 5, &RecvTurn::Empty);
}

/// Eight bytes of a message.
const PLAIN_WORD: u64 = 0x6161_6161_6161_6161;

/// A receiver loads a head and a message of 56 bytes but for their last words, from this word on.
fn receives_most(rt: &impl Abort, reader: &mut Reader, tenure: u64, at: u64, words: u64) {
    let first = 0x4000_0800_0000_0000 | tenure;
    receives(rt, reader, at, first, &head(0, tenure));
    receives(
        rt,
        reader,
        at.wrapping_add(1),
        0x8E00_0000_0000_0000,
        &RecvTurn::Going,
    );
    for i in 2..words {
        receives(rt, reader, at.wrapping_add(i), PLAIN_WORD, &RecvTurn::Going);
    }
}

/// Place p lies in cell p mod 16, also within a frame, and a length of more than 16 words behind
/// the passed place is not believed. Behind the end nothing is stored.
#[test]
fn goes_round_the_ring(rt: HostRuntime) {
    let mut reader = ring_reader();
    let whole = RecvTurn::Item(item(&rt, 0, 0, &[0x61; 56]));
    receives(&rt, &mut reader, 0, 17, &RecvTurn::Going);
    stands(&rt, &reader, 0, 0, Kind::LoadLength);
    receives(&rt, &mut reader, 0, 9, &RecvTurn::Going);
    receives_most(&rt, &mut reader, 1, 40, 8);
    receives(&rt, &mut reader, 48, PLAIN_WORD, &whole);
    passes(&rt, &mut reader, 9);
    receives(&rt, &mut reader, 0, 26, &RecvTurn::Going);
    stands(&rt, &reader, 9, 9, Kind::LoadLength);
    receives(&rt, &mut reader, 0, 25, &RecvTurn::Going);
    stands(&rt, &reader, 9, 25, Kind::LoadLogWord);
    receives_most(&rt, &mut reader, 2, 49, 7);
    receives(&rt, &mut reader, 40, PLAIN_WORD, &RecvTurn::Going);
    receives(&rt, &mut reader, 41, PLAIN_WORD, &whole);
    passes(&rt, &mut reader, 18);
    receives(&rt, &mut reader, 42, 0x4000_0100_0000_0003, &head(0, 3));
    receives(&rt, &mut reader, 43, 0xC000_0000_0000_0000, &RecvTurn::End);
    has_ended(&rt, &reader);
    same(&rt, &reader.passed(), &18);
}
