//! Batches on their way, the words of their frames, and words that are none.

ghost use Rattle.std.specs.Prelude.{IsTrue};
ghost use Rattle.bus_batch.specs.Batches.{HasSomething};

use crate::steps::same;
use bus_batch::batches::Phase;
use bus_batch::{BadWord, Batch, CloseFault, FrameReader, Item, Mark, Message, Piece, PutFault};
use bus_register::SenderNo;
use std::process::Abort;

/// Puts a message.
fn put(rt: &impl Abort, batch: &mut Batch, bytes: &[u8]) -> Result<u64, PutFault> {
    assert!(rt; batch.next_number() < 1000);
    batch.put(bytes)
}

/// Puts a message, and sees that the answer is the wanted one.
fn puts(rt: &impl Abort, batch: &mut Batch, bytes: &[u8], want: Result<u64, PutFault>) {
    same(rt, &put(rt, batch, bytes), &want);
}

/// Lets an end mark wait.
fn close(batch: &mut Batch) -> Result<(), CloseFault> {
    batch.close()
}

/// Lets a leave mark wait.
fn leave(batch: &mut Batch) -> Result<(), CloseFault> {
    batch.leave()
}

/// Something waits: messages or a mark.
fn has_something(batch: &Batch) -> bool
    ensures { IsTrue result → HasSomething batch.now }
{
    !batch.is_empty() || batch.is_closing() || batch.is_leaving()
}

/// The word at `i` of the batch's frame in tenure 0.
fn word_at(rt: &impl Abort, batch: &Batch, i: u64) -> u64 {
    assert!(rt; has_something(batch));
    assert!(rt; i < batch.frame_len());
    batch.word(i, 0)
}

/// The batch goes on its way.
fn begins(rt: &impl Abort, batch: &mut Batch) {
    assert!(rt; !batch.is_busy() && !batch.is_closed());
    assert!(rt; has_something(batch));
    batch.begin();
}

/// The batch comes back.
fn comes_back(rt: &impl Abort, batch: &mut Batch) {
    assert!(rt; batch.is_busy());
    batch.back();
}

/// The batch was sent.
fn is_sent(rt: &impl Abort, batch: &mut Batch) {
    assert!(rt; batch.is_busy());
    batch.done();
}

/// The order had ended.
fn finds_the_end(rt: &impl Abort, batch: &mut Batch) {
    assert!(rt; batch.is_busy());
    batch.ended();
}

/// The batch is of this phase, and is on its way or not.
fn stands(rt: &impl Abort, batch: &Batch, phase: Phase, busy: bool) {
    same(
        rt,
        &batch.is_closing(),
        &(phase == Phase::Marking(Mark::End)),
    );
    same(
        rt,
        &batch.is_leaving(),
        &(phase == Phase::Marking(Mark::Leave)),
    );
    same(rt, &batch.is_closed(), &(phase == Phase::Closed));
    same(rt, &batch.is_busy(), &busy);
}

/// The words of the frame in tenure 0 begin with these.
fn spells(rt: &impl Abort, batch: &Batch, words: &[u64]) {
    for (place, word) in words.iter().enumerate() {
        same(rt, &word_at(rt, batch, place as u64), word);
    }
}

/// The words of the frame of these messages of sender 0 in tenure 0 begin with these.
fn are_spelled(rt: &impl Abort, messages: &[&[u8]], words: &[u64]) {
    let mut batch = Batch::new(SenderNo(0), 0, 64);
    for (number, bytes) in messages.iter().enumerate() {
        puts(rt, &mut batch, bytes, Ok(number as u64));
    }
    same(rt, &batch.len(), &(messages.len() as u64));
    spells(rt, &batch, words);
}

#[test]
fn words_of_frames(rt: HostRuntime) {
    are_spelled(
        &rt,
        &[b"".as_slice()],
        &[0x4000_0100_0000_0000, 0x8000_0000_0000_0000],
    );
    are_spelled(
        &rt,
        &[[0u8; 56].as_slice(); 16],
        &[0x4000_8000_0000_0000, 0x8E00_0000_0000_0000],
    );
    are_spelled(
        &rt,
        &[[0u8; 56].as_slice(); 64],
        &[0x4002_0000_0000_0000, 0x8E00_0000_0000_0000],
    );
    let like_a_head = [0x40u8, 0, 1, 0, 0, 0, 0, 0];
    are_spelled(
        &rt,
        &[[0u8; 8].as_slice(), like_a_head.as_slice()],
        &[
            0x4000_0400_0000_0000,
            0x8200_0000_0000_0000,
            0,
            0x8200_0000_0000_0001,
            0x4000_0100_0000_0000,
        ],
    );
}

#[test]
fn finds_the_order_ended(rt: HostRuntime) {
    let mut batch = Batch::new(SenderNo(3), 5, 16);
    same(&rt, &close(&mut batch), &Ok(()));
    stands(&rt, &batch, Phase::Marking(Mark::End), false);
    spells(&rt, &batch, &[0x40C0_0100_0000_0000, 0xC000_0000_0000_0000]);
    begins(&rt, &mut batch);
    finds_the_end(&rt, &mut batch);
    stands(&rt, &batch, Phase::Closed, false);
}

/// One message waits, which is this.
fn waits(rt: &impl Abort, batch: &Batch, bytes: &[u8]) {
    let waiting = batch.waiting();
    assert!(rt; waiting.len() == 1);
    same(rt, &waiting.as_slice()[0].as_slice(), &bytes);
}

#[test]
fn sends_and_leaves(rt: HostRuntime) {
    let mut batch = Batch::new(SenderNo(3), 5, 16);
    same(&rt, &batch.sender(), &SenderNo(3));
    puts(&rt, &mut batch, b"a", Ok(5));
    waits(&rt, &batch, b"a");
    begins(&rt, &mut batch);
    puts(&rt, &mut batch, b"b", Err(PutFault::Busy));
    comes_back(&rt, &mut batch);
    stands(&rt, &batch, Phase::Open, false);
    begins(&rt, &mut batch);
    is_sent(&rt, &mut batch);
    same(&rt, &leave(&mut batch), &Ok(()));
    stands(&rt, &batch, Phase::Marking(Mark::Leave), false);
    spells(&rt, &batch, &[0x40C0_0100_0000_0000, 0xC000_0000_0000_0001]);
    begins(&rt, &mut batch);
    is_sent(&rt, &mut batch);
    stands(&rt, &batch, Phase::Closed, false);
    puts(&rt, &mut batch, b"c", Err(PutFault::Closed));
    same(&rt, &close(&mut batch), &Err(CloseFault::Closed));
    same(&rt, &batch.next_number(), &6);
}

/// What a reader answers to a word.
type Answer = Result<Option<Piece>, BadWord>;

/// A head of a frame of this owner and tenure.
fn head(owner: u8, tenure: u64) -> Answer {
    Ok(Some(Piece::Head {
        tenure,
        owner: SenderNo(owner),
    }))
}

/// What a reader answers to this word.
fn feed(reader: &mut FrameReader, word: u64) -> Answer {
    reader.feed(word)
}

/// A reader of two senders answers these words so.
fn reads(rt: &impl Abort, rows: &[(u64, Answer)]) {
    let mut reader = FrameReader::new(2);
    for (word, answer) in rows {
        assert_eq!(rt; feed(&mut reader, *word), *answer, "{word}");
    }
}

#[test]
fn reads_marks(rt: HostRuntime) {
    let leaves = (0xC000_0000_0000_0001, Ok(Some(Piece::Leave(SenderNo(1)))));
    reads(
        &rt,
        &[
            (0x4040_0100_0000_0009, head(1, 9)),
            leaves,
            (0x4000_0100_0000_000A, head(0, 10)),
            (0xC000_0000_0000_0000, Ok(Some(Piece::End))),
        ],
    );
    let leaves = (0xC000_0000_0000_0001, Ok(Some(Piece::Leave(SenderNo(1)))));
    reads(
        &rt,
        &[
            (0x4040_0100_0000_0009, head(1, 9)),
            leaves,
            (0x4040_0100_0000_000A, Err(BadWord)),
            (0x4000_0100_0000_000A, Err(BadWord)),
        ],
    );
}

/// A message of one byte.
fn short_message(rt: &impl Abort) -> Message {
    let message = Message::of_bytes(b"a").expect(rt, "short");
    assert!(rt; message.len() == 1);
    assert!(rt; !message.is_empty() && message != Message::new());
    message
}

#[test]
fn shows_a_message_as_its_bytes(rt: HostRuntime) {
    let shown = format!(in rt.alloc(); "{:?} {:?}", short_message(&rt), Message::new());
    let shown = shown.expect(&rt, "memory");
    assert!(rt; shown.as_str() == "[97] []");
}

#[test]
fn reads_a_message(rt: HostRuntime) {
    let item = Item {
        sender: SenderNo(1),
        number: 3,
        message: short_message(&rt),
    };
    reads(
        &rt,
        &[
            (0x4040_0200_0000_0009, head(1, 9)),
            (0x8040_0000_0000_0003, Ok(None)),
            (0x6100_0000_0000_0000, Ok(Some(Piece::Item(item.copied())))),
            (0x4000_0100_0000_0009, Err(BadWord)),
            (0x4000_0100_0000_000A, Err(BadWord)),
        ],
    );
}

#[test]
fn stands_inside_a_frame(rt: HostRuntime) {
    let mut reader = FrameReader::new(2);
    assert!(rt; !reader.inside());
    same(&rt, &feed(&mut reader, 0x4040_0200_0000_0009), &head(1, 9));
    assert!(rt; reader.inside());
}
