//! How a bus is opened and ended.

ghost use Rattle.std.specs.Prelude.{◌≡◌, ℕ, ◌<◌, List, Some, None, IfOk, OnOk, IfErr, length};
ghost use Rattle.std.specs.Prelude.{slice_index, false};
ghost use Rattle.bus_register.specs.declared.registers.SenderNo.{SenderNo as Number};
ghost use Rattle.bus_batch.specs.Frames.{Order, Spells};
ghost use Rattle.bus_deliverylog.specs.Orders.{of_sender};
ghost use Rattle.bus_handles.specs.Handles.{IsOpened, HoldsFrames, OpenRefused};
ghost use Rattle.bus_machine.specs.Playing.{IsServedWith, IsFollowedBy};
ghost use Rattle.bus_automaton.specs.Buses.{plan_passers};
ghost use Rattle.bus_automaton.specs.ThreeWordBuses.{process, automaton};
ghost use Rattle.bus_embed.specs.Buses.{plan_of, page_of, shape_of, batch_in};
ghost use Rattle.bus_embed.specs.Answers.{make_code as spec_make_code, open_code};
ghost use Rattle.bus_embed.specs.Ends.{EndAnswered, IsLeftBy, BeginsPage, NotesSender};
ghost use Rattle.bus_embed.specs.Ends.{CountsItems};

use crate::codes;
use crate::writing::write_over;
use bus_handles::{
    BusNotEnded, Ended, LOG_MESSAGES, MOST_MESSAGES, MOST_SENDERS, MakeFault, Page, ReceiverHandle,
    RingFault, SenderHandle, SenderNo, Shape, ThreeWord, open, open_after, open_cyclic, open_ring,
};
use std::alloc::Global;

/// The sizes of a bus, but for the numbers of its senders and receivers.
#[repr(C)]
#[derive(Clone, Copy, Debug)]
pub struct Sizes {
    /// 1 to 8.
    pub rounds: u64,
    /// 1 to 256; where rows are used again 2 to 8.
    pub rows: u64,
    /// 16 to 65,536; of a ring at least 1 + 8 B, where a batch has at most B messages.
    pub log_words: u64,
    /// Rows of words are used again.
    pub again: bool,
    /// The log is a ring: its words are used again, and so are rows, whatever `again` says.
    pub ring: bool,
    /// Messages of one batch: of a ring 1 to 64, and else 16. 0 says the most, 64 of a ring.
    pub batch: u64,
}

/// What a bus leaves behind, beside the words of its log.
#[repr(C)]
#[derive(Clone, Copy, Debug)]
pub struct Left {
    /// How many items of each sender the order has.
    pub counts: [u64; MOST_SENDERS],
    /// The number of each sender's first item: 0, or what an earlier bus had come to.
    pub bases: [u64; MOST_SENDERS],
    /// The number that the next item of each sender would have.
    pub next: [u64; MOST_SENDERS],
    /// How many words the whole order has.
    pub words: u64,
    /// How many tenures have ended.
    pub tenures: u64,
    /// The order has ended.
    pub ended: bool,
    /// Which senders have left.
    pub gone: [bool; MOST_SENDERS],
    /// Of a ring: how many of the words do not stand any more. The log has those behind them.
    /// Else 0.
    pub floor: u64,
}

/// Opens a bus of these sizes, as `open`; as `open_cyclic` where its rows are used again; or as
/// `open_ring` where its log is a ring.
pub fn open_bus(
    alloc: Global,
    sizes: Sizes,
    senders: u64,
    receivers: u64,
) -> Result<(Vec<SenderHandle<ThreeWord>>, Vec<ReceiverHandle<ThreeWord>>), RingFault>
    ensures opened { let plan = plan_of sizes senders receivers None in
        IfOk result (λ made. IsOpened process (automaton plan) plan made.0.items made.1.items) }
    ensures served { let plan = plan_of sizes senders receivers None in
        OnOk result (IsServedWith (plan_passers plan) plan.shape plan.reuse × HoldsFrames plan) }
    ensures fault { let plan = plan_of sizes senders receivers None in
        IfErr result (OpenRefused plan None) }
{
    let shape = sizes.shape(senders, receivers);
    let opened = if sizes.ring {
        return open_ring::<ThreeWord>(alloc, shape, None);
    } else if sizes.again {
        open_cyclic::<ThreeWord>(alloc, shape, None)
    } else {
        open::<ThreeWord>(alloc, shape)
    };
    match opened {
        Ok(handles) => Ok(handles),
        Err(fault) => Err(RingFault::Make(fault)),
    }
}

/// Opens a bus of these sizes whose senders go on with the next numbers of a bus that left this,
/// as `open_after`, or as `open_cyclic` or `open_ring`. Of `left` no more is looked at than these
/// and whether the order has ended.
pub fn open_bus_after(
    alloc: Global,
    sizes: Sizes,
    senders: u64,
    receivers: u64,
    left: &Left,
) -> Result<(Vec<SenderHandle<ThreeWord>>, Vec<ReceiverHandle<ThreeWord>>), RingFault>
    ensures opened { let plan = plan_of sizes senders receivers (Some left.now) in
        IfOk result (λ made. IsOpened process (automaton plan) plan made.0.items made.1.items) }
    ensures served { let plan = plan_of sizes senders receivers (Some left.now) in
        OnOk result (IsServedWith (plan_passers plan) plan.shape plan.reuse × HoldsFrames plan) }
    ensures follows { let plan = plan_of sizes senders receivers (Some left.now) in
        OnOk result (IsFollowedBy (plan_passers plan) plan.shape.batch (page_of left.now)) }
    ensures fault { let plan = plan_of sizes senders receivers (Some left.now) in
        IfErr result (OpenRefused plan (Some (page_of left.now))) }
{
    let shape = sizes.shape(senders, receivers);
    let page = left.page();
    let opened = if sizes.ring {
        return open_ring::<ThreeWord>(alloc, shape, Some(&page));
    } else if sizes.again {
        open_cyclic::<ThreeWord>(alloc, shape, Some(&page))
    } else {
        open_after::<ThreeWord>(alloc, shape, &page)
    };
    match opened {
        Ok(handles) => Ok(handles),
        Err(fault) => Err(RingFault::Make(fault)),
    }
}

impl Sizes {
    /// These, with so many senders and receivers.
    fn shape(self, senders: u64, receivers: u64) -> Shape
        ensures { result ≡ shape_of self senders receivers }
    {
        Shape {
            senders,
            receivers,
            rounds: self.rounds,
            rows: self.rows,
            log_words: self.log_words,
            batch: self.most_messages(),
        }
    }

    /// How many messages a batch may have: those that it says, or the most.
    fn most_messages(self) -> u64
        ensures { result ≡ batch_in self.ring self.batch }
    {
        if self.batch != 0 {
            return self.batch;
        }
        if self.ring {
            MOST_MESSAGES as u64
        } else {
            LOG_MESSAGES as u64
        }
    }
}

/// Ends the bus by the last handle that is left, as `ReceiverHandle::end`: OK, with the first words
/// of its log in `log`, as many as there is room for, and the rest in `left`; or the code of the
/// fault, and both as they were. The log of a ring has the words from the floor on.
pub fn end_bus(receiver: ReceiverHandle<ThreeWord>, log: &mut [u64], left: &mut Left) -> u32
    ensures { EndAnswered receiver log.old left.old result log.new left.new }
{
    match receiver.end() {
        Ok(ended) => {
            write_over(ended.log(), log);
            *left = Left::by(&ended);
            codes::OK
        }
        Err(BusNotEnded::InUse) => codes::IN_USE,
        Err(BusNotEnded::PageOut) => codes::PAGE_OUT,
    }
}

impl Left {
    /// What a bus left, beside the words of its log.
    fn by(ended: &Ended) -> Left
        ensures { IsLeftBy ended.now result }
    {
        let page = ended.page();
        let _log = ended.log();
        Left {
            counts: counts_of(ended),
            bases: bases_of(ended),
            next: page.next,
            words: page.words,
            tenures: page.tenures,
            ended: page.ended,
            gone: page.left,
            floor: ended.floor(),
        }
    }

    /// What a bus has left whose senders have sent nothing, from these numbers on.
    fn before(bases: [u64; MOST_SENDERS]) -> Left
        ensures { (result.next ≡ bases) × (result.bases ≡ bases) × (result.ended ≡ false) }
    {
        Left {
            counts: [0; MOST_SENDERS],
            bases,
            next: bases,
            words: 0,
            tenures: 0,
            ended: false,
            gone: [false; MOST_SENDERS],
            floor: 0,
        }
    }

    /// The page of the bus that left this.
    fn page(&self) -> Page
        ensures { result ≡ page_of self.now }
    {
        Page {
            next: self.next,
            left: self.gone,
            ended: self.ended,
            tenures: self.tenures,
            words: self.words,
            floor: 0,
        }
    }
}

/// What a bus has left before any of its senders sent: of this bus the numbers that its sitting
/// began with, and nothing else. UNANSWERED where, by this sender's count, it has another number of
/// senders, and nothing changes.
pub fn begin_page(sender: &SenderHandle<ThreeWord>, senders: u64, left: &mut Left) -> u32
    ensures { BeginsPage sender.now senders result left.old left.new }
{
    if sender.senders() != senders {
        return codes::UNANSWERED;
    }
    *left = Left::before(sender.bases());
    codes::OK
}

/// Notes the number with which a sender goes on that sends nothing more, in place of its first
/// one, and whether it has closed the order. Else, or where its number is another, UNANSWERED, and
/// nothing changes.
pub fn note_sender(sender: &SenderHandle<ThreeWord>, number: u64, left: &mut Left) -> u32
    ensures { NotesSender sender.now number result left.old left.new }
{
    if number >= MOST_SENDERS as u64 {
        return codes::UNANSWERED;
    }
    if u64::from(sender.number().0) != number || !sender.is_closed() {
        return codes::UNANSWERED;
    }
    left.next[number as usize] = sender.goes_on_from();
    left.ended = left.ended || sender.has_closed();
    codes::OK
}

/// How many items of each sender the whole order has.
fn counts_of(ended: &Ended) -> [u64; MOST_SENDERS]
    ensures { (sender : ℕ) → sender < MOST_SENDERS
        → CountsItems ended.now sender (slice_index result sender) }
{
    let mut counts = [0; MOST_SENDERS];
    for place in 0..MOST_SENDERS {
        counts[place] = ended.count(SenderNo(place as u8));
    }
    counts
}

/// The number of each sender's first item.
fn bases_of(ended: &Ended) -> [u64; MOST_SENDERS]
    ensures { (sender : ℕ) → sender < MOST_SENDERS
        → slice_index result sender ≡ slice_index ended.now.bases sender }
{
    let mut bases = [0; MOST_SENDERS];
    for place in 0..MOST_SENDERS {
        bases[place] = ended.base(SenderNo(place as u8));
    }
    bases
}

/// The code of why no bus was opened.
pub fn refused_code(fault: RingFault) -> u32
    ensures { result ≡ open_code fault }
{
    match fault {
        RingFault::Make(why) => make_code(why),
        RingFault::ShortLog => codes::SHORT_RING,
    }
}

/// The code of why no bus is made.
fn make_code(fault: MakeFault) -> u32
    ensures { result ≡ spec_make_code fault }
{
    match fault {
        MakeFault::Senders => codes::BAD_SENDERS,
        MakeFault::Receivers => codes::BAD_RECEIVERS,
        MakeFault::Rounds => codes::BAD_ROUNDS,
        MakeFault::Rows => codes::BAD_ROWS,
        MakeFault::LogWords => codes::BAD_LOG_WORDS,
        MakeFault::Batch => codes::BAD_BATCH,
        MakeFault::NotEnded => codes::NOT_ENDED,
        MakeFault::Numbers => codes::NUMBERS_USED,
        MakeFault::NoMemory => codes::NO_MEMORY,
    }
}
