//! Laws of journals: each function does nothing, and its contract is the law.

ghost use Rattle.std.specs.Prelude.{◌≡◌, ◌≢◌, ℕ, ◌+◌, ◌≤◌, ◌<◌, List, [], ◌∷◌, ◌++◌, All};
ghost use Rattle.std.specs.Prelude.{length, take, map, slice_index};
ghost use Rattle.bus_batch.specs.Frames.{Frame, AreFrames, IsFrame, frame_words, order_of};
ghost use Rattle.bus_batch.specs.Frames.{tenure_and_owner, log_words};
ghost use Rattle.bus_register.specs.declared.limits.TheConstants.{MOST_MESSAGES};
ghost use Rattle.bus_deliverylog.specs.Orders.{IsPrefixOfOrder};
ghost use Rattle.bus_journal.specs.Format.{Heading, IsHeading, journal_bytes, header_bytes};
ghost use Rattle.bus_journal.specs.Format.{word_bytes, words_bytes, record_bytes, records_bytes};
ghost use Rattle.bus_journal.specs.Format.{checksum};
ghost use Rattle.bus_journal.specs.Reading.{AreFew, Answer, Reads, IsRefused};
ghost use Rattle.bus_journal.specs.Cuts.{IsMostWithin};
ghost use Rattle.bus_journal.specs.declared.ends.JournalEnd.TheVariants as end;
ghost use Rattle.bus_journal.specs.declared.headers.JournalFault.{JournalFault};
ghost use Rattle.bus_journal.specs.declared.headers.JournalFault.TheVariants as fault;

/// What is written is a journal's bytes: the header's are those of none, and each record joins them
/// at their end. Where a header allows as many messages as a frame has at most, it allows each.
pub fn journals_grow()
    ensures none { (h : Heading) → journal_bytes h [] ≡ header_bytes h }
    ensures more { (h : Heading) (frames : List Frame) (f : Frame)
        → journal_bytes h (frames ++ f ∷ []) ≡ journal_bytes h frames
        ++ record_bytes (h.place + length (log_words frames)) (frame_words f) }
    ensures several { (h : Heading) (frames : List Frame) (others : List Frame)
        → journal_bytes h (frames ++ others) ≡ journal_bytes h frames
        ++ records_bytes (h.place + length (log_words frames)) (map frame_words others) }
    ensures few { (senders most : ℕ) (frames : List Frame) → AreFrames senders frames
        → MOST_MESSAGES ≤ most → AreFew most frames }
{}

/// Of bytes that were written as a journal, and any bytes behind them, each answer that
/// `read_journal` may give has the header, and all frames that were written come first in it. They
/// are never refused but for memory. Where nothing stands behind them just these frames are told,
/// and the journal is whole.
pub fn written_journals_are_read()
    ensures told { (h : Heading) (frames : List Frame) (behind : List ℕ) (bytes : List ℕ)
        (told : List Frame) (a : Answer) → IsHeading h → AreFrames h.senders frames
        → AreFew h.most frames → bytes ≡ journal_bytes h frames ++ behind → Reads bytes told a
        → (a.heading ≡ h) × IsPrefixOfOrder (order_of frames) a.order
        × ((later : List Frame) × (told ≡ frames ++ later)
        × (a.order ≡ order_of (frames ++ later))
        × (a.owners ≡ map tenure_and_owner (frames ++ later))
        × (a.words ≡ log_words (frames ++ later))) }
    ensures whole { (h : Heading) (frames : List Frame) → IsHeading h → AreFrames h.senders frames
        → AreFew h.most frames → (a : Answer) × Reads (journal_bytes h frames) frames a
        × (a.heading ≡ h) × (a.end ≡ end.Whole) × (a.whole ≡ length (journal_bytes h frames)) }
    ensures never { (h : Heading) (frames : List Frame) (behind : List ℕ) (bytes : List ℕ)
        (f : JournalFault) → IsHeading h → bytes ≡ journal_bytes h frames ++ behind
        → IsRefused bytes f → f ≡ fault.NoMemory }
{}

/// Of the first bytes of a journal, the header among them, with any number of zeros behind, the
/// answer tells just the frames whose records lie within these bytes, and the file is not damaged.
/// Of fewer bytes than the header has, the header is torn.
pub fn cut_journals_are_torn()
    ensures header { (h : Heading) (frames : List Frame) (k : ℕ) (bytes : List ℕ) → IsHeading h
        → k < length (header_bytes h) → bytes ≡ take k (journal_bytes h frames)
        → IsRefused bytes fault.TornHeader }
    ensures told { (h : Heading) (frames : List Frame) (k : ℕ) (zeros : List ℕ)
        (bytes : List ℕ) (told : List Frame) (a : Answer) → IsHeading h
        → AreFrames h.senders frames → AreFew h.most frames → length (header_bytes h) ≤ k
        → All (λ byte. byte ≡ 0) zeros → bytes ≡ take k (journal_bytes h frames) ++ zeros
        → Reads bytes told a → (a.heading ≡ h) × IsMostWithin k h told frames }
    ensures ends { (h : Heading) (frames : List Frame) (k : ℕ) (zeros : List ℕ)
        (bytes : List ℕ) (told : List Frame) (a : Answer) → IsHeading h
        → AreFrames h.senders frames → AreFew h.most frames → length (header_bytes h) ≤ k
        → All (λ byte. byte ≡ 0) zeros → bytes ≡ take k (journal_bytes h frames) ++ zeros
        → Reads bytes told a → a.end ≢ end.Damaged }
{}

/// Where the tail behind the whole records is cut off, just what is written of their frames is
/// left. So each answer has the same frames and the same header, and the journal is whole.
pub fn mended_journals_are_whole()
    ensures left { (bytes : List ℕ) (frames : List Frame) (a : Answer) → Reads bytes frames a
        → take a.whole bytes ≡ journal_bytes a.heading frames }
    ensures whole { (bytes : List ℕ) (frames : List Frame) (told : List Frame) (a : Answer)
        (b : Answer) → Reads bytes frames a → Reads (take a.whole bytes) told b
        → (told ≡ frames) × (b.heading ≡ a.heading) × (b.end ≡ end.Whole)
        × (b.whole ≡ a.whole) }
{}

/// What `read_journal` may answer is one: the bytes fix the answer, or else the fault, unless
/// memory is refused.
pub fn journals_are_one()
    ensures answers { (bytes : List ℕ) (told : List Frame) (told' : List Frame) (a : Answer)
        (b : Answer) → Reads bytes told a → Reads bytes told' b → (told ≡ told') × (a ≡ b) }
    ensures faults { (bytes : List ℕ) (f : JournalFault) (g : JournalFault) → IsRefused bytes f
        → IsRefused bytes g → f ≢ fault.NoMemory → g ≢ fault.NoMemory → f ≡ g }
    ensures apart { (bytes : List ℕ) (told : List Frame) (a : Answer) (f : JournalFault)
        → Reads bytes told a → IsRefused bytes f → f ≡ fault.NoMemory }
{}

/// What `read_journal` may not answer: frames behind a record whose checksum fails, that a journal
/// is torn which ends with such a record and no zero, that one is whole which has one byte more,
/// and all frames of a journal but its last.
pub fn journals_refuse()
    ensures skips { (h : Heading) (frames : List Frame) (f : Frame) (sum : List ℕ)
        (behind : List ℕ) (bytes : List ℕ) (told : List Frame) (a : Answer) → IsHeading h
        → AreFrames h.senders frames → AreFew h.most frames → IsFrame h.senders f
        → length sum ≡ 8 → sum ≢ checksum
        (word_bytes (h.place + length (log_words frames)) ++ words_bytes (frame_words f))
        → bytes ≡ journal_bytes h frames ++ (words_bytes (frame_words f) ++ (sum ++ behind))
        → Reads bytes told a → told ≡ frames }
    // A last record that is there in all its bytes, of which the last is no zero.
    ensures damaged { (h : Heading) (frames : List Frame) (f : Frame) (sum : List ℕ)
        (bytes : List ℕ) (told : List Frame) (a : Answer) → IsHeading h
        → AreFrames h.senders frames → AreFew h.most frames → IsFrame h.senders f
        → length sum ≡ 8 → slice_index sum 7 ≢ 0 → sum ≢ checksum
        (word_bytes (h.place + length (log_words frames)) ++ words_bytes (frame_words f))
        → bytes ≡ journal_bytes h frames ++ (words_bytes (frame_words f) ++ sum)
        → Reads bytes told a → a.end ≡ end.Damaged }
    ensures torn { (h : Heading) (frames : List Frame) (byte : ℕ) (bytes : List ℕ)
        (told : List Frame) (a : Answer) → IsHeading h → AreFrames h.senders frames
        → AreFew h.most frames → bytes ≡ journal_bytes h frames ++ byte ∷ []
        → Reads bytes told a → a.end ≡ end.Torn }
    ensures early { (h : Heading) (frames : List Frame) (f : Frame) (bytes : List ℕ) (a : Answer)
        → IsHeading h → AreFrames h.senders (frames ++ f ∷ []) → AreFew h.most (frames ++ f ∷ [])
        → bytes ≡ journal_bytes h (frames ++ f ∷ []) → ¬ Reads bytes frames a }
{}
