//! Laws of the definitions alone: each function does nothing, and its contract is the law.

ghost use Rattle.std.specs.Prelude.{◌≡◌, ◌≢◌, ℕ, ◌+◌, ◌-◌, ◌*◌, ◌%◌, ◌^◌, ◌<◌, ◌≤◌};
ghost use Rattle.std.specs.Prelude.{List, [], ◌∷◌};
ghost use Rattle.std.specs.Prelude.{◌++◌, All, flat_map, length, map, false, true, ◌↔◌};
ghost use Rattle.bus_batch.specs.declared.messages.Mark.{Mark};
ghost use Rattle.bus_batch.specs.declared.messages.Mark.TheVariants as mark;
ghost use Rattle.bus_batch.specs.Frames.{Frame, Messages, Marked, IsFrame, AreFrames, frame_words};
ghost use Rattle.bus_batch.specs.Frames.{mark_word, entries_of, has_gone, items_in, IsBadWord};
ghost use Rattle.bus_batch.specs.Frames.{Says, leaves, order_in, frame_pieces};
ghost use Rattle.bus_batch.specs.Reading.{Reading, HasRead, Awaits, is_between};
ghost use Rattle.bus_batch.specs.declared.readers.Place.TheVariants as place;
ghost use Rattle.bus_register.specs.declared.registers.SenderNo.{SenderNo};
ghost use Rattle.bus_batch.specs.Frames.{IsLog, head_word, message_word};
ghost use Rattle.bus_batch.specs.Frames.{Spells, order_of, items_of, ends, tenure_and_owner};
ghost use Rattle.bus_batch.specs.Frames.{AreFramesOf, SpellsOf, IsLogOf};
ghost use Rattle.bus_register.specs.declared.limits.TheConstants.{TENURES, NUMBERS};
ghost use Rattle.bus_register.specs.declared.limits.TheConstants.{MOST_BODY_WORDS};
ghost use Rattle.bus_register.specs.declared.limits.TheConstants.{MOST_MESSAGE_WORDS};
ghost use Rattle.bus_register.specs.declared.limits.TheConstants.{MOST_MESSAGES};
ghost use Rattle.bus_batch.specs.Batches.{Pending, CanPut, IsPutFault, CanClose, IsCloseFault};
ghost use Rattle.bus_batch.specs.declared.batches.PutFault.{PutFault};
ghost use Rattle.bus_batch.specs.declared.batches.CloseFault.{CloseFault};

/// No words spell two logs: one order at most, and one list of tenures and owners.
pub fn spells_one()
    ensures { (senders : ℕ) (words : _) (order : _) (order' : _) (owners : _) (owners' : _)
        → Spells senders words order owners → Spells senders words order' owners'
        → (order ≡ order') × (owners ≡ owners') }
{}

/// No frame's words begin another frame's.
pub fn no_frame_begins_another()
    ensures { (senders : ℕ) (f : Frame) (g : Frame) (rest : List ℕ) → IsFrame senders f
        → IsFrame senders g → frame_words g ≡ frame_words f ++ rest → (f ≡ g)
        × (rest ≡ []) }
{}

/// One frame's words alone are a log of its items.
pub fn frame_spells()
    ensures { (senders : ℕ) (f : Frame) → IsFrame senders f
        → Spells senders (frame_words f) (order_of (f ∷ [])) (tenure_and_owner f ∷ []) }
{}

/// No words spell the empty order. Words of an order that has not ended, followed by a frame of a
/// tenure above those before it, whose owner has not left, spell that order with the frame's
/// entries and its end mark.
pub fn spells_grow()
    ensures none { (senders : ℕ)
        → Spells senders [] (record { entries = []; ended = false }) [] }
    ensures more { (senders : ℕ) (words : _) (order : _) (owners : _) (f : Frame)
        → Spells senders words order owners → order.ended ≡ false
        → has_gone f.owner.0 order ≡ false → IsFrame senders f
        → All (λ p. p.0 < f.tenure) owners
        → Spells senders (words ++ frame_words f) (record {
          entries = order.entries ++ entries_of f;
          ended = ends f.body;
        }) (owners ++ tenure_and_owner f ∷ []) }
{}

/// Frames of so many messages at most are frames of more, words that spell an order with them spell
/// it with more, of the same tenures and owners, and a log of them is one of more. Not the other
/// way round: a frame of two messages is one of at most two, its words spell and are a log of such
/// frames, and none of frames of one message. But frames of which none has more messages than some
/// limit are of that limit, whatever their own was, and their words spell the same of it.
pub fn fewer_are_frames_too()
    ensures frames { (few more senders : ℕ) (frames : List Frame) → few ≤ more
        → AreFramesOf few senders frames → AreFramesOf more senders frames }
    ensures spells { (few more senders : ℕ) (words : _) (order : _) (owners : _) → few ≤ more
        → SpellsOf few senders words order owners → SpellsOf more senders words order owners }
    ensures log { (few more senders : ℕ) (words : List ℕ) → few ≤ more
        → IsLogOf few senders words → IsLogOf more senders words }
    ensures exact { (most few senders : ℕ) (frames : List Frame)
        → AreFramesOf most senders frames → All (λ f. length (items_of f) ≤ few) frames
        → AreFramesOf few senders frames }
    ensures exact_spell { (most few senders : ℕ) (words : _) (order : _) (owners : _)
        (s : SpellsOf most senders words order owners)
        → All (λ f. length (items_of f) ≤ few) s.frames
        → SpellsOf few senders words order owners }
    ensures more_frames { (frames : List Frame) × AreFramesOf 2 1 frames
        × (¬ AreFramesOf 1 1 frames) }
    ensures more_spell { (words : List ℕ) × (order : _) × (owners : _)
        × SpellsOf 2 1 words order owners × (¬ SpellsOf 1 1 words order owners) }
    ensures more_log { (words : List ℕ) × IsLogOf 2 1 words × (¬ IsLogOf 1 1 words) }
{}

/// The items of an order are those of its frames, in their order.
pub fn entries_are_items()
    ensures { (frames : List Frame)
        → items_in (order_of frames).entries ≡ flat_map items_of frames }
{}

/// Where no frame is a leave mark, the entries of an order are the items of its frames and nothing
/// else: a log of senders of which none leaves says what it said before they could.
pub fn nobody_leaves()
    ensures { (frames : List Frame) → All (λ f. leaves f.body ≡ false) frames
        → (order_of frames).entries ≡ map Says (flat_map items_of frames) }
{}

/// What no log has, whatever it begins with: a frame after an end mark, a frame of an owner that
/// left in an earlier one, a tenure that does not rise, an owner that is no sender, a frame of
/// nothing. And what no log begins with: a head of one that has left, so that nobody leaves twice,
/// a head with more words than any frame has, or with more than its messages can fill, another word
/// with the tag of a mark, a mark that is not alone, and a message with other bytes behind its own.
pub fn no_log_has()
    ensures after_end { (senders : ℕ) (before : List Frame) (f : Frame) (g : Frame)
        (rest : List Frame) → f.body ≡ Marked mark.End
        → ¬ AreFrames senders (before ++ f ∷ g ∷ rest) }
    ensures after_leaving { (senders : ℕ) (before : List Frame) (f : Frame)
        (between : List Frame) (g : Frame) (rest : List Frame) → f.body ≡ Marked mark.Leave
        → g.owner ≡ f.owner → ¬ AreFrames senders (before ++ f ∷ (between ++ g ∷ rest)) }
    ensures head_after_leaving { (senders owner tenure count later : ℕ) → owner < 2 ^ 8
        → tenure < TENURES → count < 2 ^ 14 → later < TENURES
        → IsBadWord senders (head_word owner 1 tenure ∷ mark_word mark.Leave ∷ [])
        (head_word owner count later) }
    ensures same_tenure { (senders : ℕ) (before : List Frame) (f : Frame) (g : Frame)
        (rest : List Frame) → g.tenure ≤ f.tenure
        → ¬ AreFrames senders (before ++ f ∷ g ∷ rest) }
    ensures stranger { (senders : ℕ) (before : List Frame) (f : Frame) (rest : List Frame)
        → senders ≤ f.owner.0 → ¬ AreFrames senders (before ++ f ∷ rest) }
    ensures nothing { (senders : ℕ) (before : List Frame) (f : Frame) (rest : List Frame)
        → f.body ≡ Messages [] → ¬ AreFrames senders (before ++ f ∷ rest) }
    ensures long { (senders owner count tenure : ℕ) (rest : List ℕ) → owner < 2 ^ 8
        → count < 2 ^ 14 → tenure < TENURES → MOST_BODY_WORDS < count
        → ¬ IsLog senders (head_word owner count tenure ∷ rest) }
    // Behind a head stand messages and the two marks alone, and a mark is the one word of its
    // frame.
    ensures other_mark { (senders owner count tenure word : ℕ) → mark_word mark.Leave < word
        → IsBadWord senders (head_word owner count tenure ∷ []) word }
    ensures mark_with_more { (senders owner count tenure : ℕ) (m : Mark) → owner < 2 ^ 8
        → count < 2 ^ 14 → tenure < TENURES → count ≢ 1
        → IsBadWord senders (head_word owner count tenure ∷ []) (mark_word m) }
    // The first message has one word, and the others have too few.
    ensures unfillable { (senders owner count tenure number : ℕ) (rest : List ℕ) → owner < 2 ^ 8
        → count < 2 ^ 14 → tenure < TENURES → number < NUMBERS
        → 1 + MOST_MESSAGE_WORDS * (MOST_MESSAGES - 1) < count
        → ¬ IsLog senders (head_word owner count tenure ∷ message_word 0 number ∷ rest) }
    ensures padding { (senders owner count tenure len number word : ℕ) (rest : List ℕ)
        → 0 < len → len < 8 → number < NUMBERS → word % 256 ≢ 0
        → ¬ IsLog senders (head_word owner count tenure ∷ message_word len number ∷ word ∷ rest) }
{}

/// Where a reader stands says what it has read. It stands between frames exactly where its words
/// are a log that has not ended, and at the end exactly where they have given it. Two readers that
/// have read the same words were given the same pieces, stand alike, and await the same.
pub fn stands_where_its_words_end()
    ensures between { (senders : ℕ) (words : _) (pieces : _) (r : Reading)
        → HasRead senders words pieces r
        → ((is_between r.place ≡ true)
        ↔ (IsLog senders words × ((order_in pieces).ended ≡ false))) }
    ensures ended { (senders : ℕ) (words : _) (pieces : _) (r : Reading)
        → HasRead senders words pieces r
        → ((r.place ≡ place.Ended) ↔ ((order_in pieces).ended ≡ true)) }
    ensures one { (senders : ℕ) (words : _) (pieces : _) (pieces' : _) (r : Reading)
        (r' : Reading) → HasRead senders words pieces r → HasRead senders words pieces' r'
        → (pieces ≡ pieces') × (is_between r.place ≡ is_between r'.place)
        × ((r.place ≡ place.Ended) ↔ (r'.place ≡ place.Ended)) }
    ensures awaits { (senders : ℕ) (words : _) (pieces : _) (pieces' : _) (r : Reading)
        (r' : Reading) (rest : List ℕ) (further : _) → HasRead senders words pieces r
        → HasRead senders words pieces' r' → Awaits r rest further → Awaits r' rest further }
    // Behind one whole frame there is one place alone.
    ensures frame { (senders : ℕ) (f : Frame) (r : Reading) → IsFrame senders f
        → HasRead senders (frame_words f) (frame_pieces f) r
        → (ends f.body ≡ false → r.place ≡ place.Between)
        × (ends f.body ≡ true → r.place ≡ place.Ended) }
{}

/// Where no reader stands, whatever it has read: in a frame of which nothing is left, at an end
/// that was not read, and between frames where it was.
pub fn standing_refuses()
    ensures nothing_left { (senders : ℕ) (words : _) (pieces : _) (r : Reading)
        (owner : SenderNo) (room : ℕ) → r.place ≡ place.Body owner 0 room
        → ¬ HasRead senders words pieces r }
    ensures no_end { (senders : ℕ) (words : _) (pieces : _) (r : Reading)
        → r.place ≡ place.Ended → (order_in pieces).ended ≡ false
        → ¬ HasRead senders words pieces r }
    ensures past_end { (senders : ℕ) (words : _) (pieces : _) (r : Reading)
        → r.place ≡ place.Between → (order_in pieces).ended ≡ true
        → ¬ HasRead senders words pieces r }
{}

/// A message that is taken has no fault, and one that is refused has one alone; a close or a leave
/// likewise.
pub fn faults_are_exact()
    ensures taken { (b : Pending) (len : ℕ) (fault : PutFault) → CanPut b len
        → ¬ IsPutFault b len fault }
    ensures refused { (b : Pending) (len : ℕ) (fault : PutFault) (other : PutFault)
        → IsPutFault b len fault → IsPutFault b len other → fault ≡ other }
    ensures closed { (b : Pending) (fault : CloseFault) → CanClose b → ¬ IsCloseFault b fault }
    ensures kept { (b : Pending) (fault : CloseFault) (other : CloseFault) → IsCloseFault b fault
        → IsCloseFault b other → fault ≡ other }
{}
