//! Laws of the log and of its two ends: each function does nothing, and its contract is the law.

ghost use Rattle.std.specs.Prelude.{◌≡◌, ◌≢◌, ℕ, ◌+◌, ◌<◌, List, []};
ghost use Rattle.std.specs.Prelude.{◌∷◌, ◌++◌, length, All, Some, None, false, true, slice_get};
ghost use Rattle.bus_register.specs.Words.{register, after};
ghost use Rattle.bus_register.specs.Tables.{Beside};
ghost use Rattle.bus_register.specs.declared.kinds.Kind.TheVariants as kind;
ghost use Rattle.bus_register.specs.declared.registers.Op.TheVariants as op;
ghost use Rattle.bus_batch.specs.Frames.{Frame, IsFrame, frame_words, Spells, SpellsOf, entries_of};
ghost use Rattle.bus_batch.specs.Frames.{tenure_and_owner, order_in, owners_in, has_gone, IsLog};
ghost use Rattle.bus_batch.specs.Frames.{Entry, Says, Leaves, items_in, ends};
ghost use Rattle.bus_register.specs.declared.registers.SenderNo.{SenderNo};
ghost use Rattle.bus_batch.specs.Reading.{Reading, HasRead};
ghost use Rattle.bus_batch.specs.declared.messages.Item.{Item};
ghost use Rattle.bus_deliverylog.specs.Orders.{IsPrefixOfOrder, merged, AreMarks};
ghost use Rattle.bus_deliverylog.specs.Logs.{IsFirstBadOf, IsTornOf};
ghost use Rattle.bus_deliverylog.specs.Writing.{Writing, writing_kind, writing_op, writing_fed};
ghost use Rattle.bus_deliverylog.specs.Receiving.{Receiving, HasReceived, TakesPassed, reading_of};
ghost use Rattle.bus_deliverylog.specs.Receiving.{passing_due, receiving_kind, receiving_op};
ghost use Rattle.bus_deliverylog.specs.declared.receiving.RecvTurn.{RecvTurn};
ghost use Rattle.bus_deliverylog.specs.Writing.{words_at, HasStored, IsApart};

/// What a writer has stored stands in the log: of none before the first step, of one word more
/// after each. When it stores the length, its whole frame stands in the log; so the words below the
/// new length spell the frame's entries after those that were spelt before.
pub fn writer_is_lawful()
    ensures starts { (table : ℕ → ℕ) (w : Writing) → w.stored ≡ 0 → HasStored table w }
    ensures steps { (table : ℕ → ℕ) (table' : ℕ → ℕ) (w : Writing) (o : _)
        → HasStored table w → IsApart w → writing_op w ≡ Some o
        → table' (register o) ≡ after o (table (register o))
        → Beside (register o) table table' → HasStored table' (writing_fed w) }
    ensures raises { (table : ℕ → ℕ) (w : Writing) → HasStored table w
        → writing_kind w ≡ Some kind.StoreLength
        → (writing_op w ≡ Some
        (op.Store (record { 0 = w.length_at }) (w.from + length w.frame)))
        × (words_at table (w.log_at + w.from) (length w.frame) ≡ w.frame) }
    ensures whole { (table : ℕ
        → ℕ) (w : Writing) (senders : ℕ) (order : _) (owners : _) (f : Frame)
        → HasStored table w → writing_kind w ≡ Some kind.StoreLength
        → w.frame ≡ frame_words f
        → Spells senders (words_at table w.log_at w.from) order owners → order.ended ≡ false
        → has_gone f.owner.0 order ≡ false → IsFrame senders f → All (λ p. p.0 < f.tenure) owners
        → Spells senders (words_at table w.log_at (w.from + length w.frame))
        (record {
          entries = order.entries ++ entries_of f;
          ended = ends f.body;
        }) (owners ++ tenure_and_owner f ∷ []) }
{}

/// What was read of a log's first words is a prefix of its order, and so are the tenures and
/// owners; once the end was read, nothing is left.
pub fn reads_a_prefix()
    ensures { (senders : ℕ) (words : List ℕ) (rest : List ℕ) (pieces : _) (reader : _)
        (order : _) (owners : _) → HasRead senders words pieces reader
        → Spells senders (words ++ rest) order owners → IsPrefixOfOrder (order_in pieces) order
        × ((later : _) × (owners ≡ owners_in pieces ++ later)) }
{}

/// What is no prefix of an order: what skips an item or a leave mark, what repeats an item, what
/// has ended before it, and what has a leave mark too early.
pub fn no_prefix_is()
    ensures skips { (a : Item) (b : Item) → a ≢ b
        → ¬ IsPrefixOfOrder (record {
          entries = Says b ∷ [];
          ended = false;
        }) (record { entries = Says a ∷ Says b ∷ []; ended = false }) }
    ensures repeats { (a : Item) (b : Item) → a ≢ b
        → ¬ IsPrefixOfOrder (record {
          entries = Says a ∷ Says a ∷ [];
          ended = false;
        }) (record { entries = Says a ∷ Says b ∷ []; ended = false }) }
    ensures ended { (a : Item)
        → ¬ IsPrefixOfOrder (record { entries = []; ended = true }) (record {
          entries = Says a ∷ [];
          ended = false;
        }) }
    ensures skips_a_leave { (s : SenderNo) (a : Item)
        → ¬ IsPrefixOfOrder (record {
          entries = Says a ∷ [];
          ended = false;
        }) (record { entries = Leaves s ∷ Says a ∷ []; ended = false }) }
    ensures leaves_early { (s : SenderNo) (a : Item)
        → ¬ IsPrefixOfOrder (record {
          entries = Leaves s ∷ [];
          ended = false;
        }) (record { entries = Says a ∷ Leaves s ∷ []; ended = false }) }
{}

/// Items and leave marks as one list: what is noted at the end of either joins it at its end, and
/// its items are the items. A mark stands there behind as many items as it says.
pub fn merged_is_one_list()
    ensures item_joins { (items : List Item) (marks : List (SenderNo × ℕ)) (i : Item)
        → AreMarks 0 (length items) marks
        → merged (items ++ i ∷ []) marks ≡ merged items marks ++ Says i ∷ [] }
    ensures mark_joins { (items : List Item) (marks : List (SenderNo × ℕ)) (s : SenderNo)
        → AreMarks 0 (length items) marks
        → merged items (marks ++ (s, length items) ∷ []) ≡ merged items marks ++ Leaves s ∷ [] }
    ensures items_are { (items : List Item) (marks : List (SenderNo × ℕ))
        → items_in (merged items marks) ≡ items }
    // Each mark stands behind as many items as it says.
    ensures marks_stand { (items : List Item) (marks : List (SenderNo × ℕ))
        (k : ℕ) (s : SenderNo) (place : ℕ) → AreMarks 0 (length items) marks
        → slice_get marks k ≡ Some (s, place)
        → (front : List Entry) × (rest : List Entry)
        × (merged items marks ≡ front ++ Leaves s ∷ rest) × (length (items_in front) ≡ place) }
{}

/// Words that are a log have no fault, and words that are none have one alone: however many
/// messages a frame may have.
pub fn readings_are_exact()
    ensures whole { (most senders : ℕ) (words : List ℕ) (order : _) (owners : _)
        → SpellsOf most senders words order owners → ¬ IsTornOf most senders words }
    ensures good { (most senders : ℕ) (words : List ℕ) (order : _) (owners : _) (place : ℕ)
        → SpellsOf most senders words order owners → ¬ IsFirstBadOf most senders words place }
    ensures torn { (most senders : ℕ) (words : List ℕ) (place : ℕ) → IsTornOf most senders words
        → ¬ IsFirstBadOf most senders words place }
    ensures first { (most senders : ℕ) (words : List ℕ) (place : ℕ) (other : ℕ)
        → IsFirstBadOf most senders words place → IsFirstBadOf most senders words other
        → place ≡ other }
{}

/// A receiver that has a passed place is to store its place there exactly where what it has read
/// is a whole log that has not ended, longer than what it stored last; and not a second time. Two
/// receivers that have read the same words, and differ in nothing but what they keep of them, take
/// the same next step.
pub fn passes_where_a_frame_ends()
    ensures ends { (v : Receiving) (words : List ℕ) (pieces : _) (at : ℕ)
        → HasReceived words pieces (reading_of v) → passing_due v ≡ Some at
        → IsLog v.frames.senders words × ((order_in pieces).ended ≡ false)
        × (v.place ≡ length words) × (v.passed < v.place) × (v.passed_at ≡ Some at) }
    ensures due { (v : Receiving) (words : List ℕ) (pieces : _) (at : ℕ)
        → HasReceived words pieces (reading_of v) → IsLog v.frames.senders words
        → (order_in pieces).ended ≡ false → v.passed < v.place → v.passed_at ≡ Some at
        → passing_due v ≡ Some at }
    ensures one { (v : Receiving) (frames : Reading) (words : List ℕ) (pieces : _) (pieces' : _)
        → HasReceived words pieces (reading_of v)
        → HasReceived words pieces' (reading_of (record v { frames = frames }))
        → frames.senders ≡ v.frames.senders
        → (receiving_kind (record v { frames = frames }) ≡ receiving_kind v)
        × (receiving_op (record v { frames = frames }) ≡ receiving_op v) }
    ensures once { (v : Receiving) (answer : RecvTurn) (new : Receiving)
        → TakesPassed v answer new → passing_due new ≡ None }
    ensures never { (v : Receiving) → v.passed_at ≡ None → passing_due v ≡ None }
{}
