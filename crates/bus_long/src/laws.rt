//! Laws of pieces: each function does nothing, and its contract is the law.

ghost use Rattle.std.specs.Prelude.{◌≡◌, ◌≢◌, ℕ, ◌≤◌, ◌<◌, List, [], ◌∷◌, ◌++◌, All, length, drop};
ghost use Rattle.std.specs.Prelude.{flat_map, Some};
ghost use Rattle.bus_batch.specs.declared.messages.Item.{Item};
ghost use Rattle.bus_long.specs.declared.pieces.TheConstants.{MOST_LONG_BYTES, PIECE_BYTES};
ghost use Rattle.bus_long.specs.Pieces.{Begun, pieces, nothing, begun, begun_by, joined, whole_by};
ghost use Rattle.bus_long.specs.Joined.{sent_by, longs, longs_behind, whole_behind};

/// Whoever reads the pieces of long messages of one sender in their order has just these messages,
/// whole and in their order; of the first pieces, the first messages. A message is whole with its
/// last piece. Where no piece is to come, bytes that a joiner has make no difference.
pub fn pieces_are_joined()
    ensures all { (messages : List (List ℕ)) → All (λ m. length m ≤ MOST_LONG_BYTES) messages
        → (joined nothing (flat_map pieces messages) ≡ messages)
        × (begun nothing (flat_map pieces messages) ≡ nothing) }
    ensures first { (messages read more : List (List ℕ))
        → All (λ m. length m ≤ MOST_LONG_BYTES) messages
        → read ++ more ≡ flat_map pieces messages
        → (rest : List (List ℕ)) × (joined nothing read ++ rest ≡ messages) }
    ensures last { (messages before : List (List ℕ)) (message last : List ℕ)
        → All (λ m. length m ≤ MOST_LONG_BYTES) messages → length message ≤ MOST_LONG_BYTES
        → pieces message ≡ before ++ last ∷ []
        → whole_by (begun nothing (flat_map pieces messages ++ before)) last ≡ Some message }
    ensures idle { (b : Begun) (message : List ℕ) → b.left ≡ 0
        → (whole_by b message ≡ whole_by nothing message)
        × (begun_by b message ≡ begun_by nothing message) }
{}

/// The long messages of items: an item adds the one that is whole with it, and changes none before.
/// Of each sender they are those that its messages come to. So where a sender's messages are the
/// first pieces of long ones, its long messages are the first of these.
pub fn long_messages_are_whole()
    ensures one { (items : List Item) (item : Item)
        → longs (items ++ item ∷ []) ≡ longs items ++ whole_behind items item }
    ensures grow { (items more : List Item)
        → longs (items ++ more) ≡ longs items ++ longs_behind items more }
    ensures joined { (sender : ℕ) (items : List Item)
        → sent_by sender (longs items) ≡ joined nothing (sent_by sender items) }
    ensures whole { (sender : ℕ) (items : List Item) (messages more : List (List ℕ))
        → All (λ m. length m ≤ MOST_LONG_BYTES) messages
        → sent_by sender items ++ more ≡ flat_map pieces messages
        → (rest : List (List ℕ)) × (sent_by sender (longs items) ++ rest ≡ messages) }
{}

/// What joining does not do: a message of more than one piece does not come of its pieces without
/// the first, nor without the last, and its pieces are not one message each.
pub fn pieces_refuse()
    ensures first { (message : List ℕ) → PIECE_BYTES < length message
        → length message ≤ MOST_LONG_BYTES
        → joined nothing (drop 1 (pieces message)) ≢ message ∷ [] }
    ensures last { (message : List ℕ) (before : List (List ℕ)) (last : List ℕ)
        → PIECE_BYTES < length message → length message ≤ MOST_LONG_BYTES
        → pieces message ≡ before ++ last ∷ [] → joined nothing before ≡ [] }
{}
