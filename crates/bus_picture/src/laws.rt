//! Laws of pictures: each function does nothing, and its contract is the law.

ghost use Rattle.std.specs.Prelude.{◌≡◌, ℕ, Some, List};
ghost use Rattle.bus_register.specs.declared.kinds.Kind.{Kind};
ghost use Rattle.bus_register.specs.Names.{kind_name};
ghost use Rattle.bus_picture.specs.Families.{family_of, family_at};
ghost use Rattle.bus_picture.specs.Pictures.{HasItsArrows, HasItsRows, picture};
ghost use Rattle.bus_picture.specs.AllLines.{HasAllLines};
ghost use Rattle.bus_picture.specs.Refusals.{ArrowsRefuse, unread_text};

/// Each kind of step has the family that `family_at` lists for it.
pub fn kinds_have_families()
    ensures { (k : Kind) → family_of (kind_name k) ≡ Some (family_at k) }
{}

/// A picture has each line of the trace that is read as a row, drawn in its place, and leaves none
/// out.
pub fn pictures_have_their_rows()
    ensures { (trace : List ℕ) → HasItsRows trace (picture trace) }
{}

/// A picture has an arrow to a load exactly where its word was last stored, added to or exchanged
/// by another process above it, and from just that step; and no other arrow.
pub fn pictures_have_their_arrows()
    ensures { (trace : List ℕ) → HasItsArrows trace (picture trace) }
{}

/// These are wrong arrows: from an older store, over a later one of the same process, within one
/// process, to a store or an exchange, from a load or an exchange that left what it found, from
/// another word, from below, and from another column. And it is wrong to leave one out.
pub fn arrows_refuse()
    ensures { ArrowsRefuse }
{}

/// Not all lines of a trace are read as rows where one is of a sender that no bus has.
pub fn lines_refuse()
    ensures { ¬ HasAllLines unread_text }
{}
