//! The grammar of scripts, spelled out.

ghost use Rattle.std.specs.Prelude.{◌≡◌, ℕ, ◌^◌, ◌<◌, ◌↔◌, List, Some};
ghost use Rattle.std.specs.Prelude.{decimal};
ghost use Rattle.bus_script.specs.Grammar.{lines_of, number_of};
ghost use Rattle.bus_script.specs.Spelled.{IsText};

/// A word is a number just where it is the decimal digits of one below 2^64.
pub fn numbers_are_decimal()
    ensures { (word : List ℕ) (n : ℕ) → (number_of word ≡ Some n)
        ↔ ((word ≡ decimal n) × (n < 2 ^ 64)) }
{}

/// The lines of a text are those that it spells, and no others.
pub fn texts_are_lines()
    ensures { (text : List ℕ) (lines : List (List ℕ)) → (lines_of text ≡ lines)
        ↔ IsText text lines }
{}
