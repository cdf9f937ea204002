//! Machines that take single steps on words.

ghost use Rattle.std.specs.Prelude.{◌≡◌, ℕ, Option, IsSome, is_some};
ghost use Rattle.bus_register.specs.declared.kinds.Kind.{Kind};
ghost use Rattle.bus_register.specs.declared.registers.Op.{Op};

use super::kinds::Kind;
use super::registers::Op;

/// A process that takes one step at a time. `next` tells the step, its caller takes it on the
/// words, and `feed` tells the machine what the word was before the step.
///
/// A machine may be fed a number that the word was not: it stays safe and ends as soon, and nothing
/// else is promised of it then.
pub trait Machine {
    /// What the next step is for; none where the machine has ended.
    ghost kind_of: { Self → Option Kind };

    /// The next step, from the local state and the random word that is handed in.
    ghost op: { Self → ℕ → Option Op };

    /// The local state after a step that found this number, with that random word.
    ghost fed: { Self → ℕ → ℕ → Self };

    /// What the next step is for; none where the machine has ended.
    fn kind(&self) -> Option<Kind>
        ensures { result ≡ kind_of self.now };

    /// The next step; none where the machine has ended. Takes nothing and changes nothing.
    fn next(&self, word: u32) -> Option<Op>
        ensures { result ≡ op self.now word };

    /// The step that `next` told for the same random word was taken, and found `got`.
    fn feed(&mut self, got: u64, word: u32)
        requires { IsSome (op self.old word) }
        ensures { self.new ≡ fed self.old got word };

    /// A kind is named exactly where there is a step, whatever the random word.
    ghost names_each_step: { (s : Self) (word : ℕ)
        → is_some (kind_of s) ≡ is_some (op s word) };
}
