//! Adopt-commit objects that machines make out of words.

ghost use Rattle.std.specs.Prelude.{◌≡◌, ℕ, ◌+◌, ◌*◌, ◌<◌, ◌≤◌, ◌^◌};
ghost use Rattle.std.specs.Prelude.{Bool, false, Some};
ghost use Rattle.bus_register.specs.declared.kinds.Kind.{Kind};
ghost use Rattle.bus_register.specs.declared.registers.Op.{Op};
ghost use Rattle.bus_register.specs.Protocol.{Protocol, Laws};
ghost use Rattle.bus_register.specs.declared.limits.TheConstants.{MOST_PROCESSES};
ghost use Rattle.bus_adoptcommit.specs.declared.verdicts.Verdict.{Verdict};
ghost use Rattle.bus_adoptcommit.specs.Agreement.{Legal};
ghost use Rattle.bus_adoptcommit.specs.Kinds.{IsOfRatifier, IsNamedFor, ComesAfter};

use super::verdicts::Verdict;
use bus_register::limits::MOST_PROCESSES;
use bus_register::{Machine, Reg, SenderNo};

/// One process of an adopt-commit object of at most 64 processes (Gafni 1998; a ratifier in Aspnes
/// 2010). The processes of one object share its words, which are zero before the first step.
pub trait Ratifier: Machine {
    /// What the words and the local states mean.
    ghost protocol: { Protocol Self Bool Verdict };

    /// How many words an object for `n` processes has.
    fn width(n: u64) -> u64
        requires { n ≤ MOST_PROCESSES }
        ensures { result ≡ protocol.width n };

    /// How many steps of its own a process takes at most until its verdict stands.
    fn steps(n: u64) -> u64
        requires { n ≤ MOST_PROCESSES }
        ensures { result ≡ protocol.steps n };

    /// Process `me` of `n` with its input, over the words from `at` on.
    fn start(n: u64, me: SenderNo, input: bool, at: Reg) -> Self
        requires me_below { me.0 < n }
        requires few { n ≤ MOST_PROCESSES }
        requires room { at.0 + protocol.width n ≤ 2 ^ 64 }
        ensures { result ≡ protocol.started n me.0 input at.0 };

    /// The verdict, once the process takes no further step.
    fn output(&self) -> Option<Verdict>
        ensures { result ≡ protocol.output self.now };

    /// What words and local states keep, that each start has it and each step keeps it, and that
    /// the outputs are valid, convergent and coherent.
    ghost laws: { Laws Self.op Self.fed protocol Legal };

    /// Its steps are of a ratifier's four kinds.
    ghost own_kinds: { (s : Self) (k : Kind) → Self.kind_of s ≡ Some k → IsOfRatifier k };

    /// A kind names what the step does: it stores exactly where its kind stores, it loads where its
    /// kind reads, and the first step of a process is the one that stores its proposal.
    ghost named_for: { (s : Self) (k : Kind) (word : ℕ) (o : Op) → Self.kind_of s ≡ Some k
        → Self.op s word ≡ Some o → IsNamedFor k o (protocol.has_begun s) };

    /// Its kinds come in their order: it reads proposals only right after its store or another such
    /// read, stores a verdict only right after such a read, and reads verdicts only after that. It
    /// may end before.
    ghost in_order: { (s : Self) (got word : ℕ) (k next : Kind) → Self.kind_of s ≡ Some k
        → Self.kind_of (Self.fed s got word) ≡ Some next → ComesAfter k next };

    /// It asks for no random word.
    ghost wordless: { (s : Self) → protocol.wants_word s ≡ false };

    /// So that the steps and the words of many objects can be counted.
    ghost quick: { (n : ℕ) → n ≤ MOST_PROCESSES → protocol.steps n ≤ 1024 };

    ghost narrow: { (n : ℕ) → n ≤ MOST_PROCESSES → protocol.width n ≤ 1024 };
}
