//! Words for one thread.

ghost use Rattle.std.specs.Prelude.{◌≡◌, ℕ, ◌<◌, List, Some, codes, length, replicate};
ghost use Rattle.std.specs.Prelude.{slice_index, slice_set, IfOk, IsTrue, ◌↔◌, []};
ghost use Rattle.bus_register.specs.Words.{register, after, SumFits};

use super::registers::{Op, Reg};
use std::alloc::{AllocError, AllocFailed, Global};
use std::error::Error;
use std::fmt;
use std::marker::Model;

/// Memory was refused.
#[derive(Clone, Copy, Debug, PartialEq, Eq)]
pub struct NoMemory;

impl Error for NoMemory {}

impl fmt::Display for NoMemory {
    ghost output = { λ _. Some (codes "no memory") };

    fn fmt<W: fmt::Write>(&self, f: &mut fmt::Formatter<W>) -> fmt::Result {
        f.write_str("no memory")
    }
}

impl From<AllocError> for NoMemory {
    fn from(_error: AllocError) -> NoMemory {
        NoMemory
    }
}

impl<T: Drop> From<AllocFailed<T>> for NoMemory {
    fn from(_error: AllocFailed<T>) -> NoMemory {
        NoMemory
    }
}

/// Words, each of which is read and written by single steps.
#[derive(Drop)]
pub struct Cells {
    words: Vec<u64>,
}

impl Model for Cells {
    ghost Value = { List ℕ };

    ghost view = { λ cells. cells.words.items };
}

impl Cells {
    /// As many words of zero. Memory is its only refusal.
    pub fn new(alloc: Global, n: u64) -> Result<Cells, NoMemory>
        ensures { IfOk result (λ cells. cells ≡ replicate n 0) }
    {
        let words = vec![in alloc; 0u64; n as usize]?;
        Ok(Cells { words })
    }

    /// How many words there are.
    pub fn len(&self) -> u64
        ensures { result ≡ length self.now }
    {
        self.words.len() as u64
    }

    /// There is no word.
    pub fn is_empty(&self) -> bool
        ensures { IsTrue result ↔ (self.now ≡ []) }
    {
        self.words.is_empty()
    }

    /// All words, by the numbers of their registers, without a step.
    pub fn as_slice(&self) -> &[u64]
        ensures { result.now ≡ self.now }
    {
        &self.words
    }

    /// The word in a register, without a step.
    pub fn get(&self, register: Reg) -> u64
        requires { register.0 < length self.now }
        ensures { result ≡ slice_index self.now register.0 }
    {
        self.words[register.0 as usize]
    }

    /// Takes one step and gives what the word was before it.
    pub fn apply(&mut self, op: Op) -> u64
        requires in_range { register op < length self.old }
        requires sum_fits { SumFits op (slice_index self.old (register op)) }
        ensures found { result ≡ slice_index self.old (register op) }
        ensures words { self.new ≡ slice_set self.old (register op) (after op result) }
    {
        match op {
            Op::Load(at) => self.words[at.0 as usize],
            Op::Store(at, value) => {
                let found = self.words[at.0 as usize];
                self.words[at.0 as usize] = value;
                found
            }
            Op::Add(at, value) => {
                let found = self.words[at.0 as usize];
                self.words[at.0 as usize] = found + value;
                found
            }
            Op::Cas(at, expected, value) => {
                let found = self.words[at.0 as usize];
                if found == expected {
                    self.words[at.0 as usize] = value;
                }
                found
            }
        }
    }
}
