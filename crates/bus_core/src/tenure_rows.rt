//! Where the row of a tenure lies.

ghost use Rattle.std.specs.Prelude.{◌≡◌, ◌+◌, ◌-◌, ◌<◌, ◌≤◌, ◌^◌};
ghost use Rattle.bus_register.specs.Words.{register};
ghost use Rattle.bus_core.specs.Reusing.Turns.{on_place};

use bus_register::{Op, Reg};

/// Where the row of a tenure begins.
#[derive(Clone, Copy, Debug, PartialEq, Eq)]
pub struct Row {
    /// On a bus with a row for each tenure.
    pub apart: u64,
    /// On this bus.
    pub at: u64,
}

/// A step on a word of a row of a bus with a row for each tenure, on that word of this bus.
#[inline(always)]
pub(crate) fn on_row(op: Op, row: Row) -> Op
    requires above { row.apart ≤ register op }
    requires room { row.at + (register op - row.apart) < 2 ^ 64 }
    ensures { result ≡ on_place (λ at. row.at + (at - row.apart)) op }
{
    match op {
        Op::Load(at) => Op::Load(Reg(row.at + (at.0 - row.apart))),
        Op::Store(at, number) => Op::Store(Reg(row.at + (at.0 - row.apart)), number),
        Op::Add(at, number) => Op::Add(Reg(row.at + (at.0 - row.apart)), number),
        Op::Cas(at, old, new) => Op::Cas(Reg(row.at + (at.0 - row.apart)), old, new),
    }
}
